use nf_exchange::{export, import};
use nf_io::{MemLibrary, MemSink, MemSource};
use nf_top::Status;
use std::test::Fail;

const TEXT: &str = "p min 2 1\nn 1 5\nn 2 -5\na 1 2 0 10 2\n";

const UNBALANCED: &str = "p min 2 1\nn 1 5\nn 2 -4\na 1 2 0 10 2\n";

const ARCS: &str = "_FROM_,_TO_,_NAME_,_COST_,_CAPAC_,_LO_\n1,2,x1,2,10,0\n";

const NODES: &str = "_NODE_,_SUPDEM_\n1,5\n2,-5\n";

const PROGRAM: &str = "proc netflow arcdata=arcs nodedata=nodes;";

const WITH_CONS: &str = "proc netflow arcdata=arcs nodedata=nodes condata=cons;";

const SUPPLIES: &str = "_NODE_,_SUPDEM_\na,5\nb,-5\n";

const NO_CONS: &str = "_ROW_,_TYPE_,_RHS_,a_b\n";

/// The numbers of the calls that are to fail; 0 for none.
#[derive(Clone, Copy)]
struct Failing {
    take: u64,
    put: u64,
    fetch: u64,
    store: u64,
}

const NONE: Failing = Failing {
    take: 0,
    put: 0,
    fetch: 0,
    store: 0,
};

/// What a call gave out: its status, its listing, and what the library then holds under `arcs` and `nodes`.
#[derive(Drop)]
struct Outcome {
    status: Status,
    listing: Vec<u8>,
    arcs: Option<Vec<u8>>,
    nodes: Option<Vec<u8>>,
}

// What the library holds under a name.
fn held(rt: &HostRuntime, library: &MemLibrary, name: &str) -> Result<Option<Vec<u8>>, Fail> {
    match library.get(name) {
        Some(bytes) => Ok(Some(Vec::from_slice(rt.alloc(), bytes)?)),
        None => Ok(None),
    }
}

// The outcome of `import` of a text, over an empty library.
fn imported(rt: &HostRuntime, text: &str, failing: Failing) -> Result<Outcome, Fail> {
    let alloc = rt.alloc();
    let mut source = MemSource::new(alloc, text.as_bytes(), &[failing.take])?;
    let mut library = MemLibrary::new(alloc, &[failing.fetch], &[failing.store])?;
    let mut listing = MemSink::new(alloc, &[failing.put])?;
    let status = import(alloc, &mut source, &mut library, &mut listing);
    Ok(Outcome {
        status,
        listing: Vec::from_slice(alloc, listing.bytes())?,
        arcs: held(rt, &library, "arcs")?,
        nodes: held(rt, &library, "nodes")?,
    })
}

// The status and the listing of `export` of a program, over these arcs and nodes and this CONDATA.
fn exported(
    rt: &HostRuntime,
    program: &str,
    sets: [&str; 3],
    failing: Failing,
) -> Result<(Status, Vec<u8>), Fail> {
    let alloc = rt.alloc();
    let mut source = MemSource::new(alloc, program.as_bytes(), &[failing.take])?;
    let mut library = MemLibrary::new(alloc, &[failing.fetch], &[failing.store])?;
    library.give("arcs", sets[0].as_bytes())?;
    library.give("nodes", sets[1].as_bytes())?;
    library.give("cons", sets[2].as_bytes())?;
    let mut listing = MemSink::new(alloc, &[failing.put])?;
    let status = export(alloc, &mut source, &mut library, &mut listing);
    Ok((status, Vec::from_slice(alloc, listing.bytes())?))
}

// Whether a set is this text.
fn is_text(set: &Option<Vec<u8>>, text: &str) -> bool {
    match set {
        Some(bytes) => bytes.as_slice() == text.as_bytes(),
        None => false,
    }
}

#[test]
fn a_text_is_imported_as_its_tables(rt: HostRuntime) -> Result<(), Fail> {
    let outcome = imported(&rt, TEXT, NONE)?;
    assert_eq!(rt; outcome.status, Status::Finished);
    assert_eq!(rt;
        outcome.listing.as_slice(),
        b"IMPORTED NODES 2 ARCS 1\n".as_slice()
    );
    assert!(rt; is_text(&outcome.arcs, ARCS));
    assert!(rt; is_text(&outcome.nodes, NODES));
    Ok(())
}

#[test]
fn a_text_with_a_fault_is_refused(rt: HostRuntime) -> Result<(), Fail> {
    let cases = [
        (UNBALANCED, "DIMACS REFUSED LINE 5: Unbalanced\n"),
        ("", "DIMACS REFUSED LINE 1: NoProblem\n"),
        ("p min 1 0\r\n\nn 2 0", "DIMACS REFUSED LINE 3: Node\n"),
        (
            "p min 2 1\na 1 2 0 -1 0\n",
            "DIMACS REFUSED LINE 2: Negative\n",
        ),
    ];
    for (text, line) in cases {
        let outcome = imported(&rt, text, NONE)?;
        assert_eq!(rt; outcome.status, Status::DataRefused);
        assert_eq!(rt; outcome.listing.as_slice(), line.as_bytes());
        assert!(rt; outcome.arcs.is_none() && outcome.nodes.is_none());
    }
    Ok(())
}

#[test]
fn import_ends_at_the_first_call_that_fails(rt: HostRuntime) -> Result<(), Fail> {
    let take = imported(&rt, TEXT, Failing { take: 1, ..NONE })?;
    assert_eq!(rt; take.status, Status::ReadFault);
    assert_eq!(rt; take.listing.as_slice(), b"READ FAULT\n".as_slice());
    let first = imported(&rt, TEXT, Failing { store: 1, ..NONE })?;
    assert_eq!(rt; first.status, Status::WriteFault);
    assert!(rt; first.listing.is_empty() && first.nodes.is_none());
    let second = imported(&rt, TEXT, Failing { store: 2, ..NONE })?;
    assert_eq!(rt; second.status, Status::WriteFault);
    assert!(rt; second.listing.is_empty() && is_text(&second.arcs, ARCS));
    let put = imported(&rt, TEXT, Failing { put: 1, ..NONE })?;
    assert_eq!(rt; put.status, Status::WriteFault);
    assert!(rt; put.listing.is_empty() && is_text(&put.nodes, NODES));
    Ok(())
}

#[test]
fn a_problem_is_exported_as_its_text(rt: HostRuntime) -> Result<(), Fail> {
    let (status, listing) = exported(&rt, PROGRAM, [ARCS, NODES, ""], NONE)?;
    assert_eq!(rt; status, Status::Finished);
    assert_eq!(rt; listing.as_slice(), TEXT.as_bytes());
    Ok(())
}

#[test]
fn a_problem_without_a_text_is_refused(rt: HostRuntime) -> Result<(), Fail> {
    let whole = "_FROM_,_TO_,_COST_,_CAPAC_\na,b,2,10\n";
    let halves = "_NODE_,_SUPDEM_\na,0.5\nb,-0.5\n";
    let surplus = "_NODE_,_SUPDEM_\na,7\nb,-5\n";
    let cons = "_ROW_,_TYPE_,_RHS_,a_b\nr,LE,1,1\n";
    let cases = [
        ([whole, SUPPLIES, cons], "EXPORT REFUSED: Constraints\n"),
        ([whole, halves, NO_CONS], "EXPORT REFUSED ROW 1: Number\n"),
        (
            ["_FROM_,_TO_,_CAPAC_\na,b,1.5\n", SUPPLIES, NO_CONS],
            "EXPORT REFUSED C1: Number\n",
        ),
        (
            ["_FROM_,_TO_,_COST_\na,b,2\n", SUPPLIES, NO_CONS],
            "EXPORT REFUSED C1: NoCapacity\n",
        ),
        ([whole, surplus, NO_CONS], "EXPORT REFUSED C2: NoCapacity\n"),
    ];
    for (sets, line) in cases {
        let (status, listing) = exported(&rt, WITH_CONS, sets, NONE)?;
        assert_eq!(rt; status, Status::DataRefused);
        assert_eq!(rt; listing.as_slice(), line.as_bytes());
    }
    Ok(())
}

#[test]
fn export_refuses_programs_and_data(rt: HostRuntime) -> Result<(), Fail> {
    let cases = [
        (
            "proc netflow arcdata=arcs; run;",
            "PROGRAM REFUSED AT 27: StatementOrder\n",
            Status::ProgramRefused,
        ),
        (
            "proc netflow arcdata=lost;",
            "ABSENT lost\n",
            Status::Absent,
        ),
        (
            "proc netflow arcdata=arcs; cost price;",
            "DATA REFUSED ARCDATA: NoColumn price\n",
            Status::DataRefused,
        ),
        (
            "proc netflow arcdata=arcs source=q supply=1;",
            "DATA REFUSED PROC ROW 0 COLUMN SOURCE: UnknownSource\n",
            Status::DataRefused,
        ),
        (
            "proc netflow arcdata=arcs condata=cons;",
            "DATA REFUSED CONDATA: NoHeader\n",
            Status::DataRefused,
        ),
    ];
    for (program, line, due) in cases {
        let (status, listing) = exported(&rt, program, [ARCS, NODES, ""], NONE)?;
        assert_eq!(rt; status, due);
        assert_eq!(rt; listing.as_slice(), line.as_bytes());
    }
    Ok(())
}

#[test]
fn export_ends_at_the_first_call_that_fails(rt: HostRuntime) -> Result<(), Fail> {
    let cases = [
        (
            Failing { take: 1, ..NONE },
            "READ FAULT\n",
            Status::ReadFault,
        ),
        (
            Failing { fetch: 1, ..NONE },
            "READ FAULT\n",
            Status::ReadFault,
        ),
        (
            Failing { fetch: 2, ..NONE },
            "READ FAULT\n",
            Status::ReadFault,
        ),
        (Failing { put: 1, ..NONE }, "", Status::WriteFault),
    ];
    for (failing, line, due) in cases {
        let (status, listing) = exported(&rt, PROGRAM, [ARCS, NODES, ""], failing)?;
        assert_eq!(rt; status, due);
        assert_eq!(rt; listing.as_slice(), line.as_bytes());
    }
    Ok(())
}
