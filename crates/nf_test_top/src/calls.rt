use nf_io::{MemLibrary, MemSink, MemSource};
use nf_top::{Status, netflow};
use std::test::Fail;

const ARCS: &str = "_FROM_,_TO_,_COST_,_CAPAC_\na,b,2,10\n";

const NODES: &str = "_NODE_,_SUPDEM_\na,5\nb,-5\n";

const CERTIFICATE: &str =
    "_ITEM_,_NUMBER_,_VALUE_\nVERDICT,1,OPTIMAL\nCOL,1,5\nROW,1,0\nROW,2,-2\n";

const SOLVE: &str = "proc netflow arcdata=arcs nodedata=nodes certout=k; run;";

// CERTDATA is not in the library.
const SOLVE_ONLY: &str = "proc netflow arcdata=arcs nodedata=nodes certdata=lost certout=k; run;";

const JUDGE: &str = "proc netflow arcdata=arcs nodedata=nodes certdata=k;";

const LISTING: &str =
    "OPTIMAL\nTOTAL COST 10\nSTAGE 1 PIVOTS 1\nSTAGE 2 PIVOTS 0\nSAVED CERTOUT k ROWS 4\n";

const BEFORE_STORE: &str = "OPTIMAL\nTOTAL COST 10\nSTAGE 1 PIVOTS 1\nSTAGE 2 PIVOTS 0\n";

/// The numbers of the calls that are to fail; 0 for none.
#[derive(Clone, Copy)]
struct Failing {
    take: u64,
    put: u64,
    fetch: u64,
    store: u64,
}

const NONE: Failing = Failing {
    take: 0,
    put: 0,
    fetch: 0,
    store: 0,
};

/// What a call gave out: its status, its listing, and what the library then holds under `k`.
#[derive(Drop)]
struct Outcome {
    status: Status,
    listing: Vec<u8>,
    stored: Option<Vec<u8>>,
}

// The outcome of one word and a program, over these arcs, the nodes and, where it is given, a certificate.
fn call(
    rt: &HostRuntime,
    word: &str,
    program: &str,
    arcs: &str,
    certificate: Option<&str>,
    failing: Failing,
) -> Result<Outcome, Fail> {
    let alloc = rt.alloc();
    let mut words = Vec::new(alloc);
    words.push(String::from_str(alloc, word)?)?;
    let mut source = MemSource::new(alloc, program.as_bytes(), &[failing.take])?;
    let mut library = MemLibrary::new(alloc, &[failing.fetch], &[failing.store])?;
    library.give("arcs", arcs.as_bytes())?;
    library.give("nodes", NODES.as_bytes())?;
    if let Some(bytes) = certificate {
        library.give("k", bytes.as_bytes())?;
    }
    let mut listing = MemSink::new(alloc, &[failing.put])?;
    let status = netflow(
        alloc,
        words.as_slice(),
        &mut source,
        &mut library,
        &mut listing,
    );
    let stored = match library.get("k") {
        Some(bytes) => Some(Vec::from_slice(alloc, bytes)?),
        None => None,
    };
    Ok(Outcome {
        status,
        listing: Vec::from_slice(alloc, listing.bytes())?,
        stored,
    })
}

#[test]
fn runs_on_one_arc(rt: HostRuntime) -> Result<(), Fail> {
    let got = call(&rt, "run", SOLVE, ARCS, None, NONE)?;
    assert_eq!(rt; got.status, Status::Finished);
    assert_eq!(rt; got.listing.as_slice(), LISTING.as_bytes());
    assert_eq!(rt; got.stored.as_deref(), Some(CERTIFICATE.as_bytes()));
    Ok(())
}

#[test]
fn checks_a_certificate(rt: HostRuntime) -> Result<(), Fail> {
    let got = call(&rt, "check", JUDGE, ARCS, Some(CERTIFICATE), NONE)?;
    assert_eq!(rt; got.status, Status::Finished);
    assert_eq!(rt;
        got.listing.as_slice(),
        b"ACCEPTED OPTIMAL\nTOTAL COST 10\n".as_slice()
    );
    Ok(())
}

#[test]
fn prints_no_line_of_a_header_cell(rt: HostRuntime) -> Result<(), Fail> {
    let arcs = "_FROM_,_TO_,\"x\nACCEPTED OPTIMAL\",\"X\naccepted optimal\"\n";
    let got = call(&rt, "check", JUDGE, arcs, Some(CERTIFICATE), NONE)?;
    assert_eq!(rt; got.status, Status::DataRefused);
    assert_eq!(rt;
        got.listing.as_slice(),
        b"DATA REFUSED ARCDATA: RepeatedColumn X?accepted optimal\n".as_slice()
    );
    Ok(())
}

#[test]
fn reports_a_read_that_fails(rt: HostRuntime) -> Result<(), Fail> {
    let faults = [
        Failing { take: 1, ..NONE },
        Failing { take: 2, ..NONE },
        Failing { fetch: 1, ..NONE },
        Failing { fetch: 2, ..NONE },
    ];
    for failing in faults {
        let got = call(&rt, "run", SOLVE, ARCS, None, failing)?;
        assert_eq!(rt; got.status, Status::ReadFault);
        assert_eq!(rt; got.listing.as_slice(), b"READ FAULT\n".as_slice());
        assert_eq!(rt; got.stored.is_some(), false);
    }
    Ok(())
}

#[test]
fn reports_a_write_that_fails(rt: HostRuntime) -> Result<(), Fail> {
    // The listing of the statements is one put, that of the end another.
    let faults = [
        (Failing { put: 1, ..NONE }, "", false),
        (Failing { put: 2, ..NONE }, BEFORE_STORE, true),
        (Failing { store: 1, ..NONE }, BEFORE_STORE, false),
    ];
    for (failing, listing, stores) in faults {
        let got = call(&rt, "run", SOLVE, ARCS, None, failing)?;
        assert_eq!(rt; got.status, Status::WriteFault);
        assert_eq!(rt; got.listing.as_slice(), listing.as_bytes());
        assert_eq!(rt; got.stored.is_some(), stores);
    }
    Ok(())
}

#[test]
fn fetches_no_certificate_to_run(rt: HostRuntime) -> Result<(), Fail> {
    // The arcs and the nodes are the first two fetches; a third would fail.
    let failing = Failing { fetch: 3, ..NONE };
    let got = call(&rt, "run", SOLVE_ONLY, ARCS, None, failing)?;
    assert_eq!(rt; got.status, Status::Finished);
    assert_eq!(rt; got.listing.as_slice(), LISTING.as_bytes());
    Ok(())
}
