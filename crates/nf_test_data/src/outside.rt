use nf_io::{
    DirLibrary, Failed, FetchFault, Library, PutFault, ReadAllFault, ReadSource, WriteSink,
    read_all, write_all,
};
use std::fs;
use std::test::Fail;

#[test]
fn names_its_faults(rt: HostRuntime) -> Result<(), Fail> {
    let texts = [
        (Failed.to_string(rt.alloc())?, "Failed"),
        (PutFault::Failed.to_string(rt.alloc())?, "Failed"),
        (PutFault::NoMemory.to_string(rt.alloc())?, "NoMemory"),
        (ReadAllFault::Failed.to_string(rt.alloc())?, "Failed"),
        (ReadAllFault::TooLong.to_string(rt.alloc())?, "TooLong"),
        (ReadAllFault::NoMemory.to_string(rt.alloc())?, "NoMemory"),
        (FetchFault::Failed.to_string(rt.alloc())?, "Failed"),
        (FetchFault::Absent.to_string(rt.alloc())?, "Absent"),
        (FetchFault::TooLong.to_string(rt.alloc())?, "TooLong"),
        (FetchFault::NoMemory.to_string(rt.alloc())?, "NoMemory"),
    ];
    for (text, want) in texts {
        assert_eq!(rt; text.as_str(), want);
    }
    Ok(())
}

#[test]
fn adapts_readers_and_writers(rt: HostRuntime) -> Result<(), Fail> {
    let text = read_all(rt.alloc(), &mut ReadSource::new(b"hello".as_slice()), 5)?;
    assert_eq!(rt; text.bytes(), b"hello".as_slice());

    let mut written = Vec::new(rt.alloc());
    assert_eq!(rt;
        write_all(&mut WriteSink::new(&mut written), b"hello"),
        Ok(())
    );
    assert_eq!(rt; written.as_slice(), b"hello".as_slice());

    let mut room = [0u8; 3];
    let full = write_all(&mut WriteSink::new(room.as_mut_slice()), b"hello");
    assert_eq!(rt; full, Err(PutFault::Failed));
    assert_eq!(rt; room.as_slice(), b"hel".as_slice());
    Ok(())
}

#[test]
fn keeps_data_sets_in_a_folder(rt: HostRuntime) -> Result<(), Fail> {
    // A folder of the test's own, which an earlier run that failed may have left.
    let _ = fs::remove_dir_all(&rt, "library");
    fs::create_dir(&rt, "library")?;
    fs::create_dir(&rt, "library/folder.csv")?;
    let mut library = DirLibrary::new(rt.alloc(), &rt);
    assert_eq!(rt; library.store("library/arcs", b"the first bytes"), Ok(()));
    assert_eq!(rt; library.store("library/arcs", b"others"), Ok(()));
    assert_eq!(rt;
        library.store("library/folder", b"lost"),
        Err(PutFault::Failed)
    );
    assert_eq!(rt; fs::exists(&rt, "library/folder.csv.part1")?, false);
    // A folder under the name that the store tries first: it writes under the next one.
    fs::create_dir(&rt, "library/arcs.csv.part1")?;
    assert_eq!(rt; library.store("library/arcs", b"third"), Ok(()));
    assert_eq!(rt; fs::exists(&rt, "library/arcs.csv.part2")?, false);
    let fetches = [
        ("library/arcs", Ok(()), b"third".as_slice()),
        ("library/nodes", Err(FetchFault::Absent), b""),
        ("library/folder", Err(FetchFault::Failed), b""),
    ];
    for (name, want, bytes) in fetches {
        let mut out = Vec::new(rt.alloc());
        assert_eq!(rt; library.fetch(rt.alloc(), name, &mut out), want);
        assert_eq!(rt; out.as_slice(), bytes);
    }
    fs::remove_dir_all(&rt, "library")?;
    Ok(())
}
