//! What is read and written in memory, and once each over the system.

use crate::{FileShelf, MemFile, MemShelf, MemSink, ReadFault, StdSink, read_text, write_all};
use std::alloc::{AllocError, Global};
use std::test::Fail;
use std::{env, fs, process};

fn pattern(alloc: Global, count: usize) -> Result<Vec<u8>, AllocError> {
    (0..count).map(|place| (place % 251) as u8).collect(alloc)
}

fn shelf_of(alloc: Global, count: usize, fail: &[u64]) -> Result<MemShelf, AllocError> {
    let mut files = Vec::new(alloc);
    files.push(MemFile {
        path: String::from_str(alloc, "file")?,
        bytes: pattern(alloc, count)?,
    })?;
    Ok(MemShelf {
        files,
        fail: fail.to_vec(alloc)?,
        calls: 0,
        faults: 0,
    })
}

#[test]
fn reads_across_pieces(rt: HostRuntime) -> Result<(), Fail> {
    let alloc = rt.alloc();
    for (count, limit, calls) in [
        (0, 0, 1),
        (4096, 4096, 2),
        (4097, 4097, 3),
        (4096, 5000, 2),
        (8192, 10000, 3),
    ] {
        let mut shelf = shelf_of(alloc, count, &[])?;
        let text = read_text(alloc, &mut shelf, "file", limit)?;
        assert_eq!(rt;
            text.as_slice(),
            pattern(alloc, count)?.as_slice(),
            "of {count}"
        );
        assert_eq!(rt; shelf.calls, calls, "of {count}");
    }
    Ok(())
}

#[test]
fn refuses_a_longer_file(rt: HostRuntime) -> Result<(), Fail> {
    let alloc = rt.alloc();
    for (count, limit, calls) in [(1, 0, 1), (4097, 4096, 2), (9000, 4095, 1)] {
        let mut shelf = shelf_of(alloc, count, &[])?;
        let fault = read_text(alloc, &mut shelf, "file", limit).err();
        assert_eq!(rt; fault, Some(ReadFault::TooLong), "of {count}");
        assert_eq!(rt; shelf.calls, calls, "of {count}");
    }
    Ok(())
}

#[test]
fn tells_a_failing_call(rt: HostRuntime) -> Result<(), Fail> {
    let alloc = rt.alloc();
    let mut shelf = shelf_of(alloc, 5000, &[2])?;
    assert_eq!(rt;
        read_text(alloc, &mut shelf, "file", 5000).err(),
        Some(ReadFault::Fault)
    );
    assert_eq!(rt; (shelf.calls, shelf.faults), (2, 1));
    assert_eq!(rt;
        read_text(alloc, &mut shelf, "other", 5000).err(),
        Some(ReadFault::Fault)
    );
    assert_eq!(rt; (shelf.calls, shelf.faults), (3, 1));
    assert_eq!(rt; read_text(alloc, &mut shelf, "file", 5000)?.len(), 5000);
    Ok(())
}

#[test]
fn writes_in_steps(rt: HostRuntime) -> Result<(), Fail> {
    let alloc = rt.alloc();
    let mut sink = MemSink::new(alloc, 100, 3, Vec::new(alloc))?;
    assert!(rt; write_all(&mut sink, b"7\ndone 0\n").is_ok());
    assert_eq!(rt; sink.taken.as_slice(), b"7\ndone 0\n".as_slice());
    assert_eq!(rt; (sink.calls, sink.faults), (3, 0));

    let mut failing = MemSink::new(alloc, 100, 3, [2].to_vec(alloc)?)?;
    assert!(rt; write_all(&mut failing, b"7\ndone 0\n").is_err());
    assert_eq!(rt; failing.taken.as_slice(), b"7\nd".as_slice());
    assert_eq!(rt; (failing.calls, failing.faults), (2, 1));

    let mut small = MemSink::new(alloc, 4, 3, Vec::new(alloc))?;
    assert!(rt; write_all(&mut small, b"7\ndone 0\n").is_err());
    assert_eq!(rt; small.taken.as_slice(), b"7\ndo".as_slice());
    assert_eq!(rt; (small.calls, small.faults), (3, 1));
    Ok(())
}

#[test]
fn reads_a_real_file(rt: HostRuntime) -> Result<(), Fail> {
    let alloc = rt.alloc();
    let folder = env::temp_dir(&rt)?;
    let folder = folder.as_str();
    let id = process::id(rt.process());
    let path = format!(in alloc; "{folder}/perm_base_{id}")?;
    let path = path.as_str();
    let mut shelf = FileShelf::new(&rt);
    assert_eq!(rt;
        read_text(alloc, &mut shelf, path, 10).err(),
        Some(ReadFault::Fault)
    );
    assert_eq!(rt; shelf.faults, 1);

    let bytes = pattern(alloc, 5000)?;
    fs::write(&rt, path, bytes.as_slice())?;
    let text = read_text(alloc, &mut shelf, path, 5000);
    fs::remove_file(&rt, path)?;
    assert_eq!(rt; text?.as_slice(), bytes.as_slice());
    assert_eq!(rt; shelf.faults, 1);
    Ok(())
}

#[test]
fn writes_to_the_standard_output(rt: HostRuntime) {
    let mut sink = StdSink::new(&rt);
    assert!(rt; write_all(&mut sink, b"ok").is_ok());
    assert_eq!(rt; sink.faults, 0);
}
