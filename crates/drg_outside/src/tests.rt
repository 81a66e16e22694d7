ghost use Rattle.std.specs.Prelude.{◌≤◌};

use crate::{
    Failed, Inputs, MemInputs, MemSink, ReadAllFault, RealInputs, RealSink, Sink, read_all,
    write_all,
};
use std::alloc::{AllocError, Global};
use std::fs;
use std::test::Fail;

/// Inputs whose first file `f` has this content, between a longer name and a second `f`.
fn files_with(
    alloc: Global,
    content: &[u8],
    most: usize,
    fails: &[u64],
) -> Result<MemInputs, AllocError>
    requires { 1 ≤ most }
{
    let mut files = Vec::new(alloc);
    for (name, bytes) in [("ff", b"1".as_slice()), ("f", content), ("f", b"2")] {
        files.push((name.to_string(alloc)?, bytes.to_vec(alloc)?))?;
    }
    Ok(MemInputs::new(files, most, fails.to_vec(alloc)?))
}

#[test]
fn reads_whole_in_pieces(rt: HostRuntime) -> Result<(), Fail> {
    let alloc = rt.alloc();
    for most in 1..14 {
        let mut inputs = files_with(alloc, b"hello, world", most, &[])?;
        assert_eq!(rt; inputs.open("f"), Ok(()));
        let bytes = read_all(alloc, &mut inputs, 12)?;
        assert_eq!(rt; bytes.as_slice(), b"hello, world".as_slice());
    }
    Ok(())
}

#[test]
fn the_limit_decides(rt: HostRuntime) -> Result<(), Fail> {
    let alloc = rt.alloc();
    for limit in 0..7 {
        let mut inputs = files_with(alloc, b"hello", 2, &[])?;
        assert_eq!(rt; inputs.open("f"), Ok(()));
        let fault = read_all(alloc, &mut inputs, limit).err();
        assert_eq!(rt; fault, (limit < 5).then_some(ReadAllFault::TooLong));
    }
    Ok(())
}

#[test]
fn reads_sizes_around_a_piece(rt: HostRuntime) -> Result<(), Fail> {
    let alloc = rt.alloc();
    for size in [1, 65_535, 65_536, 65_537, 131_072, 200_000] {
        let content = vec![in alloc; 7; size]?;
        let mut inputs = files_with(alloc, &content, 1_000_000, &[])?;
        assert_eq!(rt; inputs.open("f"), Ok(()));
        assert!(rt; read_all(alloc, &mut inputs, 200_000)? == content);
        assert_eq!(rt; inputs.open("f"), Ok(()));
        let fault = read_all(alloc, &mut inputs, size.saturating_sub(1)).err();
        assert_eq!(rt; fault, Some(ReadAllFault::TooLong));
    }
    Ok(())
}

#[test]
fn a_failed_call_leaves_what_it_should(rt: HostRuntime) -> Result<(), Fail> {
    let alloc = rt.alloc();
    let mut buf = [0; 3];
    let mut inputs = files_with(alloc, b"hello", 100, &[3, 5])?;
    assert_eq!(rt;
        inputs.read(&mut buf),
        Ok(0),
        "nothing is left before the first open"
    );
    assert_eq!(rt; inputs.open("f"), Ok(()));
    assert_eq!(rt; inputs.read(&mut buf), Err(Failed));
    assert_eq!(rt; inputs.read(&mut buf), Ok(3));
    assert_eq!(rt; buf, *b"hel");
    assert_eq!(rt; inputs.open("f"), Err(Failed));
    assert_eq!(rt;
        inputs.read(&mut buf),
        Ok(0),
        "nothing is left after a failed open"
    );
    assert_eq!(rt; inputs.open("f"), Ok(()));
    assert_eq!(rt; inputs.open("g"), Err(Failed));
    assert_eq!(rt;
        inputs.read(&mut buf),
        Ok(0),
        "nothing is left after a missing name"
    );
    Ok(())
}

#[test]
fn each_write_fails_where_it_was_asked_for(rt: HostRuntime) -> Result<(), Fail> {
    let alloc = rt.alloc();
    // The writes take 2, 2 and 1 bytes.
    for (number, written) in [(1, "".as_bytes()), (2, b"he"), (3, b"hell"), (4, b"hello")] {
        let mut sink = MemSink::new(alloc, 100, 2, vec![in alloc; number]?)?;
        assert_eq!(rt; write_all(&mut sink, b"hello").is_err(), number < 4);
        assert_eq!(rt; sink.written(), written);
    }
    Ok(())
}

#[test]
fn a_full_sink_refuses(rt: HostRuntime) -> Result<(), Fail> {
    let alloc = rt.alloc();
    for room in 0..7 {
        let mut sink = MemSink::new(alloc, room, 2, Vec::new(alloc))?;
        assert_eq!(rt; write_all(&mut sink, b"hello").is_err(), room < 5);
        assert_eq!(rt; sink.written(), &b"hello"[..room.min(5)]);
        assert_eq!(rt; sink.write(b""), Ok(0));
    }
    Ok(())
}

#[test]
fn a_file_gives_its_bytes(rt: HostRuntime) -> Result<(), Fail> {
    // The test writes the file itself, and takes it away before it looks at what was read.
    let name = "known_bytes_of_a_test";
    fs::write(&rt, name, "hello, world")?;
    let mut inputs = RealInputs::new(&rt);
    let mut buf = [0; 5];
    let opened = inputs.open(name);
    let first = inputs.read(&mut buf);
    let rest = read_all(rt.alloc(), &mut inputs, 100);
    let at_end = inputs.read(&mut buf);
    fs::remove_file(&rt, name)?;
    assert_eq!(rt; opened, Ok(()));
    assert_eq!(rt; first, Ok(5));
    assert_eq!(rt; buf, *b"hello");
    assert_eq!(rt; rest?.as_slice(), b", world".as_slice());
    assert_eq!(rt; at_end, Ok(0));
    Ok(())
}

#[test]
fn a_failed_open_leaves_no_file_open(rt: HostRuntime) -> Result<(), Fail> {
    let name = "old_file_of_a_test";
    fs::write(&rt, name, "hello, world")?;
    let mut inputs = RealInputs::new(&rt);
    let mut buf = [0; 5];
    let before = inputs.read(&mut buf);
    let opened = inputs.open(name);
    let first = inputs.read(&mut buf);
    let missing = inputs.open("no such folder/no such file");
    let after = inputs.read(&mut buf);
    let again = inputs.open(name);
    let anew = inputs.read(&mut buf);
    fs::remove_file(&rt, name)?;
    assert_eq!(rt; before, Ok(0));
    assert_eq!(rt; (opened, first), (Ok(()), Ok(5)));
    assert_eq!(rt; (missing, after), (Err(Failed), Ok(0)));
    assert_eq!(rt; (again, anew), (Ok(()), Ok(5)));
    assert_eq!(rt; buf, *b"hello");
    Ok(())
}

#[test]
fn a_folder_has_no_bytes(rt: HostRuntime) -> Result<(), Fail> {
    let mut inputs = RealInputs::new(&rt);
    let mut buf = [0; 5];
    let is_open = inputs.open(".").is_ok();
    assert_eq!(rt; inputs.read(&mut buf).is_err(), is_open);
    Ok(())
}

#[test]
fn standard_output_takes_a_piece(rt: HostRuntime) -> Result<(), Fail> {
    let mut sink = RealSink::new(&rt);
    assert_eq!(rt; sink.write(b""), Ok(0));
    assert_eq!(rt; write_all(&mut sink, b"a short piece\n"), Ok(()));
    Ok(())
}
