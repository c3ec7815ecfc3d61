// Real files and streams, which no clause reaches, and those in memory.
use outside::{
    FailingCall, FailingFiles, FailingSink, FileRoom, Files, MemoryFiles, MemorySink, PutFailed,
    ReadAnswer, Sink, StreamSink, SystemFiles, WriteFailed,
};
use std::fs;
use std::test::Fail;

#[test]
fn real_files_are_read_as_written(rt: HostRuntime) -> Result<(), Fail> {
    let mut files = SystemFiles::new(rt);
    // A file that begins anew keeps nothing of the old one.
    assert!(rt; files.write("outside_written", b"much longer") == Ok(()));
    assert!(rt; files.write("outside_written", b"bytes") == Ok(()));
    // One byte more than asked for, or all where there are fewer.
    for (most, want) in [(2, b"byt".as_slice()), (4096, b"bytes")] {
        let bytes = files.read(rt.alloc(), "outside_written", most)?;
        assert!(rt; bytes.as_slice() == want, "at most {most}");
    }
    // What is not there is not an empty file, and what cannot be made is not written.
    let missing = files.read(rt.alloc(), "outside_missing", 0);
    assert!(rt; missing.err() == Some(ReadAnswer::Failed));
    assert!(rt; files.write("outside_missing/file", b"x") == Err(WriteFailed));
    assert!(rt; files.read_faults() == 1 && files.write_faults() == 1);
    fs::remove_file(&rt, "outside_written")?;
    Ok(())
}

#[test]
fn a_writer_that_is_full_has_a_front(rt: HostRuntime) {
    let mut room = [b'-'; 4];
    let mut sink = StreamSink::new(room.as_mut_slice());
    assert!(rt; sink.put(b"abc") == Ok(()));
    assert!(rt; sink.put(b"def") == Err(PutFailed));
    assert!(rt; sink.faults() == 1);
    assert!(rt; room == *b"abcd");
    let mut errors = StreamSink::new(rt.stderr());
    assert!(rt; errors.put(b"to standard error\n") == Ok(()));
}

#[test]
fn files_in_memory_have_the_room_that_was_made(rt: HostRuntime) -> Result<(), Fail> {
    let rooms = [FileRoom { name: "f", room: 4 }];
    let mut files = MemoryFiles::new(rt.alloc(), &rooms)?;
    assert!(rt; files.write("f", b"four") == Ok(()));
    assert!(rt; files.write("f", b"fives") == Err(WriteFailed));
    assert!(rt; files.bytes_of("f").is_some() && files.bytes_of("g").is_none());
    assert!(rt; files.read_faults() == 0 && files.write_faults() == 1);
    let second = [FailingCall {
        call: 2,
        through: 1,
    }];
    let mut failing = FailingFiles::new(rt.alloc(), &rooms, &second)?;
    assert!(rt; failing.write("f", b"four") == Ok(()));
    assert!(rt; failing.write("f", b"more") == Err(WriteFailed));
    assert!(rt; failing.bytes_of("f").is_some());
    assert!(rt; failing.read_faults() == 0 && failing.write_faults() == 1);
    Ok(())
}

#[test]
fn sinks_in_memory_keep_a_front(rt: HostRuntime) -> Result<(), Fail> {
    let mut sink = MemorySink::new(rt.alloc(), 4)?;
    assert!(rt; sink.put(b"abc") == Ok(()));
    assert!(rt; sink.put(b"def") == Err(PutFailed));
    assert!(rt; sink.bytes() == b"abcd".as_slice());
    assert!(rt; sink.faults() == 1);
    let first = [FailingCall {
        call: 1,
        through: 2,
    }];
    let mut failing = FailingSink::new(rt.alloc(), 8, &first)?;
    assert!(rt; failing.put(b"abc") == Err(PutFailed));
    assert!(rt; failing.bytes() == b"ab".as_slice());
    assert!(rt; failing.faults() == 1);
    Ok(())
}
