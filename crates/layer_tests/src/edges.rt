//! Sources and sinks by themselves: those that no command has, and failures between calls that succeed.

use hr_edges::{
    EndlessSource, Failed, MemSink, MemSource, NullSink, Sink, Source, StdSink, StdSource,
};
use std::alloc::Global;
use std::io::BufWriter;
use std::test::Fail;
use test_rows::expecting::{expect, expect_text};

/// Reads into room for four bytes, so often, and tells each answer and then the count of faults.
fn reads<S: Source>(alloc: Global, source: &mut S, times: u64) -> Result<String, Fail> {
    let mut told = String::new(alloc);
    for _ in 0..times {
        let mut into = [7; 4];
        match source.read(&mut into) {
            Ok(count) => write!(told, "{};", str::from_utf8(&into[..count])?)?,
            Err(Failed) => write!(told, "failed;")?,
        }
    }
    write!(told, "{}", source.faults())?;
    Ok(told)
}

/// Writes pieces, and tells each answer and then the count of faults.
fn writes<S: Sink>(alloc: Global, sink: &mut S, pieces: &str) -> Result<String, Fail> {
    let mut told = String::new(alloc);
    for piece in pieces.split(' ') {
        match sink.write(piece.as_bytes()) {
            Ok(count) => write!(told, "{count};")?,
            Err(Failed) => write!(told, "failed;")?,
        }
    }
    write!(told, "{}", sink.faults())?;
    Ok(told)
}

fn expect_told(told: Result<String, Fail>, wanted: &str) -> Result<(), Fail> {
    expect_text(told?.as_bytes(), wanted.as_bytes(), wanted)
}

#[test]
fn sources_give_what_they_have(rt: HostRuntime) -> Result<(), Fail> {
    let alloc = rt.alloc();
    let bytes = b"abcdefgh".to_vec(alloc)?;
    let mut source = MemSource::in_steps(bytes, [2, 5].to_vec(alloc)?, 3);
    expect_told(reads(alloc, &mut source, 6), "abc;failed;def;gh;failed;;2")?;
    let mut source = MemSource::new(b"abcde".to_vec(alloc)?, Vec::new(alloc));
    expect_told(reads(alloc, &mut source, 3), "abcd;e;;0")?;
    let mut source = StdSource::new(b"xyzxy".as_slice());
    expect_told(reads(alloc, &mut source, 3), "xyzx;y;;0")?;
    let mut source = EndlessSource::new();
    expect_told(reads(alloc, &mut source, 2), "\0\0\0\0;\0\0\0\0;0")
}

#[test]
fn sinks_take_what_they_have_room_for(rt: HostRuntime) -> Result<(), Fail> {
    let alloc = rt.alloc();
    let mut sink = MemSink::in_steps(alloc, 5, [2].to_vec(alloc)?, 2)?;
    expect_told(
        writes(alloc, &mut sink, "abc c c  defg fg"),
        "2;failed;1;0;2;0;2",
    )?;
    expect_text(sink.taken(), b"abcde", "taken")?;
    let mut sink = MemSink::in_steps(alloc, 5, Vec::new(alloc), 0)?;
    expect_told(writes(alloc, &mut sink, "a"), "0;1")?;
    let mut room = [0; 2];
    let mut sink = StdSink::new(room.as_mut_slice());
    expect_told(writes(alloc, &mut sink, "xyz z"), "2;0;1")?;
    let mut sink = NullSink::new();
    expect_told(writes(alloc, &mut sink, "abc "), "3;0;0")
}

/// A writer that holds back hands on what it can.
fn check_flush(alloc: Global, room: usize, wanted: &[u8], flushes: bool) -> Result<(), Fail> {
    let mut bytes = *b"...";
    {
        let into = bytes.get_mut(..room).ok_or("no room")?;
        let mut sink = StdSink::new(BufWriter::new(alloc, into)?);
        expect_told(writes(alloc, &mut sink, "xyz"), "3;0")?;
        expect(sink.flush().is_ok() == flushes, "the flush")?;
        expect(sink.faults() == u64::from(!flushes), "faults of a flush")?;
    }
    expect_text(&bytes, wanted, "handed on")
}

#[test]
fn flushes_hand_on_what_was_held_back(rt: HostRuntime) -> Result<(), Fail> {
    check_flush(rt.alloc(), 3, b"xyz", true)?;
    check_flush(rt.alloc(), 2, b"xy.", false)?;
    check_flush(rt.alloc(), 0, b"...", false)
}
