//! Calls of the program, for all tests.
use gup_io::{MemSink, MemSource, NoPace, Pace, Sink, Source, SureSource};
use gup_top::{Report, gup};
use std::alloc::{AllocError, Global};
use std::marker::Sync;
use std::sync::Wait;
use std::test::Fail;
use std::thread::Threads;

fn owned(alloc: Global, words: &[&str]) -> Result<Vec<String>, AllocError> {
    let mut owned = Vec::new(alloc);
    for word in words {
        owned.push(String::from_str(alloc, word)?)?;
    }
    Ok(owned)
}

/// Calls the program. No other test code does: what `gup` promises is long, and a proof goes over it at each call.
pub(crate) fn called<R: Threads + Wait + Sync, S: Source, K: Sink, P: Pace + Sync>(
    rt: &R,
    alloc: Global,
    words: &[&str],
    source: &mut S,
    sink: &mut K,
    pace: &P,
) -> Result<Report, Fail> {
    let words = owned(alloc, words)?;
    Ok(gup(rt, alloc, words.as_slice(), source, sink, pace))
}

/// Calls it on a source that never fails, and a sink with this room.
pub(crate) fn ran<R: Threads + Wait + Sync, P: Pace + Sync>(
    rt: &R,
    alloc: Global,
    words: &[&str],
    input: &[u8],
    room: usize,
    pace: &P,
) -> Result<(Report, MemSink), Fail> {
    let mut source = SureSource::new(input.to_vec(alloc)?);
    let mut sink = MemSink::with_room(alloc, room, Vec::new(alloc))?;
    let report = called(rt, alloc, words, &mut source, &mut sink, pace)?;
    Ok((report, sink))
}

/// The same on a source and a sink whose calls of these numbers fail, from 1.
pub(crate) fn ran_with_faults<R: Threads + Wait + Sync>(
    rt: &R,
    alloc: Global,
    words: &[&str],
    input: &[u8],
    read: u32,
    write: u32,
    room: usize,
) -> Result<(Report, MemSink), Fail> {
    let mut source = MemSource::new(input.to_vec(alloc)?, [read].to_vec(alloc)?);
    let mut sink = MemSink::with_room(alloc, room, [write].to_vec(alloc)?)?;
    let report = called(rt, alloc, words, &mut source, &mut sink, &NoPace)?;
    Ok((report, sink))
}
