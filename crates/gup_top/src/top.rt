//! The top call: what the program does, from its words and its bytes to its text.
ghost use Rattle.std.specs.Prelude.{◌≡◌, ℕ, ◌⊎◌, map, string_bytes};
ghost use Rattle.gup_top.specs.Commands.{IsReport, outside};
ghost use Rattle.gup_top.specs.Report.{IsMake, IsCommand};

use crate::command::live_format;
use crate::live::live_and_write;
use crate::serial::{Report, gup_serial, refuse};
use gup_front::{Unread, read};
use gup_io::{Pace, Sink, Source};
use gup_read::{one_script, scripts_have_no_fault};
use std::alloc::Global;
use std::marker::Sync;
use std::sync::Wait;
use std::thread::Threads;

/// What the program does. The words are those after its name. `live` reads a script from the source, to its end or past the length of
/// a script, runs each of its actors on a thread of its own, and writes a line for each answer, actor by actor in declared order;
/// `live trace` does the same, and writes the bytes of the script, the line `journal`, and a line for each note of what the threads have
/// done. A script that can get stuck may never end so, and then this call doesn't return. `pace` is asked before the first turn of each
/// operation, and may hold its actor up.
///
/// All other words are as in [`gup_serial`], which takes no threads and always returns.
///
/// The statuses: 0, the script ran, or the notes are accepted, and the sink took the whole text; 2, the words are no command;
/// 3, the bytes are no script, or no trace; 4, the same as 0, but that actors are stuck, never of `live`; 5, a read failed; 6, a write
/// failed; 7, memory ran out; 8, a note isn't accepted.
pub fn gup<R: Threads + Wait + Sync, S: Source, K: Sink, P: Pace + Sync>(
    rt: &R,
    alloc: Global,
    words: &[String],
    source: &mut S,
    sink: &mut K,
    pace: &P,
) -> Report
    // What is said of each command, and of all of them: what was read, which status there is, what the sink took, and what the report has.
    ensures report { IsReport (map string_bytes words.now)
        (outside (S.remaining source.old) (S.faults source.old) (S.faulted source.old) (K.taken sink.old) (K.faults sink.old) (K.faulted sink.old))
        (outside (S.remaining source.new) (S.faults source.new) (S.faulted source.new) (K.taken sink.new) (K.faults sink.new) (K.faulted sink.new)) result }

    // Words that are no command leave the source unread, and so does `make N`. Nothing is written where a read failed or memory ran out.
    ensures unread { (IsCommand (map string_bytes words.now) → ⊥) ⊎ ((n : ℕ) × IsMake (map string_bytes words.now) n)
        → source.new ≡ source.old }
    ensures unwritten { (result.status ≡ 5) ⊎ (result.status ≡ 7) → sink.new ≡ sink.old }
{
    one_script();
    scripts_have_no_fault();
    let Some(format) = live_format(words) else {
        return gup_serial(alloc, words, source, sink);
    };
    match read(alloc, source) {
        Ok(found) => live_and_write(rt, alloc, sink, found, format, pace),
        Err(Unread::Failed) => Report::unrun(alloc, 5, None),
        Err(Unread::Fault(fault)) => refuse(alloc, sink, fault),
        Err(Unread::NoMemory) => Report::unrun(alloc, 7, None),
    }
}
