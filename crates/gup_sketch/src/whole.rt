//! From a trace to a scene.
ghost use Rattle.std.specs.Prelude.{ℕ, ◌+◌, ◌^◌, ◌<◌, length};
ghost use Rattle.std.specs.List.{All};
ghost use Rattle.gup_spec_trace.specs.Written.{CanBeWritten};

use crate::heads::{head, lanes};
use crate::pen::Pen;
use gup_base::NoMemory;
use gup_read_trace::Trace;
use gup_replay::{Replay, cut_turn};
use gup_scene::{Asked, Scene};
use gup_spec_check::Verdict;
use std::alloc::Global;

/// What a picture of the trace shows: a lane for each actor of its script, and a row for each turn that is asked for. Copied words one
/// after another are one row, and so are turns in which an actor waits for the same. Behind a turn stands the state that the core machine has
/// there, as long as the trace tells what the machine does; from the first turn on that it doesn't do, no state is shown. The verdict
/// on the trace tells which note is marked as wrong.
pub fn sketch(
    alloc: Global,
    trace: &Trace,
    asked: &Asked,
    verdict: Verdict,
) -> Result<Scene, NoMemory>
    requires few { length trace.now.journal.notes + 1 < 2 ^ 32 }
    requires named { All (CanBeWritten trace.now.script) trace.now.journal.notes }
{
    let script = &trace.script;
    let notes = trace.journal.notes();
    let mut replay = Replay::new(alloc, script)?;
    let mut pen = Pen::new(alloc, script, asked, verdict);
    let mut rest = notes;
    while let Some((turn, behind)) = cut_turn(rest) {
        pen.begin(alloc, script, asked, notes, rest, &replay)?;
        replay.follow(turn);
        pen.end(alloc, script, asked, notes, behind, &replay)?;
        rest = behind;
    }
    Ok(Scene {
        head: head(alloc, script, asked, notes, verdict, pen.parted)?,
        lanes: lanes(alloc, script)?,
        rows: pen.rows,
    })
}
