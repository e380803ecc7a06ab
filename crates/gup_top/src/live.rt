//! The command `live`: the actors of a script on threads of their own.
ghost use Rattle.std.specs.Prelude.{◌≡◌, ℕ, ◌⊎◌, List, [], ◌++◌, None, Some, IfOk, OnOk};
ghost use Rattle.std.specs.List.{flat_map};
ghost use Rattle.std.specs.Io.KnownBytes.{Appends};
ghost use Rattle.gup_io.specs.Transfers.{AppendsPart};
ghost use Rattle.gup_io.specs.Faults.{EndsInFault};
ghost use Rattle.gup_lines.specs.Text.{line_of};
ghost use Rattle.gup_top.specs.LiveRun.{IsLiveRun, IsLiveTold, live_text};

use crate::command::Format;
use crate::serial::Report;
use gup_base::NoMemory;
use gup_front::ReadScript;
use gup_io::{Pace, Sink, write_all};
use gup_law_journal::{
    core_run_follows, core_run_is_plain, core_run_is_thorough, finished_runs_answer_all,
    looks_have_their_cause, moves_have_their_causes, no_frame_has_its_cause,
    pins_have_their_causes,
};
use gup_law_mirrors::looks_are_stale_with_cause;
use gup_law_owners::plain_journals_are_owned;
use gup_lines::{Outcome, push_line};
use gup_live::{Live, live};
use gup_plain::Journal;
use gup_script::Script;
use gup_trace::push_journal;
use std::alloc::Global;
use std::marker::Sync;
use std::sync::Wait;
use std::thread::Threads;

// What the actors of a script have come to on threads of their own, and what is to be said of it.
#[derive(Debug, Drop)]
struct ToldLive {
    live: Live,
    text: Vec<u8>,
}

/// Runs the script's actors on threads of their own, and writes what is told of the run.
pub fn live_and_write<R: Threads + Wait + Sync, K: Sink, P: Pace + Sync>(
    rt: &R,
    alloc: Global,
    sink: &mut K,
    found: ReadScript,
    format: Format,
    pace: &P,
) -> Report
    ensures statuses { (result.status ≡ 0) ⊎ (result.status ≡ 6) ⊎ (result.status ≡ 7) }
    ensures refusal { result.refusal ≡ None }
    ensures journal { result.journal.notes ≡ [] }
    ensures machine { result.machine ≡ None }
    ensures finished { result.status ≡ 0
        → IsLiveTold format found.text.items found.script result.live (Appends (K.taken sink.old) (K.taken sink.new)) }
    ensures part { result.status ≡ 6
        → IsLiveTold format found.text.items found.script result.live (AppendsPart (K.taken sink.old) (K.taken sink.new)) }
    ensures write_fault { result.status ≡ 6
        → EndsInFault (K.faults sink.old) (K.faults sink.new) (K.faulted sink.new) }
    ensures uncounted { (result.status ≡ 6 → ⊥) → K.faults sink.new ≡ K.faults sink.old }
    ensures unwritten { result.status ≡ 7 → sink.new ≡ sink.old }
    ensures none { result.status ≡ 7 → result.live ≡ None }
{
    let Ok(told) = tell_live(rt, alloc, found, format, pace) else {
        return Report::unrun(alloc, 7, None);
    };
    let status = if write_all(sink, told.text.as_slice()).is_ok() {
        0
    } else {
        6
    };
    Report {
        status,
        journal: Journal::new(alloc),
        refusal: None,
        live: Some(told.live),
        machine: None,
    }
}

// Runs the script's actors on threads of their own, and tells the run.
fn tell_live<R: Threads + Wait + Sync, P: Pace + Sync>(
    rt: &R,
    alloc: Global,
    found: ReadScript,
    format: Format,
    pace: &P,
) -> Result<ToldLive, NoMemory>
    ensures run { IfOk result (λ told. IsLiveRun found.script told.live) }
    ensures text { IfOk result (λ told. told.text.items ≡ live_text format found.text.items found.script told.live) }
{
    let ReadScript { script, text } = found;
    let live = run_live(rt, alloc, &script, pace)?;
    let text = text_in(format, alloc, &script, text, &live)?;
    Ok(ToldLive { live, text })
}

// What is to be said of the run of the script that has this text.
fn text_in(
    format: Format,
    alloc: Global,
    script: &Script,
    text: Vec<u8>,
    live: &Live,
) -> Result<Vec<u8>, NoMemory>
    ensures { IfOk result (λ told. told.items ≡ live_text format text.items script.now live.now) }
{
    match format {
        Format::Answers => answers_text(alloc, script, live.outcomes()),
        Format::Trace => {
            let mut trace = text;
            push_journal(script, live.notes(), &mut trace)?;
            Ok(trace)
        }
    }
}

// Runs the script's actors on threads of their own.
fn run_live<R: Threads + Wait + Sync, P: Pace + Sync>(
    rt: &R,
    alloc: Global,
    script: &Script,
    pace: &P,
) -> Result<Live, NoMemory>
    ensures { IfOk result (IsLiveRun script.now) }
{
    core_run_follows();
    core_run_is_plain();
    core_run_is_thorough();
    plain_journals_are_owned();
    no_frame_has_its_cause();
    moves_have_their_causes();
    pins_have_their_causes();
    looks_have_their_cause();
    looks_are_stale_with_cause();
    finished_runs_answer_all();
    let _actors = script.actors();
    live(rt, alloc, script, pace)
}

// The lines of these answers.
fn answers_text(alloc: Global, script: &Script, answers: &[Outcome]) -> Result<Vec<u8>, NoMemory>
    ensures { IfOk result (λ text. text.items ≡ flat_map (line_of script.now) answers.now) }
{
    let mut text = Vec::new(alloc);
    push_answers(script, answers, &mut text)?;
    Ok(text)
}

// Appends the lines of these answers.
fn push_answers(script: &Script, answers: &[Outcome], text: &mut Vec<u8>) -> Result<(), NoMemory>
    ensures { OnOk result (text.new.items ≡ text.old.items ++ flat_map (line_of script.now) answers.now) }
{
    for answer in answers {
        push_line(script, answer, text)?;
    }
    Ok(())
}
