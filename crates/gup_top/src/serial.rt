//! What the program does without threads, from its words and its bytes to its text.
ghost use Rattle.std.specs.Prelude.{◌≡◌, ℕ, ◌⊎◌, Bool, List, [], None, Some, IfOk, IsSome, true, false, if◌then◌else◌, map, string_bytes};
ghost use Rattle.std.specs.Io.KnownBytes.{Appends};
ghost use Rattle.std.specs.List.{All};
ghost use Rattle.gup_io.specs.Transfers.{AppendsPart};
ghost use Rattle.gup_io.specs.Faults.{EndsInFault};
ghost use Rattle.gup_front.specs.Lines.{refusal_text};
ghost use Rattle.gup_spec_grammar.specs.Grammar.{Accepts};
ghost use Rattle.gup_spec_turns.specs.Run.{RunState};
ghost use Rattle.gup_spec_trace.specs.Written.{CanBeWritten};
ghost use Rattle.gup_make.specs.Made.{made_text};
ghost use Rattle.gup_top.specs.Report.{RunsLive, IsMake, IsCommand, IsMadeStatus, HasRun, IsEndOfRun, IsToldRun, IsMadeRun, IsPartlyTold, usage};
ghost use Rattle.gup_top.specs.Commands.{IsReport, outside};

use crate::command::{Command, Format, command_of};
use crate::text::{journal_text, push_stuck_lines};
use gup_base::NoMemory;
use gup_check_front::{accepted_notes_are_never_wrong, check_source};
use gup_core::Machine;
use gup_front::{ReadScript, Unread, read, refusal_line};
use gup_io::{Sink, Source, write_all};
use gup_law_accepted::core_runs_are_accepted;
use gup_law_journal::{
    core_run_follows, core_run_is_in_order, core_run_is_plain, core_run_is_thorough,
    finished_runs_answer_all, looks_have_their_cause, moves_have_their_causes,
    no_frame_has_its_cause, pins_have_their_causes, runs_end_at_waits,
};
use gup_law_made::made_texts_are_scripts;
use gup_law_mirrors::looks_are_stale_with_cause;
use gup_law_owners::plain_journals_are_owned;
use gup_law_turns::runs_are_turns;
use gup_law_written::journals_can_be_written;
use gup_live::Live;
use gup_make::make_text;
use gup_plain::Journal;
use gup_read::{one_script, read_script, scripts_have_no_fault};
use gup_sched::{Run, run_machine};
use gup_script::Script;
use gup_spec_grammar::{ReadRefusal, ScriptFault};
use gup_summary::summary_lines;
use gup_trace::push_journal;
use std::alloc::Global;

/// What the program did: its exit status, the journal of the run, the fault of a script that was refused, what actors have
/// come to on threads of their own, and the machine of the run.
#[derive(Drop)]
pub struct Report {
    pub status: u8,
    pub journal: Journal,
    pub refusal: Option<ScriptFault>,
    pub live: Option<Live>,
    /// The machine as it stands at the end of a run by `run` or `trace`, with its frames, its processes and their page
    /// tables, also where a write failed after the run. None where no script was run, and for every other command.
    pub machine: Option<Machine>,
}

impl Report {
    /// The report of a run that never began.
    pub fn unrun(alloc: Global, status: u8, refusal: Option<ScriptFault>) -> Report
        ensures status { result.status ≡ status }
        ensures journal { result.journal.notes ≡ [] }
        ensures refusal { result.refusal ≡ refusal }
        ensures live { result.live ≡ None }
        ensures machine { result.machine ≡ None }
    {
        Report {
            status,
            journal: Journal::new(alloc),
            refusal,
            live: None,
            machine: None,
        }
    }
}

// Runs the script. The machine shows the end of the run, and there an actor waits for a process or for a pin.
fn run_script(alloc: Global, script: Script) -> Result<Run, NoMemory>
    ensures run { IfOk result (λ ran. (end : RunState) × IsEndOfRun script ran.stuck ran.journal.notes ran.machine end) }
    ensures script { IfOk result (λ ran. ran.machine.script ≡ script) }
{
    runs_are_turns();
    core_run_follows();
    core_run_is_in_order();
    core_run_is_plain();
    core_run_is_thorough();
    core_runs_are_accepted();
    plain_journals_are_owned();
    no_frame_has_its_cause();
    moves_have_their_causes();
    pins_have_their_causes();
    looks_have_their_cause();
    looks_are_stale_with_cause();
    runs_end_at_waits();
    finished_runs_answer_all();
    let _actors = script.actors();
    let machine = Machine::of(alloc, script)?;
    run_machine(alloc, machine)
}

// A script that has run: its journal, whether actors are stuck at its end, the machine there, and what is to be said of it.
#[derive(Drop)]
struct Told {
    journal: Journal,
    stuck: bool,
    machine: Machine,
    text: Vec<u8>,
}

// Runs the script, and tells the run. Each note of a trace has a line of its own.
fn tell_run(alloc: Global, found: ReadScript, format: Format) -> Result<Told, NoMemory>
    ensures told { IfOk result
        (λ told. IsToldRun format found.text.items found.script told.stuck told.journal.notes (Some told.machine) told.text.items) }
    ensures written { format ≡ Format.Trace → IfOk result (λ told. All (CanBeWritten found.script) told.journal.notes) }
{
    match format {
        Format::Answers => tell_answers(alloc, found),
        Format::Trace => tell_trace(alloc, found),
    }
}

// Runs the script, for its answers and the actors that are stuck.
fn tell_answers(alloc: Global, found: ReadScript) -> Result<Told, NoMemory>
    ensures { IfOk result
        (λ told. IsToldRun Format.Answers found.text.items found.script told.stuck told.journal.notes (Some told.machine) told.text.items) }
{
    let ran = run_script(alloc, found.script)?;
    let mut text = journal_text(alloc, ran.machine.script(), &ran.journal)?;
    push_stuck_lines(ran.machine.script(), &ran.machine, &mut text)?;
    Ok(Told {
        journal: ran.journal,
        stuck: ran.stuck,
        machine: ran.machine,
        text,
    })
}

// Runs the script, for its trace, which begins with its own bytes.
fn tell_trace(alloc: Global, found: ReadScript) -> Result<Told, NoMemory>
    ensures told { IfOk result
        (λ told. IsToldRun Format.Trace found.text.items found.script told.stuck told.journal.notes (Some told.machine) told.text.items) }
    ensures written { IfOk result (λ told. All (CanBeWritten found.script) told.journal.notes) }
{
    journals_can_be_written();
    let _actors = found.script.actors();
    let mut text = found.text;
    let ran = run_script(alloc, found.script)?;
    push_journal(ran.machine.script(), ran.journal.notes(), &mut text)?;
    Ok(Told {
        journal: ran.journal,
        stuck: ran.stuck,
        machine: ran.machine,
        text,
    })
}

// Runs the script that is made from the number, for the summary of its run and the actors that are stuck.
fn tell_made_run(alloc: Global, n: u64) -> Result<Told, NoMemory>
    ensures { IfOk result (λ told. IsMadeRun n told.stuck told.text.items) }
{
    let script = made_script(alloc, n)?;
    let ran = run_script(alloc, script)?;
    let mut text = summary_lines(alloc, &ran.journal, ran.machine.turns())?;
    push_stuck_lines(ran.machine.script(), &ran.machine, &mut text)?;
    Ok(Told {
        journal: ran.journal,
        stuck: ran.stuck,
        machine: ran.machine,
        text,
    })
}

// The script that is made from the number.
fn made_script(alloc: Global, n: u64) -> Result<Script, NoMemory>
    ensures { IfOk result (Accepts (made_text n)) }
{
    made_texts_are_scripts();
    scripts_have_no_fault();
    let text = make_text(alloc, n)?;
    match read_script(alloc, text.as_slice()) {
        Ok(made) => Ok(made),
        Err(ReadRefusal::NoMemory) => Err(NoMemory),
        // What is made is a script.
        Err(ReadRefusal::Fault(_)) => unreachable!(),
    }
}

/// Refuses a script: writes its fault.
pub fn refuse<K: Sink>(alloc: Global, sink: &mut K, fault: ScriptFault) -> Report
    ensures statuses { (result.status ≡ 3) ⊎ (result.status ≡ 6) ⊎ (result.status ≡ 7) }
    ensures refusal { result.refusal ≡ Some fault }
    ensures live { result.live ≡ None }
    ensures machine { result.machine ≡ None }
    ensures journal { result.journal.notes ≡ [] }
    ensures text { result.status ≡ 3 → Appends (K.taken sink.old) (K.taken sink.new) (refusal_text fault) }
    ensures part { result.status ≡ 6 → AppendsPart (K.taken sink.old) (K.taken sink.new) (refusal_text fault) }
    ensures write_fault { result.status ≡ 6
        → EndsInFault (K.faults sink.old) (K.faults sink.new) (K.faulted sink.new) }
    ensures uncounted { (result.status ≡ 6 → ⊥) → K.faults sink.new ≡ K.faults sink.old }
    ensures unwritten { result.status ≡ 7 → sink.new ≡ sink.old }
{
    let Ok(text) = refusal_line(alloc, fault) else {
        return Report::unrun(alloc, 7, Some(fault));
    };
    let status = if write_all(sink, text.as_slice()).is_ok() {
        3
    } else {
        6
    };
    Report::unrun(alloc, status, Some(fault))
}

// Runs the script, and writes what is told of the run.
fn run_and_write<K: Sink>(alloc: Global, sink: &mut K, found: ReadScript, format: Format) -> Report
    ensures statuses { HasRun result.status ⊎ (result.status ≡ 6) ⊎ (result.status ≡ 7) }
    ensures refusal { result.refusal ≡ None }
    ensures live { result.live ≡ None }
    ensures machine { HasRun result.status ⊎ (result.status ≡ 6) → IsSome result.machine }
    ensures unmade { result.status ≡ 7 → result.machine ≡ None }
    ensures written { format ≡ Format.Trace → HasRun result.status → All (CanBeWritten found.script) result.journal.notes }
    ensures finished { result.status ≡ 0 → (text : List ℕ) × IsToldRun format found.text.items found.script false result.journal.notes result.machine text
        × Appends (K.taken sink.old) (K.taken sink.new) text }
    ensures stuck { result.status ≡ 4 → (text : List ℕ) × IsToldRun format found.text.items found.script true result.journal.notes result.machine text
        × Appends (K.taken sink.old) (K.taken sink.new) text }
    ensures part { result.status ≡ 6
        → IsPartlyTold format found.text.items found.script result.journal.notes result.machine (K.taken sink.old) (K.taken sink.new) }
    ensures write_fault { result.status ≡ 6
        → EndsInFault (K.faults sink.old) (K.faults sink.new) (K.faulted sink.new) }
    ensures uncounted { (result.status ≡ 6 → ⊥) → K.faults sink.new ≡ K.faults sink.old }
    ensures unwritten { result.status ≡ 7 → sink.new ≡ sink.old }
    ensures unrun { result.status ≡ 7 → result.journal.notes ≡ [] }
{
    let Ok(told) = tell_run(alloc, found, format) else {
        return Report::unrun(alloc, 7, None);
    };
    let written = write_all(sink, told.text.as_slice()).is_ok();
    Report {
        status: status_of(written, told.stuck),
        journal: told.journal,
        refusal: None,
        live: None,
        machine: Some(told.machine),
    }
}

// Runs the script that is made from the number, and writes its summary and the actors that are stuck.
fn make_and_write<K: Sink>(alloc: Global, sink: &mut K, n: u64) -> Report
    ensures statuses { IsMadeStatus result.status }
    ensures refusal { result.refusal ≡ None }
    ensures live { result.live ≡ None }
    ensures machine { result.machine ≡ None }
    ensures journal { result.journal.notes ≡ [] }
    ensures finished { result.status ≡ 0 → (text : List ℕ) × IsMadeRun n false text
        × Appends (K.taken sink.old) (K.taken sink.new) text }
    ensures stuck { result.status ≡ 4 → (text : List ℕ) × IsMadeRun n true text
        × Appends (K.taken sink.old) (K.taken sink.new) text }
    ensures part { result.status ≡ 6 → (stuck : Bool) × (text : List ℕ) × IsMadeRun n stuck text
        × AppendsPart (K.taken sink.old) (K.taken sink.new) text }
    ensures write_fault { result.status ≡ 6
        → EndsInFault (K.faults sink.old) (K.faults sink.new) (K.faulted sink.new) }
    ensures uncounted { (result.status ≡ 6 → ⊥) → K.faults sink.new ≡ K.faults sink.old }
    ensures unwritten { result.status ≡ 7 → sink.new ≡ sink.old }
{
    let Ok(told) = tell_made_run(alloc, n) else {
        return Report::unrun(alloc, 7, None);
    };
    let written = write_all(sink, told.text.as_slice()).is_ok();
    Report::unrun(alloc, status_of(written, told.stuck), None)
}

// The status of a script that has run.
fn status_of(written: bool, stuck: bool) -> u8
    ensures { result ≡ (if written then if stuck then 4 else 0 else 6) }
{
    match (written, stuck) {
        (true, false) => 0,
        (true, true) => 4,
        (false, _) => 6,
    }
}

// Says how the program is called.
fn show_usage<K: Sink>(alloc: Global, sink: &mut K) -> Report
    ensures statuses { (result.status ≡ 2) ⊎ (result.status ≡ 6) }
    ensures refusal { result.refusal ≡ None }
    ensures live { result.live ≡ None }
    ensures machine { result.machine ≡ None }
    ensures journal { result.journal.notes ≡ [] }
    ensures text { result.status ≡ 2 → Appends (K.taken sink.old) (K.taken sink.new) usage }
    ensures part { result.status ≡ 6 → AppendsPart (K.taken sink.old) (K.taken sink.new) usage }
    ensures write_fault { result.status ≡ 6
        → EndsInFault (K.faults sink.old) (K.faults sink.new) (K.faulted sink.new) }
    ensures uncounted { (result.status ≡ 6 → ⊥) → K.faults sink.new ≡ K.faults sink.old }
{
    let status = if write_all(sink, b"usage: gup COMMAND\n").is_ok() {
        2
    } else {
        6
    };
    Report::unrun(alloc, status, None)
}

/// What the program does. The words are those after its name: `run` reads a script from the source, to its end or past the
/// length of a script, runs it, and writes a line for each answer, and after these one for each actor that is stuck;
/// `trace` does the same, and writes the bytes of the script, the line `journal`, and a line for each note of the run's journal;
/// `make N` runs the script that is made from the number N, and writes four lines that count its answers, and after
/// these one for each actor that is stuck; it leaves the source unread. `check` reads a trace from the source, to its end or past
/// the length of a trace, and writes whether its notes are accepted: `yes`, `open`, or `no` and the number of the first that isn't.
///
/// The statuses: 0, the script ran, or the notes are accepted, and the sink took the whole text; 2, the words are no command;
/// 3, the bytes are no script, or no trace; 4, the same as 0, but that actors are stuck: they wait at the end of the run; 5, a
/// read failed; 6, a write failed; 7, memory ran out; 8, a note isn't accepted.
pub fn gup_serial<S: Source, K: Sink>(
    alloc: Global,
    words: &[String],
    source: &mut S,
    sink: &mut K,
) -> Report
    requires { RunsLive (map string_bytes words.now) → ⊥ }

    // What is said of each command, and of all of them: what was read, which status there is, what the sink took, and what the report has.
    ensures report { IsReport (map string_bytes words.now)
        (outside (S.remaining source.old) (S.faults source.old) (S.faulted source.old) (K.taken sink.old) (K.faults sink.old) (K.faulted sink.old))
        (outside (S.remaining source.new) (S.faults source.new) (S.faulted source.new) (K.taken sink.new) (K.faults sink.new) (K.faulted sink.new)) result }

    // Words that are no command leave the source unread, and so does `make N`. Nothing is written where a read failed or memory ran out.
    ensures unread { (IsCommand (map string_bytes words.now) → ⊥) ⊎ ((n : ℕ) × IsMake (map string_bytes words.now) n)
        → source.new ≡ source.old }
    ensures unwritten { (result.status ≡ 5) ⊎ (result.status ≡ 7) → sink.new ≡ sink.old }
{
    one_script();
    scripts_have_no_fault();
    accepted_notes_are_never_wrong();
    let Some(command) = command_of(words) else {
        return show_usage(alloc, sink);
    };
    let format = match command {
        Command::Make(n) => return make_and_write(alloc, sink, n),
        Command::Check => {
            let checked = check_source(alloc, source, sink);
            return Report::unrun(alloc, checked.status, checked.refusal);
        }
        Command::Run(format) => format,
    };
    match read(alloc, source) {
        Ok(found) => run_and_write(alloc, sink, found, format),
        Err(Unread::Failed) => Report::unrun(alloc, 5, None),
        Err(Unread::Fault(fault)) => refuse(alloc, sink, fault),
        Err(Unread::NoMemory) => Report::unrun(alloc, 7, None),
    }
}
