//! The text of a run.
ghost use Rattle.std.specs.Prelude.{◌≡◌, ℕ, ◌++◌, Some, IfOk, OnOk};
ghost use Rattle.gup_plain.specs.declared.note.Waiting.{Waiting as WaitingValue};
ghost use Rattle.gup_spec_turns.specs.Cause.{WaitsForBirthOrPin};
ghost use Rattle.gup_spec_turns.specs.Run.{RunState, waiting_in};
ghost use Rattle.gup_core.specs.Machine.{Shows};
ghost use Rattle.gup_lines.specs.Text.{text_of};
ghost use Rattle.gup_top.specs.Stuck.{stuck_text};

use gup_base::{ActorNo, NoMemory};
use gup_core::Machine;
use gup_front::push_stuck_line;
use gup_lines::push_lines;
use gup_plain::Journal;
use gup_script::Script;
use std::alloc::Global;

/// The text of a journal: a line for each answer, in order.
pub fn journal_text(alloc: Global, script: &Script, journal: &Journal) -> Result<Vec<u8>, NoMemory>
    ensures { IfOk result (λ text. text.items ≡ text_of script.now journal.now.notes) }
{
    let mut text = Vec::new(alloc);
    push_lines(alloc, script, journal, &mut text)?;
    Ok(text)
}

/// Appends a line for each actor that waits, in declared order, with what it waits for. The machine shows a state in
/// which that is always a process to be born, or a pin to be given.
pub fn push_stuck_lines(
    script: &Script,
    machine: &Machine,
    text: &mut Vec<u8>,
) -> Result<(), NoMemory>
    requires same { machine.now.script ≡ script.now }
    requires named { (r : RunState) × Shows machine.now r
        × ((a : ℕ) (waiting : WaitingValue) → waiting_in script.now r a ≡ Some waiting → WaitsForBirthOrPin script.now waiting) }
    ensures { OnOk result ((r : RunState) → Shows machine.now r → text.new.items ≡ text.old.items ++ stuck_text script.now r) }
{
    for k in 0..script.actors() {
        let actor = ActorNo::new(u64::from(k)).unwrap();
        push_stuck_line(script, actor, machine.waits(actor), text)?;
    }
    Ok(())
}
