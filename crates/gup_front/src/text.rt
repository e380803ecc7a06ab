//! The lines that programs write beside those of a journal.
ghost use Rattle.std.specs.Prelude.{◌≡◌, ◌++◌, Some, IfOk, OnOk};
ghost use Rattle.gup_plain.specs.declared.note.Waiting.{Waiting as WaitingValue};
ghost use Rattle.gup_lines.specs.Text.{NamesWaiting};
ghost use Rattle.gup_front.specs.Lines.{reason_text, refusal_text, stuck_of};

use gup_base::{ActorNo, NoMemory};
use gup_lines::{push_number, push_stuck, push_text};
use gup_plain::Waiting;
use gup_script::Script;
use gup_spec_grammar::{Reason, ScriptFault};
use std::alloc::Global;

/// Appends the line of an actor, if it waits: for a process or a handle of the script.
pub fn push_stuck_line(
    script: &Script,
    actor: ActorNo,
    waiting: Option<Waiting>,
    text: &mut Vec<u8>,
) -> Result<(), NoMemory>
    requires { (w : WaitingValue) → waiting ≡ Some w → NamesWaiting script.now w }
    ensures { OnOk result (text.new.items ≡ text.old.items ++ stuck_of script.now actor waiting) }
{
    match waiting {
        Some(waiting) => push_stuck(script, actor, waiting, text),
        None => Ok(()),
    }
}

/// The line of a refused script: `line n: reason`.
pub fn refusal_line(alloc: Global, fault: ScriptFault) -> Result<Vec<u8>, NoMemory>
    ensures { IfOk result (λ text. text.items ≡ refusal_text fault) }
{
    let mut text = Vec::new(alloc);
    push_text(&mut text, "line ")?;
    push_number(&mut text, u64::from(fault.line))?;
    push_text(&mut text, ": ")?;
    push_text(&mut text, reason_name(fault.reason))?;
    push_text(&mut text, "\n")?;
    Ok(text)
}

fn reason_name(reason: Reason) -> &'static str
    ensures { result.now ≡ reason_text reason }
{
    match reason {
        Reason::Long => "long",
        Reason::Byte => "byte",
        Reason::End => "end",
        Reason::Space => "space",
        Reason::Head => "head",
        Reason::Frames => "frames",
        Reason::Word => "word",
        Reason::Shape => "shape",
        Reason::Number => "number",
        Reason::Name => "name",
        Reason::Twice => "twice",
        Reason::Limit => "limit",
        Reason::Later => "later",
        Reason::Short => "short",
        Reason::Note => "note",
    }
}
