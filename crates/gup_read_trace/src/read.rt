//! The reader of a trace.
ghost use Rattle.std.specs.Prelude.{◌+◌, ◌≤◌, ℕ, List, length, IfOk, IfErr, OnOk};
ghost use Rattle.gup_spec_trace.specs.Trace.{IsTrace, HasNoJournal, most_bytes};
ghost use Rattle.gup_read_trace.specs.Refusal.{IsTraceRefusal};
ghost use Rattle.gup_read_trace.specs.Parts.{IsPartedAt};

use crate::lines::{Parted, count_feeds, part};
use crate::notes::read_notes;
use gup_law_names::scripts_have_names;
use gup_plain::Journal;
use gup_read::read_script;
use gup_read_notes::Names;
use gup_script::Script;
use gup_spec_grammar::{ReadRefusal, Reason, ScriptFault};
use std::alloc::Global;

/// How many bytes a trace may have.
const MAX_BYTES: usize = 67_108_864;

/// A script, and the notes behind it.
#[derive(Debug, Drop)]
pub struct Trace {
    pub script: Script,
    pub journal: Journal,
}

/// The trace in these parts of a text.
fn read_parted(alloc: Global, parted: Parted<'_>) -> Result<Trace, ReadRefusal>
    requires few { parted.lines + length parted.behind.now ≤ most_bytes }
    ensures found { (text : List ℕ) → IsPartedAt text parted.entry → IfOk result (λ trace. IsTrace text trace.script trace.journal.notes) }
    ensures refused { (text : List ℕ) → length text ≤ most_bytes → IsPartedAt text parted.entry → IfErr result (IsTraceRefusal text) }
{
    let script = read_script(alloc, parted.front)?;
    scripts_have_names();
    let Ok(names) = Names::of(alloc, &script) else {
        return Err(ReadRefusal::NoMemory);
    };
    let journal = read_notes(alloc, &script, &names, parted.lines, parted.behind)?;
    Ok(Trace { script, journal })
}

/// Why a text without the line `journal` is no trace.
fn refused_whole(alloc: Global, text: &[u8]) -> ReadRefusal
    requires few { length text.now ≤ most_bytes }
    requires journal { HasNoJournal text.now }
    ensures { IsTraceRefusal text.now result }
{
    match read_script(alloc, text) {
        Err(refusal) => refusal,
        Ok(_script) => ReadRefusal::Fault(ScriptFault {
            line: count_feeds(text) as u32 + 1,
            reason: Reason::Short,
        }),
    }
}

/// The trace that the bytes are: the text of a script, the line `journal`, and a line for each note of a journal. They are at most
/// 67,108,864. A refusal is because allocation failed, or tells the first line that isn't right, from 1: one of the script, with
/// the fault that `read_script` tells, or else the first behind `journal` that is no note (`Note`). Where there is no line
/// `journal` and all is a script, the text ends too early (`Short`, in the line after the last), and where there are too many bytes
/// it is too long (`Long`, in line 0). It takes time that is linear in the bytes and in the turns that the script writes.
pub fn read_trace(alloc: Global, text: &[u8]) -> Result<Trace, ReadRefusal>
    ensures found { IfOk result (λ trace. IsTrace text.now trace.script trace.journal.notes) }
    ensures fits { OnOk result (length text.now ≤ most_bytes) }
    ensures refused { IfErr result (IsTraceRefusal text.now) }
{
    if text.len() > MAX_BYTES {
        return Err(ReadRefusal::Fault(ScriptFault {
            line: 0,
            reason: Reason::Long,
        }));
    }
    match part(text) {
        Some(parted) => read_parted(alloc, parted),
        None => Err(refused_whole(alloc, text)),
    }
}
