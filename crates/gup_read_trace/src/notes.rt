//! The notes behind the line `journal`.
ghost use Rattle.std.specs.Prelude.{◌≡◌, ◌+◌, ◌^◌, ◌<◌, length, IfOk, IfErr};
ghost use Rattle.gup_spec_trace.specs.Names.{AreNames};
ghost use Rattle.gup_read_trace.specs.Notes.{IsTaken, AreNotes, IsNoteRefusal};

use crate::lines::cut_line;
use gup_base::NoMemory;
use gup_plain::Journal;
use gup_read_notes::{Names, read_note};
use gup_script::Script;
use gup_spec_grammar::{ReadRefusal, Reason, ScriptFault};
use std::alloc::Global;

/// Puts the note whose line the bytes begin with on the journal, and answers what stands behind that line; `None` where they begin with
/// no note's line.
fn take_note<'a>(
    script: &Script,
    names: &Names,
    rest: &'a [u8],
    words: &mut Vec<&'a str>,
    journal: &mut Journal,
) -> Result<Option<&'a [u8]>, NoMemory>
    requires of { names.now ≡ script.now }
    requires names { AreNames script.now }
    ensures { IfOk result (λ found. IsTaken script.now rest.now journal.old.notes journal.new.notes found) }
{
    let Some((line, behind)) = cut_line(rest) else {
        return Ok(None);
    };
    let Some(note) = read_note(script, names, line, words)? else {
        return Ok(None);
    };
    journal.push(note)?;
    Ok(Some(behind))
}

/// The notes whose lines the bytes are, behind so many lines and the line `journal`.
pub(crate) fn read_notes(
    alloc: Global,
    script: &Script,
    names: &Names,
    lines: u32,
    text: &[u8],
) -> Result<Journal, ReadRefusal>
    requires of { names.now ≡ script.now }
    requires names { AreNames script.now }
    requires fits { lines + length text.now + 2 < 2 ^ 32 }
    ensures found { IfOk result (λ journal. AreNotes script.now text.now journal.notes) }
    ensures refused { IfErr result (IsNoteRefusal script.now lines text.now) }
{
    let mut journal = Journal::new(alloc);
    let mut words = Vec::new(alloc);
    let mut rest = text;
    let mut number = lines + 2;
    while !rest.is_empty() {
        match take_note(script, names, rest, &mut words, &mut journal) {
            Ok(Some(behind)) => rest = behind,
            Ok(None) => {
                return Err(ReadRefusal::Fault(ScriptFault {
                    line: number,
                    reason: Reason::Note,
                }));
            }
            Err(NoMemory) => return Err(ReadRefusal::NoMemory),
        }
        number += 1;
    }
    Ok(journal)
}
