use crate::read_trace;
use gup_spec_grammar::{ReadRefusal, Reason, ScriptFault};
use std::alloc::Global;
use std::process::Abort;
use std::test::*;

/// A script of ten lines, and the line behind it.
const SCRIPT: &str =
    "gup 1\nframes 8 8 64\nprocess p\nchild c\nthread t p\ndevice d 64\nmover m\non t map 0 2 rw\non t store 0.0 5\non t pin h 0 1 write\njournal\n";

/// What may stand behind the script.
const NOTES: &str =
    "1 t 1 map p 0 2 rw\n1 t 1 done ok\n2 t 2 silent\n3 t 2 store p 0.0 5\n3 t 2 done ok\n4 t 3 pinok h\n4 t 3 done ok 1\n5 m 1 wait handle h\n6 d 1 idle\n";

/// What stands behind the script and may not, and the first fault of it.
const WRONG: [(&str, u32, Reason); 9] = [
    ("1 t 1 done ok", 12, Reason::Note),
    ("1 t 1 done ok\n\n", 13, Reason::Note),
    (
        "1 t 1 done ok\n2 u 1 silent\n3 u 1 silent\n",
        13,
        Reason::Note,
    ),
    ("\n", 12, Reason::Note),
    ("# x\n", 12, Reason::Note),
    ("journal\n", 12, Reason::Note),
    ("1 t 1 done ok\r\n", 12, Reason::Note),
    ("01 t 1 done ok\n", 12, Reason::Note),
    ("1 t 1 map q 0 2 rw\n", 12, Reason::Note),
];

/// Whole texts, and the first fault of each.
const TEXTS: [(&str, u32, Reason); 11] = [
    ("", 1, Reason::Short),
    ("journal\n", 1, Reason::Short),
    ("journal", 1, Reason::End),
    ("gup 1\nframes 8 8 64\n", 3, Reason::Short),
    ("gup 1\nframes 8 8 64\n\n", 4, Reason::Short),
    ("gup 1\nframes 8 8 64\njournal", 3, Reason::End),
    ("gup 1\nframes 8 8 64\njournal \n", 3, Reason::Space),
    ("gup 1\nframes 8 8 64\njournal\r\n", 3, Reason::Byte),
    (
        "gup 1\nframes 8 8 64\nwrong\njournal\nwrong\n",
        3,
        Reason::Word,
    ),
    ("gup 1\njournal\nframes 8 8 64\n", 2, Reason::Short),
    (
        "gup 1\nframes 8 8 64\njournal\nprocess p\n",
        4,
        Reason::Note,
    ),
];

/// The fault for which the text is refused.
fn fault(alloc: Global, text: &[u8]) -> Result<ScriptFault, Fail> {
    match read_trace(alloc, text) {
        Ok(_) => Err("a trace")?,
        Err(ReadRefusal::NoMemory) => Err("no memory")?,
        Err(ReadRefusal::Fault(fault)) => Ok(fault),
    }
}

/// Each text is this head and the first part of a row, and has the fault of that row.
fn expect_faults(
    rt: &impl Abort,
    alloc: Global,
    head: &str,
    rows: &[(&str, u32, Reason)],
) -> Result<(), Fail> {
    for (lines, line, reason) in rows {
        let text = format!(in alloc; "{head}{lines}")?;
        let expected = ScriptFault {
            line: *line,
            reason: *reason,
        };
        assert_eq!(rt; fault(alloc, text.as_bytes())?, expected, "{lines}");
    }
    Ok(())
}

/// How many notes stand behind the script.
fn count_notes(alloc: Global, notes: &str) -> Result<usize, Fail> {
    let text = format!(in alloc; "{SCRIPT}{notes}")?;
    match read_trace(alloc, text.as_bytes()) {
        Ok(trace) => Ok(trace.journal.notes().len()),
        Err(_) => Err("no trace")?,
    }
}

#[test]
fn notes_are_read(rt: HostRuntime) -> Result<(), Fail> {
    assert_eq!(rt; count_notes(rt.alloc(), NOTES)?, 9);
    assert_eq!(rt; count_notes(rt.alloc(), "")?, 0);
    Ok(())
}

#[test]
fn wrong_notes_are_told(rt: HostRuntime) -> Result<(), Fail> {
    expect_faults(&rt, rt.alloc(), SCRIPT, WRONG.as_slice())
}

#[test]
fn wrong_texts_are_told(rt: HostRuntime) -> Result<(), Fail> {
    expect_faults(&rt, rt.alloc(), "", TEXTS.as_slice())
}
