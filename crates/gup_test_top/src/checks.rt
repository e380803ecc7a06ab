//! Tests of the command `check`.
use crate::calls::ran;
use crate::tests::{FIRST, expect, expect_with_faults};
use gup_io::NoPace;
use gup_spec_grammar::{Reason, ScriptFault};
use gup_test_cases::EXAMPLES;
use std::alloc::Global;
use std::marker::Sync;
use std::process::Abort;
use std::sync::Wait;
use std::test::Fail;
use std::thread::Threads;

/// The notes of the first run.
const NOTES: &str =
    "1 t 1 map p 5 1 rw\n1 t 1 done ok\n2 t 2 load p 5.0 0\n2 t 2 done ok 0\n3 t 3 store p 5.0 7\n3 t 3 done ok\n4 t 4 load p 5.0 7\n4 t 4 done ok 7\n5 t 5 unmap p 5\n5 t 5 done ok\n6 t 6 done missing\n";

/// Notes behind the script of the first run, with the verdicts on them.
const VERDICTS: [(&str, u8, &str); 16] = [
    (NOTES, 0, "yes\n"),
    ("", 0, "open\n"),
    ("1 t 1 map p 5 1 rw\n", 0, "open\n"),
    // Silent turns may stand anywhere in an operation.
    (
        "1 t 1 silent\n2 t 1 silent\n3 t 1 map p 5 1 rw\n3 t 1 done ok\n",
        0,
        "open\n",
    ),
    // Another value, another page, another actor's word for it.
    (
        "1 t 1 map p 5 1 rw\n1 t 1 done ok\n2 t 2 load p 5.0 8\n2 t 2 done ok 8\n",
        8,
        "no 3\n",
    ),
    (
        "1 t 1 map p 5 1 rw\n1 t 1 done ok\n2 t 2 load p 5.0 0\n2 t 2 done ok 8\n",
        8,
        "no 4\n",
    ),
    ("1 t 1 map p 6 1 rw\n", 8, "no 1\n"),
    (
        "1 t 1 map p 5 1 rw\n1 t 1 done ok\n2 t 2 load p 5.1 0\n",
        8,
        "no 3\n",
    ),
    // Another turn, another operation, a note too many.
    ("2 t 1 map p 5 1 rw\n", 8, "no 1\n"),
    ("1 t 1 map p 5 1 rw\n3 t 1 done ok\n", 8, "no 2\n"),
    ("1 t 2 map p 5 1 rw\n", 8, "no 1\n"),
    (
        "1 t 1 map p 5 1 rw\n1 t 1 done ok\n1 t 1 done ok\n",
        8,
        "no 3\n",
    ),
    // Answers that the plain state doesn't give.
    ("1 t 1 done overlap\n", 8, "no 1\n"),
    (
        "1 t 1 map p 5 1 rw\n1 t 1 done ok\n2 t 2 done missing\n",
        8,
        "no 3\n",
    ),
    // Who isn't at an end isn't idle, and who waits has a cause.
    ("1 t 1 idle\n", 8, "no 1\n"),
    ("1 t 1 wait process p\n", 8, "no 1\n"),
];

/// Traces of other scripts, with the verdicts on them: what is checked of each kind of operation beside its own events.
const OTHERS: [(&str, u8, &str); 12] = [
    // A written turn is of the written actor.
    (
        "gup 1\nframes 8 8 64\nprocess p\nthread t p\nthread u p\non t load 5.0\non u load 5.0\nturns u\njournal\n1 t 1 done missing\n",
        8,
        "no 1\n",
    ),
    (
        "gup 1\nframes 8 8 64\nprocess p\nthread t p\nthread u p\non t load 5.0\non u load 5.0\nturns u\njournal\n1 u 1 done missing\n2 t 1 done missing\n3 t 2 idle\n",
        0,
        "yes\n",
    ),
    // A short pin ends with its own cause.
    (
        "gup 1\nframes 8 8 64\nprocess p\nthread t p\non t map 5 1 rw\non t pin h 5 2 write\njournal\n1 t 1 map p 5 1 rw\n1 t 1 done ok\n2 t 2 pintry p 5 write\n3 t 2 pinok h\n3 t 2 done ok 1 of 2 missing\n",
        0,
        "yes\n",
    ),
    (
        "gup 1\nframes 8 8 64\nprocess p\nthread t p\non t map 5 1 rw\non t pin h 5 2 write\njournal\n1 t 1 map p 5 1 rw\n1 t 1 done ok\n2 t 2 pintry p 5 write\n3 t 2 pinok h\n3 t 2 done ok 1 of 2 forbidden\n",
        8,
        "no 5\n",
    ),
    // Want of a frame is no denial, and may be anywhere.
    (
        "gup 1\nframes 8 8 64\nprocess p\nthread t p\non t map 5 1 rw\non t pin h 5 1 write\njournal\n1 t 1 map p 5 1 rw\n1 t 1 done ok\n2 t 2 done noframe\n",
        0,
        "yes\n",
    ),
    // A store between two loads is seen, and an older value isn't.
    (
        "gup 1\nframes 8 8 64\nprocess p\nthread t p\nthread u p\non t map 5 1 rw\non t load 5.0\non u store 5.0 7\njournal\n1 t 1 map p 5 1 rw\n1 t 1 done ok\n2 u 1 store p 5.0 7\n2 u 1 done ok\n3 t 2 load p 5.0 0\n",
        8,
        "no 5\n",
    ),
    // A discard passes no page that is there all the time, and one that comes later.
    (
        "gup 1\nframes 8 8 64\nprocess p\nthread t p\non t map 5 2 rw\non t discard 5 2\njournal\n1 t 1 map p 5 2 rw\n1 t 1 done ok\n2 t 2 discard p 6\n",
        8,
        "no 3\n",
    ),
    (
        "gup 1\nframes 8 8 64\nprocess p\nthread t p\nthread u p\non t map 6 1 rw\non t discard 5 2\non u map 5 1 rw\njournal\n1 t 1 map p 6 1 rw\n1 t 1 done ok\n2 t 2 silent\n3 u 1 map p 5 1 rw\n3 u 1 done ok\n4 t 2 discard p 6\n4 t 2 done ok\n",
        0,
        "yes\n",
    ),
    // A fork copies the word of its own page, and waits end where they must.
    (
        "gup 1\nframes 8 8 64\nprocess p\nchild c\nthread t p\nthread u c\non t map 5 1 rw\non t fork c\non u load 5.0\njournal\n1 u 1 wait process c\n2 t 1 map p 5 1 rw\n2 t 1 done ok\n3 t 2 forkbegin p c\n4 u 1 wait process c\n5 t 2 forkpage p c 5\n6 t 2 forkend p c\n6 t 2 done ok\n7 u 1 load c 5.0 0\n7 u 1 done ok 0\n",
        0,
        "yes\n",
    ),
    (
        "gup 1\nframes 8 8 64\nprocess p\nchild c\nthread t p\nthread u c\non t map 5 1 rw\non t fork c\njournal\n1 t 1 map p 5 1 rw\n1 t 1 done ok\n2 t 2 forkbegin p c\n3 t 2 forkpage p c 6\n",
        8,
        "no 4\n",
    ),
    (
        "gup 1\nframes 8 8 64\nprocess p\nchild c\nthread t p\nthread u c\non t fork c\non u load 5.0\njournal\n1 t 1 forkbegin p c\n2 t 1 forkend p c\n2 t 1 done ok\n3 u 1 wait process c\n",
        8,
        "no 4\n",
    ),
    // Who waits for a lock names one who holds it.
    (
        "gup 1\nframes 8 8 64\nprocess p\nchild c\nthread t p\nthread u p\non t fork c\non u load 5.0\njournal\n1 u 1 wait actor t\n",
        8,
        "no 1\n",
    ),
];

fn expect_verdict(
    rt: &(impl Abort + Threads + Wait + Sync),
    alloc: Global,
    notes: &str,
    status: u8,
    verdict: &str,
) -> Result<(), Fail> {
    let trace = format!(in alloc; "{FIRST}journal\n{notes}")?;
    let report = expect(rt, alloc, &["check"], trace.as_str(), status, verdict)?;
    assert!(rt; report.journal.notes().is_empty());
    assert_eq!(rt; report.refusal, None);
    Ok(())
}

#[test]
fn verdicts(rt: HostRuntime) -> Result<(), Fail> {
    for (notes, status, verdict) in &VERDICTS {
        expect_verdict(&rt, rt.alloc(), notes, *status, verdict)?;
    }
    for (trace, status, verdict) in &OTHERS {
        expect(&rt, rt.alloc(), &["check"], trace, *status, verdict)?;
    }
    Ok(())
}

/// The notes of the trace of this script are accepted.
fn expect_checked(
    rt: &(impl Abort + Threads + Wait + Sync),
    alloc: Global,
    script: &str,
    trace: &[u8],
    verdict: &str,
) -> Result<(), Fail> {
    let (report, sink) = ran(rt, alloc, &["check"], trace, 99, &NoPace)?;
    assert_eq!(rt; report.status, 0, "{script}");
    assert_eq!(rt; sink.bytes(), verdict.as_bytes(), "{script}");
    Ok(())
}

/// The trace of each example is accepted: wholly where its run has finished, and openly where actors are stuck.
fn expect_accepted(
    rt: &(impl Abort + Threads + Wait + Sync),
    alloc: Global,
    script: &str,
    status: u8,
) -> Result<(), Fail> {
    let input = script.as_bytes();
    let (report, sink) = ran(rt, alloc, &["trace"], input, 1_000_000, &NoPace)?;
    assert_eq!(rt; report.status, status, "{script}");
    let verdict = if status == 0 { "yes\n" } else { "open\n" };
    expect_checked(rt, alloc, script, sink.bytes(), verdict)
}

#[test]
fn traces_of_examples(rt: HostRuntime) -> Result<(), Fail> {
    for (script, status, _text) in EXAMPLES {
        expect_accepted(&rt, rt.alloc(), script, status)?;
    }
    Ok(())
}

/// What is behind the first script makes no trace of it.
fn expect_no_trace(
    rt: &(impl Abort + Threads + Wait + Sync),
    alloc: Global,
    behind: &str,
    fault: ScriptFault,
    text: &str,
) -> Result<(), Fail> {
    let input = format!(in alloc; "{FIRST}{behind}")?;
    let report = expect(rt, alloc, &["check"], input.as_str(), 3, text)?;
    assert_eq!(rt; report.refusal, Some(fault));
    Ok(())
}

/// Texts that are no traces.
#[test]
fn refused_traces(rt: HostRuntime) -> Result<(), Fail> {
    for (behind, line, reason, text) in [
        ("", 11, Reason::Short, "line 11: short\n"),
        (
            "journal\n1 t 1 map p 05 1 rw\n",
            12,
            Reason::Note,
            "line 12: note\n",
        ),
        (
            "journal\n1 t 1 map p 5 1 rw\n1 u 1 silent\n",
            13,
            Reason::Note,
            "line 13: note\n",
        ),
        ("on t\njournal\n", 11, Reason::Shape, "line 11: shape\n"),
    ] {
        expect_no_trace(&rt, rt.alloc(), behind, ScriptFault { line, reason }, text)?;
    }
    Ok(())
}

/// The status of a verdict gives way to that of a write that failed, and a read that fails leaves nothing written.
#[test]
fn checks_and_faults(rt: HostRuntime) -> Result<(), Fail> {
    let trace = format!(in rt.alloc(); "{FIRST}journal\n1 t 2 silent\n1 t 1 done ok\n")?;
    let input = trace.as_str();
    for (faults, status, text) in [
        ((9, 0, 99), 8, "no 2\n"),
        ((9, 0, 3), 6, "no "),
        ((1, 0, 99), 5, ""),
    ] {
        expect_with_faults(&rt, rt.alloc(), &["check"], input, faults, status, text)?;
    }
    Ok(())
}
