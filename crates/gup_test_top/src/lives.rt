//! Tests of the command `live`.
use crate::calls::ran;
use crate::tests::expect_with_faults;
use gup_base::ActorNo;
use gup_io::{NoPace, Pace};
use gup_lines::{name_of, push_text};
use gup_make::make_text;
use gup_read::read_script;
use gup_script::Script;
use gup_spec_grammar::{Reason, ScriptFault};
use gup_top::Report;
use gup_trace::push_journal;
use std::alloc::Global;
use std::marker::Sync;
use std::process::Abort;
use std::sync::Wait;
use std::sync::atomic::{AtomicU64, Ordering};
use std::test::Fail;
use std::thread;
use std::thread::Threads;

/// A process with a child, threads of both, a device and the mover.
const HEAD: &str =
    "gup 1\nframes 8 8 64\nprocess p\nchild c\nthread t p\nthread v p\nthread u c\ndevice d 8\nmover m\n";

/// A pin that a device is given and writes to, while its owner goes on: the operations, and the answers.
const GIVEN: (&str, &str) = (
    "on t map 5 1 rw\non t pin h 5 1 write\non t give h d\non t load 5.0\non d take h\non d in h 0 0 1\n",
    "t 1 ok\nt 2 ok 1\nt 3 ok\nt 4 ok 0\nd 1 ok\nd 2 ok 0\n",
);

/// One operation of each of four actors.
const APART: (&str, &str) = (
    "on t map 5 1 rw\non v map 6 1 rw\non d mirror a p 9\non m move p 9 normal\n",
    "t 1 ok\nv 1 ok\nd 1 missing\nm 1 missing\n",
);

/// A direct I/O buffer: operations of every kind that a pin and its device have.
const BUFFER: (&str, &str) = (
    "on t map 256 4 rw\non t store 256.511 1\non t store 257.0 2\non t pinfast h 256 4 write\non t give h d\non d take h\non d out h 511 0 2\non d inv h 0 1024:1 1536:1\non d give h t\non t take h\non t unpin h\non t load 258.0\non t load 259.0\n",
    "t 1 ok\nt 2 ok\nt 3 ok\nt 4 ok 4\nt 5 ok\nt 6 ok\nt 7 ok\nt 8 ok 1\nt 9 ok 2\nd 1 ok\nd 2 ok 1 2\nd 3 ok 1 2\nd 4 ok\n",
);

/// A fork whose child waits for it, and writes that come apart. The written turns are not read: the first is of an actor that waits.
const FORKED: (&str, &str) = (
    "on t map 5 1 rw\non t store 5.0 7\non t fork c\non t store 5.0 8\non t load 5.0\non u load 5.0\non u store 5.0 9\non u load 5.0\nturns u*3 t\n",
    "t 1 ok\nt 2 ok\nt 3 ok\nt 4 ok\nt 5 ok 8\nu 1 ok 7\nu 2 ok\nu 3 ok 9\n",
);

/// How often a gate looks whether the others have come, before it gives up.
const MOST_LOOKS: u32 = 10_000_000;

/// Holds each of these actors at an operation until all of them have come to theirs. No run passes it in which one actor's turns
/// stand behind all of another's.
#[derive(Drop)]
struct Gate<'a> {
    meets: &'a [(u64, u32)],
    come: AtomicU64,
    missed: AtomicU64,
}

impl<'a> Gate<'a> {
    fn at(meets: &'a [(u64, u32)]) -> Gate<'a> {
        Gate {
            meets,
            come: AtomicU64::new(0),
            missed: AtomicU64::new(0),
        }
    }
}

impl<'a> Pace for Gate<'a> {
    fn before(&self, actor: ActorNo, op: u32) {
        if !self.meets.contains(&(actor.get(), op)) {
            return;
        }
        self.come.fetch_add(1, Ordering::SeqCst);
        for _ in 0..MOST_LOOKS {
            if self.come.load(Ordering::SeqCst) == self.meets.len() as u64 {
                return;
            }
            thread::yield_now();
        }
        self.missed.store(1, Ordering::SeqCst);
    }
}

/// Counts the operations that it is told of, and those that are not the next of their actor.
#[derive(Drop)]
struct Counts {
    next: [AtomicU64; 5],
    wrong: AtomicU64,
}

impl Pace for Counts {
    fn before(&self, actor: ActorNo, op: u32) {
        let Some(next) = self.next.get(actor.get() as usize) else {
            self.wrong.store(1, Ordering::SeqCst);
            return;
        };
        if next.fetch_add(1, Ordering::SeqCst).saturating_add(1) != u64::from(op) {
            self.wrong.store(1, Ordering::SeqCst);
        }
    }
}

/// The script with these operations behind the lines that declare its actors.
fn script_of(alloc: Global, operations: &str) -> Result<String, Fail> {
    Ok(format!(in alloc; "{HEAD}{operations}")?)
}

/// Runs the script by `live`, and wants this text.
fn expect_live<R: Abort + Threads + Wait + Sync, P: Pace + Sync>(
    rt: &R,
    alloc: Global,
    script: &str,
    pace: &P,
    status: u8,
    text: &str,
) -> Result<Report, Fail> {
    let (report, sink) = ran(rt, alloc, &["live"], script.as_bytes(), 20_000, pace)?;
    assert_eq!(rt; report.status, status, "{script}");
    assert_eq!(rt; sink.bytes(), text.as_bytes(), "{script}");
    assert!(rt; report.journal.notes().is_empty());
    Ok(report)
}

/// Runs the script once, and no actor may miss the others at the gate.
fn expect_met<R: Abort + Threads + Wait + Sync>(
    rt: &R,
    alloc: Global,
    script: &str,
    text: &str,
    meets: &[(u64, u32)],
) -> Result<(), Fail> {
    let gate = Gate::at(meets);
    expect_live(rt, alloc, script, &gate, 0, text)?;
    assert_eq!(rt; gate.missed.load(Ordering::SeqCst), 0, "{script}");
    Ok(())
}

/// Each thread holds its actor alone: actors meet in the middle of their operations, a hundred times.
#[test]
fn actors_meet(rt: HostRuntime) -> Result<(), Fail> {
    let given = script_of(rt.alloc(), GIVEN.0)?;
    let apart = script_of(rt.alloc(), APART.0)?;
    for _ in 0..100 {
        expect_met(&rt, rt.alloc(), given.as_str(), GIVEN.1, &[(0, 4), (3, 2)])?;
        let all = [(0, 1), (1, 1), (3, 1), (4, 1)];
        expect_met(&rt, rt.alloc(), apart.as_str(), APART.1, &all)?;
    }
    Ok(())
}

/// Runs the script once, and each actor may be told of so many operations.
fn expect_told<R: Abort + Threads + Wait + Sync>(
    rt: &R,
    alloc: Global,
    case: (&str, &str),
    counts: [u64; 5],
) -> Result<(), Fail> {
    let pace = Counts {
        next: [
            AtomicU64::new(0),
            AtomicU64::new(0),
            AtomicU64::new(0),
            AtomicU64::new(0),
            AtomicU64::new(0),
        ],
        wrong: AtomicU64::new(0),
    };
    let script = script_of(alloc, case.0)?;
    expect_live(rt, alloc, script.as_str(), &pace, 0, case.1)?;
    assert_eq!(rt; pace.wrong.load(Ordering::SeqCst), 0);
    for k in 0..5 {
        assert_eq!(rt; pace.next[k].load(Ordering::SeqCst), counts[k]);
    }
    Ok(())
}

/// The pace is told of each operation of an actor once, in order, and of no other.
#[test]
fn each_operation_is_told_to_the_pace(rt: HostRuntime) -> Result<(), Fail> {
    expect_told(&rt, rt.alloc(), GIVEN, [4, 0, 0, 2, 0])?;
    expect_told(&rt, rt.alloc(), APART, [1, 1, 0, 1, 1])?;
    expect_told(&rt, rt.alloc(), BUFFER, [9, 0, 0, 4, 0])?;
    expect_told(&rt, rt.alloc(), FORKED, [5, 0, 3, 0, 0])?;
    expect_told(&rt, rt.alloc(), ("", ""), [0, 0, 0, 0, 0])
}

/// The script with these written turns behind it.
fn with_turns(
    alloc: Global,
    text: &str,
    script: &Script,
    order: &[ActorNo],
) -> Result<Vec<u8>, Fail> {
    let mut written = text.as_bytes().to_vec(alloc)?;
    push_text(&mut written, "turns")?;
    for actor in order {
        push_text(&mut written, " ")?;
        push_text(&mut written, name_of(script, *actor))?;
    }
    push_text(&mut written, "\n")?;
    Ok(written)
}

/// Runs the program without threads, and wants status 0 and this text.
fn expect_text<R: Abort + Threads + Wait + Sync>(
    rt: &R,
    alloc: Global,
    word: &str,
    input: &[u8],
    text: &[u8],
) -> Result<(), Fail> {
    let (report, sink) = ran(rt, alloc, &[word], input, 2_000_000, &NoPace)?;
    assert_eq!(rt; report.status, 0);
    assert_eq!(rt; sink.bytes(), text);
    Ok(())
}

/// Runs the script by `live`, and then again with the order that its threads have found as its written turns: the trace has the very
/// notes of the first run, and is accepted.
fn expect_again<R: Abort + Threads + Wait + Sync>(
    rt: &R,
    alloc: Global,
    text: &str,
    answers: usize,
) -> Result<(), Fail> {
    let (report, _sink) = ran(rt, alloc, &["live"], text.as_bytes(), 20_000, &NoPace)?;
    let (Some(live), Ok(script)) = (report.live, read_script(alloc, text.as_bytes())) else {
        panic!(rt; "{text}");
    };
    assert_eq!(rt; live.outcomes().len(), answers);
    let written = with_turns(alloc, text, &script, live.order())?;
    let mut trace = written.as_slice().to_vec(alloc)?;
    push_journal(&script, live.notes(), &mut trace)?;
    expect_text(rt, alloc, "trace", written.as_slice(), trace.as_slice())?;
    expect_text(rt, alloc, "check", trace.as_slice(), "yes\n".as_bytes())
}

#[test]
fn an_order_can_be_run_again(rt: HostRuntime) -> Result<(), Fail> {
    for ((operations, _text), answers) in [(GIVEN, 6), (APART, 4), (BUFFER, 13)] {
        let script = script_of(rt.alloc(), operations)?;
        expect_again(&rt, rt.alloc(), script.as_str(), answers)?;
    }
    let made = String::from_utf8(make_text(rt.alloc(), 1)?)?;
    // The turns that the made script has of its own stand in its last line.
    let Some((operations, _turns)) = made.as_str().split_once("random") else {
        panic!(&rt; "made");
    };
    expect_again(&rt, rt.alloc(), operations, 166)
}

/// The status of `live` over a source and a sink whose calls fail where the numbers say, and what the sink took.
fn expect_faults<R: Abort + Threads + Wait + Sync>(
    rt: &R,
    alloc: Global,
    faults: (u32, u32, usize),
    status: u8,
    text: &str,
) -> Result<(), Fail> {
    let script = script_of(alloc, APART.0)?;
    let input = script.as_str();
    let report = expect_with_faults(rt, alloc, &["live"], input, faults, status, text)?;
    assert_eq!(rt; report.live.is_some(), status != 5);
    Ok(())
}

/// Sources and sinks that fail, and a text that is no script: as of `run`.
#[test]
fn faults_of_live(rt: HostRuntime) -> Result<(), Fail> {
    expect_faults(&rt, rt.alloc(), (1, 0, 99), 5, "")?;
    expect_faults(&rt, rt.alloc(), (0, 0, 99), 0, APART.1)?;
    expect_faults(&rt, rt.alloc(), (0, 1, 99), 6, "")?;
    expect_faults(&rt, rt.alloc(), (0, 0, 7), 6, "t 1 ok\n")?;
    let report = expect_live(&rt, rt.alloc(), "gup 1\n", &NoPace, 3, "line 2: short\n")?;
    let (line, reason) = (2, Reason::Short);
    assert_eq!(&rt; report.refusal, Some(ScriptFault { line, reason }));
    Ok(())
}
