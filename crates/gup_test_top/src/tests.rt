ghost use Rattle.std.specs.Prelude.{None};

use crate::calls::{called, ran, ran_with_faults};
use gup_io::{Failed, NoPace, Sink, Source};
use gup_spec_grammar::{Reason, ScriptFault};
use gup_test_cases::{EXAMPLES, RUNS};
use gup_top::Report;
use std::alloc::Global;
use std::marker::Sync;
use std::process::Abort;
use std::sync::Wait;
use std::test::Fail;
use std::thread::Threads;

/// The lines before the first operation.
const HEAD: &str = "gup 1\nframes 8 8 64\nprocess p\nthread t p\n";

/// The script of `examples/first.gup`, and its text.
pub(crate) const FIRST: &str =
    "gup 1\nframes 8 8 64\nprocess p\nthread t p\non t map 5 1 rw\non t load 5.0\non t store 5.0 7\non t load 5.0\non t unmap 5 1\non t load 5.0\n";

const FIRST_TEXT: &str = "t 1 ok\nt 2 ok 0\nt 3 ok\nt 4 ok 7\nt 5 ok\nt 6 missing\n";

/// Texts that are no script, with the line and the reason.
const REFUSALS: [(&str, u32, Reason, &str); 7] = [
    ("", 1, Reason::Short, "line 1: short\n"),
    ("gup 1\n", 2, Reason::Short, "line 2: short\n"),
    (
        "gup 1\nframes 8 8 64\nprocess p",
        3,
        Reason::End,
        "line 3: end\n",
    ),
    (
        "gup 1\nframes 8 8 64\nprocess p\nthread t p\non t load 34359738368.0\n",
        5,
        Reason::Number,
        "line 5: number\n",
    ),
    (
        "gup 1\nframes 8 8 64\nprocess p\nthread t p\non t store 5.0 18446744073709551616\n",
        5,
        Reason::Number,
        "line 5: number\n",
    ),
    (
        "gup 1\nframes 8 8 64\nprocess p\nprocess q\nthread t r\n",
        5,
        Reason::Name,
        "line 5: name\n",
    ),
    (
        "gup 1\nframes 8 8 64\nprocess p\nthread t p\ndevice d 8\non t pin h 5 1 write\non d inv h 0 0:33 1:32\n",
        7,
        Reason::Number,
        "line 7: number\n",
    ),
];

/// Scripts, with the statuses of their runs, and what stands in their traces behind them.
const TRACES: [(&str, u8, &str); 3] = [
    (
        FIRST,
        0,
        "journal\n1 t 1 map p 5 1 rw\n1 t 1 done ok\n2 t 2 load p 5.0 0\n2 t 2 done ok 0\n3 t 3 store p 5.0 7\n3 t 3 done ok\n4 t 4 load p 5.0 7\n4 t 4 done ok 7\n5 t 5 unmap p 5\n5 t 5 done ok\n6 t 6 done missing\n",
    ),
    // Who waits for ever has no line of its own.
    (
        "gup 1\nframes 1 0 0\nprocess p\nchild c\nthread t p\nthread u c\non u load 5.0\nturns u t\n",
        4,
        "journal\n1 u 1 wait process c\n2 t 1 idle\n",
    ),
    // A pin that a device has, a mirror, and a fork.
    (
        "gup 1\nframes 8 8 64\nprocess p\nchild c\nthread t p\ndevice d 8\non t map 5 1 rw\non t pin h 5 1 write\non t give h d\non d take h\non d in h 0 0 1\non d out h 1 0 1\non d mirror m p 5\non d look m 0\non d unpin h\non t fork c\nturns t*3 d*6 t*4\n",
        0,
        "journal\n1 t 1 map p 5 1 rw\n1 t 1 done ok\n2 t 2 pintry p 5 write\n2 t 2 pinok h\n2 t 2 done ok 1\n3 t 3 give h d\n3 t 3 done ok\n4 d 1 take h\n4 d 1 done ok\n5 d 2 in h 0 0 0\n5 d 2 done words\n6 d 3 out h 1 0 0\n6 d 3 done words\n7 d 4 mirror m p 5\n7 d 4 done ok\n8 d 5 look m 0 0\n8 d 5 done ok 0\n9 d 6 unpin h\n9 d 6 done ok\n10 t 4 forkbegin p c\n11 t 4 silent\n12 t 4 forkpage p c 5\n13 t 4 forkend p c\n13 t 4 done ok\n",
    ),
];

/// Numbers, with the summaries of the runs of the scripts that are made from them. By `bench/made/script`, which makes the same text, and
/// `bench/plain`, whose turns were counted, and whose answers to loads and transfers were added up. Few made scripts read a word that was
/// written.
const MADE: [(&str, &str); 11] = [
    ("0", "answers 165\nok 140\nturns 10216\nwords 0\n"),
    ("1", "answers 166\nok 147\nturns 8369\nwords 0\n"),
    ("2", "answers 172\nok 150\nturns 11313\nwords 0\n"),
    ("3", "answers 166\nok 143\nturns 10261\nwords 0\n"),
    ("4", "answers 172\nok 145\nturns 10284\nwords 0\n"),
    ("5", "answers 163\nok 140\nturns 10227\nwords 0\n"),
    ("6", "answers 169\nok 148\nturns 10249\nwords 0\n"),
    ("7", "answers 166\nok 143\nturns 10252\nwords 0\n"),
    ("8", "answers 171\nok 151\nturns 10260\nwords 0\n"),
    ("110", "answers 172\nok 147\nturns 10315\nwords 248\n"),
    (
        "18446744073709551615",
        "answers 167\nok 145\nturns 10215\nwords 0\n",
    ),
];

/// Gives one byte a read, and fails at the read that has number `fails`, from 1.
#[derive(Drop)]
struct ByteSource {
    bytes: Vec<u8>,
    at: usize,
    reads: u64,
    fails: u64,
    faults: u64,
    faulted: bool,
}

impl Source for ByteSource {
    ghost remaining = { λ _. None };

    ghost faults = { λ s. s.faults };

    ghost faulted = { λ s. s.faulted };

    fn read(&mut self, buf: &mut [u8]) -> Result<usize, Failed> {
        self.reads = self.reads.saturating_add(1);
        self.faulted = self.reads == self.fails;
        if self.faulted {
            self.faults = self.faults.saturating_add(1);
            return Err(Failed);
        }
        let Some(byte) = self.bytes.get(self.at).copied() else {
            return Ok(0);
        };
        buf[0] = byte;
        self.at += 1;
        Ok(1)
    }
}

/// Takes one byte a write, and fails at the write that has number `fails`, from 1, and if allocation fails.
#[derive(Drop)]
struct ByteSink {
    bytes: Vec<u8>,
    writes: u64,
    fails: u64,
    faults: u64,
    faulted: bool,
}

impl Sink for ByteSink {
    ghost taken = { λ _. None };

    ghost faults = { λ s. s.faults };

    ghost faulted = { λ s. s.faulted };

    fn write(&mut self, piece: &[u8]) -> Result<usize, Failed> {
        self.writes = self.writes.saturating_add(1);
        if self.writes == self.fails || self.bytes.push(piece[0]).is_err() {
            self.faults = self.faults.saturating_add(1);
            self.faulted = true;
            return Err(Failed);
        }
        self.faulted = false;
        Ok(1)
    }
}

/// The program on a source and a sink that never fail.
pub(crate) fn expect(
    rt: &(impl Abort + Threads + Wait + Sync),
    alloc: Global,
    words: &[&str],
    script: &str,
    status: u8,
    text: &str,
) -> Result<Report, Fail> {
    let (report, sink) = ran(rt, alloc, words, script.as_bytes(), 20_000, &NoPace)?;
    assert_eq!(rt; report.status, status, "{script}");
    assert_eq!(rt; sink.bytes(), text.as_bytes(), "{script}");
    Ok(report)
}

#[test]
fn first_run(rt: HostRuntime) -> Result<(), Fail> {
    let report = expect(&rt, rt.alloc(), &["run"], FIRST, 0, FIRST_TEXT)?;
    assert_eq!(rt; report.journal.notes().len(), 11);
    assert_eq!(rt; report.refusal, None);
    Ok(())
}

fn expect_trace(
    rt: &(impl Abort + Threads + Wait + Sync),
    alloc: Global,
    script: &str,
    status: u8,
    behind: &str,
) -> Result<(), Fail> {
    let text = format!(in alloc; "{script}{behind}")?;
    expect(rt, alloc, &["trace"], script, status, text.as_str())?;
    Ok(())
}

#[test]
fn traces(rt: HostRuntime) -> Result<(), Fail> {
    for (script, status, behind) in &TRACES {
        expect_trace(&rt, rt.alloc(), script, *status, behind)?;
    }
    Ok(())
}

fn expect_usage(
    rt: &(impl Abort + Threads + Wait + Sync),
    alloc: Global,
    words: &[&str],
) -> Result<(), Fail> {
    let report = expect(rt, alloc, words, FIRST, 2, "usage: gup COMMAND\n")?;
    assert!(rt; report.journal.notes().is_empty());
    assert_eq!(rt; report.refusal, None);
    Ok(())
}

#[test]
fn words_that_are_no_command(rt: HostRuntime) -> Result<(), Fail> {
    let words: [&[&str]; 16] = [
        &[],
        &["run", "slow"],
        &["trace", "run"],
        &["check", "trace"],
        &["Check"],
        &["make"],
        &["make", "01"],
        &["make", "+1"],
        &["make", "-1"],
        &["make", ""],
        &["make", "18446744073709551616"],
        &["make", "1", "1"],
        &["1", "make"],
        &["--help"],
        &["Run"],
        &[""],
    ];
    for words in words {
        expect_usage(&rt, rt.alloc(), words)?;
    }
    Ok(())
}

fn expect_run(
    rt: &(impl Abort + Threads + Wait + Sync),
    alloc: Global,
    script: &str,
    status: u8,
    text: &str,
) -> Result<(), Fail> {
    let report = expect(rt, alloc, &["run"], script, status, text)?;
    assert_eq!(rt; report.refusal, None, "{script}");
    Ok(())
}

#[test]
fn scripts(rt: HostRuntime) -> Result<(), Fail> {
    for (script, status, text) in RUNS {
        expect_run(&rt, rt.alloc(), script, status, text)?;
    }
    Ok(())
}

#[test]
fn examples(rt: HostRuntime) -> Result<(), Fail> {
    for (script, status, text) in EXAMPLES {
        expect_run(&rt, rt.alloc(), script, status, text)?;
    }
    Ok(())
}

fn expect_made(
    rt: &(impl Abort + Threads + Wait + Sync),
    alloc: Global,
    n: &str,
    text: &str,
) -> Result<(), Fail> {
    let report = expect(rt, alloc, &["make", n], FIRST, 0, text)?;
    assert!(rt; report.journal.notes().is_empty());
    assert_eq!(rt; report.refusal, None);
    Ok(())
}

/// Two runs give the same bytes.
#[test]
fn made_scripts(rt: HostRuntime) -> Result<(), Fail> {
    for (n, text) in MADE {
        for _ in 0..2 {
            expect_made(&rt, rt.alloc(), n, text)?;
        }
    }
    Ok(())
}

/// The status of a run over a source and a sink in memory whose calls of these numbers fail, and that what is taken is this text.
pub(crate) fn expect_with_faults(
    rt: &(impl Abort + Threads + Wait + Sync),
    alloc: Global,
    words: &[&str],
    input: &str,
    (read, write, room): (u32, u32, usize),
    status: u8,
    text: &str,
) -> Result<Report, Fail> {
    let (report, sink) = ran_with_faults(rt, alloc, words, input.as_bytes(), read, write, room)?;
    assert_eq!(rt; report.status, status, "{read} {write} {room}");
    assert_eq!(rt; sink.bytes(), text.as_bytes(), "{read} {write} {room}");
    Ok(report)
}

/// No read is made for a made script, and a write that fails leaves the beginning of its summary.
#[test]
fn made_scripts_and_faults(rt: HostRuntime) -> Result<(), Fail> {
    for (room, status, text) in [(99, 0, MADE[1].1), (11, 6, "answers 166")] {
        let words = ["make", "1"];
        expect_with_faults(&rt, rt.alloc(), &words, FIRST, (1, 0, room), status, text)?;
    }
    Ok(())
}

fn expect_refusal(
    rt: &(impl Abort + Threads + Wait + Sync),
    alloc: Global,
    script: &str,
    fault: ScriptFault,
    text: &str,
) -> Result<(), Fail> {
    let report = expect(rt, alloc, &["run"], script, 3, text)?;
    assert_eq!(rt; report.refusal, Some(fault), "{script}");
    assert!(rt; report.journal.notes().is_empty());
    Ok(())
}

#[test]
fn refusals(rt: HostRuntime) -> Result<(), Fail> {
    for (script, line, reason, text) in REFUSALS {
        expect_refusal(&rt, rt.alloc(), script, ScriptFault { line, reason }, text)?;
    }
    Ok(())
}

#[test]
fn many_operations(rt: HostRuntime) -> Result<(), Fail> {
    let mut script = String::from_str(rt.alloc(), HEAD)?;
    let mut text = String::new(rt.alloc());
    for k in 1..=1_100 {
        script.push_str("on t load 5.0\n")?;
        text.push_str(format!(in rt.alloc(); "t {k} missing\n")?.as_str())?;
    }
    expect(&rt, rt.alloc(), &["run"], script.as_str(), 0, text.as_str())?;
    Ok(())
}

/// The first run, where calls of these numbers fail.
fn expect_first_with_faults(
    rt: &(impl Abort + Threads + Wait + Sync),
    alloc: Global,
    faults: (u32, u32, usize),
    status: u8,
    text: &str,
) -> Result<(), Fail> {
    let report = expect_with_faults(rt, alloc, &["run"], FIRST, faults, status, text)?;
    assert_eq!(rt; report.refusal, None);
    Ok(())
}

#[test]
fn faults_in_memory(rt: HostRuntime) -> Result<(), Fail> {
    for (faults, status, text) in [
        ((1, 0, 99), 5, ""),
        ((2, 0, 99), 5, ""),
        ((3, 0, 99), 0, FIRST_TEXT),
        ((0, 1, 99), 6, ""),
        ((0, 0, 7), 6, "t 1 ok\n"),
    ] {
        expect_first_with_faults(&rt, rt.alloc(), faults, status, text)?;
    }
    Ok(())
}

/// The first run, byte by byte, with the read and the write of these numbers failing.
fn expect_faults(
    rt: &(impl Abort + Threads + Wait + Sync),
    alloc: Global,
    read: u64,
    write: u64,
    status: u8,
    text: &[u8],
) -> Result<(), Fail> {
    let mut source = ByteSource {
        bytes: FIRST.as_bytes().to_vec(alloc)?,
        at: 0,
        reads: 0,
        fails: read,
        faults: 0,
        faulted: false,
    };
    let mut sink = ByteSink {
        bytes: Vec::new(alloc),
        writes: 0,
        fails: write,
        faults: 0,
        faulted: false,
    };
    let report = called(rt, alloc, &["run"], &mut source, &mut sink, &NoPace)?;
    assert_eq!(rt; report.status, status, "read {read}, write {write}");
    assert_eq!(rt; sink.bytes.as_slice(), text, "read {read}, write {write}");
    Ok(())
}

#[test]
fn each_read_and_each_write_fails(rt: HostRuntime) -> Result<(), Fail> {
    let text = FIRST_TEXT.as_bytes();
    let reads = FIRST.len() as u64 + 1;
    for read in 1..=reads {
        expect_faults(&rt, rt.alloc(), read, 0, 5, &[])?;
    }
    expect_faults(&rt, rt.alloc(), reads + 1, 0, 0, text)?;
    for taken in 0..text.len() {
        expect_faults(&rt, rt.alloc(), 0, taken as u64 + 1, 6, &text[..taken])?;
    }
    expect_faults(&rt, rt.alloc(), 0, text.len() as u64 + 1, 0, text)
}

/// The same of a run that is stuck: its status gives way to that of a write that failed.
#[test]
fn a_stuck_run_that_is_not_written(rt: HostRuntime) -> Result<(), Fail> {
    let stuck = "gup 1\nframes 8 8 64\nchild c\nthread u c\non u exit\n";
    let (report, sink) = ran(&rt, rt.alloc(), &["run"], stuck.as_bytes(), 5, &NoPace)?;
    assert_eq!(rt; report.status, 6);
    assert_eq!(rt; sink.bytes(), "stuck".as_bytes());
    Ok(())
}
