//! Sources and a sink in memory. They tell their bytes, and none of their calls takes memory.
ghost use Rattle.std.specs.Prelude.{◌≡◌, ℕ, ◌+◌, ◌-◌, ◌^◌, ◌<◌, ◌≤◌, ◌↔◌, ◌⊎◌, [], ◌++◌, true, false, Ok, Some, length, take, drop, min, IsTrue, IsOk, IsErr, IfOk, OnOk, OnErr, Contains};
ghost use Rattle.std.specs.Io.KnownBytes.{Appends, Consumes, Keeps};
ghost use Rattle.gup_io.specs.Faults.{counted};

use crate::{Failed, Sink, Source};
use gup_base::NoMemory;
use std::alloc::Global;
use std::marker::Model;

// Copies as many bytes as both have to the front of `to`, and says how many.
fn copy_front(from: &[u8], to: &mut [u8]) -> usize
    ensures amount { result ≡ min (length to.old) (length from.now) }
    ensures front { to.new ≡ take result from.now ++ drop result to.old }
    ensures copied { take result to.new ≡ take result from.now }
{
    let n = to.len().min(from.len());
    to[..n].copy_from_slice(&from[..n]);
    n
}

// Whether the number of the next call stands in the list. No number past the last `u32` does.
fn is_next_in(fails: &[u32], calls: u64) -> bool
    ensures stands { IsTrue result ↔ Contains fails.now (calls + 1) }
    ensures small { IsTrue result → calls + 1 < 2 ^ 32 }
{
    fails
        .iter()
        .any(|k| u64::from(*k) == calls.saturating_add(1))
}

/// A source in memory, whose reads fail at chosen calls. A contract sees the bytes left, how many reads there
/// were (a count that stops at the last value of a `u64`), which fail, how many have failed, and whether the last one
/// did.
#[derive(Debug, Drop)]
pub struct MemSource {
    bytes: Vec<u8>,
    at: usize,
    calls: u64,
    fails: Vec<u32>,
    faults: u64,
    faulted: bool,
}

impl Model for MemSource {
    ghost use Rattle.std.specs.Prelude.{◌≤◌, drop, vec_len};
    ghost use Rattle.gup_io.specs.Memory.{MemSourceValue};

    ghost Value = { MemSourceValue };

    ghost view = { λ s. record { bytes = drop s.at s.bytes.items; calls = s.calls; fails = s.fails.items; faults = s.faults; faulted = s.faulted } };

    ghost invariant = { λ s. (s.at ≤ vec_len s.bytes) × (s.faults ≤ s.calls) };
}

impl MemSource {
    /// A source of these bytes. Its read number k, from 1, fails exactly where k stands in `fails`.
    pub fn new(bytes: Vec<u8>, fails: Vec<u32>) -> MemSource
        ensures { result ≡ record { bytes = bytes.items; calls = 0; fails = fails.items; faults = 0; faulted = false } }
    {
        MemSource {
            bytes,
            at: 0,
            calls: 0,
            fails,
            faults: 0,
            faulted: false,
        }
    }
}

impl Source for MemSource {
    ghost remaining = { λ s. Some s.bytes };

    ghost faults = { λ s. s.faults };

    ghost faulted = { λ s. s.faulted };

    fn read(&mut self, buf: &mut [u8]) -> Result<usize, Failed>
        requires { 0 < length buf.old }

        // Which read fails, and what each read does.
        ensures fails { IsErr result ↔ Contains self.old.fails (self.old.calls + 1) }
        ensures amount { IfOk result (λ n. n ≡ min (length buf.old) (length self.old.bytes)) }
        ensures front { IfOk result (λ n. buf.new ≡ take n self.old.bytes ++ drop n buf.old) }
        ensures ok { IfOk result (λ n. self.new
            ≡ record self.old { bytes = drop n self.old.bytes; calls = counted self.old.calls; faulted = false }) }
        ensures err { OnErr result (self.new
            ≡ record self.old { calls = counted self.old.calls; faults = self.old.faults + 1; faulted = true }) }
        ensures err_buf { OnErr result (buf.new ≡ buf.old) }

        // What any source says.
        ensures fits { IfOk result (λ n. n ≤ length buf.new) }
        ensures bytes { IfOk result (λ n. Consumes (Some self.old.bytes) (Some self.new.bytes) (take n buf.new)) }
        ensures end { IfOk result (λ n. (n ≡ 0) ↔ (self.old.bytes ≡ [])) }
        ensures kept { OnErr result (Keeps (Some self.old.bytes) (Some self.new.bytes)) }
        ensures uncounted { OnOk result (self.new.faults ≡ self.old.faults) }
        ensures well { OnOk result (self.new.faulted ≡ false) }
        ensures cause { OnErr result (self.new.faults ≡ counted self.old.faults) }
        ensures faulted { OnErr result (self.new.faulted ≡ true) }
        ensures never_falls { self.old.faults ≤ self.new.faults }
    {
        let does_fail = is_next_in(self.fails.as_slice(), self.calls);
        self.calls = self.calls.saturating_add(1);
        if does_fail {
            self.faults += 1;
            self.faulted = true;
            return Err(Failed);
        }
        let n = copy_front(&self.bytes[self.at..], buf);
        self.at += n;
        self.faulted = false;
        Ok(n)
    }
}

/// A source in memory, whose reads never fail. A contract sees the bytes left.
#[derive(Debug, Drop)]
pub struct SureSource {
    bytes: Vec<u8>,
    at: usize,
}

impl Model for SureSource {
    ghost use Rattle.std.specs.Prelude.{ℕ, List, ◌≤◌, drop, vec_len};

    ghost Value = { List ℕ };

    ghost view = { λ s. drop s.at s.bytes.items };

    ghost invariant = { λ s. s.at ≤ vec_len s.bytes };
}

impl SureSource {
    pub fn new(bytes: Vec<u8>) -> SureSource
        ensures { result ≡ bytes.items }
    {
        SureSource { bytes, at: 0 }
    }
}

impl Source for SureSource {
    ghost remaining = { λ s. Some s };

    ghost faults = { λ _. 0 };

    ghost faulted = { λ _. false };

    fn read(&mut self, buf: &mut [u8]) -> Result<usize, Failed>
        requires { 0 < length buf.old }

        // What each read does.
        ensures never_fails { IsOk result }
        ensures amount { result ≡ Ok (min (length buf.old) (length self.old)) }
        ensures front { IfOk result (λ n. buf.new ≡ take n self.old ++ drop n buf.old) }
        ensures rest { IfOk result (λ n. self.new ≡ drop n self.old) }

        // What any source says.
        ensures fits { IfOk result (λ n. n ≤ length buf.new) }
        ensures bytes { IfOk result (λ n. Consumes (Some self.old) (Some self.new) (take n buf.new)) }
        ensures end { IfOk result (λ n. (n ≡ 0) ↔ (self.old ≡ [])) }
    {
        let given = copy_front(&self.bytes[self.at..], buf);
        self.at += given;
        Ok(given)
    }
}

/// A sink in memory with a fixed room, whose writes fail at chosen calls and where no room is left.
/// A contract sees the bytes taken, the room in all, how many writes there were (a count that stops at the last
/// value of a `u64`), which fail, how many have failed, and whether the last one did.
#[derive(Debug, Drop)]
pub struct MemSink {
    bytes: Vec<u8>,
    room: usize,
    calls: u64,
    fails: Vec<u32>,
    faults: u64,
    faulted: bool,
}

impl Model for MemSink {
    ghost use Rattle.std.specs.Prelude.{◌≤◌, vec_len, vec_capacity};
    ghost use Rattle.gup_io.specs.Memory.{MemSinkValue};

    ghost Value = { MemSinkValue };

    ghost view = { λ s. record { bytes = s.bytes.items; room = s.room; calls = s.calls; fails = s.fails.items; faults = s.faults; faulted = s.faulted } };

    ghost invariant = { λ s. (vec_len s.bytes ≤ s.room) × (s.room ≤ vec_capacity s.bytes) };
}

impl MemSink {
    /// A sink with room for so many bytes, which is reserved here: no write takes memory. Its write number k,
    /// from 1, fails where k stands in `fails`.
    pub fn with_room(alloc: Global, room: usize, fails: Vec<u32>) -> Result<MemSink, NoMemory>
        ensures value { IfOk result
            (λ s. s ≡ record { bytes = []; room = room; calls = 0; fails = fails.items; faults = 0; faulted = false }) }
        ensures no_room { room ≡ 0 → IsOk result }
    {
        let bytes = Vec::with_capacity(alloc, room)?;
        Ok(MemSink {
            bytes,
            room,
            calls: 0,
            fails,
            faults: 0,
            faulted: false,
        })
    }

    /// The bytes taken so far.
    pub fn bytes(&self) -> &[u8]
        ensures value { result.now ≡ self.now.bytes }
        ensures within { length result.now ≤ self.now.room }
    {
        self.bytes.as_slice()
    }
}

impl Sink for MemSink {
    ghost taken = { λ s. Some s.bytes };

    ghost faults = { λ s. s.faults };

    ghost faulted = { λ s. s.faulted };

    fn write(&mut self, piece: &[u8]) -> Result<usize, Failed>
        requires { 0 < length piece.now }

        // Which write fails, and what each write does.
        ensures fails { IsErr result
            ↔ (Contains self.old.fails (self.old.calls + 1) ⊎ (self.old.room ≤ length self.old.bytes)) }
        ensures amount { IfOk result (λ n. n ≡ min (length piece.now) (self.old.room - length self.old.bytes)) }
        ensures ok { IfOk result (λ n. self.new
            ≡ record self.old { bytes = self.old.bytes ++ take n piece.now; calls = counted self.old.calls; faulted = false }) }
        ensures err { OnErr result (self.new
            ≡ record self.old { calls = counted self.old.calls; faults = counted self.old.faults; faulted = true }) }

        // What any sink says.
        ensures some { IfOk result (λ n. 0 < n) }
        ensures within { IfOk result (λ n. n ≤ length piece.now) }
        ensures bytes { IfOk result (λ n. Appends (Some self.old.bytes) (Some self.new.bytes) (take n piece.now)) }
        ensures kept { OnErr result (Keeps (Some self.old.bytes) (Some self.new.bytes)) }
        ensures uncounted { OnOk result (self.new.faults ≡ self.old.faults) }
        ensures well { OnOk result (self.new.faulted ≡ false) }
        ensures cause { OnErr result (self.new.faults ≡ counted self.old.faults) }
        ensures faulted { OnErr result (self.new.faulted ≡ true) }
        ensures never_falls { self.old.faults ≤ self.new.faults }
    {
        let is_listed = is_next_in(self.fails.as_slice(), self.calls);
        self.calls = self.calls.saturating_add(1);
        let n = piece.len().min(self.room - self.bytes.len());
        if is_listed || n == 0 {
            self.faults = self.faults.saturating_add(1);
            self.faulted = true;
            return Err(Failed);
        }
        let Ok(()) = self.bytes.extend_from_slice(&piece[..n]) else {
            unreachable!()
        };
        self.faulted = false;
        Ok(n)
    }
}
