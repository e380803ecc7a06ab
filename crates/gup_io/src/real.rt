//! The real reader and the real writer. What std says of them is trusted, and they tell no bytes.
ghost use Rattle.std.specs.Prelude.{◌≡◌, ℕ, ◌<◌, ◌≤◌, true, false, None, length, take, IfOk, OnOk, OnErr};
ghost use Rattle.std.specs.Io.KnownBytes.{Appends, Consumes, IsAtEnd, Keeps};
ghost use Rattle.gup_io.specs.Faults.{counted};

use crate::{Failed, Sink, Source};
use std::io::{Read, Write};
use std::marker::Model;

/// A reader of std as a source: each read is one call of the reader.
/// A contract sees the reader, how many reads have failed, and whether the last one did.
#[derive(Drop)]
pub struct FromStd<R> {
    reader: R,
    faults: u64,
    faulted: bool,
}

impl<R> Model for FromStd<R> {
    ghost use Rattle.std.specs.Prelude.{ℕ, Bool};

    ghost Value = { R × ℕ × Bool };

    ghost view = { λ s. (s.reader, s.faults, s.faulted) };
}

impl<R: Read> FromStd<R> {
    pub fn new(reader: R) -> FromStd<R>
        ensures { result ≡ (reader, 0, false) }
    {
        FromStd {
            reader,
            faults: 0,
            faulted: false,
        }
    }
}

impl<R: Read + Drop> Source for FromStd<R> {
    ghost remaining = { λ _. None };

    ghost faults = { λ s. s.1 };

    ghost faulted = { λ s. s.2 };

    fn read(&mut self, buf: &mut [u8]) -> Result<usize, Failed>
        requires { 0 < length buf.old }

        // What the reader of std says of its bytes, where it knows them.
        ensures consumes { IfOk result
            (λ n. Consumes (R.remaining self.old.0) (R.remaining self.new.0) (take n buf.new)) }
        ensures at_end { IfOk result (λ n. n ≡ 0 → IsAtEnd (R.remaining self.new.0)) }
        ensures loses_none { OnErr result (Keeps (R.remaining self.old.0) (R.remaining self.new.0)) }

        // What any source says. A reader of std doesn't tell its failures, so no clause says that each one is counted.
        ensures fits { IfOk result (λ n. n ≤ length buf.new) }
        ensures uncounted { OnOk result (self.new.1 ≡ self.old.1) }
        ensures well { OnOk result (self.new.2 ≡ false) }
        ensures cause { OnErr result (self.new.1 ≡ counted self.old.1) }
        ensures faulted { OnErr result (self.new.2 ≡ true) }
        ensures never_falls { self.old.1 ≤ self.new.1 }
    {
        let Ok(n) = self.reader.read(buf) else {
            self.faults = self.faults.saturating_add(1);
            self.faulted = true;
            return Err(Failed);
        };
        self.faulted = false;
        Ok(n)
    }
}

/// A writer of std as a sink: each write is one call of the writer, and holds nothing back.
/// A writer that takes nothing has failed.
/// A contract sees the writer, how many writes have failed, and whether the last one did.
#[derive(Drop)]
pub struct ToStd<W> {
    writer: W,
    faults: u64,
    faulted: bool,
}

impl<W> Model for ToStd<W> {
    ghost use Rattle.std.specs.Prelude.{ℕ, Bool};

    ghost Value = { W × ℕ × Bool };

    ghost view = { λ s. (s.writer, s.faults, s.faulted) };
}

impl<W: Write> ToStd<W> {
    pub fn new(writer: W) -> ToStd<W>
        ensures { result ≡ (writer, 0, false) }
    {
        ToStd {
            writer,
            faults: 0,
            faulted: false,
        }
    }
}

impl<W: Write + Drop> Sink for ToStd<W> {
    ghost taken = { λ _. None };

    ghost faults = { λ s. s.1 };

    ghost faulted = { λ s. s.2 };

    fn write(&mut self, piece: &[u8]) -> Result<usize, Failed>
        requires { 0 < length piece.now }

        // What the writer of std says of its bytes, where it knows them.
        ensures appends { IfOk result
            (λ n. Appends (W.contents self.old.0) (W.contents self.new.0) (take n piece.now)) }
        ensures holds_none { OnErr result (Keeps (W.contents self.old.0) (W.contents self.new.0)) }

        // What any sink says. A writer of std doesn't tell its failures, so no clause says that each one is counted.
        ensures some { IfOk result (λ n. 0 < n) }
        ensures within { IfOk result (λ n. n ≤ length piece.now) }
        ensures uncounted { OnOk result (self.new.1 ≡ self.old.1) }
        ensures well { OnOk result (self.new.2 ≡ false) }
        ensures cause { OnErr result (self.new.1 ≡ counted self.old.1) }
        ensures faulted { OnErr result (self.new.2 ≡ true) }
        ensures never_falls { self.old.1 ≤ self.new.1 }
    {
        match self.writer.write(piece) {
            Ok(n) if n > 0 => {
                self.faulted = false;
                Ok(n)
            }
            _ => {
                self.faults = self.faults.saturating_add(1);
                self.faulted = true;
                Err(Failed)
            }
        }
    }
}
