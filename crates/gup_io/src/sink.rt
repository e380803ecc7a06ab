ghost use Rattle.std.specs.Prelude.{◌≡◌, ℕ, ◌<◌, ◌≤◌, Bool, true, false, List, Option, length, take, IfOk, OnOk, OnErr};
ghost use Rattle.std.specs.Io.KnownBytes.{Appends, Keeps};
ghost use Rattle.gup_io.specs.Faults.{counted, EndsInFault};
ghost use Rattle.gup_io.specs.Transfers.{AppendsPart};

use crate::Failed;

/// What the program writes its text to.
pub trait Sink {
    // The bytes taken so far, where the sink tells them.
    ghost taken: { Self → Option (List ℕ) };

    // How many writes have failed so far. The count stops at the last value of a `u64`.
    ghost faults: { Self → ℕ };

    // Whether the last write failed.
    ghost faulted: { Self → Bool };

    /// Takes the first bytes of `piece`, at least one, and says how many.
    fn write(&mut self, piece: &[u8]) -> Result<usize, Failed>
        requires { 0 < length piece.now }

        // Told bytes grow by those that were taken. Of untold bytes nothing is said.
        ensures some { IfOk result (λ n. 0 < n) }
        ensures within { IfOk result (λ n. n ≤ length piece.now) }
        ensures bytes { IfOk result (λ n. Appends (taken self.old) (taken self.new) (take n piece.now)) }
        ensures kept { OnErr result (Keeps (taken self.old) (taken self.new)) }

        // A failure is counted, and nothing else is, and the sink keeps in mind whether its last write failed.
        ensures uncounted { OnOk result (faults self.new ≡ faults self.old) }
        ensures well { OnOk result (faulted self.new ≡ false) }
        ensures cause { OnErr result (faults self.new ≡ counted (faults self.old)) }
        ensures faulted { OnErr result (faulted self.new ≡ true) }
        ensures never_falls { faults self.old ≤ faults self.new };
}

/// Writes the text, piece by piece, to its end or to the first fault of the sink.
pub fn write_all<K: Sink>(sink: &mut K, text: &[u8]) -> Result<(), Failed>
    ensures whole { OnOk result (Appends (K.taken sink.old) (K.taken sink.new) text.now) }
    ensures broken_off { OnErr result (AppendsPart (K.taken sink.old) (K.taken sink.new) text.now) }

    // A failed write is the only one that failed, and none is made after it.
    ensures uncounted { OnOk result (K.faults sink.new ≡ K.faults sink.old) }
    ensures cause { OnErr result (EndsInFault (K.faults sink.old) (K.faults sink.new) (K.faulted sink.new)) }
    ensures never_falls { K.faults sink.old ≤ K.faults sink.new }
{
    let mut at = 0;
    while at < text.len() {
        at += sink.write(&text[at..])?;
    }
    Ok(())
}
