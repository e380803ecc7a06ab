ghost use Rattle.std.specs.Prelude.{◌≡◌, ℕ, ◌+◌, ◌<◌, ◌≤◌, ◌↔◌, Bool, true, false, List, [], ◌++◌, Option, Some, length, take, drop, vec_len, IfOk, IfErr, IfSome, OnOk, OnErr};
ghost use Rattle.std.specs.Io.KnownBytes.{Consumes, Keeps};
ghost use Rattle.gup_io.specs.Faults.{counted, IsCauseOf};
ghost use Rattle.gup_io.specs.Transfers.{least_read, Loses};

use crate::Failed;
use std::alloc::Global;
use std::error::Error;
use std::fmt;

/// What the program reads its bytes from.
pub trait Source {
    // The bytes left, where the source tells them.
    ghost remaining: { Self → Option (List ℕ) };

    // How many reads have failed so far. The count stops at the last value of a `u64`.
    ghost faults: { Self → ℕ };

    // Whether the last read failed.
    ghost faulted: { Self → Bool };

    /// Puts the next bytes at the front of `buf` and says how many. None is the end.
    fn read(&mut self, buf: &mut [u8]) -> Result<usize, Failed>
        requires { 0 < length buf.old }

        // Told bytes lose those that stand in `buf`. Of untold bytes nothing is said.
        ensures fits { IfOk result (λ n. n ≤ length buf.new) }
        ensures bytes { IfOk result (λ n. Consumes (remaining self.old) (remaining self.new) (take n buf.new)) }
        ensures end { IfOk result (λ n. IfSome (remaining self.old) (λ bytes. (n ≡ 0) ↔ (bytes ≡ []))) }
        ensures kept { OnErr result (Keeps (remaining self.old) (remaining self.new)) }

        // A failure is counted, and nothing else is, and the source keeps in mind whether its last read failed.
        ensures uncounted { OnOk result (faults self.new ≡ faults self.old) }
        ensures well { OnOk result (faulted self.new ≡ false) }
        ensures cause { OnErr result (faults self.new ≡ counted (faults self.old)) }
        ensures faulted { OnErr result (faulted self.new ≡ true) }
        ensures never_falls { faults self.old ≤ faults self.new };
}

/// Why reading to the end broke off.
#[derive(Clone, Copy, Debug, PartialEq, Eq)]
pub enum ReadToEnd {
    Failed,
    NoMemory,
}

impl fmt::Display for ReadToEnd {
    fn fmt<W: fmt::Write>(&self, f: &mut fmt::Formatter<W>) -> fmt::Result {
        match self {
            ReadToEnd::Failed => f.write_str("the outside failed"),
            ReadToEnd::NoMemory => f.write_str("out of memory"),
        }
    }
}

impl Error for ReadToEnd {}

/// Reads to the end of the source, to its first fault, or until `most` bytes were given.
/// It never asks for more than `most` bytes in all, and what was read is dropped where it breaks off.
pub fn read_up_to<S: Source>(
    alloc: Global,
    source: &mut S,
    most: usize,
) -> Result<Vec<u8>, ReadToEnd>
    ensures within { IfOk result (λ v. vec_len v ≤ most) }

    // Where the bytes are told they are the first ones, and all where there are no more than `most`.
    ensures bytes { IfOk result (λ v. IfSome (S.remaining source.old) (λ bytes. v.items ≡ take most bytes)) }
    ensures rest { OnOk result (IfSome (S.remaining source.old)
        (λ bytes. S.remaining source.new ≡ Some (drop most bytes))) }
    ensures broken_off { IfErr result
        (λ e. Loses (least_read e) most (S.remaining source.old) (S.remaining source.new)) }

    // A failed read is the only one that failed, and none is made after it.
    ensures uncounted { OnOk result (S.faults source.new ≡ S.faults source.old) }
    ensures cause { IfErr result
        (λ e. IsCauseOf e (S.faults source.old) (S.faults source.new) (S.faulted source.new)) }
    ensures never_falls { S.faults source.old ≤ S.faults source.new }
{
    let mut bytes = Vec::new(alloc);
    while bytes.len() < most {
        let left = most - bytes.len();
        if read_more(source, &mut bytes, left)? == 0 {
            break;
        }
    }
    Ok(bytes)
}

// One read of at most `most` bytes, which are put after those that are there.
fn read_more<S: Source>(
    source: &mut S,
    bytes: &mut Vec<u8>,
    most: usize,
) -> Result<usize, ReadToEnd>
    requires { 0 < most }
    ensures within { IfOk result (λ n. n ≤ most) }
    ensures grows { IfOk result (λ n. (given : List ℕ) × (length given ≡ n)
        × (bytes.new.items ≡ bytes.old.items ++ given)
        × Consumes (S.remaining source.old) (S.remaining source.new) given) }
    ensures end { IfOk result (λ n. IfSome (S.remaining source.old) (λ bytes. (n ≡ 0) ↔ (bytes ≡ []))) }
    ensures broken_off { IfErr result
        (λ e. Loses (least_read e) most (S.remaining source.old) (S.remaining source.new)) }
    ensures uncounted { OnOk result (S.faults source.new ≡ S.faults source.old) }
    ensures cause { IfErr result
        (λ e. IsCauseOf e (S.faults source.old) (S.faults source.new) (S.faulted source.new)) }
    ensures never_falls { S.faults source.old ≤ S.faults source.new }
{
    let mut piece = [0; 4096];
    let wanted = most.min(4096);
    let buf = &mut piece[..wanted];
    let Ok(n) = source.read(buf) else {
        return Err(ReadToEnd::Failed);
    };
    let Ok(()) = bytes.extend_from_slice(&buf[..n]) else {
        return Err(ReadToEnd::NoMemory);
    };
    Ok(n)
}
