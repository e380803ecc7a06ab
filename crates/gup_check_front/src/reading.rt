//! Traces that are read from sources.
ghost use Rattle.std.specs.Prelude.{◌≡◌, Err, IfErr, IfOk, OnOk};
ghost use Rattle.gup_io.specs.Transfers.{Loses};
ghost use Rattle.gup_front.specs.Reading.{IfFault};
ghost use Rattle.gup_check_front.specs.Reading.{IsReadAs, IsTraceUnreadFor, IsTraceReadThrough};

use gup_front::Unread;
use gup_io::{ReadToEnd, Source, read_up_to};
use gup_read_trace::{Trace, read_trace};
use gup_spec_grammar::ReadRefusal;
use std::alloc::Global;

/// The most bytes of a trace, and one more: a longer text is refused without reading on.
const READ_AT_MOST: usize = 67_108_865;

/// Reads the source to its end, or past the length of a trace, and the trace that its bytes are. It is refused where a read failed
/// (`Failed`), where the bytes are no trace (`Fault`, with the fault that `read_trace` tells), or where memory ran out (`NoMemory`).
pub fn read_from<S: Source>(alloc: Global, source: &mut S) -> Result<Trace, Unread>
    ensures trace { IfOk result (λ trace. IsReadAs (S.remaining source.old) trace.script trace.journal.notes) }
    ensures unread { IfErr result
        (λ why. IsTraceUnreadFor (S.remaining source.old) (S.faults source.old) (S.faults source.new) (S.faulted source.new) why) }
    ensures reading { Loses 0 67108865 (S.remaining source.old) (S.remaining source.new) }
    ensures ended { OnOk result (IsTraceReadThrough (S.remaining source.old) (S.remaining source.new)) }
    ensures refused { IfErr result
        (λ why. IfFault why (IsTraceReadThrough (S.remaining source.old) (S.remaining source.new))) }
    ensures uncounted { (result ≡ Err Unread.Failed → ⊥) → S.faults source.new ≡ S.faults source.old }
{
    let text = match read_up_to(alloc, source, READ_AT_MOST) {
        Ok(text) => text,
        Err(ReadToEnd::Failed) => return Err(Unread::Failed),
        Err(ReadToEnd::NoMemory) => return Err(Unread::NoMemory),
    };
    match read_trace(alloc, text.as_slice()) {
        Ok(trace) => Ok(trace),
        Err(ReadRefusal::Fault(fault)) => Err(Unread::Fault(fault)),
        Err(ReadRefusal::NoMemory) => Err(Unread::NoMemory),
    }
}
