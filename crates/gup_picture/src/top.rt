//! The top call: what the program does, from its words and its bytes to its picture.
ghost use Rattle.std.specs.Prelude.{◌≡◌, ◌⊎◌, ◌+◌, ◌<◌, ◌^◌, None, Some, IsSome, IfSome, All, length, map, string_bytes};
ghost use Rattle.std.specs.Io.KnownBytes.{Appends};
ghost use Rattle.gup_io.specs.Transfers.{Loses, AppendsPart};
ghost use Rattle.gup_io.specs.Faults.{HasCause, EndsInFault};
ghost use Rattle.gup_spec_trace.specs.Written.{CanBeWritten};
ghost use Rattle.gup_front.specs.Lines.{refusal_text};
ghost use Rattle.gup_check_front.specs.Reading.{OfTrace, AreTrace, IsNoTraceFor, IsTraceReadThrough};
ghost use Rattle.gup_picture.specs.Asking.{IsCommand};
ghost use Rattle.gup_picture.specs.Report.{usage, IsStatus, IsTaken, IsPartlyTaken};

use crate::command::{Wanted, wanted_in};
use gup_base::NoMemory;
use gup_check::check;
use gup_check_front::read_from;
use gup_draw_svg::draw_svg;
use gup_draw_text::draw_text;
use gup_front::{Unread, refusal_line};
use gup_io::{Sink, Source, write_all};
use gup_read_trace::{Trace, traces_have_no_fault};
use gup_sketch::sketch;
use gup_spec_grammar::ScriptFault;
use std::alloc::Global;

/// What the program did.
#[derive(Clone, Copy, Debug)]
pub struct Report {
    /// The exit status.
    pub status: u8,
    /// The fault of a text that is no trace.
    pub refusal: Option<ScriptFault>,
}

impl Report {
    // No text was refused.
    fn unrefused(status: u8) -> Report
        ensures status { result.status ≡ status }
        ensures refusal { result.refusal ≡ None }
    {
        Report {
            status,
            refusal: None,
        }
    }

    // A text was refused for this fault.
    fn refused(status: u8, fault: ScriptFault) -> Report
        ensures status { result.status ≡ status }
        ensures refusal { result.refusal ≡ Some fault }
    {
        Report {
            status,
            refusal: Some(fault),
        }
    }
}

// The picture of the trace: an SVG, or a text.
fn draw(alloc: Global, wanted: &Wanted<'_>, trace: &Trace) -> Result<Vec<u8>, NoMemory>
    requires few { length trace.now.journal.notes + 1 < 2 ^ 32 }
    requires named { All (CanBeWritten trace.now.script) trace.now.journal.notes }
{
    let asked = wanted.asked(alloc)?;
    let verdict = check(alloc, trace)?;
    let scene = sketch(alloc, trace, &asked, verdict)?;
    if wanted.svg {
        draw_svg(alloc, &scene)
    } else {
        draw_text(alloc, &scene)
    }
}

// Draws the trace, and writes its picture.
fn draw_and_write<K: Sink>(
    alloc: Global,
    sink: &mut K,
    wanted: &Wanted<'_>,
    trace: &Trace,
) -> Report
    requires few { length trace.now.journal.notes + 1 < 2 ^ 32 }
    requires named { All (CanBeWritten trace.now.script) trace.now.journal.notes }
    ensures statuses { (result.status ≡ 0) ⊎ (result.status ≡ 6) ⊎ (result.status ≡ 7) }
    ensures refusal { result.refusal ≡ None }
    ensures drawn { result.status ≡ 0 → IsTaken (K.taken sink.old) (K.taken sink.new) }
    ensures part { result.status ≡ 6 → IsPartlyTaken (K.taken sink.old) (K.taken sink.new) }
    ensures write_fault { result.status ≡ 6
        → EndsInFault (K.faults sink.old) (K.faults sink.new) (K.faulted sink.new) }
    ensures uncounted { (result.status ≡ 6 → ⊥) → K.faults sink.new ≡ K.faults sink.old }
    ensures unwritten { result.status ≡ 7 → sink.new ≡ sink.old }
{
    let Ok(picture) = draw(alloc, wanted, trace) else {
        return Report::unrefused(7);
    };
    let status = if write_all(sink, picture.as_slice()).is_ok() {
        0
    } else {
        6
    };
    Report::unrefused(status)
}

// Refuses a text: writes its fault.
fn refuse<K: Sink>(alloc: Global, sink: &mut K, fault: ScriptFault) -> Report
    ensures statuses { (result.status ≡ 3) ⊎ (result.status ≡ 6) ⊎ (result.status ≡ 7) }
    ensures refusal { result.refusal ≡ Some fault }
    ensures text { result.status ≡ 3 → Appends (K.taken sink.old) (K.taken sink.new) (refusal_text fault) }
    ensures part { result.status ≡ 6 → AppendsPart (K.taken sink.old) (K.taken sink.new) (refusal_text fault) }
    ensures write_fault { result.status ≡ 6
        → EndsInFault (K.faults sink.old) (K.faults sink.new) (K.faulted sink.new) }
    ensures uncounted { (result.status ≡ 6 → ⊥) → K.faults sink.new ≡ K.faults sink.old }
    ensures unwritten { result.status ≡ 7 → sink.new ≡ sink.old }
{
    let Ok(line) = refusal_line(alloc, fault) else {
        return Report::refused(7, fault);
    };
    let status = if write_all(sink, line.as_slice()).is_ok() {
        3
    } else {
        6
    };
    Report::refused(status, fault)
}

// Says how the program is called.
fn show_usage<K: Sink>(sink: &mut K) -> Report
    ensures statuses { (result.status ≡ 2) ⊎ (result.status ≡ 6) }
    ensures refusal { result.refusal ≡ None }
    ensures text { result.status ≡ 2 → Appends (K.taken sink.old) (K.taken sink.new) usage }
    ensures part { result.status ≡ 6 → AppendsPart (K.taken sink.old) (K.taken sink.new) usage }
    ensures write_fault { result.status ≡ 6
        → EndsInFault (K.faults sink.old) (K.faults sink.new) (K.faulted sink.new) }
    ensures uncounted { (result.status ≡ 6 → ⊥) → K.faults sink.new ≡ K.faults sink.old }
{
    let line = b"usage: gup picture [--svg] [--frames] [--from TURN] [--to TURN] [--page P.p]\n";
    let status = if write_all(sink, line).is_ok() { 2 } else { 6 };
    Report::unrefused(status)
}

/// Draws a trace. It is read from the source, to its end or past the length of a trace; the words say which of its turns are shown, whether
/// one page alone, whether each frame, and whether the picture is an SVG or a text. It writes the picture, or the first fault of a text that
/// is no trace.
///
/// The statuses: 0, the picture was written; 2, the words ask nothing; 3, the bytes are no trace; 5, a read failed; 6, a write failed; 7,
/// memory ran out.
pub fn picture<S: Source, K: Sink>(
    alloc: Global,
    words: &[String],
    source: &mut S,
    sink: &mut K,
) -> Report
    // Where the source tells its bytes, they are a trace. A text was written; what it says of the trace isn't said here.
    ensures statuses { IsStatus result.status }
    ensures trace { result.status ≡ 0 → AreTrace (S.remaining source.old) }
    ensures drawn { result.status ≡ 0 → IsTaken (K.taken sink.old) (K.taken sink.new) }

    // A trace is drawn where neither the source nor the sink has failed, unless memory runs out.
    ensures complete { IsCommand (map string_bytes words.now)
        → (HasCause (S.faults source.old) (S.faults source.new) → ⊥)
        → (HasCause (K.faults sink.old) (K.faults sink.new) → ⊥)
        → OfTrace (S.remaining source.old) (λ script notes. (result.status ≡ 0) ⊎ (result.status ≡ 7)) }

    // Status 2 comes exactly where the words ask nothing, unless the sink fails.
    ensures usage { result.status ≡ 2 → IsCommand (map string_bytes words.now) → ⊥ }
    ensures no_command { (IsCommand (map string_bytes words.now) → ⊥) → (result.status ≡ 2) ⊎ (result.status ≡ 6) }
    ensures unread { (IsCommand (map string_bytes words.now) → ⊥) → source.new ≡ source.old }
    ensures usage_text { result.status ≡ 2 → Appends (K.taken sink.old) (K.taken sink.new) usage }

    // Status 3 comes only where the bytes are no trace, and then their first fault is written.
    ensures refused { result.status ≡ 3 → OfTrace (S.remaining source.old) (λ script notes. ⊥) }
    ensures refusal { IfSome result.refusal (IsNoTraceFor (S.remaining source.old)) }
    ensures refusal_there { result.status ≡ 3 → IsSome result.refusal }
    ensures no_refusal { (result.status ≡ 0) ⊎ (result.status ≡ 2) ⊎ (result.status ≡ 5) → result.refusal ≡ None }
    ensures refusal_text { result.status ≡ 3 → IfSome result.refusal
        (λ fault. Appends (K.taken sink.old) (K.taken sink.new) (refusal_text fault)) }

    // Status 5 comes exactly where a read failed, and then nothing is written.
    ensures read_fault { result.status ≡ 5
        → EndsInFault (S.faults source.old) (S.faults source.new) (S.faulted source.new) }
    ensures no_read_fault { (result.status ≡ 5 → ⊥) → S.faults source.new ≡ S.faults source.old }
    ensures reading { IsCommand (map string_bytes words.now)
        → Loses 0 67108865 (S.remaining source.old) (S.remaining source.new) }
    ensures read_through { IsCommand (map string_bytes words.now) → (result.status ≡ 5 → ⊥) → (result.status ≡ 7 → ⊥)
        → IsTraceReadThrough (S.remaining source.old) (S.remaining source.new) }
    ensures unwritten { (result.status ≡ 5) ⊎ (result.status ≡ 7) → sink.new ≡ sink.old }

    // Status 6 comes exactly where a write failed, in place of 0, 2 and 3. One write failed, and it was the last, and what was taken is a
    // prefix of the usage, of the line of a refusal, or of a text where the bytes are a trace.
    ensures write_fault { result.status ≡ 6
        → EndsInFault (K.faults sink.old) (K.faults sink.new) (K.faulted sink.new) }
    ensures no_write_fault { (result.status ≡ 6 → ⊥) → K.faults sink.new ≡ K.faults sink.old }
    ensures usage_part { result.status ≡ 6 → (IsCommand (map string_bytes words.now) → ⊥)
        → AppendsPart (K.taken sink.old) (K.taken sink.new) usage }
    ensures refusal_part { result.status ≡ 6 → IfSome result.refusal
        (λ fault. AppendsPart (K.taken sink.old) (K.taken sink.new) (refusal_text fault)) }
    ensures text_part { IsCommand (map string_bytes words.now) → result.status ≡ 6 → result.refusal ≡ None
        → AreTrace (S.remaining source.old) × IsPartlyTaken (K.taken sink.old) (K.taken sink.new) }
{
    traces_have_no_fault();
    let Some(wanted) = wanted_in(words) else {
        return show_usage(sink);
    };
    match read_from(alloc, source) {
        Ok(trace) => draw_and_write(alloc, sink, &wanted, &trace),
        Err(Unread::Failed) => Report::unrefused(5),
        Err(Unread::Fault(fault)) => refuse(alloc, sink, fault),
        Err(Unread::NoMemory) => Report::unrefused(7),
    }
}
