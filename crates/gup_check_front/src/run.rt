//! The command `check`.
ghost use Rattle.std.specs.Prelude.{◌≡◌, ◌⊎◌, ℕ, List, None, Some, IsSome, IfSome, IfOk};
ghost use Rattle.std.specs.Io.KnownBytes.{Appends};
ghost use Rattle.gup_io.specs.Transfers.{Loses, AppendsPart};
ghost use Rattle.gup_io.specs.Faults.{HasCause, EndsInFault};
ghost use Rattle.gup_front.specs.Lines.{refusal_text};
ghost use Rattle.gup_spec_check.specs.Verdicts.{IsVerdict, verdict_text};
ghost use Rattle.gup_check_front.specs.Reading.{OfTrace, AreTrace, IsNoTraceFor, IsTraceReadThrough};
ghost use Rattle.gup_check_front.specs.Judged.{IsCheckStatus, HasJudged, status_for, IsJudgedIn, IsPartlyJudged, IsReadAndJudged};

use crate::reading::read_from;
use crate::text::verdict_line;
use gup_base::NoMemory;
use gup_check::check;
use gup_front::{Unread, refusal_line};
use gup_io::{Sink, Source, write_all};
use gup_read_trace::{Trace, one_trace, traces_have_no_fault};
use gup_spec_check::Verdict;
use gup_spec_grammar::ScriptFault;
use std::alloc::Global;

/// How a check has ended.
#[derive(Clone, Copy, Debug, PartialEq, Eq)]
pub struct Checked {
    /// The exit status.
    pub status: u8,
    /// The fault of a text that is no trace.
    pub refusal: Option<ScriptFault>,
}

impl Checked {
    // The end of a check that refused no text.
    fn unrefused(status: u8) -> Checked
        ensures status { result.status ≡ status }
        ensures refusal { result.refusal ≡ None }
    {
        Checked {
            status,
            refusal: None,
        }
    }

    // The end of a check that refused a text for this fault.
    fn refused(status: u8, fault: ScriptFault) -> Checked
        ensures status { result.status ≡ status }
        ensures refusal { result.refusal ≡ Some fault }
    {
        Checked {
            status,
            refusal: Some(fault),
        }
    }
}

// A verdict, and the line that says so.
#[derive(Debug, Drop)]
struct Judgement {
    verdict: Verdict,
    line: Vec<u8>,
}

// Judges the trace.
fn judge(alloc: Global, trace: &Trace) -> Result<Judgement, NoMemory>
    ensures verdict { IfOk result (λ judgement. IsVerdict trace.now.script trace.now.journal.notes judgement.verdict) }
    ensures line { IfOk result (λ judgement. judgement.line.items ≡ verdict_text judgement.verdict) }
{
    let verdict = check(alloc, trace)?;
    let line = verdict_line(alloc, verdict)?;
    Ok(Judgement { verdict, line })
}

// The status of a verdict that was written.
fn status_of(verdict: Verdict) -> u8
    ensures { result ≡ status_for verdict }
{
    match verdict {
        Verdict::Yes | Verdict::Open => 0,
        Verdict::No(_) => 8,
    }
}

// Judges the trace, and writes the line of its verdict.
fn judge_and_write<K: Sink>(alloc: Global, sink: &mut K, trace: &Trace) -> Checked
    ensures statuses { HasJudged result.status ⊎ (result.status ≡ 6) ⊎ (result.status ≡ 7) }
    ensures refusal { result.refusal ≡ None }
    ensures judged { HasJudged result.status
        → IsJudgedIn result.status (K.taken sink.old) (K.taken sink.new) trace.now.script trace.now.journal.notes }
    ensures part { result.status ≡ 6
        → IsPartlyJudged (K.taken sink.old) (K.taken sink.new) trace.now.script trace.now.journal.notes }
    ensures write_fault { result.status ≡ 6
        → EndsInFault (K.faults sink.old) (K.faults sink.new) (K.faulted sink.new) }
    ensures uncounted { (result.status ≡ 6 → ⊥) → K.faults sink.new ≡ K.faults sink.old }
    ensures unwritten { result.status ≡ 7 → sink.new ≡ sink.old }
{
    let Ok(judgement) = judge(alloc, trace) else {
        return Checked::unrefused(7);
    };
    let status = if write_all(sink, judgement.line.as_slice()).is_ok() {
        status_of(judgement.verdict)
    } else {
        6
    };
    Checked::unrefused(status)
}

// Refuses a text: writes its fault.
fn refuse<K: Sink>(alloc: Global, sink: &mut K, fault: ScriptFault) -> Checked
    ensures statuses { (result.status ≡ 3) ⊎ (result.status ≡ 6) ⊎ (result.status ≡ 7) }
    ensures refusal { result.refusal ≡ Some fault }
    ensures text { result.status ≡ 3 → Appends (K.taken sink.old) (K.taken sink.new) (refusal_text fault) }
    ensures part { result.status ≡ 6 → AppendsPart (K.taken sink.old) (K.taken sink.new) (refusal_text fault) }
    ensures write_fault { result.status ≡ 6
        → EndsInFault (K.faults sink.old) (K.faults sink.new) (K.faulted sink.new) }
    ensures uncounted { (result.status ≡ 6 → ⊥) → K.faults sink.new ≡ K.faults sink.old }
    ensures unwritten { result.status ≡ 7 → sink.new ≡ sink.old }
{
    let Ok(line) = refusal_line(alloc, fault) else {
        return Checked::refused(7, fault);
    };
    let status = if write_all(sink, line.as_slice()).is_ok() {
        3
    } else {
        6
    };
    Checked::refused(status, fault)
}

/// Reads the source to its end, or past the length of a trace, checks the trace that its bytes are, and writes the line of its
/// verdict.
///
/// The statuses: 0, the line is `yes` or `open`; 3, the bytes are no trace; 5, a read failed; 6, a write failed; 7, memory ran out;
/// 8, the line is `no` and the number of the first note that isn't accepted.
pub fn check_source<S: Source, K: Sink>(alloc: Global, source: &mut S, sink: &mut K) -> Checked
    ensures statuses { IsCheckStatus result.status }
    ensures trace { HasJudged result.status → AreTrace (S.remaining source.old) }
    ensures verdict { HasJudged result.status
        → OfTrace (S.remaining source.old) (IsJudgedIn result.status (K.taken sink.old) (K.taken sink.new)) }
    ensures complete { (HasCause (S.faults source.old) (S.faults source.new) → ⊥)
        → (HasCause (K.faults sink.old) (K.faults sink.new) → ⊥)
        → OfTrace (S.remaining source.old) (λ script notes. HasJudged result.status ⊎ (result.status ≡ 7)) }
    ensures refused { result.status ≡ 3 → OfTrace (S.remaining source.old) (λ script notes. ⊥) }
    ensures refusal { IfSome result.refusal (IsNoTraceFor (S.remaining source.old)) }
    ensures refusal_there { result.status ≡ 3 → IsSome result.refusal }
    ensures refusal_text { result.status ≡ 3 → IfSome result.refusal
        (λ fault. Appends (K.taken sink.old) (K.taken sink.new) (refusal_text fault)) }
    ensures no_refusal { HasJudged result.status ⊎ (result.status ≡ 5) → result.refusal ≡ None }
    ensures reading { Loses 0 67108865 (S.remaining source.old) (S.remaining source.new) }
    ensures read_through { (result.status ≡ 5 → ⊥) → (result.status ≡ 7 → ⊥)
        → IsTraceReadThrough (S.remaining source.old) (S.remaining source.new) }
    ensures read_fault { result.status ≡ 5
        → EndsInFault (S.faults source.old) (S.faults source.new) (S.faulted source.new) }
    ensures no_read_fault { (result.status ≡ 5 → ⊥) → S.faults source.new ≡ S.faults source.old }
    ensures unwritten { (result.status ≡ 5) ⊎ (result.status ≡ 7) → sink.new ≡ sink.old }
    ensures write_fault { result.status ≡ 6
        → EndsInFault (K.faults sink.old) (K.faults sink.new) (K.faulted sink.new) }
    ensures no_write_fault { (result.status ≡ 6 → ⊥) → K.faults sink.new ≡ K.faults sink.old }
    ensures refusal_part { result.status ≡ 6 → IfSome result.refusal
        (λ fault. AppendsPart (K.taken sink.old) (K.taken sink.new) (refusal_text fault)) }
    ensures verdict_part { result.status ≡ 6
        → OfTrace (S.remaining source.old) (IsPartlyJudged (K.taken sink.old) (K.taken sink.new)) }
    ensures refused_or_judged { result.status ≡ 6 → IsSome result.refusal
        ⊎ IsReadAndJudged (S.remaining source.old) (K.taken sink.old) (K.taken sink.new) }
{
    one_trace();
    traces_have_no_fault();
    match read_from(alloc, source) {
        Ok(trace) => judge_and_write(alloc, sink, &trace),
        Err(Unread::Failed) => Checked::unrefused(5),
        Err(Unread::Fault(fault)) => refuse(alloc, sink, fault),
        Err(Unread::NoMemory) => Checked::unrefused(7),
    }
}
