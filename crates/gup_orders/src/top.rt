//! The top call: what the program does, from its words and its bytes to its text.
ghost use Rattle.std.specs.Prelude.{◌≡◌, ◌⊎◌, ℕ, Bool, List, None, Some, IsSome, IfSome, IfOk, IfErr, map, string_bytes};
ghost use Rattle.std.specs.Io.KnownBytes.{Appends};
ghost use Rattle.gup_io.specs.Transfers.{Loses, AppendsPart};
ghost use Rattle.gup_io.specs.Faults.{HasCause, EndsInFault};
ghost use Rattle.gup_spec_grammar.specs.Grammar.{Accepts};
ghost use Rattle.gup_front.specs.Reading.{OfScript, AreScript, IsReadThrough};
ghost use Rattle.gup_orders.specs.Report.{IsAsked, IsCommand, usage, HasFound, IsStatus, IsTold, OfText, refused_text, condition_refusal_text, condition_reason_text, IsRefusedBy, IsOfCondition};
ghost use Rattle.gup_orders.specs.Untold.{IsUntoldFor, IsWrongIn};

use crate::command::{Asked, asked_in};
use crate::found::{Found, status_by};
use crate::text::found_text;
use gup_base::NoMemory;
use gup_conditions::{ConditionFault, ConditionReason, ConditionRefusal, read_conditions};
use gup_front::{ReadScript, Unread, read, refusal_line};
use gup_io::{Sink, Source, write_all};
use gup_law_orders::orders_are_runs;
use gup_lines::push_text;
use gup_read::{one_script, scripts_have_no_fault};
use gup_spec_grammar::ScriptFault;
use itoa::Buffer;
use std::alloc::Global;

/// Why a text is refused.
#[derive(Clone, Copy, Debug)]
pub enum Refusal {
    /// It is no script.
    Script(ScriptFault),
    /// One of its comments is meant as a condition and is none.
    Condition(ConditionFault),
}

/// What the program did: its exit status, and why a text was refused.
#[derive(Clone, Copy, Debug)]
pub struct Report {
    pub status: u8,
    pub refusal: Option<Refusal>,
}

// What a search tells: its text, and the status.
#[derive(Debug, Drop)]
struct Told {
    status: u8,
    text: Vec<u8>,
}

// Why there is nothing to tell.
#[derive(Clone, Copy, Debug)]
enum Untold {
    Fault(ConditionFault),
    NoMemory,
}

impl From<NoMemory> for Untold {
    ghost use Rattle.gup_orders.specs.declared.top.Untold.TheVariants.{NoMemory};

    ghost from_gives = { λ _ untold. untold ≡ NoMemory };

    fn from(_error: NoMemory) -> Untold {
        Untold::NoMemory
    }
}

impl From<ConditionRefusal> for Untold {
    ghost use Rattle.gup_orders.specs.Untold.{untold_by};

    ghost from_gives = { λ refusal untold. untold ≡ untold_by refusal };

    fn from(refusal: ConditionRefusal) -> Untold {
        match refusal {
            ConditionRefusal::Fault(fault) => Untold::Fault(fault),
            ConditionRefusal::NoMemory => Untold::NoMemory,
        }
    }
}

// Reads the text's conditions and searches the orders of its script.
fn tell(alloc: Global, asked: &Asked, read: &ReadScript) -> Result<Told, Untold>
    requires { Accepts read.now.text.items read.now.script }
    ensures told { IfOk result (λ told. IsTold asked.now.behind asked.now.limit read.now.text.items read.now.script told.status told.text.items) }
    ensures status { IfOk result (λ told. HasFound told.status) }
    ensures fault { IfErr result (IsUntoldFor read.now.text.items read.now.script) }
{
    orders_are_runs();
    let script = &read.script;
    let _actors = script.actors();
    let conditions = read_conditions(alloc, script, read.text.as_slice())?;
    let found = Found::of(alloc, script, asked, conditions.as_slice())?;
    let verdicts = found.verdicts(alloc, conditions.as_slice())?;
    let text = found_text(
        alloc,
        script,
        conditions.as_slice(),
        &found,
        verdicts.as_slice(),
    )?;
    Ok(Told {
        status: status_by(verdicts.as_slice(), found.is_open()),
        text,
    })
}

// Searches the orders of the script that was read, and writes what is found.
fn tell_and_write<K: Sink>(alloc: Global, sink: &mut K, asked: &Asked, read: &ReadScript) -> Report
    requires { Accepts read.now.text.items read.now.script }
    ensures statuses { IsStatus result.status }
    ensures read { result.status ≡ 5 → ⊥ }
    ensures told { HasFound result.status → (text : List ℕ)
        × IsTold asked.now.behind asked.now.limit read.now.text.items read.now.script result.status text
        × Appends (K.taken sink.old) (K.taken sink.new) text }
    ensures no_refusal { HasFound result.status → result.refusal ≡ None }
    ensures refusal { IfSome result.refusal (IsWrongIn read.now.text.items read.now.script) }
    ensures refusal_there { result.status ≡ 3 → IsSome result.refusal }
    ensures refusal_text { result.status ≡ 3 → IfSome result.refusal
        (λ refusal. Appends (K.taken sink.old) (K.taken sink.new) (refused_text refusal)) }
    ensures refusal_part { result.status ≡ 6 → IfSome result.refusal
        (λ refusal. AppendsPart (K.taken sink.old) (K.taken sink.new) (refused_text refusal)) }
    ensures text_part { result.status ≡ 6 → result.refusal ≡ None → (status : ℕ) × (text : List ℕ)
        × IsTold asked.now.behind asked.now.limit read.now.text.items read.now.script status text
        × AppendsPart (K.taken sink.old) (K.taken sink.new) text }
    ensures write_fault { result.status ≡ 6
        → EndsInFault (K.faults sink.old) (K.faults sink.new) (K.faulted sink.new) }
    ensures uncounted { (result.status ≡ 6 → ⊥) → K.faults sink.new ≡ K.faults sink.old }
    ensures unwritten { result.status ≡ 7 → sink.new ≡ sink.old }
{
    match tell(alloc, asked, read) {
        Ok(told) => Report {
            status: if write_all(sink, told.text.as_slice()).is_ok() {
                told.status
            } else {
                6
            },
            refusal: None,
        },
        Err(Untold::Fault(fault)) => refuse(alloc, sink, Refusal::Condition(fault)),
        Err(Untold::NoMemory) => Report {
            status: 7,
            refusal: None,
        },
    }
}

// Refuses a text: writes its fault.
fn refuse<K: Sink>(alloc: Global, sink: &mut K, refusal: Refusal) -> Report
    ensures statuses { (result.status ≡ 3) ⊎ (result.status ≡ 6) ⊎ (result.status ≡ 7) }
    ensures refusal { result.refusal ≡ Some refusal }
    ensures text { result.status ≡ 3 → Appends (K.taken sink.old) (K.taken sink.new) (refused_text refusal) }
    ensures part { result.status ≡ 6 → AppendsPart (K.taken sink.old) (K.taken sink.new) (refused_text refusal) }
    ensures write_fault { result.status ≡ 6
        → EndsInFault (K.faults sink.old) (K.faults sink.new) (K.faulted sink.new) }
    ensures uncounted { (result.status ≡ 6 → ⊥) → K.faults sink.new ≡ K.faults sink.old }
    ensures unwritten { result.status ≡ 7 → sink.new ≡ sink.old }
{
    let Ok(text) = refused_line(alloc, refusal) else {
        return Report {
            status: 7,
            refusal: Some(refusal),
        };
    };
    Report {
        status: if write_all(sink, text.as_slice()).is_ok() {
            3
        } else {
            6
        },
        refusal: Some(refusal),
    }
}

// The line that a refusal is told by: `line n: reason`.
fn refused_line(alloc: Global, refusal: Refusal) -> Result<Vec<u8>, NoMemory>
    ensures { IfOk result (λ text. text.items ≡ refused_text refusal) }
{
    match refusal {
        Refusal::Script(fault) => refusal_line(alloc, fault),
        Refusal::Condition(fault) => condition_line(alloc, fault),
    }
}

fn condition_line(alloc: Global, fault: ConditionFault) -> Result<Vec<u8>, NoMemory>
    ensures { IfOk result (λ text. text.items ≡ condition_refusal_text fault) }
{
    let mut text = Vec::new(alloc);
    let mut number = Buffer::new();
    push_text(&mut text, "line ")?;
    push_text(&mut text, number.format(u64::from(fault.line)))?;
    push_text(&mut text, ": ")?;
    push_text(&mut text, condition_reason(fault.reason))?;
    push_text(&mut text, "\n")?;
    Ok(text)
}

fn condition_reason(reason: ConditionReason) -> &'static str
    ensures { result.now ≡ condition_reason_text reason }
{
    match reason {
        ConditionReason::Shape => "shape",
        ConditionReason::Name => "name",
        ConditionReason::Answer => "answer",
    }
}

// Says how the program is called.
fn show_usage<K: Sink>(sink: &mut K) -> Report
    ensures statuses { (result.status ≡ 2) ⊎ (result.status ≡ 6) }
    ensures refusal { result.refusal ≡ None }
    ensures text { result.status ≡ 2 → Appends (K.taken sink.old) (K.taken sink.new) usage }
    ensures part { result.status ≡ 6 → AppendsPart (K.taken sink.old) (K.taken sink.new) usage }
    ensures write_fault { result.status ≡ 6
        → EndsInFault (K.faults sink.old) (K.faults sink.new) (K.faulted sink.new) }
    ensures uncounted { (result.status ≡ 6 → ⊥) → K.faults sink.new ≡ K.faults sink.old }
{
    Report {
        status: if write_all(sink, b"usage: gup orders [behind] [--limit N]\n").is_ok() {
            2
        } else {
            6
        },
        refusal: None,
    }
}

/// Explores every order in which the actors of a script can take their turns. The script is read from the source, to its end or past the
/// length of a script; the words say whether the orders begin at the start or behind the written turns, and over how many states the search
/// goes at most. It writes how many states and outcomes there are, each outcome with an order that comes to it, and a verdict on each
/// condition that stands in the script's comments.
///
/// The statuses: 0, each condition holds; 8, one doesn't; 9, none fails, and one is open, or all is, since there are more states than the
/// limit; 2, the words ask nothing; 3, the bytes are no script, or a comment is meant as a condition and is none; 5, a read failed; 6, a
/// write failed; 7, memory ran out.
pub fn orders<S: Source, K: Sink>(
    alloc: Global,
    words: &[String],
    source: &mut S,
    sink: &mut K,
) -> Report
    // Where the source tells its bytes, they are a script. Each outcome that is written comes of the order that is written with it, every
    // order comes to one of them, unless the search is open, each verdict is right of every order, and the text is nothing else.
    ensures script { IsCommand (map string_bytes words.now) → HasFound result.status → AreScript (S.remaining source.old) }
    ensures told { (behind : Bool) (limit : ℕ) → IsAsked (map string_bytes words.now) behind limit → HasFound result.status
        → OfText (S.remaining source.old) (λ bytes script. (text : List ℕ) × IsTold behind limit bytes script result.status text
        × Appends (K.taken sink.old) (K.taken sink.new) text) }

    // Bytes that are a script are searched, or have a wrong condition, where neither the source nor the sink has failed, unless memory
    // runs out.
    ensures statuses { IsCommand (map string_bytes words.now) → IsStatus result.status }
    ensures complete { IsCommand (map string_bytes words.now)
        → (HasCause (S.faults source.old) (S.faults source.new) → ⊥)
        → (HasCause (K.faults sink.old) (K.faults sink.new) → ⊥)
        → OfText (S.remaining source.old) (λ bytes script. HasFound result.status
        ⊎ ((result.status ≡ 3) × IsOfCondition result.refusal) ⊎ (result.status ≡ 7)) }

    // Status 2 comes exactly where the words ask nothing, unless the sink fails.
    ensures usage { result.status ≡ 2 → IsCommand (map string_bytes words.now) → ⊥ }
    ensures no_command { (IsCommand (map string_bytes words.now) → ⊥) → (result.status ≡ 2) ⊎ (result.status ≡ 6) }
    ensures unread { (IsCommand (map string_bytes words.now) → ⊥) → source.new ≡ source.old }
    ensures usage_text { result.status ≡ 2 → Appends (K.taken sink.old) (K.taken sink.new) usage }

    // Status 3 comes only where the bytes are no script, or have a wrong condition.
    ensures refusal { IfSome result.refusal (IsRefusedBy (S.remaining source.old)) }
    ensures refusal_there { result.status ≡ 3 → IsSome result.refusal }
    ensures no_refusal { HasFound result.status ⊎ (result.status ≡ 2) ⊎ (result.status ≡ 5) → result.refusal ≡ None }
    ensures refusal_text { result.status ≡ 3 → IfSome result.refusal
        (λ refusal. Appends (K.taken sink.old) (K.taken sink.new) (refused_text refusal)) }

    // Status 5 comes exactly where a read failed, and then nothing is written.
    ensures read_fault { result.status ≡ 5
        → EndsInFault (S.faults source.old) (S.faults source.new) (S.faulted source.new) }
    ensures no_read_fault { (result.status ≡ 5 → ⊥) → S.faults source.new ≡ S.faults source.old }
    ensures reading { IsCommand (map string_bytes words.now)
        → Loses 0 1048577 (S.remaining source.old) (S.remaining source.new) }
    ensures read_through { IsCommand (map string_bytes words.now) → (result.status ≡ 5 → ⊥) → (result.status ≡ 7 → ⊥)
        → IsReadThrough (S.remaining source.old) (S.remaining source.new) }
    ensures unwritten { (result.status ≡ 5) ⊎ (result.status ≡ 7) → sink.new ≡ sink.old }

    // Status 6 comes exactly where a write failed, in place of 0, 2, 3, 8 and 9. One write failed, and it was the last, and what was taken
    // is a prefix of the text: the usage, that of a refusal, or that of a search of the script that was read.
    ensures write_fault { result.status ≡ 6
        → EndsInFault (K.faults sink.old) (K.faults sink.new) (K.faulted sink.new) }
    ensures no_write_fault { (result.status ≡ 6 → ⊥) → K.faults sink.new ≡ K.faults sink.old }
    ensures usage_part { result.status ≡ 6 → (IsCommand (map string_bytes words.now) → ⊥)
        → AppendsPart (K.taken sink.old) (K.taken sink.new) usage }
    ensures refusal_part { result.status ≡ 6 → IfSome result.refusal
        (λ refusal. AppendsPart (K.taken sink.old) (K.taken sink.new) (refused_text refusal)) }
    ensures text_part { (behind : Bool) (limit : ℕ) → IsAsked (map string_bytes words.now) behind limit → result.status ≡ 6
        → result.refusal ≡ None → OfText (S.remaining source.old) (λ bytes script. (status : ℕ) × (text : List ℕ)
        × IsTold behind limit bytes script status text × AppendsPart (K.taken sink.old) (K.taken sink.new) text) }
{
    one_script();
    scripts_have_no_fault();
    let Some(asked) = asked_in(words) else {
        return show_usage(sink);
    };
    match read(alloc, source) {
        Ok(read) => tell_and_write(alloc, sink, &asked, &read),
        Err(Unread::Failed) => Report {
            status: 5,
            refusal: None,
        },
        Err(Unread::Fault(fault)) => refuse(alloc, sink, Refusal::Script(fault)),
        Err(Unread::NoMemory) => Report {
            status: 7,
            refusal: None,
        },
    }
}
