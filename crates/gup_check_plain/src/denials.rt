//! The answer by which the plain state denies an operation.
ghost use Rattle.std.specs.Prelude.{◌≡◌, ◌↔◌, true, IsTrue};
ghost use Rattle.gup_plain.specs.State.{failed};
ghost use Rattle.gup_script.specs.Valid.{IsOp};
ghost use Rattle.gup_spec_journal.specs.Denial.{op_denial, denial};
ghost use Rattle.gup_spec_journal.specs.Place.{birth_for};
ghost use Rattle.gup_exec_parts.specs.Space.{birth_of};
ghost use Rattle.gup_exec_plain.specs.Parts.{state_of};
ghost use Rattle.gup_check_plain.specs.Needs.{NeedsProcess};
ghost use Rattle.gup_check_plain.specs.Referring.{references_of};

use crate::doer::Doer;
use crate::handles::{pin_holder_denial, reference_holder_denial, transfer_denial};
use crate::pages::{load_denial, map_denial, pin_denial, protect_denial, store_denial};
use crate::references::References;
use gup_base::ProcNo;
use gup_exec_parts::space::Birth;
use gup_exec_plain::Plain;
use gup_plain::Answer;
use gup_script::Op;

/// The answer by which the plain state denies the operation, if it does: first that its process failed to come into
/// being. Of a pin, the page that is asked for is the one after the `got` that it has, and may be past the last.
///
/// This takes logarithmic time: for a mapping or a change of rights, as much for each page.
pub fn denial(
    plain: &Plain,
    references: &References,
    who: &Doer,
    got: usize,
    op: &Op,
) -> Option<Answer>
    requires fits { NeedsProcess op.now → who.now.of_process ≡ true }
    requires in_range { IsOp op.now }
    ensures { result ≡ denial (state_of plain.now) (references_of references.now) who.now got op.now }
{
    if has_failed(plain, who) {
        return Some(Answer::Unborn);
    }
    op_denial(plain, references, who, got, op)
}

// Whether the operation is of a process that failed to come into being.
fn has_failed(plain: &Plain, who: &Doer) -> bool
    ensures { IsTrue result ↔ (birth_for (state_of plain.now).birth who.now ≡ failed) }
{
    match who.process() {
        None => false,
        Some(p) => is_failure(plain.birth_of(p)),
    }
}

fn is_failure(birth: Birth) -> bool
    ensures { IsTrue result ↔ (birth_of birth ≡ failed) }
{
    match birth {
        Birth::Failed => true,
        Birth::Unborn | Birth::Growing(_) | Birth::Born => false,
    }
}

// What denies an operation of a born process.
fn op_denial(
    plain: &Plain,
    references: &References,
    who: &Doer,
    got: usize,
    op: &Op,
) -> Option<Answer>
    requires fits { NeedsProcess op.now → who.now.of_process ≡ true }
    requires in_range { IsOp op.now }
    ensures { result ≡ op_denial (state_of plain.now) (references_of references.now) who.now got op.now }
{
    match op {
        Op::Map { page, n, .. } => map_denial(plain, process_of(who), *page, *n),
        Op::Protect { page, n, .. } => protect_denial(plain, process_of(who), *page, *n),
        Op::Load { page, .. }
        | Op::Get { page, .. }
        | Op::Mirror { page, .. }
        | Op::Move { page, .. } => load_denial(plain, process_of(who), *page),
        Op::Store { page, .. } => store_denial(plain, process_of(who), *page),
        Op::Pin { page, want, .. } => pin_denial(plain, process_of(who), *page, got, want.write),
        Op::Unpin { handle } | Op::Give { handle, .. } => {
            pin_holder_denial(plain, *handle, who.actor())
        }
        Op::Put { handle } => reference_holder_denial(references, *handle, who.actor()),
        Op::Transfer {
            handle,
            outward,
            slot,
            parts,
        } => transfer_denial(
            plain.handle(*handle),
            who.actor(),
            *outward,
            who.slots(),
            *slot,
            parts,
        ),
        Op::Unmap { .. }
        | Op::Discard { .. }
        | Op::Take { .. }
        | Op::Look { .. }
        | Op::Fork { .. }
        | Op::Exit => None,
    }
}

// The process of an operation that is of one.
fn process_of(who: &Doer) -> ProcNo
    requires { who.now.of_process ≡ true }
    ensures { result ≡ who.now.proc }
{
    who.process().unwrap()
}
