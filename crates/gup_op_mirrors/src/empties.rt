//! The slots that a turn empties before anything else.
ghost use Rattle.std.specs.Option.{option_copied};
ghost use Rattle.std.specs.Prelude.{◌≡◌, ℕ, ◌<◌, length, slice_get, Some, IsSome, IfSome};
ghost use Rattle.arrayvec.specs.ArrayVec.{ArrayVec};
ghost use Rattle.gup_frames.specs.Frames.{frames_of};
ghost use Rattle.gup_notify.specs.Mirrors.{mirrors_of};
ghost use Rattle.gup_script.specs.Valid.{IsOp};
ghost use Rattle.gup_script.specs.declared.op.Op.TheVariants.{Fork};
ghost use Rattle.gup_spec_events.specs.State.{CoreState};
ghost use Rattle.gup_spec_turns.specs.Emptying.{has_page, invalidate};
ghost use Rattle.gup_spec_turns.specs.JobPlace.{place_in};
ghost use Rattle.gup_spec_turns.specs.Turn.{op_turn};
ghost use Rattle.gup_op_base.specs.Far.{HasFar, far_in};
ghost use Rattle.gup_op_base.specs.Jobs.{place_of};
ghost use Rattle.gup_op_base.specs.Tidy.{IsTidy};
ghost use Rattle.gup_op_waits.specs.Doers.{HasProcess};
ghost use Rattle.gup_op_waits.specs.Locks.{child_in};
ghost use Rattle.gup_op_waits.specs.Parts.{EachSpace, ShowsSpaces, ShowsParts};
ghost use Rattle.gup_op_waits.specs.Stands.{StandsAt};
ghost use Rattle.gup_op_mirrors.specs.Emptied.{LeavesSlotsOf};
ghost use Rattle.gup_op_mirrors.specs.Places.{ShowsChild};
ghost use Rattle.gup_op_mirrors.specs.Ranges.{range_of};

use crate::ranges::{Pages, invalidated};
use gup_base::{ActorNo, ProcNo};
use gup_notify::Mirrors;
use gup_op_base::JobPlace;
use gup_op_waits::{Parts, child_of};
use gup_script::Op;
use gup_space::Space;

/// Empties the slots that the actor's next turn of this operation is to empty, before the turn is taken: those that are filled with
/// a page whose entry it shares, breaks, clears, lowers, drops or discards, or whose rights it sets. The operation is of this
/// process, which is born, or of none; its actor stands there, and `far` of its turns are over. A fork whose child lacks a page
/// table for the page that it is to share shares none, and empties no slot. Where no slot is filled it costs no more than to see
/// that.
#[inline]
pub fn empty_slots(
    parts: &Parts,
    mirrors: &mut Mirrors,
    actor: ActorNo,
    proc: Option<ProcNo>,
    far: u16,
    job: &JobPlace,
    op: &Op,
)
    requires process { HasProcess op.now → IsSome proc }
    requires space { IfSome proc (λ p. p < length parts.now.spaces.items) }
    requires child { (child : ℕ) → op.now ≡ Fork child → child < length parts.now.spaces.items }
    requires actor { actor < length parts.now.taken.items }
    requires tidy { EachSpace (IsTidy (frames_of parts.now.frames)) parts.now.spaces.items }
    requires op { IsOp op.now }
    requires far { HasFar op.now far }
    ensures { LeavesSlotsOf parts.now actor proc far job.now op.now (mirrors_of mirrors.old) (mirrors_of mirrors.new) }
{
    if mirrors.is_any_filled() {
        empty_filled(parts, mirrors, actor, proc, far, job, op);
    }
}

// The same where a slot is filled.
#[inline(never)]
fn empty_filled(
    parts: &Parts,
    mirrors: &mut Mirrors,
    actor: ActorNo,
    proc: Option<ProcNo>,
    far: u16,
    job: &JobPlace,
    op: &Op,
)
    requires process { HasProcess op.now → IsSome proc }
    requires space { IfSome proc (λ p. p < length parts.now.spaces.items) }
    requires child { (child : ℕ) → op.now ≡ Fork child → child < length parts.now.spaces.items }
    requires actor { actor < length parts.now.taken.items }
    requires tidy { EachSpace (IsTidy (frames_of parts.now.frames)) parts.now.spaces.items }
    requires op { IsOp op.now }
    requires far { HasFar op.now far }
    ensures { LeavesSlotsOf parts.now actor proc far job.now op.now (mirrors_of mirrors.old) (mirrors_of mirrors.new) }
{
    let Some(proc) = proc else {
        return;
    };
    if let Some(pages) = pages_to_empty(parts, actor, proc, far, job, op) {
        mirrors.invalidate_pages(pages.proc, pages.page, pages.n);
    }
}

// The pages of the process whose slots are to be emptied.
fn pages_to_empty(
    parts: &Parts,
    actor: ActorNo,
    proc: ProcNo,
    far: u16,
    job: &JobPlace,
    op: &Op,
) -> Option<Pages>
    requires space { proc < length parts.now.spaces.items }
    requires child { (child : ℕ) → op.now ≡ Fork child → child < length parts.now.spaces.items }
    requires actor { actor < length parts.now.taken.items }
    requires tidy { EachSpace (IsTidy (frames_of parts.now.frames)) parts.now.spaces.items }
    requires op { IsOp op.now }
    requires far { HasFar op.now far }
    ensures { (s : CoreState) (slots k q g : ℕ) → ShowsParts parts.now s → far ≡ far_in (Some op.now) k
        → place_of job.now ≡ place_in s actor → StandsAt s actor proc k op.now → IsSome (s.entry q g)
        → invalidate (op_turn s actor proc slots k op.now).events q g ≡ has_page (range_of result) q g }
{
    let space = space_at(parts, proc);
    let got = pages_taken(parts, actor);
    let child = child_at(parts, op);
    invalidated(space, child, &parts.frames, proc, far, got, job, op)
}

fn space_at(parts: &Parts, proc: ProcNo) -> &Space
    requires { proc < length parts.now.spaces.items }
    ensures { slice_get parts.now.spaces.items proc ≡ Some result.now }
{
    &parts.spaces[proc.get() as usize]
}

// The child that the operation brings, if it is a fork.
fn child_at<'a>(parts: &'a Parts, op: &Op) -> Option<&'a Space>
    requires { (child : ℕ) → op.now ≡ Fork child → child < length parts.now.spaces.items }
    ensures { (s : CoreState) → ShowsSpaces parts.now.spaces.items s → ShowsChild (child_in op.now) (option_copied result) s }
{
    match child_of(op) {
        Some(child) => Some(space_at(parts, child)),
        None => None,
    }
}

// How many pages the actor's running pin has taken.
fn pages_taken(parts: &Parts, actor: ActorNo) -> u8
    requires { actor < length parts.now.taken.items }
    ensures { (pages : ArrayVec ℕ) → slice_get parts.now.taken.items actor ≡ Some pages → result ≡ length pages.items }
{
    parts.taken[actor.get() as usize].len() as u8
}
