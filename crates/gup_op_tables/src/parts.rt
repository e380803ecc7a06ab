//! What a turn does to the page tables of a machine's processes, before and after the operation's own turn.
ghost use Rattle.std.specs.Prelude.{◌≡◌, ℕ, ◌<◌, Bool, false, length, slice_get, Some, None, IfSome, IsSome};
ghost use Rattle.arrayvec.specs.ArrayVec.{ArrayVec};
ghost use Rattle.gup_script.specs.Valid.{IsOp};
ghost use Rattle.gup_base.specs.declared.entry.Want.{Want};
ghost use Rattle.gup_script.specs.declared.op.Op.TheVariants.{Fork, Pin};
ghost use Rattle.gup_space.specs.Space.{OwnsTables};
ghost use Rattle.gup_spec_events.specs.State.{CoreState};
ghost use Rattle.gup_tables.specs.Pool.{pool_of};
ghost use Rattle.gup_op_base.specs.Far.{HasFar, far_in};
ghost use Rattle.gup_op_base.specs.Jobs.{place_of};
ghost use Rattle.gup_op_base.specs.Tidy.{AreNumbered};
ghost use Rattle.gup_op_waits.specs.Doers.{HasProcess};
ghost use Rattle.gup_op_waits.specs.Parts.{EachSpace};
ghost use Rattle.gup_op_tables.specs.Alike.{IsGrown, EachPair, ShowsEach};
ghost use Rattle.gup_op_tables.specs.Spots.{spot_of, is_slow, IsDown, retired_spot};
ghost use Rattle.gup_op_tables.specs.Turns.{AreParted, GrowsFor, ShrinksFor, child_at};

use crate::changes::{grow, release, retire};
use crate::pages::{Spot, page_to_grow, page_to_retire};
use gup_base::{ActorNo, ProcNo};
use gup_op_base::JobPlace;
use gup_op_waits::{Birth, Parts, birth_of};
use gup_script::Op;
use gup_space::Space;
use gup_tables::Pool;

/// Before the operation's own turn: the page that it makes ready gets the page tables that it lacks, or none where too few are free
/// ([`page_to_grow`]). The operation is of this process, that hasn't failed, if it is of one.
#[inline(always)]
pub fn grow_for(
    parts: &mut Parts,
    pool: &mut Pool,
    actor: ActorNo,
    proc: Option<ProcNo>,
    far: u16,
    job: &JobPlace,
    op: &Op,
)
    requires process { HasProcess op.now → IsSome proc }
    requires space { IfSome proc (λ p. p < length parts.old.spaces.items) }
    requires child { (child : ℕ) → op.now ≡ Fork child → child < length parts.old.spaces.items }
    requires taken { actor < length parts.old.taken.items }
    requires owned { EachSpace (λ space. OwnsTables space (pool_of pool.old)) parts.old.spaces.items }
    requires op { IsOp op.now }
    ensures rest { AreParted parts.old parts.new }
    ensures many { length parts.new.spaces.items ≡ length parts.old.spaces.items }
    ensures grown { EachPair IsGrown parts.old.spaces.items parts.new.spaces.items }
    ensures walks { (handle page n : ℕ) (want : Want) (fast : Bool) → op.now ≡ Pin handle page n want fast → is_slow (place_of job.now) ≡ false
        → parts.new.spaces.items ≡ parts.old.spaces.items }
    ensures pool { (pool_of pool.new).tables ≡ (pool_of pool.old).tables }
    ensures leads { GrowsFor parts.old parts.new (pool_of pool.old) (pool_of pool.new) actor proc far op.now (place_of job.now) }
{
    let Some(proc) = proc else {
        return;
    };
    let got = pages_taken(parts, actor);
    let at = page_to_grow(space_at(parts, proc), proc, far, got, job, op);
    grow(&mut parts.spaces, pool, at);
}

fn space_at(parts: &Parts, proc: ProcNo) -> &Space
    requires { proc < length parts.now.spaces.items }
    ensures { slice_get parts.now.spaces.items proc ≡ Some result.now }
{
    &parts.spaces[proc.get() as usize]
}

// How many pages the actor's running pin has taken.
fn pages_taken(parts: &Parts, actor: ActorNo) -> u8
    requires { actor < length parts.now.taken.items }
    ensures { (pages : ArrayVec ℕ) → slice_get parts.now.taken.items actor ≡ Some pages → result ≡ length pages.items }
{
    parts.taken[actor.get() as usize].len() as u8
}

/// The page that the operation's turn takes down, if it takes one down and the process has a page table ([`page_to_retire`]).
#[inline(always)]
pub fn page_down(spaces: &Vec<Space>, proc: Option<ProcNo>, far: u16, op: &Op) -> Option<Spot>
    requires process { HasProcess op.now → IsSome proc }
    requires space { IfSome proc (λ p. p < length spaces.now.items) }
    requires numbered { EachSpace AreNumbered spaces.now.items }
    requires op { IsOp op.now }
    requires far { HasFar op.now far }
    ensures of { IfSome result (λ at. proc ≡ Some at.proc) }
    ensures spot { (s : CoreState) (k p : ℕ) → IfSome proc (λ q. q ≡ p) → ShowsEach spaces.now.items s → far ≡ far_in (Some op.now) k
        → IsDown (s.place p) (s.retired p) (spot_of result) (retired_spot (s.right p) p k op.now) }
{
    let proc = proc?;
    page_to_retire(&spaces[proc.get() as usize], proc, far, op)
}

/// The child of a fork that has begun before its turn.
#[inline(always)]
pub fn child_before(job: &JobPlace, op: &Op) -> Option<ProcNo>
    ensures { result ≡ child_at (place_of job.now) op.now }
{
    if matches!(job, JobPlace::Unbegun) {
        return None;
    }
    match op {
        Op::Fork { child } => Some(*child),
        _ => None,
    }
}

/// After the operation's own turn: the empty page tables of the page that it took down go, or, if it was that of a fork that has failed,
/// those of the child.
#[inline(always)]
pub fn shrink_for(
    parts: &mut Parts,
    pool: &mut Pool,
    proc: Option<ProcNo>,
    down: Option<Spot>,
    forks: Option<ProcNo>,
)
    requires down { IfSome down (λ at. at.proc < length parts.old.spaces.items) }
    requires owned { EachSpace (λ space. OwnsTables space (pool_of pool.old)) parts.old.spaces.items }
    requires parent { IfSome proc (λ p. p < length parts.old.spaces.items) }
    requires child { IfSome forks (λ c. c < length parts.old.spaces.items) }
    requires birth { IfSome forks (λ c. c < length parts.old.births.items) }
    ensures rest { AreParted parts.old parts.new }
    ensures many { length parts.new.spaces.items ≡ length parts.old.spaces.items }
    ensures pool { (pool_of pool.new).tables ≡ (pool_of pool.old).tables }
    ensures leads { ShrinksFor parts.old parts.new (pool_of pool.old) (pool_of pool.new) proc down forks }
{
    let Some(child) = forks else {
        retire(&mut parts.spaces, pool, down);
        return;
    };
    let Some(parent) = proc else {
        return;
    };
    if matches!(birth_of(&parts.births, child), Birth::Failed) {
        release(&mut parts.spaces, pool, parent, child);
    }
}
