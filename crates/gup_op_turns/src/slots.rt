//! A turn of an operation among all processes, with what it does to the mirror slots.
ghost use Rattle.std.specs.Prelude.{◌≡◌, ℕ, ◌<◌, ◌≤◌, true, length, slice_get, List, Some, None, IsSome, IfSome};
ghost use Rattle.gup_script.specs.declared.op.Op.TheVariants.{Fork};
ghost use Rattle.gup_frames.specs.Frames.{frames_of, IsFrame};
ghost use Rattle.gup_space.specs.Space.{SpaceParts, space_of};
ghost use Rattle.gup_notify.specs.Mirrors.{Filled, mirrors_of};
ghost use Rattle.gup_spec_journal.specs.Place.{Doer};
ghost use Rattle.gup_spec_events.specs.State.{Taken};
ghost use Rattle.gup_spec_turns.specs.Turn.{own_turn, turn_of};
ghost use Rattle.gup_spec_turns.specs.MirrorTurns.{mirror_turn};
ghost use Rattle.gup_spec_turns.specs.JobPlace.{JobPlace as Place};
ghost use Rattle.gup_op_base.specs.Far.{far_in};
ghost use Rattle.gup_op_base.specs.Said.{TellsTurn, whats_of};
ghost use Rattle.gup_op_base.specs.Tidy.{IsTidy};
ghost use Rattle.gup_op_base.specs.Turns.{IsTurnOf, Anywhere};
ghost use Rattle.gup_op_slots.specs.Mirroring.{ShowsMirroring, mirroring_view};
ghost use Rattle.gup_op_waits.specs.Births.{HasFailed};
ghost use Rattle.gup_op_waits.specs.Doers.{HasProcess, IsProcessOf};
ghost use Rattle.gup_op_waits.specs.Parts.{EachSpace};
ghost use Rattle.gup_tables.specs.Pool.{pool_of};
ghost use Rattle.gup_op_turns.specs.Goes.{ShowsAll, ShowsWhole, StandsWith, TakesMirrors, TakesOwnMirrors, IsFrom, all_view, whole_view, IsReady, HasSlots, KeepsSlots};

use crate::takes::{refuse, take_at};
use gup_base::{MirrorNo, PageNo, ProcNo};
use gup_notify::Mirrors;
use gup_op_base::{Head, JobPlace};
use gup_op_mirrors::empty_slots;
use gup_op_slots::{look, mirror as fill};
use gup_op_tables::{child_before, grow_for, page_down, shrink_for};
use gup_op_waits::{Parts, has_failed};
use gup_plain::Journal;
use gup_script::Op;
use gup_tables::Pool;

/// Takes a turn of the operation, which has come so far, of whose actor the job stands there, and which is of this process if it
/// is of one. It puts the notes on at the journal's end, leaves the job where it stands then, and answers whether the operation
/// is over. Where the process has failed, the operation is refused. Else the page that the turn makes ready first gets the page tables
/// that it lacks, if as many are free, and after a page was taken down, or a fork has failed, tables that are empty then go.
#[inline(always)]
pub fn take_turn(
    parts: &mut Parts,
    mirrors: &mut Mirrors,
    pool: &mut Pool,
    journal: &mut Journal,
    head: &Head,
    proc: Option<ProcNo>,
    far: u16,
    job: &mut JobPlace,
    op: &Op,
) -> bool
    requires process { HasProcess op.now → IsSome proc }
    requires space { IfSome proc (λ p. p < length parts.old.spaces.items) }
    requires birth { IfSome proc (λ p. p < length parts.old.births.items) }
    requires child { (child : ℕ) → op.now ≡ Fork child → (child < length parts.old.births.items) × (child < length parts.old.spaces.items) }
    requires ready { (p : ℕ) → (HasFailed parts.old.births.items proc → ⊥) → IfSome proc (λ q. q ≡ p)
        → IsReady parts.old head.now.actor p op.now far job.old }
    requires there { (m : ℕ) (filled : Filled) → mirrors_of mirrors.old m ≡ Some filled
        → IsFrame (frames_of parts.old.frames) filled.frame }
    requires from { IsFrom parts.old (pool_of pool.old) (mirrors_of mirrors.old) head.now.actor proc far op.now job.old }
    requires room { 3 ≤ journal.old.room }
    ensures spaces { length parts.new.spaces.items ≡ length parts.old.spaces.items }
    ensures births { length parts.new.births.items ≡ length parts.old.births.items }
    ensures taken { length parts.new.taken.items ≡ length parts.old.taken.items }
    ensures stores { length parts.new.stores.items ≡ length parts.old.stores.items }
    ensures slots { KeepsSlots parts.old.stores.items parts.new.stores.items }
    ensures pool { (pool_of pool.new).tables ≡ (pool_of pool.old).tables }
    ensures turn { TellsTurn head.now journal.old journal.new result
        (λ said. (who : Doer) (k : ℕ) (others : ℕ → Place) (left : ℕ → List Taken) → who.actor ≡ head.now.actor → IsProcessOf who proc
        → HasSlots parts.old head.now.actor who.slots → far ≡ far_in (Some op.now) k
        → IsTurnOf (ShowsWhole head.now.actor op.now) (StandsWith (mirrors_of mirrors.old) head.now.actor who k op.now)
        (whole_view (all_view parts.old job.old others left) (pool_of pool.old)) (whole_view (all_view parts.new job.new others left) (pool_of pool.new))
        (λ s. turn_of s who k op.now) (whats_of said)) }
    ensures mirrors { TakesMirrors parts.old (pool_of pool.old) head.now.actor proc far op.now job.old (mirrors_of mirrors.old) (mirrors_of mirrors.new) }
{
    if has_failed(&parts.births, &proc) {
        refuse(&mut parts.births, journal, head, op);
        return true;
    }
    grow_for(parts, pool, head.actor, proc, far, job, op);
    let down = page_down(&parts.spaces, proc, far, op);
    let forks = child_before(job, op);
    let over = take_own(parts, mirrors, journal, head, proc, far, job, op);
    shrink_for(parts, pool, proc, down, forks);
    over
}

// Takes the operation's own turn, of a process that hasn't failed: a mirror fills its slot, a look reads through one, and before any
// other turn the slots are emptied that it is to empty.
#[inline(always)]
fn take_own(
    parts: &mut Parts,
    mirrors: &mut Mirrors,
    journal: &mut Journal,
    head: &Head,
    proc: Option<ProcNo>,
    far: u16,
    job: &mut JobPlace,
    op: &Op,
) -> bool
    requires process { HasProcess op.now → IsSome proc }
    requires birth { IfSome proc (λ p. p < length parts.old.births.items) }
    requires space { IfSome proc (λ p. p < length parts.old.spaces.items) }
    requires child { (child : ℕ) → op.now ≡ Fork child → child < length parts.old.births.items }
    requires unfailed { HasFailed parts.old.births.items proc → ⊥ }
    requires ready { (p : ℕ) → IfSome proc (λ q. q ≡ p) → IsReady parts.old head.now.actor p op.now far job.old }
    requires there { (m : ℕ) (filled : Filled) → mirrors_of mirrors.old m ≡ Some filled
        → IsFrame (frames_of parts.old.frames) filled.frame }
    requires room { 3 ≤ journal.old.room }
    ensures spaces { length parts.new.spaces.items ≡ length parts.old.spaces.items }
    ensures births { length parts.new.births.items ≡ length parts.old.births.items }
    ensures taken { length parts.new.taken.items ≡ length parts.old.taken.items }
    ensures stores { length parts.new.stores.items ≡ length parts.old.stores.items }
    ensures slots { KeepsSlots parts.old.stores.items parts.new.stores.items }
    ensures turn { TellsTurn head.now journal.old journal.new result
        (λ said. (who : Doer) (k : ℕ) (others : ℕ → Place) (left : ℕ → List Taken) → who.actor ≡ head.now.actor → IsProcessOf who proc
        → HasSlots parts.old head.now.actor who.slots → far ≡ far_in (Some op.now) k
        → IsTurnOf (ShowsAll head.now.actor op.now) (StandsWith (mirrors_of mirrors.old) head.now.actor who k op.now)
        (all_view parts.old job.old others left) (all_view parts.new job.new others left)
        (λ s. own_turn s who k op.now) (whats_of said)) }
    ensures mirrors { TakesOwnMirrors parts.old head.now.actor proc far op.now job.old (mirrors_of mirrors.old) (mirrors_of mirrors.new) }
{
    match op {
        Op::Mirror { mirror, page, .. } => {
            take_mirror(parts, mirrors, journal, head, proc.unwrap(), *mirror, *page);
            true
        }
        Op::Look { mirror, word } => {
            look(&parts.frames, mirrors, journal, head, *mirror, *word);
            true
        }
        _ => {
            let of = &proc;
            empty_slots(parts, mirrors, head.actor, *of, far, job, op);
            take_at(parts, journal, head, *of, far, job, op)
        }
    }
}

// Takes the turn of a mirror of this page of the process.
#[inline(never)]
fn take_mirror(
    parts: &mut Parts,
    mirrors: &mut Mirrors,
    journal: &mut Journal,
    head: &Head,
    proc: ProcNo,
    mirror: MirrorNo,
    page: PageNo,
)
    requires there { proc < length parts.old.spaces.items }
    requires tidy { EachSpace (IsTidy (frames_of parts.old.frames)) parts.old.spaces.items }
    requires table { (space : SpaceParts) → slice_get parts.old.spaces.items proc ≡ Some space → (space_of space).table ≡ None }
    requires room { 3 ≤ journal.old.room }
    ensures spaces { length parts.new.spaces.items ≡ length parts.old.spaces.items }
    ensures births { parts.new.births ≡ parts.old.births }
    ensures handles { parts.new.handles ≡ parts.old.handles }
    ensures taken { parts.new.taken ≡ parts.old.taken }
    ensures stores { parts.new.stores ≡ parts.old.stores }
    ensures other_spaces { (q : ℕ) → (q ≡ proc → ⊥) → slice_get parts.new.spaces.items q ≡ slice_get parts.old.spaces.items q }
    ensures turn { TellsTurn head.now journal.old journal.new true
        (λ said. (old new : SpaceParts)
        → slice_get parts.old.spaces.items proc ≡ Some old → slice_get parts.new.spaces.items proc ≡ Some new
        → IsTurnOf (ShowsMirroring proc) Anywhere
        (mirroring_view parts.old.frames old mirrors.old) (mirroring_view parts.new.frames new mirrors.new)
        (λ s. mirror_turn s head.now.actor proc mirror page (s.entry proc page)) (whats_of said)) }
{
    let space = &mut parts.spaces[proc.get() as usize];
    let frames = &mut parts.frames;
    fill(space, frames, mirrors, journal, head, proc, mirror, page);
}
