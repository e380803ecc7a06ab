//! What actors wait for: processes to be born, pins to be given to them, and locks that others hold.
ghost use Rattle.std.specs.Prelude.{◌≡◌, ℕ, ◌<◌, length, slice_get, Some, IsSome, IfSome};
ghost use Rattle.gup_script.specs.declared.op.Op.TheVariants.{Fork};
ghost use Rattle.gup_spec_events.specs.State.{CoreState};
ghost use Rattle.gup_space.specs.Space.{space_of};
ghost use Rattle.gup_handles.specs.Handles.{handles_of};
ghost use Rattle.gup_spec_turns.specs.Waits.{waits_for_locks as locks_waited};
ghost use Rattle.gup_spec_turns.specs.Waits.{both_if, held_by_other as other_holding, locks_needed as needed, waiting_for};
ghost use Rattle.gup_spec_turns.specs.JobPlace.{place_in};
ghost use Rattle.gup_op_base.specs.Jobs.{place_of};
ghost use Rattle.gup_op_base.specs.Far.{far_in};
ghost use Rattle.gup_handles.specs.Shows.{ShowsHandles};
ghost use Rattle.gup_op_base.specs.Tidy.{AreNumbered};
ghost use Rattle.gup_op_waits.specs.Locks.{locks_of, fork_needs, move_needs, pin_needs, child_in, waiting_if};
ghost use Rattle.gup_spec_journal.specs.Place.{Doer};
ghost use Rattle.gup_spec_journal.specs.Order.{is_given_to, taking_waits};
ghost use Rattle.gup_op_waits.specs.Doers.{HasProcess, IsProcessOf};
ghost use Rattle.gup_op_waits.specs.Parts.{EachSpace, ShowsSpaces, ShowsParts};
ghost use Rattle.gup_op_waits.specs.Stands.{StandsAt};

use crate::births::{Birth, birth_of};
use crate::parts::Parts;
use gup_base::{ActorNo, HandleNo, ProcNo};
use gup_handles::Handles;
use gup_op_base::JobPlace;
use gup_op_fork::next_page;
use gup_op_pages::needs_table;
use gup_plain::Waiting;
use gup_script::Op;
use gup_space::Space;

/// Which locks of its process a turn needs.
#[derive(Clone, Copy, Debug)]
pub struct Locks {
    pub structure: bool,
    pub table: bool,
}

/// What the actor waits for before its next turn, if it waits: first that its process is born, if it is of one, then
/// that the pin is given to it which it is to take, then for the holder of the structure lock, then for that of the table
/// lock. A thread of a failed process waits for nothing.
#[inline(always)]
pub fn waits_for(
    parts: &Parts,
    actor: ActorNo,
    proc: Option<ProcNo>,
    far: u16,
    place: JobPlace,
    op: &Op,
) -> Option<Waiting>
    requires there { HasProcess op.now → IsSome proc }
    requires space { IfSome proc (λ p. p < length parts.now.spaces.items) }
    requires birth { IfSome proc (λ p. p < length parts.now.births.items) }
    requires child { (child : ℕ) → op.now ≡ Fork child → child < length parts.now.spaces.items }
    requires numbered { EachSpace AreNumbered parts.now.spaces.items }
    ensures { (s : CoreState) (who : Doer) (k : ℕ) → ShowsParts parts.now s → who.actor ≡ actor → IsProcessOf who proc
        → far ≡ far_in (Some op.now) k → place_of place ≡ place_in s actor → StandsAt s actor who.proc k op.now
        → result ≡ waiting_for s who k op.now }
{
    if let Some(proc) = proc {
        match birth_of(&parts.births, proc) {
            Birth::Born => {}
            Birth::Unborn | Birth::Growing => return Some(Waiting::Process(proc)),
            Birth::Failed => return None,
        }
    }
    match (op, proc) {
        (Op::Take { handle }, _) => waits_for_pin(&parts.handles, actor, *handle),
        (_, Some(proc)) => waits_for_holders(&parts.spaces, actor, proc, far, place, op),
        (_, None) => None,
    }
}

// The actor waits until the pin is given to it.
fn waits_for_pin(handles: &Handles, actor: ActorNo, handle: HandleNo) -> Option<Waiting>
    ensures { (s : CoreState) → ShowsHandles (handles_of handles.now) s
        → result ≡ taking_waits (is_given_to (s.handle handle) actor) handle }
{
    if handles.given(handle, actor) {
        None
    } else {
        Some(Waiting::Handle(handle))
    }
}

// The actor of a born process waits for the holder of a lock that its next turn needs.
#[inline(always)]
fn waits_for_holders(
    spaces: &Vec<Space>,
    actor: ActorNo,
    proc: ProcNo,
    far: u16,
    place: JobPlace,
    op: &Op,
) -> Option<Waiting>
    requires there { proc < length spaces.now.items }
    requires child { (child : ℕ) → op.now ≡ Fork child → child < length spaces.now.items }
    requires numbered { EachSpace AreNumbered spaces.now.items }
    ensures { (s : CoreState) (k : ℕ) → ShowsSpaces spaces.now.items s → far ≡ far_in (Some op.now) k
        → place_of place ≡ place_in s actor → StandsAt s actor proc k op.now
        → result ≡ locks_waited (needed s actor proc k op.now) actor (s.structure proc) (s.table proc) }
{
    let space = space_at(spaces, proc);
    let structure = held_by_other(actor, space.structure());
    let table = held_by_other(actor, space.table());
    // Whatever the turn needs, nobody else holds it.
    if structure.is_none() && table.is_none() {
        return None;
    }
    let locks = locks_needed(spaces, proc, far, place, op);
    if_needed(locks.structure, structure).or(if_needed(locks.table, table))
}

fn space_at(spaces: &Vec<Space>, proc: ProcNo) -> &Space
    requires { proc < length spaces.now.items }
    ensures { slice_get spaces.now.items proc ≡ Some result.now }
{
    &spaces[proc.get() as usize]
}

/// The child that the operation brings, if it is a fork.
pub fn child_of(op: &Op) -> Option<ProcNo>
    ensures { result ≡ child_in op.now }
{
    match op {
        Op::Fork { child } => Some(*child),
        Op::Map { .. } | Op::Unmap { .. } | Op::Protect { .. } | Op::Discard { .. } => None,
        Op::Load { .. } | Op::Store { .. } | Op::Exit => None,
        Op::Pin { .. } | Op::Unpin { .. } | Op::Give { .. } | Op::Take { .. } => None,
        Op::Get { .. } | Op::Put { .. } | Op::Transfer { .. } => None,
        Op::Mirror { .. } | Op::Look { .. } | Op::Move { .. } => None,
    }
}

// Which locks of its process the operation's next turn needs.
#[inline(never)]
fn locks_needed(spaces: &Vec<Space>, proc: ProcNo, far: u16, place: JobPlace, op: &Op) -> Locks
    requires there { proc < length spaces.now.items }
    requires child { (child : ℕ) → op.now ≡ Fork child → child < length spaces.now.items }
    requires numbered { EachSpace AreNumbered spaces.now.items }
    ensures { (s : CoreState) (a k : ℕ) → ShowsSpaces spaces.now.items s → far ≡ far_in (Some op.now) k
        → place_of place ≡ place_in s a → StandsAt s a proc k op.now → locks_of result ≡ needed s a proc k op.now }
{
    if let Some(child) = child_of(op) {
        return fork_locks(space_at(spaces, child), place);
    }
    if let Op::Move { .. } = op {
        return move_locks(place);
    }
    if let Op::Pin { fast, .. } = op {
        return pin_locks(*fast, far, place);
    }
    both(needs_table(space_at(spaces, proc), op))
}

// A fork needs both locks at its beginning, and the table lock for the first turn of each page. Its end needs none.
fn fork_locks(child: &Space, place: JobPlace) -> Locks
    requires numbered { AreNumbered (space_of child.now) }
    ensures { locks_of result ≡ fork_needs (space_of child.now).right (place_of place) }
{
    match place {
        JobPlace::Unbegun => both(true),
        JobPlace::From(from) => Locks {
            structure: false,
            table: next_page(child, from).is_some(),
        },
        _ => both(false),
    }
}

// A move needs the table lock at its beginning, and has it from then on.
fn move_locks(place: JobPlace) -> Locks
    ensures { locks_of result ≡ move_needs (place_of place) }
{
    Locks {
        structure: false,
        table: matches!(place, JobPlace::Unbegun),
    }
}

// The walk of a pin needs no lock, and so its first turn, which begins it. Any other turn of a pin needs both.
fn pin_locks(fast: bool, far: u16, place: JobPlace) -> Locks
    ensures { locks_of result ≡ pin_needs fast far (place_of place) }
{
    match place {
        JobPlace::Walking { .. } => both(false),
        _ => both(!(fast && far == 0)),
    }
}

// Both locks, or none.
fn both(needed: bool) -> Locks
    ensures { locks_of result ≡ both_if needed }
{
    Locks {
        structure: needed,
        table: needed,
    }
}

// What the actor would wait for, if it needs that.
fn if_needed(needed: bool, waiting: Option<Waiting>) -> Option<Waiting>
    ensures { result ≡ waiting_if needed waiting }
{
    if needed { waiting } else { None }
}

// The actor would wait for another one that holds a lock.
fn held_by_other(actor: ActorNo, holder: Option<ActorNo>) -> Option<Waiting>
    ensures { result ≡ other_holding actor holder }
{
    match holder {
        Some(other) if other != actor => Some(Waiting::Holder(other)),
        _ => None,
    }
}
