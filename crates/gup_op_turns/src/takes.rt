//! A turn of an operation among all processes.
ghost use Rattle.std.specs.Prelude.{◌≡◌, ℕ, ◌+◌, ◌==◌, ◌<◌, ◌≤◌, ◌^◌, ◌&&◌, true, false, length, slice_get, List, Option, Some, None, IsSome, IfSome};
ghost use Rattle.arrayvec.specs.ArrayVec.{ArrayVec as ArrayVecValue};
ghost use Rattle.gup_base.specs.Parts.{words_of};
ghost use Rattle.gup_plain.specs.State.{Birth as CoreBirth};
ghost use Rattle.gup_script.specs.declared.op.Op.TheVariants.{Move, Fork};
ghost use Rattle.gup_script.specs.Valid.{IsOp};
ghost use Rattle.gup_frames.specs.Frames.{frames_of};
ghost use Rattle.gup_space.specs.Space.{SpaceParts, space_of};
ghost use Rattle.gup_handles.specs.Handles.{handles_of, unmade};
ghost use Rattle.gup_spec_journal.specs.Place.{Doer};
ghost use Rattle.gup_spec_turns.specs.Turn.{op_turn, failed_turn, own_turn};
ghost use Rattle.gup_spec_turns.specs.PinTurns.{get_turn};
ghost use Rattle.gup_spec_turns.specs.DeviceTurns.{transfer_turn};
ghost use Rattle.gup_spec_turns.specs.ForkTurns.{fork_turn};
ghost use Rattle.gup_spec_turns.specs.JobPlace.{JobPlace as Place, KeepsNoJob, place_in, unbegun, in_walk};
ghost use Rattle.gup_op_pages.specs.Alone.{IsAlone, ShowsAlone, alone_view};
ghost use Rattle.gup_op_base.specs.declared.jobs.JobPlace.TheVariants.{Unbegun};
ghost use Rattle.gup_op_base.specs.Far.{HasFar, far_in};
ghost use Rattle.gup_op_base.specs.Jobs.{place_of};
ghost use Rattle.gup_op_fork.specs.Forked.{is_over, place_after, birth_after, IsReadyAt, ShowsForking, StandsAsFork, forking_view};
ghost use Rattle.gup_op_move.specs.Moving.{IsReadyToMove, is_over as is_moved};
ghost use Rattle.gup_op_pins.specs.Pins.{IsWeighed, IsReadyToPin, IsCountedWalk, IsWithinPin, IsPinTurn, ShowsPinning, pinning_view};
ghost use Rattle.gup_op_pins.specs.Held.{ShowsHeld, held_view, slots_in};
ghost use Rattle.gup_op_devices.specs.Transfers.{IsWhole};
ghost use Rattle.gup_op_base.specs.Said.{TellsTurn, whats_of};
ghost use Rattle.gup_op_base.specs.Turns.{IsTurnOf, Anywhere};
ghost use Rattle.gup_op_base.specs.Tidy.{AreNumbered, IsTidy, needs_table};
ghost use Rattle.gup_spec_events.specs.State.{CoreState, Taken, WalkStep};
ghost use Rattle.gup_spec_turns.specs.Waits.{waiting_for};
ghost use Rattle.gup_op_waits.specs.Births.{HasFailed, birth_by};
ghost use Rattle.gup_op_waits.specs.Doers.{HasProcess, IsProcessOf};
ghost use Rattle.gup_op_waits.specs.Parts.{EachSpace, ShowsBirths, ShowsParts};
ghost use Rattle.gup_op_waits.specs.Stands.{StandsAt};
ghost use Rattle.gup_op_turns.specs.Goes.{ShowsAll, StandsFree, all_view, IsReady, IsForkReady, IsSingle, IsNoMirror, HasSlots, KeepsSlots};
ghost use Rattle.gup_op_waits.specs.Locks.{child_in};

use gup_base::{ActorNo, HandleNo, PageNo, Parts as Moved, ProcNo, Want, Zone};
use gup_frames::Frames;
use gup_op_base::{Head, JobPlace};
use gup_op_devices::transfer;
use gup_op_fork::{Forked, fork};
use gup_op_move::take_move;
use gup_op_pages::take;
use gup_op_pins::{PinCall, get, give, pin, put, take_over, unpin};
use gup_op_waits::seats::Seat;
use gup_op_waits::{Birth, Parts, child_of, set_birth, waits_for};
use gup_plain::{Answer, Journal, PlainEvent, Waiting};
use gup_script::Op;
use gup_space::Space;

/// What the actor, which stands there, waits for before a turn of the operation.
#[inline(always)]
pub fn waits_at(
    parts: &Parts,
    actor: ActorNo,
    proc: Option<ProcNo>,
    seat: &Seat,
    op: &Op,
) -> Option<Waiting>
    requires there { HasProcess op.now → IsSome proc }
    requires space { IfSome proc (λ p. p < length parts.now.spaces.items) }
    requires birth { IfSome proc (λ p. p < length parts.now.births.items) }
    requires child { (child : ℕ) → op.now ≡ Fork child → child < length parts.now.spaces.items }
    requires numbered { EachSpace AreNumbered parts.now.spaces.items }
    ensures { (s : CoreState) (who : Doer) (k : ℕ) → ShowsParts parts.now s → who.actor ≡ actor → IsProcessOf who proc
        → seat.now.far ≡ far_in (Some op.now) k → place_of seat.now.job ≡ place_in s actor
        → StandsAt s actor who.proc k op.now → result ≡ waiting_for s who k op.now }
{
    waits_for(parts, actor, proc, seat.far, seat.job, op)
}

/// Takes the operation's own turn, without what it does to page tables. The operation has come so far, the job of its actor stands
/// there, and it is of this process, that hasn't failed, if it is of one. It puts the notes on at the journal's end, leaves the job where it stands then, and answers
/// whether the operation is over. The operation neither fills a mirror slot nor looks through one.
#[inline(always)]
pub fn take_at(
    parts: &mut Parts,
    journal: &mut Journal,
    head: &Head,
    proc: Option<ProcNo>,
    far: u16,
    job: &mut JobPlace,
    op: &Op,
) -> bool
    requires process { HasProcess op.now → IsSome proc }
    requires birth { IfSome proc (λ p. p < length parts.old.births.items) }
    requires child { (child : ℕ) → op.now ≡ Fork child → child < length parts.old.births.items }
    requires unfailed { HasFailed parts.old.births.items proc → ⊥ }
    requires ready { (p : ℕ) → IfSome proc (λ q. q ≡ p) → IsReady parts.old head.now.actor p op.now far job.old }
    requires apart { IsNoMirror op.now }
    requires room { 3 ≤ journal.old.room }
    ensures spaces { length parts.new.spaces.items ≡ length parts.old.spaces.items }
    ensures births { length parts.new.births.items ≡ length parts.old.births.items }
    ensures taken { length parts.new.taken.items ≡ length parts.old.taken.items }
    ensures stores { length parts.new.stores.items ≡ length parts.old.stores.items }
    ensures slots { KeepsSlots parts.old.stores.items parts.new.stores.items }
    ensures turn { TellsTurn head.now journal.old journal.new result
        (λ said. (who : Doer) (k : ℕ) (others : ℕ → Place) (left : ℕ → List Taken) → who.actor ≡ head.now.actor → IsProcessOf who proc
        → HasSlots parts.old head.now.actor who.slots → far ≡ far_in (Some op.now) k
        → IsTurnOf (ShowsAll head.now.actor op.now) (StandsFree head.now.actor who k op.now)
        (all_view parts.old job.old others left) (all_view parts.new job.new others left)
        (λ s. own_turn s who k op.now) (whats_of said)) }
{
    if let Some(child) = child_of(op) {
        return take_fork(parts, journal, head, proc.unwrap(), child, job);
    }
    if let Op::Move { page, zone, .. } = op {
        return move_page(parts, journal, head, proc.unwrap(), *page, *zone, job);
    }
    if let Op::Pin {
        handle,
        page,
        n,
        want,
        fast,
    } = op
    {
        let proc = proc.unwrap();
        return take_pin(
            parts, journal, head, proc, *handle, *page, *n, *want, *fast, far, job,
        );
    }
    take_single(parts, journal, head, proc, far, op)
}

/// Refuses an operation of a failed process. The child of a fork fails too.
#[inline(never)]
pub fn refuse(births: &mut Vec<Birth>, journal: &mut Journal, head: &Head, op: &Op)
    requires child { (child : ℕ) → op.now ≡ Fork child → child < length births.old.items }
    requires room { 3 ≤ journal.old.room }
    ensures births { length births.new.items ≡ length births.old.items }
    ensures turn { TellsTurn head.now journal.old journal.new true
        (λ said. (a p : ℕ) → IsTurnOf ShowsBirths Anywhere births.old.items births.new.items
        (λ s. failed_turn a p op.now) (whats_of said)) }
{
    let Some(child) = child_of(op) else {
        head.answered(journal, Answer::Unborn);
        return;
    };
    set_birth(births, child, Birth::Failed);
    head.done(journal, PlainEvent::ForkFail { child }, Answer::Unborn);
}

// Takes a turn of an operation that is no pin, no move and no fork.
#[inline(always)]
fn take_single(
    parts: &mut Parts,
    journal: &mut Journal,
    head: &Head,
    proc: Option<ProcNo>,
    far: u16,
    op: &Op,
) -> bool
    requires process { HasProcess op.now → IsSome proc }
    requires ready { (p : ℕ) → IfSome proc (λ q. q ≡ p)
        → (place : JobPlace) × IsReady parts.old head.now.actor p op.now far place }
    requires single { IsSingle op.now }
    requires apart { IsNoMirror op.now }
    requires room { 3 ≤ journal.old.room }
    ensures spaces { length parts.new.spaces.items ≡ length parts.old.spaces.items }
    ensures births { length parts.new.births.items ≡ length parts.old.births.items }
    ensures taken { length parts.new.taken.items ≡ length parts.old.taken.items }
    ensures stores { length parts.new.stores.items ≡ length parts.old.stores.items }
    ensures slots { KeepsSlots parts.old.stores.items parts.new.stores.items }
    ensures turn { TellsTurn head.now journal.old journal.new result
        (λ said. (p slots : ℕ) (place : JobPlace) → IfSome proc (λ q. q ≡ p) → HasSlots parts.old head.now.actor slots
        → (k : ℕ) (others : ℕ → Place) (left : ℕ → List Taken) → far ≡ far_in (Some op.now) k
        → IsTurnOf (ShowsAll head.now.actor op.now) (λ s. StandsAt s head.now.actor p k op.now)
        (all_view parts.old place others left) (all_view parts.new place others left)
        (λ s. op_turn s head.now.actor p slots k op.now) (whats_of said)) }
{
    match op {
        Op::Unpin { handle } => unpin(
            &mut parts.frames,
            &mut parts.handles,
            journal,
            head,
            *handle,
        ),
        Op::Give { handle, to } => {
            give(&mut parts.handles, journal, head, *handle, *to);
            true
        }
        Op::Take { handle } => {
            take_over(&mut parts.handles, journal, head, *handle);
            true
        }
        Op::Get { handle, page } => {
            take_get(parts, journal, head, proc.unwrap(), *handle, *page);
            true
        }
        Op::Put { handle } => {
            put(
                &mut parts.frames,
                &mut parts.handles,
                journal,
                head,
                *handle,
            );
            true
        }
        Op::Transfer {
            handle,
            outward,
            slot,
            parts: moved,
        } => take_transfer(parts, journal, head, *handle, *outward, *slot, moved, far),
        _ => take_alone(
            &mut parts.spaces,
            &mut parts.frames,
            journal,
            head,
            proc.unwrap(),
            far,
            op,
        ),
    }
}

// Takes a turn of a pin.
#[inline(never)]
fn take_pin(
    parts: &mut Parts,
    journal: &mut Journal,
    head: &Head,
    proc: ProcNo,
    handle: HandleNo,
    page: PageNo,
    n: u8,
    want: Want,
    fast: bool,
    far: u16,
    job: &mut JobPlace,
) -> bool
    requires there { proc < length parts.old.spaces.items }
    requires actor { head.now.actor < length parts.old.taken.items }
    requires tidy { EachSpace (IsTidy (frames_of parts.old.frames)) parts.old.spaces.items }
    requires ready { (space : SpaceParts) (pages : ArrayVecValue ℕ) → slice_get parts.old.spaces.items proc ≡ Some space
        → slice_get parts.old.taken.items head.now.actor ≡ Some pages
        → IsReadyToPin (frames_of parts.old.frames) pages.items (page + length pages.items) n want
        (fast && far == 0) (place_of job.old) (space_of space) }
    requires few_walks { EachSpace (λ space. space.walks < 2 ^ 40) parts.old.spaces.items }
    requires counted { (space : SpaceParts) → slice_get parts.old.spaces.items proc ≡ Some space
        → IsCountedWalk (place_of job.old) (space_of space) }
    requires few { (f : ℕ) → (frames_of parts.old.frames).count f < 2 ^ 40 }
    requires unmade { handles_of parts.old.handles handle ≡ unmade }
    requires taken { (pages : ArrayVecValue ℕ) → slice_get parts.old.taken.items head.now.actor ≡ Some pages
        → IsWithinPin n (length pages.items) (place_of job.old) }
    requires some { 1 ≤ n }
    requires most { n ≤ 16 }
    requires range { page + n ≤ 2 ^ 35 }
    requires room { 3 ≤ journal.old.room }
    ensures spaces { length parts.new.spaces.items ≡ length parts.old.spaces.items }
    ensures taken { length parts.new.taken.items ≡ length parts.old.taken.items }
    ensures births { parts.new.births ≡ parts.old.births }
    ensures stores { parts.new.stores ≡ parts.old.stores }
    ensures other_spaces { (q : ℕ) → (q ≡ proc → ⊥)
        → slice_get parts.new.spaces.items q ≡ slice_get parts.old.spaces.items q }
    ensures others_taken { (b : ℕ) → (b ≡ head.now.actor → ⊥)
        → slice_get parts.new.taken.items b ≡ slice_get parts.old.taken.items b }
    ensures turn { TellsTurn head.now journal.old journal.new result
        (λ said. (old new : SpaceParts) (was now : ArrayVecValue ℕ)
        → slice_get parts.old.spaces.items proc ≡ Some old → slice_get parts.new.spaces.items proc ≡ Some new
        → slice_get parts.old.taken.items head.now.actor ≡ Some was
        → slice_get parts.new.taken.items head.now.actor ≡ Some now
        → IsPinTurn head.now.actor (record { proc = proc; handle = handle; page = page; n = n; want = want; fast = fast })
        (length was.items) far
        (pinning_view parts.old.frames old parts.old.handles was.items job.old)
        (pinning_view parts.new.frames new parts.new.handles now.items job.new) (whats_of said)) }
{
    let call = PinCall {
        proc,
        handle,
        page,
        n,
        want,
        fast,
    };
    let (over, next) = pin(
        &mut parts.spaces[proc.get() as usize],
        &mut parts.frames,
        &mut parts.handles,
        &mut parts.taken[head.actor.get() as usize],
        journal,
        head,
        call,
        far,
        *job,
    );
    *job = next;
    over
}

// Takes the turn of a get.
#[inline(never)]
fn take_get(
    parts: &mut Parts,
    journal: &mut Journal,
    head: &Head,
    proc: ProcNo,
    handle: HandleNo,
    page: PageNo,
)
    requires there { proc < length parts.old.spaces.items }
    requires tidy { EachSpace (IsTidy (frames_of parts.old.frames)) parts.old.spaces.items }
    requires table { (space : SpaceParts) → slice_get parts.old.spaces.items proc ≡ Some space → (space_of space).table ≡ None }
    requires few { (f : ℕ) → (frames_of parts.old.frames).count f < 2 ^ 40 }
    requires unmade { handles_of parts.old.handles handle ≡ unmade }
    requires room { 3 ≤ journal.old.room }
    ensures spaces { length parts.new.spaces.items ≡ length parts.old.spaces.items }
    ensures births { parts.new.births ≡ parts.old.births }
    ensures taken { parts.new.taken ≡ parts.old.taken }
    ensures stores { parts.new.stores ≡ parts.old.stores }
    ensures other_spaces { (q : ℕ) → (q ≡ proc → ⊥)
        → slice_get parts.new.spaces.items q ≡ slice_get parts.old.spaces.items q }
    ensures turn { TellsTurn head.now journal.old journal.new true
        (λ said. (old new : SpaceParts) (taken : List ℕ)
        → slice_get parts.old.spaces.items proc ≡ Some old → slice_get parts.new.spaces.items proc ≡ Some new
        → IsTurnOf (ShowsPinning head.now.actor proc) Anywhere
        (pinning_view parts.old.frames old parts.old.handles taken Unbegun)
        (pinning_view parts.new.frames new parts.new.handles taken Unbegun)
        (λ s. get_turn s head.now.actor proc handle page (s.entry proc page)) (whats_of said)) }
{
    let space = &mut parts.spaces[proc.get() as usize];
    let (frames, handles) = (&mut parts.frames, &mut parts.handles);
    get(space, frames, handles, journal, head, proc, handle, page);
}

// Takes a turn of a transfer.
#[inline(always)]
fn take_transfer(
    parts: &mut Parts,
    journal: &mut Journal,
    head: &Head,
    handle: HandleNo,
    outward: bool,
    slot: u32,
    moved: &Moved,
    far: u16,
) -> bool
    requires actor { head.now.actor < length parts.old.stores.items }
    requires weighed { IsWeighed (frames_of parts.old.frames) (handles_of parts.old.handles handle) }
    requires within { far < words_of moved.now }
    requires most { words_of moved.now ≤ 64 }
    requires room { 3 ≤ journal.old.room }
    ensures stores { length parts.new.stores.items ≡ length parts.old.stores.items }
    ensures slots { KeepsSlots parts.old.stores.items parts.new.stores.items }
    ensures spaces { parts.new.spaces ≡ parts.old.spaces }
    ensures births { parts.new.births ≡ parts.old.births }
    ensures taken { parts.new.taken ≡ parts.old.taken }
    ensures others { (b : ℕ) → (b ≡ head.now.actor → ⊥)
        → slice_get parts.new.stores.items b ≡ slice_get parts.old.stores.items b }
    ensures turn { TellsTurn head.now journal.old journal.new result
        (λ said. (old new : Option (List ℕ))
        → slice_get parts.old.stores.items head.now.actor ≡ Some old
        → slice_get parts.new.stores.items head.now.actor ≡ Some new
        → IsTurnOf (ShowsHeld head.now.actor) (λ s. IsWhole s head.now.actor handle)
        (held_view parts.old.frames parts.old.handles old) (held_view parts.new.frames parts.new.handles new)
        (λ s. transfer_turn s head.now.actor (slots_in old) handle outward slot moved.now far) (whats_of said)) }
{
    transfer(
        &mut parts.frames,
        &parts.handles,
        &mut parts.stores[head.actor.get() as usize],
        journal,
        head,
        handle,
        outward,
        slot,
        moved,
        far,
    )
}

// Takes a turn of an operation of one process.
fn take_alone(
    spaces: &mut Vec<Space>,
    frames: &mut Frames,
    journal: &mut Journal,
    head: &Head,
    proc: ProcNo,
    far: u16,
    op: &Op,
) -> bool
    requires there { proc < length spaces.old.items }
    requires tidy { EachSpace (IsTidy (frames_of frames.old)) spaces.old.items }
    requires table { (space : SpaceParts) → slice_get spaces.old.items proc ≡ Some space
        → needs_table (space_of space) op.now ≡ true → (space_of space).table ≡ None }
    requires op { IsOp op.now }
    requires far { HasFar op.now far }
    requires alone { IsAlone op.now }
    requires room { 3 ≤ journal.old.room }
    ensures many { length spaces.new.items ≡ length spaces.old.items }
    ensures others { (q : ℕ) → (q ≡ proc → ⊥) → slice_get spaces.new.items q ≡ slice_get spaces.old.items q }
    ensures turn { TellsTurn head.now journal.old journal.new result
        (λ said. (old new : SpaceParts) (slots k : ℕ)
        → slice_get spaces.old.items proc ≡ Some old → slice_get spaces.new.items proc ≡ Some new
        → far ≡ far_in (Some op.now) k
        → IsTurnOf (ShowsAlone proc) Anywhere (alone_view frames.old old) (alone_view frames.new new)
        (λ s. op_turn s head.now.actor proc slots k op.now) (whats_of said)) }
{
    let space = &mut spaces[proc.get() as usize];
    take(space, frames, journal, head, proc, far, op)
}

// Takes a turn of a move of this page of the process to a frame of this zone.
#[inline(never)]
fn move_page(
    parts: &mut Parts,
    journal: &mut Journal,
    head: &Head,
    proc: ProcNo,
    page: PageNo,
    zone: Zone,
    job: &mut JobPlace,
) -> bool
    requires there { proc < length parts.old.spaces.items }
    requires tidy { EachSpace (IsTidy (frames_of parts.old.frames)) parts.old.spaces.items }
    requires ready { (space : SpaceParts) → slice_get parts.old.spaces.items proc ≡ Some space
        → IsReadyToMove (frames_of parts.old.frames) page (place_of job.old) (space_of space) }
    requires room { 3 ≤ journal.old.room }
    ensures spaces { length parts.new.spaces.items ≡ length parts.old.spaces.items }
    ensures births { parts.new.births ≡ parts.old.births }
    ensures taken { parts.new.taken ≡ parts.old.taken }
    ensures stores { parts.new.stores ≡ parts.old.stores }
    ensures turn { TellsTurn head.now journal.old journal.new result
        (λ said. (q slots k : ℕ) (others : ℕ → Place) (left : ℕ → List Taken)
        → IsTurnOf (ShowsAll head.now.actor (Move q page zone)) (λ s. StandsAt s head.now.actor proc k (Move q page zone))
        (all_view parts.old job.old others left) (all_view parts.new job.new others left)
        (λ s. op_turn s head.now.actor proc slots k (Move q page zone)) (whats_of said)) }
{
    let space = &mut parts.spaces[proc.get() as usize];
    *job = take_move(space, &mut parts.frames, journal, head, page, zone, *job);
    is_over(job)
}

// Whether a move is over after a turn behind which it stands there.
fn is_over(place: &JobPlace) -> bool
    ensures { result ≡ is_moved (place_of place.now) }
{
    matches!(place, JobPlace::Unbegun)
}

// Takes a turn of a fork of the process into this child, which grows from the first turn on, and is born with the last, or
// fails with it.
#[inline(always)]
fn take_fork(
    parts: &mut Parts,
    journal: &mut Journal,
    head: &Head,
    proc: ProcNo,
    child: ProcNo,
    job: &mut JobPlace,
) -> bool
    requires there { proc < length parts.old.spaces.items }
    requires tidy { EachSpace (IsTidy (frames_of parts.old.frames)) parts.old.spaces.items }
    requires few_counts { (f : ℕ) → (frames_of parts.old.frames).count f < 2 ^ 40 }
    requires fork { IsForkReady (frames_of parts.old.frames) parts.old.spaces.items parts.old.births.items
        head.now.actor proc child job.old }
    requires room { 3 ≤ journal.old.room }
    ensures spaces { length parts.new.spaces.items ≡ length parts.old.spaces.items }
    ensures births { length parts.new.births.items ≡ length parts.old.births.items }
    ensures taken { parts.new.taken ≡ parts.old.taken }
    ensures stores { parts.new.stores ≡ parts.old.stores }
    ensures turn { TellsTurn head.now journal.old journal.new result
        (λ said. (slots k : ℕ) (others : ℕ → Place) (left : ℕ → List Taken)
        → IsTurnOf (ShowsAll head.now.actor (Fork child)) (λ s. StandsAt s head.now.actor proc k (Fork child))
        (all_view parts.old job.old others left) (all_view parts.new job.new others left)
        (λ s. op_turn s head.now.actor proc slots k (Fork child)) (whats_of said)) }
{
    let forked = fork_two(
        &mut parts.frames,
        &mut parts.spaces,
        journal,
        head,
        proc,
        child,
        *job,
    );
    set_birth(&mut parts.births, child, birth_of(&forked));
    goes_on(&forked, job)
}

// What the child of a fork is after a turn that comes to this: it grows until the fork ends or fails.
fn birth_of(forked: &Forked) -> Birth
    ensures { result ≡ birth_by forked.now }
{
    match forked {
        Forked::Goes(_) => Birth::Growing,
        Forked::Born => Birth::Born,
        Forked::Failed => Birth::Failed,
    }
}

// Whether a fork is over after a turn that comes to this; the job stands there then.
fn goes_on(forked: &Forked, job: &mut JobPlace) -> bool
    ensures over { result ≡ is_over forked.now }
    ensures place { job.new ≡ place_after forked.now }
{
    match forked {
        Forked::Goes(place) => {
            *job = *place;
            false
        }
        Forked::Born | Forked::Failed => {
            *job = JobPlace::Unbegun;
            true
        }
    }
}

// Takes a turn of a fork over two of the processes.
#[inline(always)]
fn fork_two(
    frames: &mut Frames,
    spaces: &mut [Space],
    journal: &mut Journal,
    head: &Head,
    proc: ProcNo,
    child: ProcNo,
    place: JobPlace,
) -> Forked
    requires apart { proc ≡ child → ⊥ }
    requires parent { proc < length spaces.old }
    requires child { child < length spaces.old }
    requires tidy { EachSpace (IsTidy (frames_of frames.old)) spaces.old }
    requires few_forks { EachSpace (λ space. space.sequence < 2 ^ 40) spaces.old }
    requires few_counts { (f : ℕ) → (frames_of frames.old).count f < 2 ^ 40 }
    requires place { (parent kid : SpaceParts)
        → slice_get spaces.old proc ≡ Some parent → slice_get spaces.old child ≡ Some kid
        → IsReadyAt (frames_of frames.old) head.now.actor (place_of place) (space_of parent) (space_of kid) }
    requires room { 3 ≤ journal.old.room }
    ensures many { length spaces.new ≡ length spaces.old }
    ensures others { (q : ℕ) → (q ≡ proc → ⊥) → (q ≡ child → ⊥) → slice_get spaces.new q ≡ slice_get spaces.old q }
    ensures turn { TellsTurn head.now journal.old journal.new (is_over result)
        (λ said. (old_parent new_parent old_child new_child : SpaceParts)
        → slice_get spaces.old proc ≡ Some old_parent → slice_get spaces.new proc ≡ Some new_parent
        → slice_get spaces.old child ≡ Some old_child → slice_get spaces.new child ≡ Some new_child
        → (birth : CoreBirth)
        → IsTurnOf (ShowsForking head.now.actor proc child) (StandsAsFork head.now.actor proc child)
        (forking_view frames.old old_parent old_child (place_of place) birth)
        (forking_view frames.new new_parent new_child (place_of (place_after result)) (birth_after proc result))
        (λ s. fork_turn s head.now.actor proc child (s.job head.now.actor)) (whats_of said)) }
{
    let parent_at = proc.get() as usize;
    let child_at = child.get() as usize;
    if parent_at < child_at {
        let (low, high) = spaces.split_at_mut(child_at);
        fork(
            &mut low[parent_at],
            &mut high[0],
            frames,
            journal,
            head,
            proc,
            child,
            place,
        )
    } else {
        let (low, high) = spaces.split_at_mut(parent_at);
        fork(
            &mut high[0],
            &mut low[child_at],
            frames,
            journal,
            head,
            proc,
            child,
            place,
        )
    }
}
