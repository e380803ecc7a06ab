//! The page that a turn makes ready, and the one that it takes down.
ghost use Rattle.std.specs.Prelude.{◌≡◌, ℕ, ◌+◌, ◌==◌, ◌<◌, ◌^◌, ◌&&◌, ◌⊎◌, length, Bool, true, false, is_some, not, Some, None, IfSome};
ghost use Rattle.gup_script.specs.Valid.{IsOp};
ghost use Rattle.gup_base.specs.declared.entry.Want.{Want};
ghost use Rattle.gup_script.specs.declared.op.Op.TheVariants.{Fork, Pin};
ghost use Rattle.gup_space.specs.Space.{space_of};
ghost use Rattle.gup_space.specs.Shows.{ShowsSpace};
ghost use Rattle.gup_spec_events.specs.State.{CoreState};
ghost use Rattle.gup_spec_turns.specs.CoreTurn.{allows_store};
ghost use Rattle.gup_spec_turns.specs.JobPlace.{place_in};
ghost use Rattle.gup_spec_turns.specs.PageTurns.{lowest_page as lowest_mapped};
ghost use Rattle.gup_spec_turns.specs.TableTurns.{if_mapped as mapped_spot, if_writable as writable_spot, lowest_spot, pinned_at, unless, grown_by};
ghost use Rattle.gup_op_base.specs.Far.{HasFar, far_in};
ghost use Rattle.gup_op_base.specs.Jobs.{place_of};
ghost use Rattle.gup_op_base.specs.Tidy.{AreNumbered};
ghost use Rattle.gup_op_tables.specs.Spots.{spot_of, is_slow as slow, fork_at, HasPage, IsDown, retired_spot};

use gup_base::{PageNo, ProcNo, Rights};
use gup_op_base::{JobPlace, page_behind};
use gup_script::Op;
use gup_space::Space;

/// A page of a process.
#[derive(Clone, Copy, Debug, PartialEq, Eq)]
pub struct Spot {
    pub proc: ProcNo,
    pub page: PageNo,
}

/// The page that the next turn of the operation makes ready, if it makes one ready and its rights allow that: that of a load, a store,
/// a reference, a mirror, the next of a pin that doesn't walk, and that which a fork shares or takes a frame for, of its child. The
/// operation is of process `proc`; `far` of its turns are over, as a pin it has taken `got` pages, and its actor stands there.
#[inline(always)]
pub fn page_to_grow(
    space: &Space,
    proc: ProcNo,
    far: u16,
    got: u8,
    place: &JobPlace,
    op: &Op,
) -> Option<Spot>
    ensures spot { (s : CoreState) (a k : ℕ) → ShowsSpace proc (space_of space.now) s → place_of place.now ≡ place_in s a
        → got ≡ length (s.taken a) → far ≡ far_in (Some op.now) k → HasPage op.now got (place_of place.now)
        → spot_of result ≡ grown_by s a proc k op.now }
    ensures of { IfSome result (λ at. (at.proc ≡ proc) ⊎ (op.now ≡ Fork at.proc)) }
    ensures walks { (handle page n : ℕ) (want : Want) (fast : Bool) → op.now ≡ Pin handle page n want fast → slow (place_of place.now) ≡ false
        → result ≡ None }
{
    match op {
        Op::Load { page, .. } => loaded(space, proc, *page),
        Op::Store { page, .. } => stored(space, proc, *page),
        Op::Get { page, .. } | Op::Mirror { page, .. } => if_mapped(space, proc, *page),
        Op::Pin {
            page,
            want,
            fast,
            ..
        } => pinned(
            space,
            proc,
            *page,
            got,
            want.write,
            *fast && far == 0,
            place,
        ),
        Op::Fork { child } => forked(*child, place),
        Op::Map { .. } | Op::Unmap { .. } | Op::Protect { .. } | Op::Discard { .. } => None,
        Op::Put { .. } | Op::Unpin { .. } | Op::Give { .. } | Op::Take { .. } => None,
        Op::Transfer { .. } | Op::Look { .. } | Op::Move { .. } | Op::Exit => None,
    }
}

// The page, if it is mapped.
#[inline]
fn if_mapped(space: &Space, proc: ProcNo, page: PageNo) -> Option<Spot>
    ensures spot { spot_of result ≡ mapped_spot proc page ((space_of space.now).right page) }
    ensures of { IfSome result (λ at. at.proc ≡ proc) }
{
    space.rights_at(page)?;
    Some(Spot { proc, page })
}

// The page, if it may be written.
#[inline]
fn if_writable(space: &Space, proc: ProcNo, page: PageNo) -> Option<Spot>
    ensures spot { spot_of result ≡ writable_spot proc page ((space_of space.now).right page) }
    ensures of { IfSome result (λ at. at.proc ≡ proc) }
{
    match space.rights_at(page) {
        Some(Rights::RW) => Some(Spot { proc, page }),
        Some(Rights::R) | None => None,
    }
}

// The page of a load, which makes it ready where it has no entry.
#[inline]
fn loaded(space: &Space, proc: ProcNo, page: PageNo) -> Option<Spot>
    ensures spot { spot_of result ≡ unless (is_some ((space_of space.now).entry page)) (mapped_spot proc page ((space_of space.now).right page)) }
    ensures of { IfSome result (λ at. at.proc ≡ proc) }
{
    if space.entry(page).is_some() {
        return None;
    }
    if_mapped(space, proc, page)
}

// The page of a store, which makes it ready where its entry doesn't allow the store.
#[inline]
fn stored(space: &Space, proc: ProcNo, page: PageNo) -> Option<Spot>
    ensures spot { spot_of result ≡ unless (allows_store ((space_of space.now).entry page)) (writable_spot proc page ((space_of space.now).right page)) }
    ensures of { IfSome result (λ at. at.proc ≡ proc) }
{
    match space.entry(page) {
        Some(entry) if entry.writable => None,
        _ => if_writable(space, proc, page),
    }
}

// The next page of a pin, which has taken so many: in a slow turn, but for the first of one that walks.
fn pinned(
    space: &Space,
    proc: ProcNo,
    page: PageNo,
    got: u8,
    write: bool,
    begins: bool,
    place: &JobPlace,
) -> Option<Spot>
    ensures spot { (slow (place_of place.now) ≡ true → page + got < 2 ^ 35)
        → spot_of result ≡ unless (not (slow (place_of place.now))) (unless begins (pinned_at proc (page + got) write ((space_of space.now).right (page + got)))) }
    ensures of { IfSome result (λ at. at.proc ≡ proc) }
    ensures walks { slow (place_of place.now) ≡ false → result ≡ None }
{
    if begins || !is_slow(place) {
        return None;
    }
    let here = PageNo::new(page.get() + u64::from(got))?;
    if write {
        if_writable(space, proc, here)
    } else {
        if_mapped(space, proc, here)
    }
}

// Whether a pin that stands there takes its next page slowly: it is neither in the middle of a page nor walks.
fn is_slow(place: &JobPlace) -> bool
    ensures { result ≡ slow (place_of place.now) }
{
    !matches!(
        place,
        JobPlace::Cleared { .. }
            | JobPlace::Single { .. }
            | JobPlace::Shared { .. }
            | JobPlace::Walking { .. }
    )
}

// The page of its child that a fork shares, or takes a frame for.
fn forked(child: ProcNo, place: &JobPlace) -> Option<Spot>
    ensures spot { spot_of result ≡ fork_at child (place_of place.now) }
    ensures of { IfSome result (λ at. at.proc ≡ child) }
{
    match place {
        JobPlace::At(page) | JobPlace::Wanting(page) => Some(Spot {
            proc: child,
            page: *page,
        }),
        _ => None,
    }
}

/// The page that the next turn of the operation takes down, if it takes one down: that of an unmapping, or the lowest mapped one of an
/// exit. There is none where the process has no page table, since none can go then. The operation is of process `proc`, and `far` of
/// its turns are over.
#[inline(always)]
pub fn page_to_retire(space: &Space, proc: ProcNo, far: u16, op: &Op) -> Option<Spot>
    requires numbered { AreNumbered (space_of space.now) }
    requires op { IsOp op.now }
    requires far { HasFar op.now far }
    ensures spot { (s : CoreState) (k : ℕ) → ShowsSpace proc (space_of space.now) s → far ≡ far_in (Some op.now) k
        → IsDown (s.place proc) (s.retired proc) (spot_of result) (retired_spot (s.right proc) proc k op.now) }
    ensures of { IfSome result (λ at. at.proc ≡ proc) }
{
    match op {
        Op::Unmap { page, .. } => unmapped(space, proc, page_behind(*page, far)),
        Op::Exit => emptied(space, proc),
        _ => None,
    }
}

// The page, if it is mapped; none where the process has no page table.
#[inline]
fn unmapped(space: &Space, proc: ProcNo, page: PageNo) -> Option<Spot>
    ensures spot { IsDown (space_of space.now).place (space_of space.now).retired (spot_of result) (mapped_spot proc page ((space_of space.now).right page)) }
    ensures of { IfSome result (λ at. at.proc ≡ proc) }
{
    if space.is_bare() {
        return None;
    }
    if_mapped(space, proc, page)
}

// The lowest mapped page; none where the process has no page table.
#[inline]
fn emptied(space: &Space, proc: ProcNo) -> Option<Spot>
    requires { AreNumbered (space_of space.now) }
    ensures spot { IsDown (space_of space.now).place (space_of space.now).retired (spot_of result) (lowest_spot proc (lowest_mapped (space_of space.now).right)) }
    ensures of { IfSome result (λ at. at.proc ≡ proc) }
{
    if space.is_bare() {
        return None;
    }
    let page = lowest_page(space)?;
    Some(Spot { proc, page })
}

// The lowest mapped page.
#[inline]
fn lowest_page(space: &Space) -> Option<PageNo>
    requires { AreNumbered (space_of space.now) }
    ensures { result ≡ lowest_mapped (space_of space.now).right }
{
    let first = PageNo::new(0)?;
    space.next_page(first)
}
