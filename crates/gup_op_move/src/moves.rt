//! Moves: the page's entry is cleared, then its frame is counted, and then another frame takes its place, or the entry is put
//! back.
ghost use Rattle.std.specs.Prelude.{◌≡◌, ℕ, ◌≤◌, true, Some, None, IsSome, if◌then◌else◌};
ghost use Rattle.gup_base.specs.declared.entry.Zone.{Zone as ZoneValue};
ghost use Rattle.gup_plain.specs.declared.answer.Answer.TheVariants.{Plain, NoFrame};
ghost use Rattle.gup_frames.specs.Frames.{FrameLists, frames_of, IsFrame};
ghost use Rattle.gup_space.specs.Space.{SpaceParts, space_of, lacking};
ghost use Rattle.gup_spec_events.specs.State.{unread, one, more};
ghost use Rattle.gup_spec_turns.specs.MoveTurns.{move_turn};
ghost use Rattle.gup_spec_turns.specs.JobPlace.{unbegun, moving_page};
ghost use Rattle.gup_op_base.specs.Jobs.{place_of};
ghost use Rattle.gup_op_base.specs.Said.{TellsTurn, whats_of};
ghost use Rattle.gup_op_base.specs.Turns.{IsTurnOf};
ghost use Rattle.gup_op_move.specs.Moving.{IsReadyToMove, is_over, ShowsMoving, StandsAsMove, moving_view};

use gup_base::{Allowed, Entry, PageNo, Zone};
use gup_frames::Frames;
use gup_move::{clear, count, place, restore};
use gup_op_base::{Head, JobPlace};
use gup_plain::{Answer, Journal};
use gup_space::Space;

/// Takes a turn of a move of this page to a frame of this zone, puts its notes on, and answers where the move stands then: one
/// that is over stands at its beginning.
///
/// The first turn clears the page's entry, and takes the table lock, which the actor then has until the move is over. It is
/// refused with `Missing` where the page has no mapping, and with `Untouched` where it has no entry. The second turn reads the
/// count of the frame. The third places the page in the lowest free frame of the zone, where the count was 1; where none is free,
/// it puts the entry back and answers `NoFrame`. Where the count was another, it puts the entry back and answers `Busy` (of Linux's
/// `migrate_pages`, `mm/migrate.c`; that others have turns in between is this project's own).
#[inline(never)]
pub fn take_move(
    space: &mut Space,
    frames: &mut Frames,
    journal: &mut Journal,
    head: &Head,
    page: PageNo,
    zone: Zone,
    place: JobPlace,
) -> JobPlace
    requires room { 3 ≤ journal.old.room }
    requires ready { IsReadyToMove (frames_of frames.old) page (place_of place) (space_of space.old) }
    ensures { TellsTurn head.now journal.old journal.new (is_over (place_of result))
        (λ said. (p : ℕ) → IsTurnOf (ShowsMoving head.now.actor p) (StandsAsMove head.now.actor p page zone)
        (moving_view frames.old space.old (place_of place)) (moving_view frames.new space.new (place_of result))
        (λ s. move_turn s head.now.actor p page zone (s.job head.now.actor)) (whats_of said)) }
{
    match place {
        JobPlace::Cleared { entry, .. } => count_turn(frames, journal, head, page, &entry),
        JobPlace::Single { entry, .. } => {
            place_turn(space, frames, journal, head, page, zone, entry);
            JobPlace::Unbegun
        }
        JobPlace::Shared { entry, count, .. } => {
            busy_turn(space, journal, head, page, entry, count);
            JobPlace::Unbegun
        }
        _ => first_turn(space, journal, head, page),
    }
}

// The entry is cleared, and the table lock taken; a page that has none is refused.
fn first_turn(space: &mut Space, journal: &mut Journal, head: &Head, page: PageNo) -> JobPlace
    requires room { 3 ≤ journal.old.room }
    ensures { TellsTurn head.now journal.old journal.new (is_over (place_of result))
        (λ said. (p : ℕ) (zone : ZoneValue) (frames : FrameLists)
        → IsTurnOf (ShowsMoving head.now.actor p) (StandsAsMove head.now.actor p page zone)
        (moving_view frames space.old unbegun) (moving_view frames space.new (place_of result))
        (λ s. move_turn s head.now.actor p page zone (s.job head.now.actor)) (whats_of said)) }
{
    if space.rights_at(page).is_none() {
        head.answered(journal, Answer::Missing);
        return JobPlace::Unbegun;
    }
    if space.entry(page).is_none() {
        head.answered(journal, Answer::Untouched);
        return JobPlace::Unbegun;
    }
    let entry = clear(space, page);
    space.set_table(Some(head.actor));
    head.silent(journal);
    JobPlace::Cleared { page, entry }
}

// The count of the frame is read.
fn count_turn(
    frames: &Frames,
    journal: &mut Journal,
    head: &Head,
    page: PageNo,
    entry: &Entry,
) -> JobPlace
    requires room { 3 ≤ journal.old.room }
    requires there { IsFrame (frames_of frames.now) entry.now.frame }
    ensures { TellsTurn head.now journal.old journal.new (is_over (place_of result))
        (λ said. (p : ℕ) (zone : ZoneValue) (space : SpaceParts)
        → IsTurnOf (ShowsMoving head.now.actor p) (StandsAsMove head.now.actor p page zone)
        (moving_view frames.now space (moving_page page entry.now unread)) (moving_view frames.now space (place_of result))
        (λ s. move_turn s head.now.actor p page zone (s.job head.now.actor)) (whats_of said)) }
{
    let references = count(frames, *entry);
    head.silent(journal);
    if references == 1 {
        JobPlace::Single {
            page,
            entry: *entry,
        }
    } else {
        JobPlace::Shared {
            page,
            entry: *entry,
            count: references,
        }
    }
}

// After a count of 1 the page is placed in another frame, or, where none is free, the entry put back. The table lock is free
// again.
fn place_turn(
    space: &mut Space,
    frames: &mut Frames,
    journal: &mut Journal,
    head: &Head,
    page: PageNo,
    zone: Zone,
    entry: Entry,
)
    requires room { 3 ≤ journal.old.room }
    requires mapped { IsSome ((space_of space.old).right page) }
    requires absent { (space_of space.old).entry page ≡ None }
    requires path { lacking (space_of space.old) page ≡ 0 }
    requires there { IsFrame (frames_of frames.old) entry.frame }
    requires held { (frames_of frames.old).count entry.frame ≡ 0 → ⊥ }
    ensures { TellsTurn head.now journal.old journal.new true
        (λ said. (p : ℕ) → IsTurnOf (ShowsMoving head.now.actor p) (StandsAsMove head.now.actor p page zone)
        (moving_view frames.old space.old (moving_page page entry one)) (moving_view frames.new space.new unbegun)
        (λ s. move_turn s head.now.actor p page zone (s.job head.now.actor)) (whats_of said)) }
{
    let placed = place(space, frames, page, entry, Allowed::Only(zone)).is_ok();
    space.set_table(None);
    head.answered(journal, answer_of(placed));
}

// What a move answers whose page was placed, or for which no frame was free.
fn answer_of(placed: bool) -> Answer
    ensures { result ≡ (if placed then Plain else NoFrame) }
{
    if placed {
        Answer::Plain
    } else {
        Answer::NoFrame
    }
}

// After any other count the entry is put back. The table lock is free again.
fn busy_turn(
    space: &mut Space,
    journal: &mut Journal,
    head: &Head,
    page: PageNo,
    entry: Entry,
    count: u64,
)
    requires room { 3 ≤ journal.old.room }
    requires mapped { IsSome ((space_of space.old).right page) }
    requires absent { (space_of space.old).entry page ≡ None }
    requires path { lacking (space_of space.old) page ≡ 0 }
    ensures { TellsTurn head.now journal.old journal.new true
        (λ said. (p : ℕ) (zone : ZoneValue) (frames : FrameLists)
        → IsTurnOf (ShowsMoving head.now.actor p) (StandsAsMove head.now.actor p page zone)
        (moving_view frames space.old (moving_page page entry (more count))) (moving_view frames space.new unbegun)
        (λ s. move_turn s head.now.actor p page zone (s.job head.now.actor)) (whats_of said)) }
{
    restore(space, page, entry);
    space.set_table(None);
    head.answered(journal, Answer::Busy(count));
}
