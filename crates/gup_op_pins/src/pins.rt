//! Pins: they are made page by page.
ghost use Rattle.std.specs.Prelude.{◌≡◌, ℕ, ◌+◌, ◌==◌, ◌≤◌, ◌<◌, ◌^◌, ◌&&◌, nat_lt, true, false, [], length, OnOk, Some, None, IsSome};
ghost use Rattle.arrayvec.specs.ArrayVec.{array_vec_len};
ghost use Rattle.gup_base.specs.declared.entry.Entry.{Entry as EntryValue};
ghost use Rattle.gup_plain.specs.Put.{put};
ghost use Rattle.gup_frames.specs.Frames.{frames_of, IsFrame};
ghost use Rattle.gup_space.specs.Space.{space_of};
ghost use Rattle.gup_space.specs.Shows.{change_of};
ghost use Rattle.gup_fault.specs.Refused.{denial_of};
ghost use Rattle.gup_fault.specs.Faults.{IsFault};
ghost use Rattle.gup_slow.specs.Pins.{IsReady};
ghost use Rattle.gup_handles.specs.Handles.{handles_of, unmade, held};
ghost use Rattle.gup_spec_events.specs.Event.{counted_as};
ghost use Rattle.gup_spec_events.specs.State.{one, more, WalkStep};
ghost use Rattle.gup_spec_turns.specs.CoreTurn.{zones_of as zones, entry_in};
ghost use Rattle.gup_spec_turns.specs.JobPlace.{unbegun, moving_page, in_walk};
ghost use Rattle.gup_spec_turns.specs.PinTurns.{cause_of as cause};
ghost use Rattle.gup_op_base.specs.Jobs.{place_of};
ghost use Rattle.gup_op_base.specs.declared.jobs.JobPlace.TheVariants.{Unbegun, Single, Shared};
ghost use Rattle.gup_op_base.specs.Tidy.{IsTidy};
ghost use Rattle.gup_op_base.specs.Said.{TellsTurn, whats_of, silent_said};
ghost use Rattle.gup_op_pins.specs.Pins.{IsPinTurn, last_page, IsReadyToPin, IsCountedWalk, IsWithinPin, IsCleared, IsMade, IsEnded, IsTaken, tried_whats, ended_whats, pinning_view, raised, fault_to_pin, want_of};

use crate::walks::{begin_turn, walk_turn};
use arrayvec::ArrayVec;
use gup_base::{ActorNo, Allowed, Entry, FrameNo, HandleNo, PageNo, ProcNo, Want, Zone};
use gup_fault::{Denied, answer_of, ready_write, unshare};
use gup_frames::Frames;
use gup_handles::Handles;
use gup_long::{LongStep, after_count, needs_move};
use gup_move::{clear, count, place, restore};
use gup_op_base::{Head, JobPlace, page_behind};
use gup_plain::{Answer, Cause, Journal, PlainEvent};
use gup_slow::pin_page;
use gup_space::Space;

/// What a pin asks for: `n` pages of a process from `page` on, by this handle; a `fast` one walks first.
#[derive(Clone, Copy, Debug)]
pub struct PinCall {
    pub proc: ProcNo,
    pub handle: HandleNo,
    pub page: PageNo,
    pub n: u8,
    pub want: Want,
    pub fast: bool,
}

/// A turn of a pin of which `far` turns are over, and which stands there. It answers whether the operation is over, and where it
/// stands then. Has-pinned is set before the first page is tried.
///
/// A page is made ready and its frame gets the weight of a pin (Linux's `__get_user_pages`, `mm/gup.c`). The last page's
/// turn makes the handle, and so does the turn of a page that is refused after others: the pin then has those (this
/// project's own: Linux leaves a short count to its caller). Where the first page is refused, the pin is.
///
/// A page of a long-term pin whose frame is of the movable zone is moved to the normal zone first, in three turns, between
/// which the actor has the table lock (Linux's `__gup_longterm_locked`, `mm/gup.c`, pins the whole range, then moves and pins
/// again): its entry is cleared, then its frame is counted, and then it is placed and pinned. The third turn refuses it with
/// `NoFrame` where no frame of the normal zone is free, and with `Unmovable` where the count isn't 1; the entry is put back.
#[inline]
pub fn pin(
    space: &mut Space,
    frames: &mut Frames,
    handles: &mut Handles,
    taken: &mut ArrayVec<FrameNo, 16>,
    journal: &mut Journal,
    head: &Head,
    call: PinCall,
    far: u16,
    place: JobPlace,
) -> (bool, JobPlace)
    requires tidy { IsTidy (frames_of frames.old) (space_of space.old) }
    requires ready { IsReadyToPin (frames_of frames.old) taken.old.items (call.page + length taken.old.items) call.n call.want
        (call.fast && far == 0) (place_of place) (space_of space.old) }
    requires walks { (space_of space.old).walks < 2 ^ 40 }
    requires counted { IsCountedWalk (place_of place) (space_of space.old) }
    requires few { (f : ℕ) → (frames_of frames.old).count f < 2 ^ 40 }
    requires unmade { handles_of handles.old call.handle ≡ unmade }
    requires within { IsWithinPin call.n (length taken.old.items) (place_of place) }
    requires some { 1 ≤ call.n }
    requires most { call.n ≤ 16 }
    requires range { call.page + call.n ≤ 2 ^ 35 }
    requires room { 3 ≤ journal.old.room }
    ensures { TellsTurn head.now journal.old journal.new result.0
        (λ said. IsPinTurn head.now.actor call (length taken.old.items) far
        (pinning_view frames.old space.old handles.old taken.old.items place)
        (pinning_view frames.new space.new handles.new taken.new.items result.1) (whats_of said)) }
{
    let got = taken.len() as u8;
    if let JobPlace::Walking {
        place,
        page,
        sequence,
    } = place
    {
        return walk_turn(
            space, frames, handles, taken, journal, head, call, place, page, sequence,
        );
    }
    let here = page_behind(call.page, u16::from(got));
    match place {
        JobPlace::Cleared { entry, .. } => (false, count_turn(frames, journal, head, here, &entry)),
        JobPlace::Single { entry, .. } => {
            let over = place_turn(
                space, frames, handles, taken, journal, head, call, here, got, entry,
            );
            (over, JobPlace::Unbegun)
        }
        JobPlace::Shared { entry, count, .. } => {
            restore_turn(
                space, frames, handles, taken, journal, head, call, here, got, entry, count,
            );
            (true, JobPlace::Unbegun)
        }
        _ => {
            if call.fast && far == 0 {
                return (false, begin_turn(space, journal, head, call));
            }
            first_turn(
                space, frames, handles, taken, journal, head, call, here, got,
            )
        }
    }
}

// The turn of a page that is not in the middle of a move: it is made ready, and then pinned, or cleared if it is to be moved
// first; or it is refused.
fn first_turn(
    space: &mut Space,
    frames: &mut Frames,
    handles: &mut Handles,
    taken: &mut ArrayVec<FrameNo, 16>,
    journal: &mut Journal,
    head: &Head,
    call: PinCall,
    page: PageNo,
    got: u8,
) -> (bool, JobPlace)
    requires tidy { IsTidy (frames_of frames.old) (space_of space.old) }
    requires table { (space_of space.old).table ≡ None }
    requires few { (f : ℕ) → (frames_of frames.old).count f < 2 ^ 40 }
    requires unmade { handles_of handles.old call.handle ≡ unmade }
    requires taken { array_vec_len taken.old ≡ got }
    requires within { got < call.n }
    requires most { call.n ≤ 16 }
    requires here { page ≡ call.page + got }
    requires room { 3 ≤ journal.old.room }
    ensures { TellsTurn head.now journal.old journal.new result.0
        (λ said. (far : ℕ) → (call.fast && far == 0) ≡ false → IsPinTurn head.now.actor call got far
        (pinning_view frames.old space.old handles.old taken.old.items Unbegun)
        (pinning_view frames.new space.new handles.new taken.new.items result.1) (whats_of said)) }
{
    raise_flag(space, call.fast, got);
    match ready(space, frames, page, call.want) {
        Ok(()) => {
            if moves_first(space, frames, page, call.want) {
                let entry = clear(space, page);
                space.set_table(Some(head.actor));
                head.silent(journal);
                return (false, JobPlace::Cleared { page, entry });
            }
            let over = take_page(
                space, frames, handles, taken, journal, head, call, page, got,
            );
            (over, JobPlace::Unbegun)
        }
        Err(denied) => {
            end_pin(handles, taken, journal, head, call, got, answer_of(denied));
            (true, JobPlace::Unbegun)
        }
    }
}

// The count of the frame of a page whose entry was cleared is read.
fn count_turn(
    frames: &Frames,
    journal: &mut Journal,
    head: &Head,
    page: PageNo,
    entry: &Entry,
) -> JobPlace
    requires there { IsFrame (frames_of frames.now) entry.now.frame }
    requires room { 3 ≤ journal.old.room }
    ensures tells { TellsTurn head.now journal.old journal.new false (λ said. said ≡ silent_said) }
    ensures place { place_of result
        ≡ moving_page page entry.now (counted_as ((frames_of frames.now).count entry.now.frame)) }
    ensures last { last_page result ≡ None }
{
    let references = count(frames, *entry);
    head.silent(journal);
    match after_count(references) {
        LongStep::Place => JobPlace::Single {
            page,
            entry: *entry,
        },
        LongStep::Restore(count) => JobPlace::Shared {
            page,
            entry: *entry,
            count,
        },
    }
}

// After a count of 1 the page is placed in a frame of the normal zone, and pinned; where none is free, the entry is put back
// and the page refused. The table lock is free again.
fn place_turn(
    space: &mut Space,
    frames: &mut Frames,
    handles: &mut Handles,
    taken: &mut ArrayVec<FrameNo, 16>,
    journal: &mut Journal,
    head: &Head,
    call: PinCall,
    page: PageNo,
    got: u8,
    entry: Entry,
) -> bool
    requires tidy { IsTidy (frames_of frames.old) (space_of space.old) }
    requires cleared { IsCleared (frames_of frames.old) page call.want entry (space_of space.old) }
    requires unmade { handles_of handles.old call.handle ≡ unmade }
    requires taken { array_vec_len taken.old ≡ got }
    requires within { got < call.n }
    requires most { call.n ≤ 16 }
    requires here { page ≡ call.page + got }
    requires room { 3 ≤ journal.old.room }
    ensures { TellsTurn head.now journal.old journal.new result
        (λ said. (far : ℕ) → IsPinTurn head.now.actor call got far
        (pinning_view frames.old space.old handles.old taken.old.items (Single entry page))
        (pinning_view frames.new space.new handles.new taken.new.items Unbegun) (whats_of said)) }
{
    let placed = place(space, frames, page, entry, Allowed::Only(Zone::Normal)).is_ok();
    space.set_table(None);
    if placed {
        return take_page(
            space, frames, handles, taken, journal, head, call, page, got,
        );
    }
    end_pin(handles, taken, journal, head, call, got, Answer::NoFrame);
    true
}

// After any other count the entry is put back, and the page refused. The table lock is free again.
fn restore_turn(
    space: &mut Space,
    frames: &Frames,
    handles: &mut Handles,
    taken: &mut ArrayVec<FrameNo, 16>,
    journal: &mut Journal,
    head: &Head,
    call: PinCall,
    page: PageNo,
    got: u8,
    entry: Entry,
    count: u64,
)
    requires tidy { IsTidy (frames_of frames.now) (space_of space.old) }
    requires cleared { IsCleared (frames_of frames.now) page call.want entry (space_of space.old) }
    requires unmade { handles_of handles.old call.handle ≡ unmade }
    requires taken { array_vec_len taken.old ≡ got }
    requires within { got < call.n }
    requires most { call.n ≤ 16 }
    requires here { page ≡ call.page + got }
    requires room { 3 ≤ journal.old.room }
    ensures { TellsTurn head.now journal.old journal.new true
        (λ said. (far : ℕ) → IsPinTurn head.now.actor call got far
        (pinning_view frames.now space.old handles.old taken.old.items (Shared entry page count))
        (pinning_view frames.now space.new handles.new taken.new.items Unbegun) (whats_of said)) }
{
    restore(space, page, entry);
    space.set_table(None);
    end_pin(
        handles,
        taken,
        journal,
        head,
        call,
        got,
        Answer::Unmovable(count),
    );
}

// Pins the page, which is ready. The last one's turn makes the handle.
fn take_page(
    space: &mut Space,
    frames: &mut Frames,
    handles: &mut Handles,
    taken: &mut ArrayVec<FrameNo, 16>,
    journal: &mut Journal,
    head: &Head,
    call: PinCall,
    page: PageNo,
    got: u8,
) -> bool
    requires ready { IsReady (frames_of frames.old) (space_of space.old) page call.want }
    requires unmade { handles_of handles.old call.handle ≡ unmade }
    requires taken { array_vec_len taken.old ≡ got }
    requires within { got < call.n }
    requires most { call.n ≤ 16 }
    requires room { 3 ≤ journal.old.room }
    ensures tells { TellsTurn head.now journal.old journal.new result
        (λ said. whats_of said ≡ tried_whats (got + 1 == call.n) head.now.actor call.proc call.handle page call.n
        call.want.write) }
    ensures taken { IsTaken (frames_of frames.old) (frames_of frames.new) (space_of space.old) (space_of space.new) page
        (entry_in ((space_of space.old).entry page)).frame }
    ensures made { IsMade (got + 1 == call.n) (handles_of handles.old) (handles_of handles.new) taken.old.items taken.new.items
        head.now.actor call.handle (entry_in ((space_of space.old).entry page)).frame call.want.write }
{
    let actor = head.actor;
    taken.push(pin_page(space, frames, page, call.want));
    let tried = PlainEvent::PinTry {
        actor,
        proc: call.proc,
        page,
        write: call.want.write,
    };
    head.happened(journal, tried);
    if got + 1 < call.n {
        return false;
    }
    let handle = call.handle;
    hold(handles, taken, actor, handle, call.want.write);
    head.done(
        journal,
        PlainEvent::PinOk { actor, handle },
        Answer::Pinned(call.n),
    );
    true
}

// A page is refused: a pin that has pages has those, and one without any is refused.
fn end_pin(
    handles: &mut Handles,
    taken: &mut ArrayVec<FrameNo, 16>,
    journal: &mut Journal,
    head: &Head,
    call: PinCall,
    got: u8,
    answer: Answer,
)
    requires unmade { handles_of handles.old call.handle ≡ unmade }
    requires taken { array_vec_len taken.old ≡ got }
    requires within { got < call.n }
    requires most { call.n ≤ 16 }
    requires room { 3 ≤ journal.old.room }
    ensures tells { TellsTurn head.now journal.old journal.new true
        (λ said. whats_of said ≡ ended_whats head.now.actor call.handle call.n got answer) }
    ensures ended { IsEnded got (handles_of handles.old) (handles_of handles.new) taken.old.items taken.new.items
        head.now.actor call.handle call.want.write }
{
    if got == 0 {
        head.answered(journal, answer);
        return;
    }
    let actor = head.actor;
    let short = Answer::Short {
        got,
        wanted: call.n,
        cause: cause_of(answer),
    };
    let handle = call.handle;
    hold(handles, taken, actor, handle, call.want.write);
    head.done(journal, PlainEvent::PinOk { actor, handle }, short);
}

// Whether the page, which is ready, is to be moved before it is pinned.
fn moves_first(space: &Space, frames: &Frames, page: PageNo, want: Want) -> bool
    requires ready { IsReady (frames_of frames.now) (space_of space.now) page (want_of want.write) }
    ensures { result
        ≡ (want.long && nat_lt (entry_in ((space_of space.now).entry page)).frame (frames_of frames.now).movable) }
{
    want.long && needs_move(space, frames, page)
}

// Before the first page is tried the process has pinned; it has before a walk.
fn raise_flag(space: &mut Space, fast: bool, got: u8)
    ensures { space_of space.new ≡ raised got fast (space_of space.old) }
{
    if got == 0 && !fast {
        space.set_pinned();
    }
}

// Makes the page ready for a pin: its frame is exclusive, and its entry writable where the pin is to write.
fn ready(space: &mut Space, frames: &mut Frames, page: PageNo, want: Want) -> Result<(), Denied>
    requires tidy { IsTidy (frames_of frames.old) (space_of space.old) }
    requires table { (space_of space.old).table ≡ None }
    requires few { (f : ℕ) → (frames_of frames.old).count f < 2 ^ 40 }
    ensures fault { IsFault (change_of frames.old frames.new space.old space.new) (denial_of result)
        (λ a p. fault_to_pin (frames_of frames.old) (space_of space.old) a p page want.write (zones want)) }
    ensures ready { OnOk result (IsReady (frames_of frames.new) (space_of space.new) page (want_of want.write)) }
{
    let allowed = zones_of(want);
    if want.write {
        ready_to_write(space, frames, page, allowed)
    } else {
        ready_to_read(space, frames, page, allowed)
    }
}

// The zones from which the pages of such a pin take frames.
fn zones_of(want: Want) -> Allowed
    ensures { result ≡ zones want }
{
    if want.long {
        Allowed::Only(Zone::Normal)
    } else {
        Allowed::Any
    }
}

// The same of a pin to write, and of one to read.
fn ready_to_write(
    space: &mut Space,
    frames: &mut Frames,
    page: PageNo,
    allowed: Allowed,
) -> Result<(), Denied>
    requires tidy { IsTidy (frames_of frames.old) (space_of space.old) }
    requires table { (space_of space.old).table ≡ None }
    requires few { (f : ℕ) → (frames_of frames.old).count f < 2 ^ 40 }
    ensures fault { IsFault (change_of frames.old frames.new space.old space.new) (denial_of result)
        (λ a p. fault_to_pin (frames_of frames.old) (space_of space.old) a p page true allowed) }
    ensures ready { OnOk result (IsReady (frames_of frames.new) (space_of space.new) page (want_of true)) }
{
    let ready = ready_write(space, frames, page, allowed);
    frames.are_there();
    ready
}

fn ready_to_read(
    space: &mut Space,
    frames: &mut Frames,
    page: PageNo,
    allowed: Allowed,
) -> Result<(), Denied>
    requires tidy { IsTidy (frames_of frames.old) (space_of space.old) }
    requires table { (space_of space.old).table ≡ None }
    requires few { (f : ℕ) → (frames_of frames.old).count f < 2 ^ 40 }
    ensures fault { IsFault (change_of frames.old frames.new space.old space.new) (denial_of result)
        (λ a p. fault_to_pin (frames_of frames.old) (space_of space.old) a p page false allowed) }
    ensures ready { OnOk result (IsReady (frames_of frames.new) (space_of space.new) page (want_of false)) }
{
    let ready = unshare(space, frames, page, allowed);
    frames.are_there();
    ready
}

// What the running pin has taken is the handle's.
pub(crate) fn hold(
    handles: &mut Handles,
    taken: &mut ArrayVec<FrameNo, 16>,
    actor: ActorNo,
    handle: HandleNo,
    write: bool,
)
    requires unmade { handles_of handles.old handle ≡ unmade }
    requires some { 0 < array_vec_len taken.old }
    ensures held { handles_of handles.new ≡ put handle (held actor taken.old.items write) (handles_of handles.old) }
    ensures empty { taken.new.items ≡ [] }
{
    handles.hold(handle, actor, taken, write);
    taken.clear();
}

// Why a page ended a short pin.
fn cause_of(answer: Answer) -> Cause
    ensures { result ≡ cause answer }
{
    match answer {
        Answer::Forbidden => Cause::Forbidden,
        Answer::NoFrame => Cause::NoFrame,
        Answer::Unmovable(count) => Cause::Unmovable(count),
        _ => Cause::Missing,
    }
}
