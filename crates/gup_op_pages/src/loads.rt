//! Loads and stores.
ghost use Rattle.std.specs.Prelude.{◌≡◌, ◌≤◌, true, false, not, is_none, Some, None, IsSome, OnOk};
ghost use Rattle.gup_base.specs.declared.entry.Allowed.TheVariants.{Any};
ghost use Rattle.gup_spec_events.specs.Fault.{read_fault};
ghost use Rattle.gup_frames.specs.Frames.{frames_of, IsFrame, with_word};
ghost use Rattle.gup_space.specs.Found.{found_for};
ghost use Rattle.gup_space.specs.Space.{space_of};
ghost use Rattle.gup_space.specs.Shows.{change_of};
ghost use Rattle.gup_fault.specs.Refused.{answer_of as answered, denial_of};
ghost use Rattle.gup_fault.specs.Faults.{HasEntry, page_word, IsFault};
ghost use Rattle.gup_spec_turns.specs.PageTurns.{load_turn, store_turn};
ghost use Rattle.gup_spec_turns.specs.CoreTurn.{allows_store as is_allowed, frame_in};
ghost use Rattle.gup_op_base.specs.Tidy.{IsTidy};
ghost use Rattle.gup_op_base.specs.Said.{Tells, TellsTurn, whats_of, loaded_said, stored_said};
ghost use Rattle.gup_op_base.specs.Turns.{IsTurnOf, Anywhere};
ghost use Rattle.gup_op_pages.specs.Alone.{ShowsAlone, alone_view};

use gup_base::{Allowed, Entry, FrameNo, PageNo, ProcNo, WordNo};
use gup_fault::{Denied, answer_of, ready_read, ready_write};
use gup_frames::Frames;
use gup_op_base::Head;
use gup_plain::{Answer, Journal, PlainEvent};
use gup_space::Space;

/// A load of a word: through the page's entry, which a fault makes where there is none.
#[inline]
pub fn load(
    space: &mut Space,
    frames: &mut Frames,
    journal: &mut Journal,
    head: &Head,
    proc: ProcNo,
    page: PageNo,
    word: WordNo,
)
    requires tidy { IsTidy (frames_of frames.old) (space_of space.old) }
    requires table { is_none ((space_of space.old).entry page) ≡ true → (space_of space.old).table ≡ None }
    requires room { 3 ≤ journal.old.room }
    ensures { TellsTurn head.now journal.old journal.new true
        (λ said. IsTurnOf (ShowsAlone proc) Anywhere (alone_view frames.old space.old) (alone_view frames.new space.new)
        (λ s. load_turn s head.now.actor proc page word (s.entry proc page)) (whats_of said)) }
{
    match space.entry(page) {
        Some(entry) => load_from(frames, journal, head, proc, page, word, entry.frame),
        None => load_by_fault(space, frames, journal, head, proc, page, word),
    }
}

// The load of a word of a page that has no entry.
fn load_by_fault(
    space: &mut Space,
    frames: &mut Frames,
    journal: &mut Journal,
    head: &Head,
    proc: ProcNo,
    page: PageNo,
    word: WordNo,
)
    requires tidy { IsTidy (frames_of frames.old) (space_of space.old) }
    requires absent { (space_of space.old).entry page ≡ None }
    requires table { (space_of space.old).table ≡ None }
    requires room { 3 ≤ journal.old.room }
    ensures { TellsTurn head.now journal.old journal.new true
        (λ said. IsTurnOf (ShowsAlone proc) Anywhere (alone_view frames.old space.old) (alone_view frames.new space.new)
        (λ s. load_turn s head.now.actor proc page word (s.entry proc page)) (whats_of said)) }
{
    match make_present(space, frames, page) {
        Ok(()) => {
            frames.are_there();
            load_through(space, frames, journal, head, proc, page, word);
        }
        Err(denied) => head.answered(journal, answer_of(denied)),
    }
}

/// Makes the page present, as a load does it: any entry is enough, and a page that has none gets a frame of zeros. A page
/// without a mapping is refused with `Missing`, and one that lacks a page table or finds no frame with `NoFrame`; then nothing
/// has changed.
#[inline]
pub fn make_present(space: &mut Space, frames: &mut Frames, page: PageNo) -> Result<(), Denied>
    requires { IsTidy (frames_of frames.old) (space_of space.old) }
    ensures fault { IsFault (change_of frames.old frames.new space.old space.new) (denial_of result)
        (λ a p. read_fault a p page ((space_of space.old).right page) ((space_of space.old).entry page)
        (found_for (frames_of frames.old) (space_of space.old) page Any)) }
    ensures entry { OnOk result (IsSome ((space_of space.new).entry page)) }
{
    ready_read(space, frames, page, Allowed::Any)
}

// The load through the page's entry, which it has.
fn load_through(
    space: &Space,
    frames: &Frames,
    journal: &mut Journal,
    head: &Head,
    proc: ProcNo,
    page: PageNo,
    word: WordNo,
)
    requires entry { HasEntry ((space_of space.now).entry page) (λ e. IsFrame (frames_of frames.now) e.frame) }
    requires room { 2 ≤ journal.old.room }
    ensures { Tells head.now journal.old journal.new
        (loaded_said head.now.actor proc page word (page_word (frames_of frames.now) ((space_of space.now).entry page) word)) }
{
    let Some(entry) = space.entry(page) else {
        return;
    };
    load_from(frames, journal, head, proc, page, word, entry.frame);
}

// The load of this word of the page, from the frame that its entry has.
#[inline(always)]
fn load_from(
    frames: &Frames,
    journal: &mut Journal,
    head: &Head,
    proc: ProcNo,
    page: PageNo,
    word: WordNo,
    frame: FrameNo,
)
    requires there { IsFrame (frames_of frames.now) frame }
    requires room { 2 ≤ journal.old.room }
    ensures { Tells head.now journal.old journal.new
        (loaded_said head.now.actor proc page word ((frames_of frames.now).word frame word)) }
{
    let value = frames.word(frame, word);
    let event = PlainEvent::Load {
        actor: head.actor,
        proc,
        page,
        word,
        value,
    };
    head.done(journal, event, Answer::Value(value));
}

/// A store of a word: through the page's entry, which a fault makes where there is none that allows it.
#[inline]
pub fn store(
    space: &mut Space,
    frames: &mut Frames,
    journal: &mut Journal,
    head: &Head,
    proc: ProcNo,
    page: PageNo,
    word: WordNo,
    value: u64,
)
    requires tidy { IsTidy (frames_of frames.old) (space_of space.old) }
    requires table { not (is_allowed ((space_of space.old).entry page)) ≡ true → (space_of space.old).table ≡ None }
    requires room { 3 ≤ journal.old.room }
    ensures { TellsTurn head.now journal.old journal.new true
        (λ said. IsTurnOf (ShowsAlone proc) Anywhere (alone_view frames.old space.old) (alone_view frames.new space.new)
        (λ s. store_turn s head.now.actor proc page word value (s.entry proc page)) (whats_of said)) }
{
    match space.entry(page) {
        Some(entry) if entry.writable => {
            store_to(frames, journal, head, proc, page, word, value, entry.frame);
        }
        _ => store_by_fault(space, frames, journal, head, proc, page, word, value),
    }
}

// The store of a word of a page that has no entry that allows it.
fn store_by_fault(
    space: &mut Space,
    frames: &mut Frames,
    journal: &mut Journal,
    head: &Head,
    proc: ProcNo,
    page: PageNo,
    word: WordNo,
    value: u64,
)
    requires tidy { IsTidy (frames_of frames.old) (space_of space.old) }
    requires unallowed { is_allowed ((space_of space.old).entry page) ≡ false }
    requires table { (space_of space.old).table ≡ None }
    requires room { 3 ≤ journal.old.room }
    ensures { TellsTurn head.now journal.old journal.new true
        (λ said. IsTurnOf (ShowsAlone proc) Anywhere (alone_view frames.old space.old) (alone_view frames.new space.new)
        (λ s. store_turn s head.now.actor proc page word value (s.entry proc page)) (whats_of said)) }
{
    match ready_write(space, frames, page, Allowed::Any) {
        Ok(()) => {
            frames.are_there();
            store_through(space, frames, journal, head, proc, page, word, value);
        }
        Err(denied) => head.answered(journal, answer_of(denied)),
    }
}

// The store through the page's entry, which it has.
fn store_through(
    space: &Space,
    frames: &mut Frames,
    journal: &mut Journal,
    head: &Head,
    proc: ProcNo,
    page: PageNo,
    word: WordNo,
    value: u64,
)
    requires entry { HasEntry ((space_of space.now).entry page) (λ e. IsFrame (frames_of frames.old) e.frame) }
    requires room { 2 ≤ journal.old.room }
    ensures frames { frames_of frames.new
        ≡ with_word (frame_in ((space_of space.now).entry page)) word value (frames_of frames.old) }
    ensures tells { Tells head.now journal.old journal.new (stored_said head.now.actor proc page word value) }
{
    let Some(entry) = space.entry(page) else {
        return;
    };
    store_to(frames, journal, head, proc, page, word, value, entry.frame);
}

// The store to this word of the page, in the frame that its entry has.
#[inline(always)]
fn store_to(
    frames: &mut Frames,
    journal: &mut Journal,
    head: &Head,
    proc: ProcNo,
    page: PageNo,
    word: WordNo,
    value: u64,
    frame: FrameNo,
)
    requires there { IsFrame (frames_of frames.old) frame }
    requires room { 2 ≤ journal.old.room }
    ensures frames { frames_of frames.new ≡ with_word frame word value (frames_of frames.old) }
    ensures tells { Tells head.now journal.old journal.new (stored_said head.now.actor proc page word value) }
{
    frames.set_word(frame, word, value);
    let event = PlainEvent::Store {
        actor: head.actor,
        proc,
        page,
        word,
        value,
    };
    head.done(journal, event, Answer::Plain);
}

/// Whether the entry allows a store.
#[inline]
pub fn allows_store(entry: Option<Entry>) -> bool
    ensures { result ≡ is_allowed entry }
{
    match entry {
        Some(entry) => entry.writable,
        None => false,
    }
}
