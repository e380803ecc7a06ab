//! Mappings and protections: the whole range in one turn.
ghost use Rattle.std.specs.Prelude.{◌≡◌, ◌+◌, ◌≤◌, ◌<◌, ◌^◌, true};
ghost use Rattle.gup_frames.specs.Frames.{frames_of};
ghost use Rattle.gup_space.specs.Space.{space_of, AreMapped};
ghost use Rattle.gup_spec_turns.specs.PageTurns.{map_turn, protect_turn};
ghost use Rattle.gup_op_base.specs.Tidy.{IsTidy};
ghost use Rattle.gup_op_base.specs.Said.{TellsTurn, whats_of};
ghost use Rattle.gup_op_base.specs.Turns.{IsTurnOf, Anywhere};
ghost use Rattle.gup_op_pages.specs.Alone.{ShowsAlone, alone_view};
ghost use Rattle.gup_op_pages.specs.Lowered.{IsLowered, IsLoweredFor};

use gup_base::{Entry, PageNo, ProcNo, Rights};
use gup_frames::Frames;
use gup_maps::MapRefusal;
use gup_op_base::{Head, page_behind};
use gup_plain::{Answer, Journal, PlainEvent};
use gup_space::Space;

/// A mapping of the `n` pages from `page` on, which end below 2^35.
pub fn map(
    space: &mut Space,
    frames: &Frames,
    journal: &mut Journal,
    head: &Head,
    proc: ProcNo,
    page: PageNo,
    n: u16,
    rights: Rights,
)
    requires range { page + n ≤ 2 ^ 35 }
    requires room { 3 ≤ journal.old.room }
    ensures { TellsTurn head.now journal.old journal.new true
        (λ said. IsTurnOf (ShowsAlone proc) Anywhere (alone_view frames.now space.old) (alone_view frames.now space.new)
        (λ s. map_turn s head.now.actor proc page n rights) (whats_of said)) }
{
    let _frames = frames;
    match space.map(page, n, rights) {
        Ok(()) => {
            let event = PlainEvent::Map {
                actor: head.actor,
                proc,
                page,
                n,
                rights,
            };
            head.done(journal, event, Answer::Plain);
        }
        Err(MapRefusal::Overlap) => head.answered(journal, Answer::Overlap),
        Err(MapRefusal::Full) => head.answered(journal, Answer::Full),
    }
}

/// A protection of the `n` pages from `page` on, which end below 2^35: no entry of theirs is writable after one that
/// takes the right to write.
pub fn protect(
    space: &mut Space,
    frames: &Frames,
    journal: &mut Journal,
    head: &Head,
    proc: ProcNo,
    page: PageNo,
    n: u16,
    rights: Rights,
)
    requires tidy { IsTidy (frames_of frames.now) (space_of space.old) }
    requires range { page + n ≤ 2 ^ 35 }
    requires room { 3 ≤ journal.old.room }
    ensures { TellsTurn head.now journal.old journal.new true
        (λ said. IsTurnOf (ShowsAlone proc) Anywhere (alone_view frames.now space.old) (alone_view frames.now space.new)
        (λ s. protect_turn s head.now.actor proc page n rights) (whats_of said)) }
{
    let _frames = frames;
    if space.protect(page, n, rights).is_err() {
        head.answered(journal, Answer::Missing);
        return;
    }
    lower_for(space, page, n, rights);
    let event = PlainEvent::Protect {
        actor: head.actor,
        proc,
        page,
        n,
        rights,
    };
    head.done(journal, event, Answer::Plain);
}

// Where the rights don't allow a write, no entry of the pages does.
fn lower_for(space: &mut Space, page: PageNo, n: u16, rights: Rights)
    requires mapped { AreMapped (space_of space.old) }
    requires range { page + n ≤ 2 ^ 35 }
    ensures { IsLoweredFor rights page n (space_of space.old) (space_of space.new) }
{
    match rights {
        Rights::R => lower(space, page, n),
        Rights::RW => {}
    }
}

// Makes the entries of the `n` pages from `page` on read-only.
fn lower(space: &mut Space, page: PageNo, n: u16)
    requires mapped { AreMapped (space_of space.old) }
    requires range { page + n ≤ 2 ^ 35 }
    ensures { IsLowered page n (space_of space.old) (space_of space.new) }
{
    for k in 0..n {
        lower_page(space, page_behind(page, k));
    }
}

// Makes the page's entry read-only, where it has one.
fn lower_page(space: &mut Space, page: PageNo)
    requires { AreMapped (space_of space.old) }
    ensures { IsLowered page 1 (space_of space.old) (space_of space.new) }
{
    let Some(entry) = space.entry(page) else {
        return;
    };
    if entry.writable {
        space.has_path(page);
        let writable = false;
        space.set_entry(
            page,
            Some(Entry {
                frame: entry.frame,
                writable,
            }),
        );
    }
}
