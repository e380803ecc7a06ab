//! Whether a note says this or that.
ghost use Rattle.std.specs.Prelude.{◌≡◌, ◌+◌, ◌^◌, ◌<◌, IsTrue};
ghost use Rattle.gup_plain.specs.declared.event.PlainEvent.TheVariants as events;
ghost use Rattle.gup_plain.specs.declared.note.What.TheVariants.{Event, Done};
ghost use Rattle.gup_spec_journal.specs.Follows.{moves_word};
ghost use Rattle.gup_check_course.specs.Arcs.{value_in, page_in, cause_in};
ghost use Rattle.gup_check_course.specs.Same.{same_what};

use gup_base::{ActorNo, HandleNo, MirrorNo, PageNo, ProcNo, Rights, WordNo};
use gup_plain::{Answer, Cause, PlainEvent, What};

// The word that is read or moved, or 0.
pub(crate) fn value(what: &What) -> u64
    ensures { result ≡ value_in what.now }
{
    match what {
        What::Event(PlainEvent::Load { value, .. }) => *value,
        What::Event(PlainEvent::Look { value, .. }) => *value,
        What::Event(PlainEvent::MoveOut { value, .. }) => *value,
        What::Event(PlainEvent::MoveIn { value, .. }) => *value,
        _ => 0,
    }
}

// The page that is taken down or forked, or 0.
pub(crate) fn page(what: &What) -> u64
    ensures page { result ≡ page_in what.now }
    ensures below { result < 2 ^ 35 }
{
    match what {
        What::Event(PlainEvent::Unmap { page, .. }) => page.get(),
        What::Event(PlainEvent::Discard { page, .. }) => page.get(),
        What::Event(PlainEvent::ForkPage { page, .. }) => page.get(),
        What::Event(PlainEvent::ForkWord { page, .. }) => page.get(),
        _ => 0,
    }
}

// Why a short pin ended, or that a page has no mapping.
pub(crate) fn cause(what: &What) -> Cause
    ensures { result ≡ cause_in what.now }
{
    match what {
        What::Done(Answer::Short { cause, .. }) => *cause,
        _ => Cause::Missing,
    }
}

pub(crate) fn is_answer(what: &What, answer: Answer) -> bool
    ensures { result ≡ same_what what.now (Done answer) }
{
    match what {
        What::Done(given) => *given == answer,
        _ => false,
    }
}

pub(crate) fn is_map(
    what: &What,
    actor: ActorNo,
    proc: u8,
    page: PageNo,
    n: u16,
    rights: Rights,
) -> bool
    ensures { result ≡ same_what what.now (Event (events.Map actor proc page n rights)) }
{
    match what {
        What::Event(
            PlainEvent::Map {
                actor: a,
                proc: p,
                page: g,
                n: m,
                rights: r,
            },
        ) => {
            a.get() == actor.get()
                && p.get() == u64::from(proc)
                && g.get() == page.get()
                && *m == n
                && *r == rights
        }
        _ => false,
    }
}

pub(crate) fn is_protect(
    what: &What,
    actor: ActorNo,
    proc: u8,
    page: PageNo,
    n: u16,
    rights: Rights,
) -> bool
    ensures { result ≡ same_what what.now (Event (events.Protect actor proc page n rights)) }
{
    match what {
        What::Event(
            PlainEvent::Protect {
                actor: a,
                proc: p,
                page: g,
                n: m,
                rights: r,
            },
        ) => {
            a.get() == actor.get()
                && p.get() == u64::from(proc)
                && g.get() == page.get()
                && *m == n
                && *r == rights
        }
        _ => false,
    }
}

// Whether any page is taken down.
pub(crate) fn is_unmap(what: &What, actor: ActorNo, proc: u8) -> bool
    ensures { result ≡ same_what what.now (Event (events.Unmap actor proc (page_in what.now))) }
{
    match what {
        What::Event(
            PlainEvent::Unmap {
                actor: a,
                proc: p,
                ..
            },
        ) => a.get() == actor.get() && p.get() == u64::from(proc),
        _ => false,
    }
}

pub(crate) fn is_discard(what: &What, actor: ActorNo, proc: u8) -> bool
    ensures { result ≡ same_what what.now (Event (events.Discard actor proc (page_in what.now))) }
{
    match what {
        What::Event(
            PlainEvent::Discard {
                actor: a,
                proc: p,
                ..
            },
        ) => { a.get() == actor.get() && p.get() == u64::from(proc) }
        _ => false,
    }
}

// Whether the word is read, whatever it is.
pub(crate) fn is_load(what: &What, actor: ActorNo, proc: u8, page: PageNo, word: WordNo) -> bool
    ensures { result ≡ same_what what.now (Event (events.Load actor proc page word (value_in what.now))) }
{
    match what {
        What::Event(
            PlainEvent::Load {
                actor: a,
                proc: p,
                page: g,
                word: w,
                ..
            },
        ) => {
            a.get() == actor.get()
                && p.get() == u64::from(proc)
                && g.get() == page.get()
                && w.get() == word.get()
        }
        _ => false,
    }
}

pub(crate) fn is_store(
    what: &What,
    actor: ActorNo,
    proc: u8,
    page: PageNo,
    word: WordNo,
    value: u64,
) -> bool
    ensures { result ≡ same_what what.now (Event (events.Store actor proc page word value)) }
{
    match what {
        What::Event(
            PlainEvent::Store {
                actor: a,
                proc: p,
                page: g,
                word: w,
                value: v,
            },
        ) => {
            a.get() == actor.get()
                && p.get() == u64::from(proc)
                && g.get() == page.get()
                && w.get() == word.get()
                && *v == value
        }
        _ => false,
    }
}

pub(crate) fn is_look(what: &What, actor: ActorNo, mirror: MirrorNo, word: WordNo) -> bool
    ensures { result ≡ same_what what.now (Event (events.Look actor mirror word (value_in what.now))) }
{
    match what {
        What::Event(
            PlainEvent::Look {
                actor: a,
                mirror: m,
                word: w,
                ..
            },
        ) => { a.get() == actor.get() && m.get() == mirror.get() && w.get() == word.get() }
        _ => false,
    }
}

pub(crate) fn is_fill(
    what: &What,
    actor: ActorNo,
    mirror: MirrorNo,
    proc: ProcNo,
    page: PageNo,
) -> bool
    ensures { result ≡ same_what what.now (Event (events.MirrorFill actor mirror proc page)) }
{
    match what {
        What::Event(
            PlainEvent::MirrorFill {
                actor: a,
                mirror: m,
                proc: p,
                page: g,
            },
        ) => {
            a.get() == actor.get()
                && m.get() == mirror.get()
                && p.get() == proc.get()
                && g.get() == page.get()
        }
        _ => false,
    }
}

pub(crate) fn is_try(what: &What, actor: ActorNo, proc: u8, page: u64, write: bool) -> bool
    ensures { result ≡ same_what what.now (Event (events.PinTry actor proc page write)) }
{
    match what {
        What::Event(
            PlainEvent::PinTry {
                actor: a,
                proc: p,
                page: g,
                write: w,
            },
        ) => {
            a.get() == actor.get() && p.get() == u64::from(proc) && g.get() == page && *w == write
        }
        _ => false,
    }
}

pub(crate) fn is_drop(what: &What, actor: ActorNo, page: u64) -> bool
    ensures { result ≡ same_what what.now (Event (events.PinDrop actor page)) }
{
    match what {
        What::Event(PlainEvent::PinDrop { actor: a, page: g }) => a.get() == actor.get()
            && g.get() == page,
        _ => false,
    }
}

pub(crate) fn is_made(what: &What, actor: ActorNo, handle: HandleNo) -> bool
    ensures { result ≡ same_what what.now (Event (events.PinOk actor handle)) }
{
    match what {
        What::Event(
            PlainEvent::PinOk {
                actor: a,
                handle: h,
            },
        ) => a.get() == actor.get() && h.get() == handle.get(),
        _ => false,
    }
}

pub(crate) fn is_unpin(what: &What, actor: ActorNo, handle: HandleNo) -> bool
    ensures { result ≡ same_what what.now (Event (events.Unpin actor handle)) }
{
    match what {
        What::Event(
            PlainEvent::Unpin {
                actor: a,
                handle: h,
            },
        ) => a.get() == actor.get() && h.get() == handle.get(),
        _ => false,
    }
}

pub(crate) fn is_give(what: &What, actor: ActorNo, handle: HandleNo, to: ActorNo) -> bool
    ensures { result ≡ same_what what.now (Event (events.Give actor handle to)) }
{
    match what {
        What::Event(
            PlainEvent::Give {
                actor: a,
                handle: h,
                to: t,
            },
        ) => { a.get() == actor.get() && h.get() == handle.get() && t.get() == to.get() }
        _ => false,
    }
}

pub(crate) fn is_take(what: &What, actor: ActorNo, handle: HandleNo) -> bool
    ensures { result ≡ same_what what.now (Event (events.Take actor handle)) }
{
    match what {
        What::Event(
            PlainEvent::Take {
                actor: a,
                handle: h,
            },
        ) => a.get() == actor.get() && h.get() == handle.get(),
        _ => false,
    }
}

// Whether this word of the pin is moved out of it, or into it, to or from this slot, whatever it is.
pub(crate) fn is_moved(
    what: &What,
    actor: ActorNo,
    handle: HandleNo,
    outward: bool,
    index: u64,
    slot: u64,
) -> bool
    ensures { result ≡ same_what what.now (Event (moves_word actor handle outward index slot (value_in what.now))) }
{
    if outward {
        is_moved_out(what, actor, handle, index, slot)
    } else {
        is_moved_in(what, actor, handle, index, slot)
    }
}

fn is_moved_out(what: &What, actor: ActorNo, handle: HandleNo, index: u64, slot: u64) -> bool
    ensures { result ≡ same_what what.now (Event (events.MoveOut actor handle index slot (value_in what.now))) }
{
    match what {
        What::Event(
            PlainEvent::MoveOut {
                actor: a,
                handle: h,
                index: i,
                slot: s,
                ..
            },
        ) => {
            a.get() == actor.get()
                && h.get() == handle.get()
                && u64::from(*i) == index
                && u64::from(*s) == slot
        }
        _ => false,
    }
}

fn is_moved_in(what: &What, actor: ActorNo, handle: HandleNo, index: u64, slot: u64) -> bool
    ensures { result ≡ same_what what.now (Event (events.MoveIn actor handle index slot (value_in what.now))) }
{
    match what {
        What::Event(
            PlainEvent::MoveIn {
                actor: a,
                handle: h,
                index: i,
                slot: s,
                ..
            },
        ) => {
            a.get() == actor.get()
                && h.get() == handle.get()
                && u64::from(*i) == index
                && u64::from(*s) == slot
        }
        _ => false,
    }
}

pub(crate) fn is_fork_begin(what: &What, proc: u8, child: ProcNo) -> bool
    ensures { result ≡ same_what what.now (Event (events.ForkBegin proc child)) }
{
    match what {
        What::Event(
            PlainEvent::ForkBegin {
                parent: p,
                child: c,
            },
        ) => { p.get() == u64::from(proc) && c.get() == child.get() }
        _ => false,
    }
}

// Whether any page is shared.
pub(crate) fn is_fork_page(what: &What, proc: u8, child: ProcNo) -> bool
    ensures { result ≡ same_what what.now (Event (events.ForkPage proc child (page_in what.now))) }
{
    match what {
        What::Event(
            PlainEvent::ForkPage {
                parent: p,
                child: c,
                ..
            },
        ) => { p.get() == u64::from(proc) && c.get() == child.get() }
        _ => false,
    }
}

pub(crate) fn is_fork_word(what: &What, proc: u8, child: ProcNo, page: u64, word: u16) -> bool
    ensures same { result ≡ same_what what.now (Event (events.ForkWord proc child page word)) }
    ensures below { IsTrue result → page < 2 ^ 35 }
{
    match what {
        What::Event(
            PlainEvent::ForkWord {
                parent: p,
                child: c,
                page: g,
                word: w,
            },
        ) => {
            p.get() == u64::from(proc)
                && c.get() == child.get()
                && g.get() == page
                && w.get() == u64::from(word)
        }
        _ => false,
    }
}

pub(crate) fn is_fork_end(what: &What, proc: u8, child: ProcNo) -> bool
    ensures { result ≡ same_what what.now (Event (events.ForkEnd proc child)) }
{
    match what {
        What::Event(
            PlainEvent::ForkEnd {
                parent: p,
                child: c,
            },
        ) => { p.get() == u64::from(proc) && c.get() == child.get() }
        _ => false,
    }
}

pub(crate) fn is_fork_fail(what: &What, child: ProcNo) -> bool
    ensures { result ≡ same_what what.now (Event (events.ForkFail child)) }
{
    match what {
        What::Event(PlainEvent::ForkFail { child: c }) => c.get() == child.get(),
        _ => false,
    }
}
