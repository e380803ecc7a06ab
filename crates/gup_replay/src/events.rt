//! Whether two events are the same.
ghost use Rattle.std.specs.Prelude.{◌≡◌, ◌↔◌, IsTrue};
ghost use Rattle.gup_plain.specs.declared.event.PlainEvent.TheVariants.{Map, Unmap, Discard, Protect, Load, Store, PinTry, PinDrop, PinOk, Unpin, Give, Take, MoveOut, MoveIn, MirrorFill, Look, ForkBegin, ForkPage, ForkWord, ForkEnd, ForkFail};

use gup_base::{ActorNo, HandleNo, MirrorNo, PageNo, ProcNo, Rights, WordNo};
use gup_plain::PlainEvent;

/// Whether this event is the same as that.
pub(crate) fn is_same_event(this: PlainEvent, that: PlainEvent) -> bool
    ensures { IsTrue result ↔ (this ≡ that) }
{
    match this {
        PlainEvent::Map {
            actor,
            proc,
            page,
            n,
            rights,
        } => is_map(actor, proc, page, n, rights, that),
        PlainEvent::Unmap { actor, proc, page } => is_unmap(actor, proc, page, that),
        PlainEvent::Discard { actor, proc, page } => is_discard(actor, proc, page, that),
        PlainEvent::Protect {
            actor,
            proc,
            page,
            n,
            rights,
        } => is_protect(actor, proc, page, n, rights, that),
        PlainEvent::Load {
            actor,
            proc,
            page,
            word,
            value,
        } => is_load(actor, proc, page, word, value, that),
        PlainEvent::Store {
            actor,
            proc,
            page,
            word,
            value,
        } => is_store(actor, proc, page, word, value, that),
        PlainEvent::PinTry {
            actor,
            proc,
            page,
            write,
        } => is_try(actor, proc, page, write, that),
        PlainEvent::PinDrop { actor, page } => is_drop(actor, page, that),
        PlainEvent::PinOk { actor, handle } => is_made(actor, handle, that),
        PlainEvent::Unpin { actor, handle } => is_unpin(actor, handle, that),
        PlainEvent::Give { actor, handle, to } => is_give(actor, handle, to, that),
        PlainEvent::Take { actor, handle } => is_take(actor, handle, that),
        PlainEvent::MoveOut {
            actor,
            handle,
            index,
            slot,
            value,
        } => is_out(actor, handle, index, slot, value, that),
        PlainEvent::MoveIn {
            actor,
            handle,
            index,
            slot,
            value,
        } => is_in(actor, handle, index, slot, value, that),
        PlainEvent::MirrorFill {
            actor,
            mirror,
            proc,
            page,
        } => is_fill(actor, mirror, proc, page, that),
        PlainEvent::Look {
            actor,
            mirror,
            word,
            value,
        } => is_look(actor, mirror, word, value, that),
        PlainEvent::ForkBegin { parent, child } => is_fork_begin(parent, child, that),
        PlainEvent::ForkPage {
            parent,
            child,
            page,
        } => is_fork_page(parent, child, page, that),
        PlainEvent::ForkWord {
            parent,
            child,
            page,
            word,
        } => is_fork_word(parent, child, page, word, that),
        PlainEvent::ForkEnd { parent, child } => is_fork_end(parent, child, that),
        PlainEvent::ForkFail { child } => is_fork_fail(child, that),
    }
}

fn is_map(
    actor: ActorNo,
    proc: ProcNo,
    page: PageNo,
    n: u16,
    rights: Rights,
    event: PlainEvent,
) -> bool
    ensures { IsTrue result ↔ (Map actor proc page n rights ≡ event) }
{
    match event {
        PlainEvent::Map {
            actor: a,
            proc: b,
            page: c,
            n: d,
            rights: e,
        } => a.get() == actor.get()
            && b.get() == proc.get()
            && c.get() == page.get()
            && d == n
            && e == rights,
        _ => false,
    }
}

fn is_unmap(actor: ActorNo, proc: ProcNo, page: PageNo, event: PlainEvent) -> bool
    ensures { IsTrue result ↔ (Unmap actor proc page ≡ event) }
{
    match event {
        PlainEvent::Unmap {
            actor: a,
            proc: b,
            page: c,
        } => a.get() == actor.get() && b.get() == proc.get() && c.get() == page.get(),
        _ => false,
    }
}

fn is_discard(actor: ActorNo, proc: ProcNo, page: PageNo, event: PlainEvent) -> bool
    ensures { IsTrue result ↔ (Discard actor proc page ≡ event) }
{
    match event {
        PlainEvent::Discard {
            actor: a,
            proc: b,
            page: c,
        } => a.get() == actor.get() && b.get() == proc.get() && c.get() == page.get(),
        _ => false,
    }
}

fn is_protect(
    actor: ActorNo,
    proc: ProcNo,
    page: PageNo,
    n: u16,
    rights: Rights,
    event: PlainEvent,
) -> bool
    ensures { IsTrue result ↔ (Protect actor proc page n rights ≡ event) }
{
    match event {
        PlainEvent::Protect {
            actor: a,
            proc: b,
            page: c,
            n: d,
            rights: e,
        } => a.get() == actor.get()
            && b.get() == proc.get()
            && c.get() == page.get()
            && d == n
            && e == rights,
        _ => false,
    }
}

fn is_load(
    actor: ActorNo,
    proc: ProcNo,
    page: PageNo,
    word: WordNo,
    value: u64,
    event: PlainEvent,
) -> bool
    ensures { IsTrue result ↔ (Load actor proc page word value ≡ event) }
{
    match event {
        PlainEvent::Load {
            actor: a,
            proc: b,
            page: c,
            word: d,
            value: e,
        } => a.get() == actor.get()
            && b.get() == proc.get()
            && c.get() == page.get()
            && d.get() == word.get()
            && e == value,
        _ => false,
    }
}

fn is_store(
    actor: ActorNo,
    proc: ProcNo,
    page: PageNo,
    word: WordNo,
    value: u64,
    event: PlainEvent,
) -> bool
    ensures { IsTrue result ↔ (Store actor proc page word value ≡ event) }
{
    match event {
        PlainEvent::Store {
            actor: a,
            proc: b,
            page: c,
            word: d,
            value: e,
        } => a.get() == actor.get()
            && b.get() == proc.get()
            && c.get() == page.get()
            && d.get() == word.get()
            && e == value,
        _ => false,
    }
}

fn is_try(actor: ActorNo, proc: ProcNo, page: PageNo, write: bool, event: PlainEvent) -> bool
    ensures { IsTrue result ↔ (PinTry actor proc page write ≡ event) }
{
    match event {
        PlainEvent::PinTry {
            actor: a,
            proc: b,
            page: c,
            write: d,
        } => a.get() == actor.get() && b.get() == proc.get() && c.get() == page.get() && d == write,
        _ => false,
    }
}

fn is_drop(actor: ActorNo, page: PageNo, event: PlainEvent) -> bool
    ensures { IsTrue result ↔ (PinDrop actor page ≡ event) }
{
    match event {
        PlainEvent::PinDrop { actor: a, page: b } => a.get() == actor.get()
            && b.get() == page.get(),
        _ => false,
    }
}

fn is_made(actor: ActorNo, handle: HandleNo, event: PlainEvent) -> bool
    ensures { IsTrue result ↔ (PinOk actor handle ≡ event) }
{
    match event {
        PlainEvent::PinOk {
            actor: a,
            handle: b,
        } => a.get() == actor.get() && b.get() == handle.get(),
        _ => false,
    }
}

fn is_unpin(actor: ActorNo, handle: HandleNo, event: PlainEvent) -> bool
    ensures { IsTrue result ↔ (Unpin actor handle ≡ event) }
{
    match event {
        PlainEvent::Unpin {
            actor: a,
            handle: b,
        } => a.get() == actor.get() && b.get() == handle.get(),
        _ => false,
    }
}

fn is_give(actor: ActorNo, handle: HandleNo, to: ActorNo, event: PlainEvent) -> bool
    ensures { IsTrue result ↔ (Give actor handle to ≡ event) }
{
    match event {
        PlainEvent::Give {
            actor: a,
            handle: b,
            to: c,
        } => a.get() == actor.get() && b.get() == handle.get() && c.get() == to.get(),
        _ => false,
    }
}

fn is_take(actor: ActorNo, handle: HandleNo, event: PlainEvent) -> bool
    ensures { IsTrue result ↔ (Take actor handle ≡ event) }
{
    match event {
        PlainEvent::Take {
            actor: a,
            handle: b,
        } => a.get() == actor.get() && b.get() == handle.get(),
        _ => false,
    }
}

fn is_out(
    actor: ActorNo,
    handle: HandleNo,
    index: u32,
    slot: u32,
    value: u64,
    event: PlainEvent,
) -> bool
    ensures { IsTrue result ↔ (MoveOut actor handle index slot value ≡ event) }
{
    match event {
        PlainEvent::MoveOut {
            actor: a,
            handle: b,
            index: c,
            slot: d,
            value: e,
        } => a.get() == actor.get()
            && b.get() == handle.get()
            && c == index
            && d == slot
            && e == value,
        _ => false,
    }
}

fn is_in(
    actor: ActorNo,
    handle: HandleNo,
    index: u32,
    slot: u32,
    value: u64,
    event: PlainEvent,
) -> bool
    ensures { IsTrue result ↔ (MoveIn actor handle index slot value ≡ event) }
{
    match event {
        PlainEvent::MoveIn {
            actor: a,
            handle: b,
            index: c,
            slot: d,
            value: e,
        } => a.get() == actor.get()
            && b.get() == handle.get()
            && c == index
            && d == slot
            && e == value,
        _ => false,
    }
}

fn is_fill(actor: ActorNo, mirror: MirrorNo, proc: ProcNo, page: PageNo, event: PlainEvent) -> bool
    ensures { IsTrue result ↔ (MirrorFill actor mirror proc page ≡ event) }
{
    match event {
        PlainEvent::MirrorFill {
            actor: a,
            mirror: b,
            proc: c,
            page: d,
        } => a.get() == actor.get()
            && b.get() == mirror.get()
            && c.get() == proc.get()
            && d.get() == page.get(),
        _ => false,
    }
}

fn is_look(actor: ActorNo, mirror: MirrorNo, word: WordNo, value: u64, event: PlainEvent) -> bool
    ensures { IsTrue result ↔ (Look actor mirror word value ≡ event) }
{
    match event {
        PlainEvent::Look {
            actor: a,
            mirror: b,
            word: c,
            value: d,
        } => a.get() == actor.get()
            && b.get() == mirror.get()
            && c.get() == word.get()
            && d == value,
        _ => false,
    }
}

fn is_fork_begin(parent: ProcNo, child: ProcNo, event: PlainEvent) -> bool
    ensures { IsTrue result ↔ (ForkBegin parent child ≡ event) }
{
    match event {
        PlainEvent::ForkBegin {
            parent: a,
            child: b,
        } => a.get() == parent.get() && b.get() == child.get(),
        _ => false,
    }
}

fn is_fork_page(parent: ProcNo, child: ProcNo, page: PageNo, event: PlainEvent) -> bool
    ensures { IsTrue result ↔ (ForkPage parent child page ≡ event) }
{
    match event {
        PlainEvent::ForkPage {
            parent: a,
            child: b,
            page: c,
        } => a.get() == parent.get() && b.get() == child.get() && c.get() == page.get(),
        _ => false,
    }
}

fn is_fork_word(
    parent: ProcNo,
    child: ProcNo,
    page: PageNo,
    word: WordNo,
    event: PlainEvent,
) -> bool
    ensures { IsTrue result ↔ (ForkWord parent child page word ≡ event) }
{
    match event {
        PlainEvent::ForkWord {
            parent: a,
            child: b,
            page: c,
            word: d,
        } => a.get() == parent.get()
            && b.get() == child.get()
            && c.get() == page.get()
            && d.get() == word.get(),
        _ => false,
    }
}

fn is_fork_end(parent: ProcNo, child: ProcNo, event: PlainEvent) -> bool
    ensures { IsTrue result ↔ (ForkEnd parent child ≡ event) }
{
    match event {
        PlainEvent::ForkEnd {
            parent: a,
            child: b,
        } => a.get() == parent.get() && b.get() == child.get(),
        _ => false,
    }
}

fn is_fork_fail(child: ProcNo, event: PlainEvent) -> bool
    ensures { IsTrue result ↔ (ForkFail child ≡ event) }
{
    match event {
        PlainEvent::ForkFail { child: a } => a.get() == child.get(),
        _ => false,
    }
}
