ghost use Rattle.std.specs.Prelude.{◌<◌, ◌≤◌};

use gup_base::{ActorNo, HandleNo, MirrorNo, NoMemory, PageNo, ProcNo, Rights, WordNo};
use gup_exec_plain::{Plain, PlainRefusal};
use gup_plain::PlainEvent;
use std::alloc::Global;
use std::test::Fail;

const OK: Result<(), PlainRefusal> = Ok(());

const BROKEN: Result<(), PlainRefusal> = Err(PlainRefusal::Broken);

// The start, with one process born.
fn started(alloc: Global, processes: u8, actors: u8, first: ProcNo) -> Result<Plain, NoMemory>
    requires processes { processes ≤ 16 }
    requires actors { actors ≤ 81 }
    requires first { first < processes }
{
    let mut plain = Plain::new(alloc, processes, actors)?;
    plain.birth(first);
    Ok(plain)
}

// Lets the event happen, where its actor is there.
fn step(plain: &mut Plain, event: PlainEvent) -> Result<(), PlainRefusal> {
    if plain.has_actor(&event) {
        plain.apply(&event)
    } else {
        Err(PlainRefusal::NoMemory)
    }
}

// Each event once where it can't happen and once where it can, and what is read afterwards.
#[test]
fn each_event_happens_where_it_can(rt: HostRuntime) -> Result<(), Fail> {
    let actor = ActorNo::new(0).ok_or("an actor")?;
    let other = ActorNo::new(1).ok_or("an actor")?;
    let proc = ProcNo::new(0).ok_or("a process")?;
    let child = ProcNo::new(1).ok_or("a process")?;
    let page = PageNo::new(34_359_738_367).ok_or("a page")?;
    let first = PageNo::new(0).ok_or("a page")?;
    let word = WordNo::new(511).ok_or("a word")?;
    let zero = WordNo::new(0).ok_or("a word")?;
    let handle = HandleNo::new(1_023).ok_or("a handle")?;
    let mirror = MirrorNo::new(63).ok_or("a mirror")?;
    let rights = Rights::RW;
    let mut plain = started(rt.alloc(), 3, 2, proc).or(Err("memory"))?;
    for (event, expected) in [
        (
            PlainEvent::Map {
                actor,
                proc,
                page,
                n: 2,
                rights,
            },
            BROKEN,
        ),
        (
            PlainEvent::Map {
                actor,
                proc,
                page,
                n: 1,
                rights,
            },
            OK,
        ),
        (
            PlainEvent::Map {
                actor,
                proc,
                page: first,
                n: 1_024,
                rights,
            },
            BROKEN,
        ),
        (
            PlainEvent::Map {
                actor,
                proc,
                page: first,
                n: 1,
                rights,
            },
            OK,
        ),
        (
            PlainEvent::Load {
                actor,
                proc,
                page,
                word,
                value: 7,
            },
            BROKEN,
        ),
        (
            PlainEvent::Load {
                actor,
                proc,
                page,
                word,
                value: 0,
            },
            OK,
        ),
        (
            PlainEvent::Protect {
                actor,
                proc,
                page,
                n: 2,
                rights: Rights::R,
            },
            BROKEN,
        ),
        (
            PlainEvent::Protect {
                actor,
                proc,
                page,
                n: 1,
                rights: Rights::R,
            },
            OK,
        ),
        (
            PlainEvent::Store {
                actor,
                proc,
                page,
                word,
                value: 7,
            },
            BROKEN,
        ),
        (
            PlainEvent::Protect {
                actor,
                proc,
                page,
                n: 1,
                rights,
            },
            OK,
        ),
        (
            PlainEvent::Store {
                actor,
                proc,
                page,
                word,
                value: 7,
            },
            OK,
        ),
        (
            PlainEvent::Load {
                actor,
                proc,
                page,
                word,
                value: 7,
            },
            OK,
        ),
        (
            PlainEvent::Discard {
                actor,
                proc: child,
                page,
            },
            BROKEN,
        ),
        (PlainEvent::Discard { actor, proc, page }, OK),
        (
            PlainEvent::Load {
                actor,
                proc,
                page,
                word,
                value: 0,
            },
            OK,
        ),
        (
            PlainEvent::Store {
                actor,
                proc,
                page,
                word,
                value: 8,
            },
            OK,
        ),
        (
            PlainEvent::PinTry {
                actor,
                proc: child,
                page,
                write: true,
            },
            BROKEN,
        ),
        (
            PlainEvent::PinTry {
                actor,
                proc,
                page,
                write: true,
            },
            OK,
        ),
        (PlainEvent::PinDrop { actor, page: first }, BROKEN),
        (PlainEvent::PinDrop { actor, page }, OK),
        (PlainEvent::PinOk { actor, handle }, BROKEN),
        (
            PlainEvent::PinTry {
                actor,
                proc,
                page,
                write: true,
            },
            OK,
        ),
        (PlainEvent::PinOk { actor, handle }, OK),
        (
            PlainEvent::MoveOut {
                actor: other,
                handle,
                index: 511,
                slot: 4_095,
                value: 8,
            },
            BROKEN,
        ),
        (
            PlainEvent::MoveOut {
                actor,
                handle,
                index: 511,
                slot: 4_095,
                value: 8,
            },
            OK,
        ),
        (
            PlainEvent::MoveIn {
                actor,
                handle,
                index: 512,
                slot: 4_095,
                value: 8,
            },
            BROKEN,
        ),
        (
            PlainEvent::MoveIn {
                actor,
                handle,
                index: 0,
                slot: 4_095,
                value: 8,
            },
            OK,
        ),
        (
            PlainEvent::Load {
                actor,
                proc,
                page,
                word: zero,
                value: 8,
            },
            OK,
        ),
        (
            PlainEvent::Give {
                actor: other,
                handle,
                to: actor,
            },
            BROKEN,
        ),
        (
            PlainEvent::Give {
                actor,
                handle,
                to: other,
            },
            OK,
        ),
        (PlainEvent::Take { actor, handle }, BROKEN),
        (
            PlainEvent::Take {
                actor: other,
                handle,
            },
            OK,
        ),
        (PlainEvent::Unpin { actor, handle }, BROKEN),
        (
            PlainEvent::Unpin {
                actor: other,
                handle,
            },
            OK,
        ),
        (
            PlainEvent::Look {
                actor,
                mirror,
                word,
                value: 8,
            },
            BROKEN,
        ),
        (
            PlainEvent::MirrorFill {
                actor,
                mirror,
                proc: child,
                page,
            },
            BROKEN,
        ),
        (
            PlainEvent::MirrorFill {
                actor,
                mirror,
                proc,
                page,
            },
            OK,
        ),
        (
            PlainEvent::Look {
                actor,
                mirror,
                word,
                value: 8,
            },
            OK,
        ),
    ] {
        assert_eq!(rt; step(&mut plain, event), expected);
    }
    Ok(())
}

// A fork that copies one page word by word and the other at once, and one that fails.
#[test]
fn a_fork_copies_each_word(rt: HostRuntime) -> Result<(), Fail> {
    let actor = ActorNo::new(0).ok_or("an actor")?;
    let parent = ProcNo::new(0).ok_or("a process")?;
    let child = ProcNo::new(1).ok_or("a process")?;
    let third = ProcNo::new(2).ok_or("a process")?;
    let page = PageNo::new(5).ok_or("a page")?;
    let next = PageNo::new(6).ok_or("a page")?;
    let word = WordNo::new(511).ok_or("a word")?;
    let rights = Rights::RW;
    let mut plain = started(rt.alloc(), 3, 1, parent).or(Err("memory"))?;
    for (event, expected) in [
        (
            PlainEvent::Map {
                actor,
                proc: parent,
                page,
                n: 2,
                rights,
            },
            OK,
        ),
        (
            PlainEvent::Store {
                actor,
                proc: parent,
                page,
                word,
                value: 3,
            },
            OK,
        ),
        (
            PlainEvent::Store {
                actor,
                proc: parent,
                page: next,
                word,
                value: 4,
            },
            OK,
        ),
        (
            PlainEvent::ForkBegin {
                parent: third,
                child,
            },
            BROKEN,
        ),
        (PlainEvent::ForkBegin { parent, child }, OK),
        (
            PlainEvent::ForkPage {
                parent: third,
                child,
                page: next,
            },
            BROKEN,
        ),
        (
            PlainEvent::ForkPage {
                parent,
                child,
                page: next,
            },
            OK,
        ),
        (
            PlainEvent::ForkWord {
                parent,
                child,
                page: next,
                word,
            },
            BROKEN,
        ),
        (PlainEvent::ForkEnd { parent, child }, BROKEN),
    ] {
        assert_eq!(rt; step(&mut plain, event), expected);
    }
    for k in 0..512 {
        let word = WordNo::new(k).ok_or("a word")?;
        assert_eq!(rt;
            step(
                &mut plain,
                PlainEvent::ForkWord {
                    parent,
                    child,
                    page,
                    word
                }
            ),
            OK
        );
    }
    for (event, expected) in [
        (PlainEvent::ForkEnd { parent, child }, OK),
        (
            PlainEvent::Load {
                actor,
                proc: child,
                page,
                word,
                value: 3,
            },
            OK,
        ),
        (
            PlainEvent::Load {
                actor,
                proc: child,
                page: next,
                word,
                value: 4,
            },
            OK,
        ),
        (
            PlainEvent::Unmap {
                actor,
                proc: third,
                page,
            },
            BROKEN,
        ),
        (
            PlainEvent::Unmap {
                actor,
                proc: child,
                page,
            },
            OK,
        ),
        (
            PlainEvent::Load {
                actor,
                proc: child,
                page,
                word,
                value: 3,
            },
            BROKEN,
        ),
        (PlainEvent::ForkFail { child }, BROKEN),
        (PlainEvent::ForkFail { child: third }, OK),
        (
            PlainEvent::ForkBegin {
                parent,
                child: third,
            },
            BROKEN,
        ),
    ] {
        assert_eq!(rt; step(&mut plain, event), expected);
    }
    Ok(())
}
