use gup_base::{ActorNo, HandleNo, PageNo, ProcNo, Rights, WordNo};
use gup_plain::{Answer, Cause, Journal, Note, PlainEvent, Waiting, What};
use std::test::Fail;

#[test]
fn notes_keep_what_happened(rt: HostRuntime) -> Result<(), Fail> {
    let actor = ActorNo::new(80).ok_or("an actor")?;
    let other = ActorNo::new(7).ok_or("an actor")?;
    let proc = ProcNo::new(15).ok_or("a process")?;
    let page = PageNo::new(34_359_738_367).ok_or("a page")?;
    let word = WordNo::new(511).ok_or("a word")?;
    let handle = HandleNo::new(1_023).ok_or("a handle")?;
    let value = 18_446_744_073_709_551_615;
    for what in [
        What::Silent,
        What::Idle,
        What::Wait(Waiting::Holder(other)),
        What::Wait(Waiting::Handle(handle)),
        What::Wait(Waiting::Process(proc)),
        What::Event(PlainEvent::Map {
            actor: other,
            proc,
            page,
            n: 1_024,
            rights: Rights::R,
        }),
        What::Event(PlainEvent::Map {
            actor: other,
            proc,
            page,
            n: 1,
            rights: Rights::RW,
        }),
        What::Event(PlainEvent::Unmap {
            actor: other,
            proc,
            page,
        }),
        What::Event(PlainEvent::Load {
            actor: other,
            proc,
            page,
            word,
            value,
        }),
        What::Event(PlainEvent::Store {
            actor: other,
            proc,
            page,
            word,
            value,
        }),
    ] {
        let note = Note::new(4_294_967_295, actor, 1, what);
        assert_eq!(rt; note.what(), what);
        assert_eq!(rt; note.turn(), 4_294_967_295);
        assert_eq!(rt; note.actor().get(), 80);
        assert_eq!(rt; note.op(), 1);
    }
    Ok(())
}

#[test]
fn notes_keep_each_answer(rt: HostRuntime) -> Result<(), Fail> {
    let actor = ActorNo::new(0).ok_or("an actor")?;
    for answer in [
        Answer::Plain,
        Answer::Value(0),
        Answer::Value(18_446_744_073_709_551_615),
        Answer::Pinned(16),
        Answer::Short {
            got: 1,
            wanted: 16,
            cause: Cause::Missing,
        },
        Answer::Short {
            got: 2,
            wanted: 15,
            cause: Cause::Forbidden,
        },
        Answer::Short {
            got: 3,
            wanted: 14,
            cause: Cause::NoFrame,
        },
        Answer::Short {
            got: 4,
            wanted: 13,
            cause: Cause::Unmovable(1_025),
        },
        Answer::Words,
        Answer::Missing,
        Answer::Forbidden,
        Answer::Unmovable(2),
        Answer::NoFrame,
        Answer::NotHeld,
        Answer::Range,
        Answer::Overlap,
        Answer::Full,
        Answer::Busy(2),
        Answer::Untouched,
        Answer::Stale,
        Answer::Unborn,
    ] {
        let note = Note::new(1, actor, 16_384, What::Done(answer));
        assert_eq!(rt; note.what(), What::Done(answer));
    }
    Ok(())
}

// A note's turn and operation.
fn numbers_of(note: Option<&Note>) -> Option<(u32, u32)> {
    note.map(|note| (note.turn(), note.op()))
}

#[test]
fn a_journal_keeps_its_notes_in_order(rt: HostRuntime) -> Result<(), Fail> {
    let actor = ActorNo::new(0).ok_or("an actor")?;
    let mut journal = Journal::new(rt.alloc());
    assert_eq!(rt; journal.notes().len(), 0);
    journal.push(Note::new(1, actor, 1, What::Silent))?;
    journal.reserve(1_000)?;
    journal.push(Note::new(2, actor, 1, What::Done(Answer::Plain)))?;
    journal.push(Note::new(3, actor, 2, What::Idle))?;
    journal.reserve(0)?;
    let notes = journal.notes();
    assert_eq!(rt; notes.len(), 3);
    assert_eq!(rt; numbers_of(notes.first()), Some((1, 1)));
    assert_eq!(rt; numbers_of(notes.get(1)), Some((2, 1)));
    assert_eq!(rt; numbers_of(notes.last()), Some((3, 2)));
    assert_eq!(rt; notes.last().map(|note| note.what()), Some(What::Idle));
    Ok(())
}
