ghost use Rattle.std.specs.Prelude.{◌≡◌, length, IfOk};

use gup_base::{ActorNo, HandleNo, NoMemory, ProcNo, Words};
use gup_lines::{Outcome, outcomes, push_line, push_lines, push_stuck};
use gup_plain::{Answer, Cause, Journal, Note, PlainEvent, Waiting, What};
use gup_script::{Actor, Contents, Kind, Process, Script};
use std::alloc::{AllocError, Global};
use std::test::Fail;

// Two processes, one of them unborn, a thread of each, and a handle.
fn script(alloc: Global) -> Result<Script, AllocError>
    ensures processes { IfOk result (λ script. length script.processes ≡ 2) }
    ensures handles { IfOk result (λ script. length script.handles ≡ 1) }
{
    let mut processes = Vec::new(alloc);
    processes.push(Process {
        name: "parent".to_string(alloc)?,
        born: true,
    })?;
    processes.push(Process {
        name: "child".to_string(alloc)?,
        born: false,
    })?;
    let mut actors = Vec::new(alloc);
    actors.push(Actor {
        name: "t1".to_string(alloc)?,
        kind: Kind::Thread(ProcNo::new(0).unwrap()),
        ops: Vec::new(alloc),
    })?;
    actors.push(Actor {
        name: "t2".to_string(alloc)?,
        kind: Kind::Thread(ProcNo::new(1).unwrap()),
        ops: Vec::new(alloc),
    })?;
    let mut handles = Vec::new(alloc);
    handles.push("buffer".to_string(alloc)?)?;
    Ok(Script::new(Contents {
        movable: 8,
        normal: 8,
        tables: 64,
        processes,
        actors,
        handles,
        mirrors: Vec::new(alloc),
        turns: Vec::new(alloc),
        seed: 0,
    }))
}

#[test]
fn each_answer_has_its_line(rt: HostRuntime) -> Result<(), Fail> {
    let script = script(rt.alloc()).or(Err("memory"))?;
    let mut text = Vec::new(rt.alloc());
    for (answer, line) in [
        (Answer::Plain, "t2 3 ok\n"),
        (
            Answer::Value(18_446_744_073_709_551_615),
            "t2 3 ok 18446744073709551615\n",
        ),
        (Answer::Pinned(16), "t2 3 ok 16\n"),
        (
            Answer::Short {
                got: 1,
                wanted: 3,
                cause: Cause::Missing,
            },
            "t2 3 ok 1 of 3 missing\n",
        ),
        (
            Answer::Short {
                got: 2,
                wanted: 3,
                cause: Cause::Unmovable(1_025),
            },
            "t2 3 ok 2 of 3 unmovable 1025\n",
        ),
        (
            Answer::Short {
                got: 2,
                wanted: 3,
                cause: Cause::Forbidden,
            },
            "t2 3 ok 2 of 3 forbidden\n",
        ),
        (
            Answer::Short {
                got: 2,
                wanted: 3,
                cause: Cause::NoFrame,
            },
            "t2 3 ok 2 of 3 noframe\n",
        ),
        (Answer::Words, "t2 3 ok 7 0\n"),
        (Answer::Missing, "t2 3 missing\n"),
        (Answer::Forbidden, "t2 3 forbidden\n"),
        (Answer::Unmovable(2), "t2 3 unmovable 2\n"),
        (Answer::NoFrame, "t2 3 noframe\n"),
        (Answer::NotHeld, "t2 3 notheld\n"),
        (Answer::Range, "t2 3 range\n"),
        (Answer::Overlap, "t2 3 overlap\n"),
        (Answer::Full, "t2 3 full\n"),
        (Answer::Busy(0), "t2 3 busy 0\n"),
        (Answer::Untouched, "t2 3 untouched\n"),
        (Answer::Stale, "t2 3 stale\n"),
        (Answer::Unborn, "t2 3 unborn\n"),
    ] {
        let mut words = Words::new();
        words.push(7);
        words.push(0);
        let outcome = Outcome {
            actor: ActorNo::new(1).ok_or("an actor")?,
            op: 3,
            answer,
            words,
        };
        text.clear();
        assert!(rt; push_line(&script, &outcome, &mut text).is_ok());
        assert!(rt; text.as_slice() == line.as_bytes(), "{line}");
    }
    Ok(())
}

#[test]
fn a_journal_has_its_outcomes(rt: HostRuntime) -> Result<(), Fail> {
    let script = script(rt.alloc()).or(Err("memory"))?;
    let first = ActorNo::new(0).ok_or("an actor")?;
    let second = ActorNo::new(1).ok_or("an actor")?;
    let child = ProcNo::new(1).ok_or("a process")?;
    let mut journal = Journal::new(rt.alloc());
    for (turn, actor, op, what) in [
        (1, first, 1, What::Silent),
        (2, first, 1, What::Done(Answer::Plain)),
        (3, second, 1, What::Wait(Waiting::Process(child))),
        (4, first, 2, What::Done(Answer::Value(5))),
        (5, first, 3, What::Idle),
    ] {
        journal
            .push(Note::new(turn, actor, op, what))
            .or(Err("memory"))?;
    }
    let found = outcomes(rt.alloc(), &script, &journal).or(Err("memory"))?;
    let mut text = Vec::new(rt.alloc());
    for outcome in found.all() {
        push_line(&script, outcome, &mut text).or(Err("memory"))?;
    }
    assert!(rt; text.as_slice() == "t1 1 ok\nt1 2 ok 5\n".as_bytes());
    Ok(())
}

// What a note says: a word that moves, out of the handle or into it, no event, or the end of a transfer.
fn what_of(kind: &str, value: u64) -> What {
    let actor = ActorNo::new(0).unwrap();
    let handle = HandleNo::new(0).unwrap();
    match kind {
        "out" => What::Event(PlainEvent::MoveOut {
            actor,
            handle,
            index: 0,
            slot: 0,
            value,
        }),
        "in" => What::Event(PlainEvent::MoveIn {
            actor,
            handle,
            index: 0,
            slot: 0,
            value,
        }),
        "silent" => What::Silent,
        _ => What::Done(Answer::Words),
    }
}

// The note of an actor, an operation, a kind and a word.
fn note_of(step: &str) -> Option<Note> {
    let mut words = step.split_whitespace();
    let actor = ActorNo::new(words.next()?.parse::<u64>().ok()?)?;
    let op = words.next()?.parse::<u32>().ok()?;
    let kind = words.next()?;
    let value = words.next()?.parse::<u64>().ok()?;
    Some(Note::new(1, actor, op, what_of(kind, value)))
}

fn journal_of(alloc: Global, steps: &str) -> Result<Journal, NoMemory> {
    let mut journal = Journal::new(alloc);
    for step in steps.split(',') {
        if let Some(note) = note_of(step) {
            journal.push(note)?;
        }
    }
    Ok(journal)
}

// Two transfers of the first thread, and one of the second between the words of the first.
#[test]
fn a_transfer_has_its_own_words(rt: HostRuntime) -> Result<(), Fail> {
    let script = script(rt.alloc()).or(Err("memory"))?;
    let steps =
        "0 1 out 7, 1 1 in 8, 0 1 silent 0, 0 1 out 9, 1 1 end 0, 0 1 end 0, 0 2 in 5, 0 2 end 0, 0 3 end 0";
    let journal = journal_of(rt.alloc(), steps).or(Err("memory"))?;
    let mut text = Vec::new(rt.alloc());
    push_lines(rt.alloc(), &script, &journal, &mut text).or(Err("memory"))?;
    assert!(rt; text.as_slice() == "t2 1 ok 8\nt1 1 ok 7 9\nt1 2 ok 5\nt1 3 ok\n".as_bytes());
    Ok(())
}

#[test]
fn an_actor_is_stuck_at_a_process_or_a_handle(rt: HostRuntime) -> Result<(), Fail> {
    let script = script(rt.alloc()).or(Err("memory"))?;
    let first = ActorNo::new(0).ok_or("an actor")?;
    let second = ActorNo::new(1).ok_or("an actor")?;
    let child = ProcNo::new(1).ok_or("a process")?;
    let buffer = HandleNo::new(0).ok_or("a handle")?;
    let mut text = Vec::new(rt.alloc());
    push_stuck(&script, second, Waiting::Process(child), &mut text).or(Err("memory"))?;
    push_stuck(&script, first, Waiting::Handle(buffer), &mut text).or(Err("memory"))?;
    assert!(rt; text.as_slice() == "stuck t2 process child\nstuck t1 handle buffer\n".as_bytes());
    Ok(())
}
