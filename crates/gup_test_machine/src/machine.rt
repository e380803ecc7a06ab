ghost use Rattle.std.specs.Prelude.{◌≡◌, ◌<◌, ◌≤◌, ◌^◌, true, false, IsTrue, All, length, IfOk};
ghost use Rattle.gup_script.specs.Valid.{IsOp, IsPages};
ghost use Rattle.gup_op_pages.specs.Alone.{IsAlone};

use gup_base::{ActorNo, HandleNo, NoMemory, PageNo, ProcNo, Rights, Want, WordNo, Zone};
use gup_core::Machine;
use gup_plain::{Answer, PlainEvent, Waiting, What};
use gup_script::{Actor, Contents, Kind, Op, Process, Script};
use std::alloc::Global;
use std::process::Abort;
use std::test::Fail;

// Whether the numbers of the operation are in range, and it is of one process and no pin.
fn is_op(op: &Op) -> bool
    ensures range { IsTrue result → IsOp op.now }
    ensures alone { IsTrue result → IsAlone op.now }
{
    match op {
        Op::Map { page, n, .. } => are_pages(*page, *n),
        Op::Unmap { page, n } => are_pages(*page, *n),
        Op::Load { page, word } => page.get() < 1 << 35 && word.get() < 512,
        Op::Store { page, word, value } => page.get() < 1 << 35
            && word.get() < 512
            && *value < 1_000,
        Op::Exit => true,
        _ => false,
    }
}

fn are_pages(page: PageNo, n: u16) -> bool
    ensures { IsTrue result → IsPages page n }
{
    1 <= n && n <= 1_024 && page.get() + u64::from(n) <= 1 << 35
}

fn are_ops(ops: &[Op]) -> bool
    ensures range { IsTrue result → All IsOp ops.now }
    ensures alone { IsTrue result → All IsAlone ops.now }
    ensures few { IsTrue result → length ops.now ≤ 1_000 }
{
    for op in ops {
        if !is_op(op) {
            return false;
        }
    }
    ops.len() <= 1_000
}

// An actor of process 0, 1 or 2.
fn thread(alloc: Global, proc: u64, ops: Vec<Op>) -> Result<Actor, Fail>
    requires proc { proc < 3 }
    ensures kind { IfOk result (λ actor. actor.kind ≡ Kind.Thread proc) }
    ensures ops { IfOk result (λ actor. actor.ops.items ≡ ops.items) }
{
    Ok(Actor {
        name: "t".to_string(alloc)?,
        kind: Kind::Thread(ProcNo::new(proc).unwrap()),
        ops,
    })
}

fn process(alloc: Global, born: bool) -> Result<Process, Fail>
    ensures { IfOk result (λ process. process.born ≡ born) }
{
    Ok(Process {
        name: "p".to_string(alloc)?,
        born,
    })
}

// A script of three processes, of which the last is unborn, and of a thread of each. A fourth actor of process 0 pins page
// 7 and then forks into the last process, a fifth one gets page 5 and puts it back twice, and a sixth one puts that back too.
// There are a movable frame and a normal one.
fn script(alloc: Global, first: Vec<Op>, second: Vec<Op>, third: Vec<Op>) -> Result<Script, Fail>
    ensures { IfOk result (λ script. length script.actors ≡ 6) }
{
    if !are_ops(&first) || !are_ops(&second) || !are_ops(&third) {
        return Err("an operation".into());
    }
    let mut processes = Vec::new(alloc);
    processes.push(process(alloc, true)?)?;
    processes.push(process(alloc, true)?)?;
    processes.push(process(alloc, false)?)?;
    let fork = Vec::from_array(alloc, [pin(), Op::Fork { child: proc(2) }])?;
    let gets = Vec::from_array(alloc, [get(), put(), put()])?;
    let puts = Vec::from_array(alloc, [put()])?;
    let mut actors = Vec::new(alloc);
    actors.push(thread(alloc, 0, first)?)?;
    actors.push(thread(alloc, 1, second)?)?;
    actors.push(thread(alloc, 2, third)?)?;
    actors.push(thread(alloc, 0, fork)?)?;
    actors.push(thread(alloc, 0, gets)?)?;
    actors.push(thread(alloc, 0, puts)?)?;
    let mut handles = Vec::new(alloc);
    handles.push("h".to_string(alloc)?)?;
    handles.push("g".to_string(alloc)?)?;
    Ok(Script::new(Contents {
        movable: 1,
        normal: 1,
        tables: 64,
        processes,
        actors,
        handles,
        mirrors: Vec::new(alloc),
        turns: Vec::new(alloc),
        seed: 0,
    }))
}

fn page(number: u8) -> PageNo
    ensures { result ≡ number }
{
    PageNo::new(u64::from(number)).unwrap()
}

fn word() -> WordNo {
    WordNo::new(0).unwrap()
}

fn actor(number: u64) -> ActorNo
    requires { number < 6 }
    ensures { result ≡ number }
{
    ActorNo::new(number).unwrap()
}

fn proc(number: u64) -> ProcNo
    requires { number < 3 }
    ensures { result ≡ number }
{
    ProcNo::new(number).unwrap()
}

const DONE: What = What::Done(Answer::Plain);

const MISSING: What = What::Done(Answer::Missing);

const NOT_HELD: What = What::Done(Answer::NotHeld);

// What the notes of process `p`'s thread, of the same number, say.

fn unmapped(p: u64, at: u8) -> What
    requires { p < 3 }
{
    let (actor, proc, page) = (actor(p), proc(p), page(at));
    What::Event(PlainEvent::Unmap { actor, proc, page })
}

fn loaded(p: u64, at: u8, value: u64) -> [What; 2]
    requires { p < 3 }
{
    let (actor, proc, page, word) = (actor(p), proc(p), page(at), word());
    let event = PlainEvent::Load {
        actor,
        proc,
        page,
        word,
        value,
    };
    [What::Event(event), What::Done(Answer::Value(value))]
}

fn stored(p: u64, at: u8, value: u64) -> [What; 2]
    requires { p < 3 }
{
    let (actor, proc, page, word) = (actor(p), proc(p), page(at), word());
    let event = PlainEvent::Store {
        actor,
        proc,
        page,
        word,
        value,
    };
    [What::Event(event), DONE]
}

// The fork's beginning, and a page of it.

fn begun() -> What {
    let (parent, child) = (proc(0), proc(2));
    What::Event(PlainEvent::ForkBegin { parent, child })
}

fn forked(at: u8) -> What {
    let (parent, child, page) = (proc(0), proc(2), page(at));
    What::Event(PlainEvent::ForkPage {
        parent,
        child,
        page,
    })
}

fn map(first: u8, n: u16) -> Op {
    let (page, rights) = (page(first), Rights::RW);
    Op::Map { page, n, rights }
}

fn pin() -> Op
    ensures { result ≡ Op.Pin 0 7 1 (record { write = true; long = false }) false }
{
    let (handle, page) = (HandleNo::new(0).unwrap(), page(7));
    Op::Pin {
        handle,
        page,
        n: 1,
        want: Want {
            write: true,
            long: false,
        },
        fast: false,
    }
}

fn get() -> Op
    ensures { result ≡ Op.Get 1 5 }
{
    let (handle, page) = (HandleNo::new(1).unwrap(), page(5));
    Op::Get { handle, page }
}

fn put() -> Op
    ensures { result ≡ Op.Put 1 }
{
    let handle = HandleNo::new(1).unwrap();
    Op::Put { handle }
}

fn unmap(first: u8, n: u16) -> Op {
    let page = page(first);
    Op::Unmap { page, n }
}

fn load(at: u8) -> Op {
    let (page, word) = (page(at), word());
    Op::Load { page, word }
}

fn store(at: u8, value: u64) -> Op {
    let (page, word) = (page(at), word());
    Op::Store { page, word, value }
}

// Takes a turn of the actor, whose notes must say this and no more.
fn turn(rt: &impl Abort, machine: &mut Machine, number: u64, wanted: &[What])
    requires number { number < 6 }
    requires actors { length machine.old.script.actors ≡ 6 }
    ensures { length machine.new.script.actors ≡ 6 }
{
    let turn = machine.turn(actor(number));
    let notes = turn.notes();
    assert_eq!(rt; notes.len(), wanted.len());
    for (note, what) in notes.iter().zip(wanted) {
        assert_eq!(rt; note.what(), *what);
        assert_eq!(rt; note.actor(), actor(number));
    }
}

fn machine(alloc: Global, first: Vec<Op>, second: Vec<Op>, third: Vec<Op>) -> Result<Machine, Fail>
    ensures { IfOk result (λ machine. length machine.script.actors ≡ 6) }
{
    let script = script(alloc, first, second, third)?;
    match Machine::new(alloc, &script) {
        Ok(machine) => Ok(machine),
        Err(NoMemory) => Err("memory".into()),
    }
}

#[test]
fn frames_run_out_and_come_back(rt: HostRuntime) -> Result<(), Fail> {
    let alloc = rt.alloc();
    let range = [
        load(5),
        map(5, 3),
        store(5, 9),
        load(6),
        load(7),
        unmap(4, 2),
        load(7),
        Op::Exit,
    ];
    let ops = Vec::from_array(alloc, range)?;
    let mut machine = machine(alloc, ops, Vec::new(alloc), Vec::new(alloc))?;
    turn(&rt, &mut machine, 0, &[MISSING]);
    let _mapped = machine.turn(actor(0));
    turn(&rt, &mut machine, 0, &stored(0, 5, 9));
    assert_eq!(rt; machine.free_frames(Zone::Movable), 0);
    assert_eq!(rt; machine.free_frames(Zone::Normal), 1);
    turn(&rt, &mut machine, 0, &loaded(0, 6, 0));
    turn(&rt, &mut machine, 0, &[What::Done(Answer::NoFrame)]);
    turn(&rt, &mut machine, 0, &[What::Silent]);
    turn(&rt, &mut machine, 0, &[unmapped(0, 5), DONE]);
    assert_eq!(rt; machine.free_frames(Zone::Movable), 1);
    turn(&rt, &mut machine, 0, &loaded(0, 7, 0));
    turn(&rt, &mut machine, 0, &[unmapped(0, 6)]);
    turn(&rt, &mut machine, 0, &[unmapped(0, 7)]);
    assert!(rt; !machine.finished(actor(0)));
    turn(&rt, &mut machine, 0, &[DONE]);
    assert!(rt; machine.finished(actor(0)));
    turn(&rt, &mut machine, 0, &[What::Idle]);
    Ok(())
}

// Processes are apart. No frame is left for a copy of the pinned page, so the fork fails, and its child with it.
#[test]
fn forks_fail(rt: HostRuntime) -> Result<(), Fail> {
    let alloc = rt.alloc();
    let first = Vec::from_array(alloc, [map(7, 1), store(7, 1), load(7)])?;
    let second = Vec::from_array(alloc, [store(7, 2), map(7, 1), load(7)])?;
    let third = Vec::from_array(alloc, [load(7)])?;
    let mut machine = machine(alloc, first, second, third)?;
    let _mapped = machine.turn(actor(0));
    turn(&rt, &mut machine, 0, &stored(0, 7, 1));
    turn(&rt, &mut machine, 1, &[MISSING]);
    let _mapped = machine.turn(actor(1));
    turn(&rt, &mut machine, 1, &loaded(1, 7, 0));
    turn(&rt, &mut machine, 0, &loaded(0, 7, 1));
    let _pinned = machine.turn(actor(3));
    turn(&rt, &mut machine, 3, &[begun()]);
    turn(&rt, &mut machine, 3, &[What::Silent]);
    let child = proc(2);
    turn(&rt, &mut machine, 2, &[What::Wait(Waiting::Process(child))]);
    let failed = What::Event(PlainEvent::ForkFail { child });
    turn(&rt, &mut machine, 3, &[failed, What::Done(Answer::NoFrame)]);
    turn(&rt, &mut machine, 2, &[What::Done(Answer::Unborn)]);
    Ok(())
}

// While the fork goes on, what needs a lock waits for it, and the child's thread for the child. A write after it gets
// a frame of its own.
#[test]
fn forks_share_pages(rt: HostRuntime) -> Result<(), Fail> {
    let alloc = rt.alloc();
    let range = [map(5, 2), store(5, 1), load(5), load(6), store(5, 2)];
    let first = Vec::from_array(alloc, range)?;
    let third = Vec::from_array(alloc, [load(5), store(5, 3)])?;
    let mut machine = machine(alloc, first, Vec::new(alloc), third)?;
    let _mapped = machine.turn(actor(0));
    turn(&rt, &mut machine, 0, &stored(0, 5, 1));
    turn(&rt, &mut machine, 3, &[MISSING]);
    turn(&rt, &mut machine, 3, &[begun()]);
    assert_eq!(rt; machine.waits(actor(0)), None);
    turn(&rt, &mut machine, 0, &loaded(0, 5, 1));
    let (parent, child) = (proc(0), proc(2));
    assert_eq!(rt; machine.waits(actor(0)), Some(Waiting::Holder(actor(3))));
    turn(
        &rt,
        &mut machine,
        0,
        &[What::Wait(Waiting::Holder(actor(3)))],
    );
    assert_eq!(rt; machine.waits(actor(2)), Some(Waiting::Process(child)));
    turn(&rt, &mut machine, 2, &[What::Wait(Waiting::Process(child))]);
    turn(&rt, &mut machine, 3, &[What::Silent]);
    turn(&rt, &mut machine, 3, &[forked(5)]);
    turn(&rt, &mut machine, 3, &[forked(6)]);
    let ended = What::Event(PlainEvent::ForkEnd { parent, child });
    turn(&rt, &mut machine, 3, &[ended, DONE]);
    assert!(rt; machine.finished(actor(3)));
    turn(&rt, &mut machine, 2, &loaded(2, 5, 1));
    assert_eq!(rt; machine.free_frames(Zone::Normal), 1);
    turn(&rt, &mut machine, 2, &stored(2, 5, 3));
    assert_eq!(rt; machine.free_frames(Zone::Normal), 0);
    turn(&rt, &mut machine, 0, &[What::Done(Answer::NoFrame)]);
    turn(&rt, &mut machine, 0, &stored(0, 5, 2));
    Ok(())
}

// A get makes its page present, and keeps the frame over an unmap until its own actor puts it back, once.
#[test]
fn references_keep_frames(rt: HostRuntime) -> Result<(), Fail> {
    let alloc = rt.alloc();
    let first = Vec::from_array(alloc, [map(5, 1), unmap(5, 1), map(5, 1), load(5)])?;
    let mut machine = machine(alloc, first, Vec::new(alloc), Vec::new(alloc))?;
    let _mapped = machine.turn(actor(0));
    assert_eq!(rt; machine.free_frames(Zone::Movable), 1);
    turn(&rt, &mut machine, 4, &[DONE]);
    assert_eq!(rt; machine.free_frames(Zone::Movable), 0);
    turn(&rt, &mut machine, 0, &[unmapped(0, 5), DONE]);
    assert_eq!(rt; machine.free_frames(Zone::Movable), 0);
    let _mapped = machine.turn(actor(0));
    turn(&rt, &mut machine, 0, &loaded(0, 5, 0));
    assert_eq!(rt; machine.free_frames(Zone::Normal), 0);
    turn(&rt, &mut machine, 5, &[NOT_HELD]);
    assert_eq!(rt; machine.free_frames(Zone::Movable), 0);
    turn(&rt, &mut machine, 4, &[DONE]);
    assert_eq!(rt; machine.free_frames(Zone::Movable), 1);
    turn(&rt, &mut machine, 4, &[NOT_HELD]);
    assert_eq!(rt; machine.free_frames(Zone::Movable), 1);
    assert!(rt; machine.finished(actor(4)));
    Ok(())
}

// A get that is refused has nothing to put back.
#[test]
fn references_are_refused(rt: HostRuntime) -> Result<(), Fail> {
    let alloc = rt.alloc();
    let second = Vec::from_array(alloc, [map(5, 2), store(5, 1), store(6, 1)])?;
    let mut unmapped = machine(alloc, Vec::new(alloc), Vec::new(alloc), Vec::new(alloc))?;
    turn(&rt, &mut unmapped, 4, &[MISSING]);
    turn(&rt, &mut unmapped, 4, &[NOT_HELD]);
    let first = Vec::from_array(alloc, [map(5, 1)])?;
    let mut full = machine(alloc, first, second, Vec::new(alloc))?;
    let _mapped = full.turn(actor(0));
    let _mapped = full.turn(actor(1));
    turn(&rt, &mut full, 1, &stored(1, 5, 1));
    turn(&rt, &mut full, 1, &stored(1, 6, 1));
    turn(&rt, &mut full, 4, &[What::Done(Answer::NoFrame)]);
    turn(&rt, &mut full, 4, &[NOT_HELD]);
    Ok(())
}

// A get waits for a fork of its process, and a put for nothing.
#[test]
fn references_wait_for_forks(rt: HostRuntime) -> Result<(), Fail> {
    let alloc = rt.alloc();
    let first = Vec::from_array(alloc, [map(5, 1), store(5, 1)])?;
    let mut machine = machine(alloc, first, Vec::new(alloc), Vec::new(alloc))?;
    let _mapped = machine.turn(actor(0));
    turn(&rt, &mut machine, 0, &stored(0, 5, 1));
    turn(&rt, &mut machine, 3, &[MISSING]);
    turn(&rt, &mut machine, 3, &[begun()]);
    assert_eq!(rt; machine.waits(actor(4)), Some(Waiting::Holder(actor(3))));
    turn(
        &rt,
        &mut machine,
        4,
        &[What::Wait(Waiting::Holder(actor(3)))],
    );
    assert_eq!(rt; machine.waits(actor(5)), None);
    turn(&rt, &mut machine, 5, &[NOT_HELD]);
    turn(&rt, &mut machine, 3, &[What::Silent]);
    turn(&rt, &mut machine, 3, &[forked(5)]);
    let (parent, child) = (proc(0), proc(2));
    let ended = What::Event(PlainEvent::ForkEnd { parent, child });
    turn(&rt, &mut machine, 3, &[ended, DONE]);
    assert_eq!(rt; machine.waits(actor(4)), None);
    turn(&rt, &mut machine, 4, &[DONE]);
    assert_eq!(rt; machine.free_frames(Zone::Normal), 1);
    turn(&rt, &mut machine, 4, &[DONE]);
    turn(&rt, &mut machine, 4, &[NOT_HELD]);
    Ok(())
}
