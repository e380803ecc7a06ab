use gup_base::{
    ActorNo, Allowed, Entry, FrameNo, HandleNo, MirrorNo, NoMemory, PageNo, ProcNo, Rights, WordNo,
    Zone,
};
use gup_exec_core::{Refused, Trial};
use gup_exec_jobs::job::{Counted, ForkStep, Stage};
use gup_exec_jobs::lists::{same_frames, same_pages};
use gup_exec_rows::grid::has_page;
use std::alloc::Global;
use std::test::Fail;

// A machine that random events are tried on, and how often each of the 44 kinds has happened. A fork that fails and
// ends with it is a kind of its own.
#[derive(Drop)]
struct Run {
    trial: Trial,
    alloc: Global,
    seed: u64,
    happened: [u32; 44],
    long_refused: u32,
    zone_refused: u32,
    short_of_memory: u32,
}

fn actor(n: u64) -> ActorNo {
    ActorNo::new(n % 5).unwrap()
}

fn process(n: u64) -> ProcNo {
    ProcNo::new(n % 3).unwrap()
}

fn page(n: u64) -> PageNo {
    PageNo::new(n % 3).unwrap()
}

fn frame(n: u64) -> FrameNo {
    FrameNo::new(n % 4).unwrap()
}

fn handle(n: u64) -> HandleNo {
    HandleNo::new(n % 4).unwrap()
}

fn mirror(n: u64) -> MirrorNo {
    MirrorNo::new(n % 3).unwrap()
}

fn word(n: u64) -> WordNo {
    WordNo::new(n % 512).unwrap()
}

fn few(n: u64) -> u16 {
    (n % 4) as u16
}

fn zones(n: u64) -> Allowed {
    match n {
        0 => Allowed::Any,
        1 => Allowed::Only(Zone::Movable),
        _ => Allowed::Only(Zone::Normal),
    }
}

// The frame, or the first where there is none.
fn kept(found: Option<FrameNo>) -> FrameNo {
    match found {
        None => frame(0),
        Some(f) => f,
    }
}

impl Run {
    fn new(alloc: Global, seed: u64) -> Result<Run, NoMemory> {
        Ok(Run {
            trial: Trial::new(alloc, 2, 2, 0, process(0))?,
            alloc,
            seed,
            happened: [0; 44],
            long_refused: 0,
            zone_refused: 0,
            short_of_memory: 0,
        })
    }

    // A number below n, by a linear congruential generator.
    fn roll(&mut self, n: u64) -> u64 {
        self.seed = self
            .seed
            .wrapping_mul(6_364_136_223_846_793_005)
            .wrapping_add(1_442_695_040_888_963_407);
        (self.seed >> 33) % n.max(1)
    }

    // Counts what has happened, and what has not because allocation failed.
    fn tell(&mut self, kind: usize, tried: Result<(), Refused>) {
        match tried {
            Ok(()) => {
                if let Some(n) = self.happened.get_mut(kind) {
                    *n = n.saturating_add(1);
                }
            }
            Err(Refused::NoMemory) => self.short_of_memory = self.short_of_memory.saturating_add(1),
            Err(Refused::Cannot) => {}
        }
    }

    // The frame and the right of the page's entry, or some.
    fn entry_at(&self, p: ProcNo, g: PageNo) -> (FrameNo, bool) {
        match self.trial.entry.get(p, g) {
            None => (frame(0), false),
            Some(entry) => (entry.frame, entry.writable),
        }
    }

    fn has_right(&self, p: ProcNo, g: PageNo) -> bool {
        match self.trial.right.get(p, g) {
            Some(Rights::RW) => true,
            Some(Rights::R) | None => false,
        }
    }

    fn fault(&mut self, kind: u64, a: ActorNo, p: ProcNo, g: PageNo) {
        let (f, writable) = self.entry_at(p, g);
        let prepared = kept(*self.trial.prepared.get(a));
        if kind == 0 {
            let n = self.roll(4);
            let tried = self.trial.take_frame(a, frame(n));
            self.tell(0, tried);
        } else if kind == 1 {
            let tried = self.trial.fill(a, p, g, prepared);
            self.tell(1, tried);
        } else if kind == 2 {
            let tried = self.trial.count_one(a, p, g, f, writable);
            self.tell(2, tried);
        } else if kind == 3 {
            let tried = self.trial.set_mark(a, p, g, f);
            self.tell(3, tried);
        } else if kind == 4 {
            let tried = self.trial.upgrade(a, p, g, f);
            self.tell(4, tried);
        } else if kind == 5 {
            let right = self.has_right(p, g);
            let tried = self
                .trial
                .break_entry(a, p, g, f, prepared, writable, right);
            self.tell(5, tried);
        } else {
            let owed = kept(*self.trial.owed.get(a));
            let tried = self.trial.put_entry(a, owed);
            self.tell(6, tried);
        }
    }

    fn pin(&mut self, a: ActorNo, p: ProcNo, g: PageNo) {
        let (f, writable) = self.entry_at(p, g);
        let write = self.roll(2) == 0;
        let long = self.roll(2) == 0;
        let tried = self
            .trial
            .pin_page(a, p, g, entry(f, writable), write, long);
        let refused = long && tried.is_err();
        self.tell(8, tried);
        if refused {
            let tried = self
                .trial
                .pin_page(a, p, g, entry(f, writable), write, false);
            if tried.is_ok() {
                self.long_refused = self.long_refused.saturating_add(1);
            }
            self.tell(8, tried);
        }
    }

    // Who holds the handle, or else this actor.
    fn holder(&self, h: HandleNo, a: ActorNo) -> ActorNo {
        for k in 0..5 {
            if self.trial.handle.is_held_by(h, actor(k)) {
                return actor(k);
            }
        }
        a
    }

    // Whom the handle is given to, or else this actor.
    fn taker(&self, h: HandleNo, a: ActorNo) -> ActorNo {
        for k in 0..5 {
            if self.trial.handle.is_given_to(h, actor(k)) {
                return actor(k);
            }
        }
        a
    }

    fn unpin(&mut self, a: ActorNo, h: HandleNo) -> Result<(), NoMemory> {
        let frames = self.trial.pinned.get(h).as_slice();
        if let Some((f, left)) = frames.split_last() {
            let f = *f;
            let left = same_frames(self.alloc, left)?;
            let tried = self.trial.unpin_page(a, h, f, left.as_slice());
            self.tell(10, tried);
        }
        Ok(())
    }

    fn hold(&mut self, kind: u64, a: ActorNo, p: ProcNo, g: PageNo) -> Result<(), NoMemory> {
        let n = self.roll(4);
        if kind == 7 {
            let tried = self.trial.raise_flag(a, p);
            self.tell(7, tried);
        } else if kind == 8 {
            self.pin(a, p, g);
        } else if kind == 9 {
            let tried = self.trial.make_handle(a, handle(n));
            self.tell(9, tried);
        } else if kind == 10 {
            let holder = self.holder(handle(n), a);
            self.unpin(holder, handle(n))?;
        } else if kind == 11 {
            let to = self.roll(5);
            let holder = self.holder(handle(n), a);
            let tried = self.trial.give_handle(holder, handle(n), actor(to));
            self.tell(11, tried);
        } else if kind == 12 {
            let taker = self.taker(handle(n), a);
            let tried = self.trial.take_handle(taker, handle(n));
            self.tell(12, tried);
        } else if kind == 13 {
            let (f, writable) = self.entry_at(p, g);
            let tried = self.trial.get_reference(a, p, g, f, handle(n), writable);
            self.tell(13, tried);
        } else {
            let (holder, f) = match *self.trial.got.get(handle(n)) {
                None => (a, frame(0)),
                Some((holder, f)) => (holder, f),
            };
            let tried = self.trial.put_reference(holder, f, handle(n));
            self.tell(14, tried);
        }
        Ok(())
    }
}

fn entry(f: FrameNo, writable: bool) -> Entry {
    Entry { frame: f, writable }
}

// What an actor is in the middle of.
#[derive(Drop)]
enum Plan {
    Nothing,
    Mark(ProcNo, PageNo, FrameNo),
    Move(ProcNo, PageNo, Entry, Allowed, Counted),
    Fork(ProcNo, ProcNo, Vec<PageNo>, ForkStep),
}

impl Run {
    fn plan(&self, a: ActorNo) -> Result<Plan, NoMemory> {
        match self.trial.job.get(a).stage() {
            Stage::Idle => Ok(Plan::Nothing),
            Stage::Marking(p, g, f) => Ok(Plan::Mark(*p, *g, *f)),
            Stage::Moving(p, g, was, allowed, count) => {
                let was = entry(was.frame, was.writable);
                Ok(Plan::Move(*p, *g, was, *allowed, *count))
            }
            Stage::Forking(p, c, done, step) => {
                let done = same_pages(self.alloc, done.as_slice())?;
                Ok(Plan::Fork(*p, *c, done, *step))
            }
            Stage::Walking { .. } => Ok(Plan::Nothing),
        }
    }

    // One more step of what the actor is in the middle of.
    fn go_on(&mut self, a: ActorNo) -> Result<(), NoMemory> {
        match self.plan(a)? {
            Plan::Nothing => {}
            Plan::Mark(p, g, f) => {
                let tried = self.trial.set_mark(a, p, g, f);
                self.tell(3, tried);
            }
            Plan::Move(p, g, was, allowed, count) => {
                self.go_on_moving(a, p, g, was, allowed, count)
            }
            Plan::Fork(p, c, done, step) => self.go_on_forking(a, p, c, done, step),
        }
        Ok(())
    }

    fn go_on_moving(
        &mut self,
        a: ActorNo,
        p: ProcNo,
        g: PageNo,
        was: Entry,
        allowed: Allowed,
        count: Counted,
    ) {
        let n = self.roll(4);
        match count {
            Counted::Unread => {
                let read = *self.trial.count.get(was.frame);
                let tried = self.trial.count_moved(a, p, g, was, allowed, read);
                self.tell(16, tried);
            }
            Counted::One if n < 2 => {
                let f = self.roll(4);
                let tried = self.trial.take_frame(a, frame(f));
                self.tell(0, tried);
            }
            Counted::One if n == 2 => self.place(a, p, g, was, allowed),
            Counted::One | Counted::More(_) => {
                let tried = self.trial.restore_entry(a, p, g, was, allowed, count);
                self.tell(18, tried);
            }
        }
    }

    // Places the prepared frame. Where its zone isn't allowed, that is refused.
    fn place(&mut self, a: ActorNo, p: ProcNo, g: PageNo, was: Entry, allowed: Allowed) {
        let prepared = *self.trial.prepared.get(a);
        let Some(f) = prepared else {
            return;
        };
        let is_apart = match allowed {
            Allowed::Any => false,
            Allowed::Only(Zone::Movable) => f.get() >= 2,
            Allowed::Only(Zone::Normal) => f.get() < 2,
        };
        let tried = self.trial.place_frame(a, p, g, f, was, allowed);
        if is_apart && tried.is_err() {
            self.zone_refused = self.zone_refused.saturating_add(1);
        }
        self.tell(17, tried);
    }

    fn between(&mut self, a: ActorNo, p: ProcNo, c: ProcNo, done: &[PageNo]) {
        let n = self.roll(3);
        let g = page(n);
        if has_page(done, g) || self.trial.right.get(c, g).is_none() {
            let tried = self.trial.end_fork(a, p, c, done);
            self.tell(27, tried);
            return;
        }
        match self.trial.entry.get(p, g) {
            None => {
                let tried = self.trial.pass_page(a, p, c, done, g);
                self.tell(26, tried);
            }
            Some(found) => {
                let (f, writable) = (found.frame, found.writable);
                for copies in [false, true] {
                    let tried = self
                        .trial
                        .count_page(a, p, c, done, g, entry(f, writable), copies);
                    self.tell(20, tried);
                }
            }
        }
    }

    fn go_on_sharing(
        &mut self,
        a: ActorNo,
        p: ProcNo,
        c: ProcNo,
        done: &[PageNo],
        kind: u64,
        g: PageNo,
    ) {
        let (f, writable) = self.entry_at(p, g);
        if kind == 21 {
            let tried = self.trial.share_entry(a, p, c, done, g, f, writable);
            self.tell(21, tried);
        } else if kind == 22 {
            let tried = self.trial.share_mark(a, p, c, done, g, f, writable);
            self.tell(22, tried);
        } else {
            let tried = self.trial.share_child(a, p, c, done, g, f, writable);
            self.tell(23, tried);
        }
    }

    fn go_on_copying(
        &mut self,
        a: ActorNo,
        p: ProcNo,
        c: ProcNo,
        done: &[PageNo],
        g: PageNo,
        n: u16,
    ) {
        let prepared = *self.trial.prepared.get(a);
        let Some(to) = prepared else {
            let k = self.roll(4);
            let tried = self.trial.take_frame(a, frame(k));
            self.tell(0, tried);
            return;
        };
        if n >= 512 {
            let right = self.trial.right.get(c, g);
            let rights = right.unwrap_or(Rights::R);
            let tried = self.trial.place_child(a, p, c, done, g, to, rights);
            self.tell(25, tried);
            return;
        }
        let (f, writable) = self.entry_at(p, g);
        for k in n..512 {
            let w = word(u64::from(k));
            let tried = self
                .trial
                .copy_word(a, p, c, done, g, w, to, entry(f, writable));
            self.tell(24, tried);
        }
    }

    fn go_on_failing(&mut self, a: ActorNo, p: ProcNo, c: ProcNo, done: &[PageNo]) {
        let n = self.roll(3);
        let g = page(n);
        let (f, writable) = self.entry_at(c, g);
        for ends in [false, true] {
            let tried = self
                .trial
                .put_child(a, p, c, done, g, entry(f, writable), ends);
            self.tell(29, tried);
        }
    }

    fn go_on_forking(
        &mut self,
        a: ActorNo,
        p: ProcNo,
        c: ProcNo,
        done: Vec<PageNo>,
        step: ForkStep,
    ) {
        let done = done.as_slice();
        if self.roll(12) == 0 {
            let ends = self.roll(2) == 0;
            let tried = self.trial.fail_fork(a, p, c, done, step, ends);
            self.tell(if ends { 30 } else { 28 }, tried);
            return;
        }
        match step {
            ForkStep::Between => self.between(a, p, c, done),
            ForkStep::Sharing(g) => self.go_on_sharing(a, p, c, done, 21, g),
            ForkStep::Lowered(g) => self.go_on_sharing(a, p, c, done, 22, g),
            ForkStep::Cleared(g) => self.go_on_sharing(a, p, c, done, 23, g),
            ForkStep::Copying(g, n) => self.go_on_copying(a, p, c, done, g, n),
            ForkStep::Failing => self.go_on_failing(a, p, c, done),
        }
    }

    fn begin(&mut self, kind: u64, a: ActorNo, p: ProcNo, g: PageNo) {
        let n = self.roll(3);
        if kind == 0 {
            let (f, writable) = self.entry_at(p, g);
            let tried = self
                .trial
                .clear_entry(a, p, g, entry(f, writable), zones(n));
            self.tell(15, tried);
        } else if kind == 1 {
            let tried = self.trial.begin_fork(a, p, process(n));
            self.tell(19, tried);
        } else {
            let failed = process(n.wrapping_add(1));
            let tried = self.trial.fail_unborn(a, failed, process(n));
            self.tell(31, tried);
        }
    }

    fn map(&mut self, kind: u64, a: ActorNo, p: ProcNo, g: PageNo) {
        let n = few(self.roll(3));
        let rights = if self.roll(4) == 0 {
            Rights::R
        } else {
            Rights::RW
        };
        if kind == 32 {
            let tried = self.trial.map_pages(a, p, g, n, rights);
            self.tell(32, tried);
        } else if kind == 33 {
            let (f, _) = self.entry_at(p, g);
            let tried = self.trial.lower_entry(a, p, g, f);
            self.tell(33, tried);
        } else if kind == 34 {
            let tried = self.trial.protect_pages(a, p, g, n, rights);
            self.tell(34, tried);
        } else if kind == 35 {
            let was = self.trial.entry.get(p, g);
            let tried = self.trial.drop_entry(a, p, g, was);
            self.tell(35, tried);
        } else {
            let was = self.trial.entry.get(p, g);
            let tried = self.trial.discard_entry(a, p, g, was);
            self.tell(36, tried);
        }
    }

    fn transfer(&mut self, kind: u64, by: ActorNo) {
        let n = self.roll(4);
        let a = self.holder(handle(n), by);
        let slot = u32::from(few(self.roll(4)));
        let index = u32::from(few(self.roll(4)));
        let f = match self.trial.pinned.get(handle(n)).as_slice().first() {
            None => frame(0),
            Some(f) => *f,
        };
        if kind == 39 {
            let value = self.trial.word.get(f, word(u64::from(index)));
            let tried = self.trial.move_out(a, handle(n), index, slot, f, value);
            self.tell(39, tried);
        } else {
            let value = self.trial.store.get(a, slot);
            let tried = self.trial.move_in(a, handle(n), index, slot, f, value);
            self.tell(40, tried);
        }
    }

    fn data(&mut self, kind: u64, a: ActorNo, p: ProcNo, g: PageNo) {
        let w = word(self.roll(4));
        let m = mirror(self.roll(3));
        let (f, writable) = self.entry_at(p, g);
        if kind == 39 || kind == 40 {
            self.transfer(kind, a);
        } else if kind == 37 {
            let value = self.trial.word.get(f, w);
            let tried = self.trial.load(a, p, g, w, f, value);
            self.tell(37, tried);
        } else if kind == 38 {
            let value = self.roll(1000);
            let tried = self.trial.store(a, p, g, w, f, value);
            self.tell(38, tried);
        } else if kind == 41 {
            let tried = self.trial.empty_mirror(a, m);
            self.tell(41, tried);
        } else if kind == 42 {
            let tried = self.trial.fill_mirror(a, m, p, g, f, writable);
            self.tell(42, tried);
        } else {
            let f = kept(self.trial.mirrors.frame(m));
            let value = self.trial.word.get(f, w);
            let tried = self.trial.look(a, m, w, f, value);
            self.tell(43, tried);
        }
    }

    // The event that the page's entry wants of a fault.
    fn next_fault(&mut self, a: ActorNo, p: ProcNo, g: PageNo) {
        let prepared = self.trial.prepared.get(a).is_some();
        let wanted = match self.trial.entry.get(p, g) {
            None if self.trial.right.get(p, g).is_none() => 7,
            None if prepared => 1,
            None => 0,
            Some(entry) if *self.trial.mark.get(entry.frame) => 4,
            Some(entry) if *self.trial.count.get(entry.frame) == 1 => 2,
            Some(_) if prepared => 5,
            Some(_) => 0,
        };
        if self.trial.owed.get(a).is_some() {
            self.fault(6, a, p, g);
        } else if wanted == 7 {
            self.map(32, a, p, g);
        } else {
            self.fault(wanted, a, p, g);
        }
    }

    // One event by this actor at this page, possible or not.
    fn try_one(&mut self, a: ActorNo, p: ProcNo, g: PageNo) -> Result<(), NoMemory> {
        let topic = self.roll(9);
        if topic < 3 {
            self.next_fault(a, p, g);
        } else if topic == 3 {
            let kind = self.roll(7);
            self.fault(kind, a, p, g);
        } else if topic == 4 {
            let kind = self.roll(8).wrapping_add(7);
            self.hold(kind, a, p, g)?;
        } else if topic == 5 {
            let kind = self.roll(3);
            self.begin(kind, a, p, g);
        } else if topic == 6 {
            let kind = self.roll(5).wrapping_add(32);
            self.map(kind, a, p, g);
        } else {
            let kind = self.roll(7).wrapping_add(37);
            self.data(kind, a, p, g);
        }
        Ok(())
    }

    // The process of the actor, or some other where it isn't born.
    fn one_alive(&mut self, n: u64) -> ProcNo {
        let own = process(n);
        if self.roll(16) == 0 {
            return process(n.wrapping_add(1));
        }
        if self.trial.procs.is_born(own) {
            own
        } else {
            process(0)
        }
    }

    // Who is to be tried next: half of the time the same actor as before.
    fn next_actor(&mut self, by: u64) -> u64 {
        let other = self.roll(10);
        if other < 5 { by } else { other }
    }

    // One try by this actor.
    fn step(&mut self, n: u64) -> Result<(), NoMemory> {
        if self.roll(3) == 0 {
            return self.go_on(actor(n));
        }
        let p = self.one_alive(n);
        let g = page(self.roll(3));
        self.try_one(actor(n), p, g)
    }

    // The actor that is tried half of the time from now on: mostly the same as before.
    fn next_by(&mut self, by: u64) -> u64 {
        let other = self.roll(80);
        if other < 5 { other } else { by }
    }

    // So many tries, half of them by one actor for a while.
    fn go(&mut self, tries: u32) -> Result<(), NoMemory> {
        let mut by = 0;
        for _k in 0..tries {
            by = self.next_by(by);
            let n = self.next_actor(by);
            self.step(n)?;
        }
        Ok(())
    }
}

// The sums of these counts.
fn add(all: &mut [u32; 44], more: &[u32; 44]) {
    for k in 0..44 {
        all[k] = all[k].saturating_add(more[k]);
    }
}

// The first kind that has not happened.
fn missing(happened: &[u32; 44]) -> Option<usize> {
    happened.iter().position(|n| *n == 0)
}

// What many runs have come to.
#[derive(Drop)]
struct Sum {
    happened: [u32; 44],
    long_refused: u32,
    zone_refused: u32,
    short_of_memory: u32,
}

// Random events, 80 times from the start.
fn run_all(alloc: Global) -> Result<Sum, NoMemory> {
    let mut sum = Sum {
        happened: [0; 44],
        long_refused: 0,
        zone_refused: 0,
        short_of_memory: 0,
    };
    for seed in 0..80 {
        let mut run = Run::new(alloc, seed)?;
        run.go(1000)?;
        add(&mut sum.happened, &run.happened);
        sum.zone_refused = sum.zone_refused.saturating_add(run.zone_refused);
        sum.long_refused = sum.long_refused.saturating_add(run.long_refused);
        sum.short_of_memory = sum.short_of_memory.saturating_add(run.short_of_memory);
    }
    Ok(sum)
}

// Each kind of event happens: among them a fork that copies, one that shares, one that fails, a move that places, one
// that restores, and a mirror that is emptied. A long pin of a movable frame is refused where a short one isn't, and so is
// a move to a zone that isn't allowed.
#[test]
fn each_event_happens(rt: HostRuntime) -> Result<(), Fail> {
    let sum = run_all(rt.alloc()).or(Err("memory"))?;
    assert_eq!(rt; missing(&sum.happened), None);
    assert_eq!(rt; sum.short_of_memory, 0);
    assert!(rt; sum.long_refused > 0 && sum.zone_refused > 0);
    Ok(())
}
