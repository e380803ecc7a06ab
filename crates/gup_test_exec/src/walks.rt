use gup_base::{ActorNo, Allowed, FrameNo, HandleNo, PageNo, ProcNo, Rights};
use gup_exec_core::Trial;
use gup_exec_jobs::job::Counted;
use gup_exec_jobs::needs::entry_to;
use gup_exec_jobs::refused::Refused;
use gup_exec_jobs::taken::{Taken, same};
use gup_exec_jobs::trail::Trail;
use gup_exec_jobs::walk::WalkStep;
use gup_exec_walk::{
    add_table, drop_first, drop_grab, drop_last, enter_walk, grab_frame, leave_walk, miss_frame,
    read_again, read_entry, read_link, read_mark, read_sequence, recheck_above, recheck_other,
    recheck_same, reclaim, take_out,
};
use gup_tables::TableNo;
use std::alloc::Global;
use std::str::SplitWhitespace;
use std::test::Fail;

// A machine, and what the walker knows.
#[derive(Drop)]
struct Run {
    trial: Trial,
    alloc: Global,
    write: bool,
    long: bool,
    sequence: u64,
    page: PageNo,
    depth: u8,
    third: TableNo,
    second: TableNo,
    last: TableNo,
    frame: FrameNo,
    writable: bool,
}

fn walker() -> ActorNo {
    ActorNo::new(0).unwrap()
}

fn actor(n: u64) -> ActorNo {
    ActorNo::new(n % 4).unwrap()
}

fn process(n: u64) -> ProcNo {
    ProcNo::new(n % 2).unwrap()
}

fn page(n: u64) -> PageNo {
    PageNo::new(n % 8).unwrap()
}

fn frame(n: u64) -> FrameNo {
    FrameNo::new(n % 4).unwrap()
}

fn table(n: u64) -> TableNo {
    TableNo::new(n % 8).unwrap()
}

fn handle() -> HandleNo {
    HandleNo::new(0).unwrap()
}

impl Run {
    // Two movable frames, two normal ones, eight page tables, and a process that has pinned.
    fn new(alloc: Global) -> Result<Run, Refused> {
        let mut trial = Trial::new(alloc, 2, 2, 8, process(0))?;
        trial.raise_flag(walker(), process(0))?;
        Ok(Run {
            trial,
            alloc,
            write: false,
            long: false,
            sequence: 0,
            page: page(0),
            depth: 0,
            third: table(0),
            second: table(0),
            last: table(0),
            frame: frame(0),
            writable: false,
        })
    }

    // The sequence is read, and kept.
    fn read_sequence(&mut self) -> Result<(), Refused> {
        let sequence = *self.trial.sequence.get(process(0));
        read_sequence(
            &mut self.trial,
            walker(),
            process(0),
            self.write,
            self.long,
            sequence,
        )?;
        self.sequence = sequence;
        self.depth = 0;
        Ok(())
    }

    // The tables that the walk has come down, as far as it has.
    fn path(&self) -> Trail {
        match self.depth {
            0 => Trail::Root,
            1 => Trail::Third(self.third),
            2 => Trail::Second(self.second, self.third),
            _ => Trail::Last(self.last, self.second, self.third),
        }
    }

    fn keep(&mut self, table: TableNo) {
        match self.depth {
            0 => self.third = table,
            1 => self.second = table,
            _ => self.last = table,
        }
        self.depth = self.depth.saturating_add(1);
    }

    // A word of the page's path is read, and the table to which it leads kept.
    fn read_link(&mut self, page: PageNo) -> Result<(), Refused> {
        let path = self.path();
        let found = self.trial.link_at(process(0), &path, page);
        let (leads, table) = match &found {
            None => (false, table(0)),
            Some(table) => (true, *table),
        };
        read_link(
            &mut self.trial,
            walker(),
            process(0),
            self.write,
            self.long,
            self.sequence,
            page,
            path,
            found,
        )?;
        if leads {
            self.keep(table);
        }
        Ok(())
    }

    // The entry at the end of the page's path is read, and kept.
    fn read_entry(&mut self, page: PageNo) -> Result<(), Refused> {
        let path = self.path();
        let was = self.trial.entry_at(process(0), &path, page);
        let (frame, writable) = match &was {
            None => (frame(0), false),
            Some(entry) => (entry.frame, entry.writable),
        };
        read_entry(
            &mut self.trial,
            walker(),
            process(0),
            self.write,
            self.long,
            self.sequence,
            page,
            path,
            was,
        )?;
        self.page = page;
        self.frame = frame;
        self.writable = writable;
        Ok(())
    }

    // The page's path is read down to its entry.
    fn read_down(&mut self, page: PageNo) -> Result<(), Refused> {
        self.depth = 0;
        for _level in 0..3 {
            self.read_link(page)?;
        }
        self.read_entry(page)
    }

    // The word above is read again. Whether it still leads to the last table.
    fn recheck_above(&mut self) -> Result<bool, Refused> {
        let path = self.path();
        let same = self.trial.leads_still(process(0), &path, self.page);
        recheck_above(
            &mut self.trial,
            walker(),
            process(0),
            self.write,
            self.long,
            self.sequence,
            self.page,
            path,
            entry_to(self.frame, self.writable),
            same,
        )?;
        Ok(same)
    }

    // All tables of the page's path are added, the ones with the lowest numbers.
    fn add_tables(&mut self, a: ActorNo, p: ProcNo, page: PageNo) -> Result<(), Refused> {
        for k in 0..4 {
            add_table(&mut self.trial, a, p, page, table(k))?;
        }
        Ok(())
    }

    fn grab_frame(&mut self) -> Result<(), Refused> {
        let path = self.path();
        grab_frame(
            &mut self.trial,
            walker(),
            process(0),
            self.write,
            self.long,
            self.sequence,
            self.page,
            path,
            entry_to(self.frame, self.writable),
        )
    }

    fn miss_frame(&mut self) -> Result<(), Refused> {
        let path = self.path();
        miss_frame(
            &mut self.trial,
            walker(),
            process(0),
            self.write,
            self.long,
            self.sequence,
            self.page,
            path,
            entry_to(self.frame, self.writable),
        )
    }

    fn recheck_same(&mut self) -> Result<(), Refused> {
        let path = self.path();
        recheck_same(
            &mut self.trial,
            walker(),
            process(0),
            self.write,
            self.long,
            self.sequence,
            self.page,
            path,
            entry_to(self.frame, self.writable),
        )
    }

    fn recheck_other(&mut self) -> Result<(), Refused> {
        let path = self.path();
        recheck_other(
            &mut self.trial,
            walker(),
            process(0),
            self.write,
            self.long,
            self.sequence,
            self.page,
            path,
            entry_to(self.frame, self.writable),
        )
    }

    fn read_mark(&mut self) -> Result<(), Refused> {
        let mark = *self.trial.mark.get(self.frame);
        read_mark(
            &mut self.trial,
            walker(),
            process(0),
            self.write,
            self.long,
            self.sequence,
            self.page,
            entry_to(self.frame, self.writable),
            mark,
        )
    }

    fn read_again(&mut self, step: WalkStep) -> Result<(), Refused> {
        let now = *self.trial.sequence.get(process(0));
        read_again(
            &mut self.trial,
            walker(),
            process(0),
            self.write,
            self.long,
            self.sequence,
            step,
            now,
        )
    }

    fn drop_grab(&mut self) -> Result<(), Refused> {
        drop_grab(
            &mut self.trial,
            walker(),
            process(0),
            self.write,
            self.long,
            self.sequence,
            self.frame,
        )
    }

    fn drop_last(&mut self) -> Result<(), Refused> {
        let taken = same(self.alloc, self.trial.taken.get(walker()).as_slice())?;
        let Some((last, left)) = taken.as_slice().split_last() else {
            return Err(Refused::Cannot);
        };
        drop_last(
            &mut self.trial,
            walker(),
            process(0),
            self.write,
            self.long,
            self.sequence,
            left,
            *last,
        )
    }

    fn drop_first(&mut self) -> Result<(), Refused> {
        let taken = same(self.alloc, self.trial.taken.get(walker()).as_slice())?;
        let Some((first, left)) = taken.as_slice().split_first() else {
            return Err(Refused::Cannot);
        };
        drop_first(
            &mut self.trial,
            walker(),
            process(0),
            self.write,
            self.long,
            self.sequence,
            *first,
            left,
        )
    }

    fn enter_walk(&mut self, write: bool, long: bool) -> Result<(), Refused> {
        self.write = write;
        self.long = long;
        enter_walk(&mut self.trial, walker(), process(0), write, long)
    }

    fn leave_walk(&mut self) -> Result<(), Refused> {
        leave_walk(
            &mut self.trial,
            walker(),
            process(0),
            self.write,
            self.long,
            self.sequence,
        )
    }

    // The walker takes the step. `None`: there is no such word.
    fn take_step(&mut self, verb: &str, object: &str) -> Option<Result<(), Refused>> {
        Some(match verb {
            "enter" => self.enter_walk(object == "write", object == "long"),
            "sequence" => self.read_sequence(),
            "link" => self.read_link(page(number(object))),
            "entry" => self.read_down(page(number(object))),
            "grab" => self.grab_frame(),
            "miss" => self.miss_frame(),
            "above" => self.recheck_above().map(|_same| ()),
            "same" => self.recheck_same(),
            "other" => self.recheck_other(),
            "mark" => self.read_mark(),
            "again" if object == "stopped" => self.read_again(WalkStep::Stopped),
            "again" => self.read_again(WalkStep::Ready),
            "drop" if object == "grab" => self.drop_grab(),
            "drop" if object == "last" => self.drop_last(),
            "drop" => self.drop_first(),
            "leave" => self.leave_walk(),
            "handle" => self.trial.make_handle(walker(), handle()),
            _ => return None,
        })
    }

    // A fork of the first process into the second, which shares a page without a writable entry.
    fn share(&mut self, verb: &str, n: u64, f: u64) -> Option<Result<(), Refused>> {
        let (a, p, c) = (actor(1), process(0), process(1));
        let none = Vec::new(self.alloc);
        let done = none.as_slice();
        Some(match verb {
            "begin" => self.trial.begin_fork(a, p, c),
            "count" => {
                let entry = entry_to(frame(f), false);
                self.trial.count_page(a, p, c, done, page(n), entry, false)
            }
            "lower" => self
                .trial
                .share_entry(a, p, c, done, page(n), frame(f), false),
            "unmark" => self
                .trial
                .share_mark(a, p, c, done, page(n), frame(f), false),
            "child" => self
                .trial
                .share_child(a, p, c, done, page(n), frame(f), false),
            "end" => self.trial.end_fork(a, p, c, done),
            "finish" => self.trial.end_fork(a, p, c, &[page(n)]),
            _ => return None,
        })
    }

    // A move of a page without a writable entry, by the count that is read, into another frame or back.
    fn relocate(&mut self, verb: &str, n: u64, f: u64, m: u64) -> Option<Result<(), Refused>> {
        let (a, p) = (actor(1), process(0));
        let entry = entry_to(frame(f), false);
        Some(match verb {
            "clear" => self.trial.clear_entry(a, p, page(n), entry, Allowed::Any),
            "read" => self
                .trial
                .count_moved(a, p, page(n), entry, Allowed::Any, m),
            "place" => self
                .trial
                .place_frame(a, p, page(n), frame(m), entry, Allowed::Any),
            "restore" => self
                .trial
                .restore_entry(a, p, page(n), entry, Allowed::Any, Counted::More(m)),
            _ => return self.share(verb, n, f),
        })
    }

    // Another actor, of this process, does it. `None`: there is no such word.
    fn act(&mut self, p: u64, verb: &str, n: u64, f: u64, m: u64) -> Option<Result<(), Refused>> {
        let (a, p) = (actor(p.wrapping_add(1)), process(p));
        Some(match verb {
            "map" => self.trial.map_pages(a, p, page(n), 1, Rights::RW),
            "take" => self.trial.take_frame(a, frame(n)),
            "fill" => self.trial.fill(a, p, page(n), frame(f)),
            "upgrade" => self.trial.upgrade(a, p, page(n), frame(f)),
            "unmap" => {
                let was = self.trial.entry.get(p, page(n));
                self.trial.drop_entry(a, p, page(n), was)
            }
            "put" => self.trial.put_entry(a, frame(n)),
            "tables" => self.add_tables(a, p, page(n)),
            "detach" => take_out(&mut self.trial, a, p, page(n), table(f)),
            "reclaim" => reclaim(&mut self.trial, a, p),
            _ => return self.relocate(verb, n, f, m),
        })
    }

    // Whether these are the counts of the frames.
    fn has_counts(&self, words: &mut SplitWhitespace<'_>) -> bool {
        for f in 0..4 {
            if number_in(words) != *self.trial.count.get(frame(f)) {
                return false;
            }
        }
        true
    }

    // Whether these are the page, frame and object of each page that the walk has taken.
    fn has_taken(&self, words: &mut SplitWhitespace<'_>) -> bool {
        let taken = match self.trial.taken.get(walker()).as_slice() {
            [] => true,
            [one] => is_spelled(one, words),
            [one, two] => is_spelled(one, words) && is_spelled(two, words),
            _ => false,
        };
        taken && words.next().is_none()
    }

    // Tries what the words say: a step of the walk, or what another actor, of this process, does. Whether it could.
    fn tries(&mut self, p: u64, words: &mut SplitWhitespace<'_>) -> Option<bool> {
        let verb = words.next().unwrap_or("");
        let object = words.next().unwrap_or("");
        if let Some(tried) = self.take_step(verb, object) {
            return Some(tried.is_ok());
        }
        let n = number(object);
        let f = number_in(words);
        let m = number_in(words);
        match self.act(p, verb, n, f, m) {
            None => None,
            Some(tried) => Some(tried.is_ok()),
        }
    }

    // Does the line, or looks whether it is so.
    fn is_right(&mut self, line: &str) -> bool {
        let mut words = line.split_whitespace();
        let mut all = line.split_whitespace();
        match words.next().unwrap_or("") {
            "cannot" => self.tries(0, &mut words) == Some(false),
            "second" => self.tries(1, &mut words) == Some(true),
            "counts" => self.has_counts(&mut words),
            "taken" => self.has_taken(&mut words),
            "marked" => *self.trial.mark.get(frame(number_in(&mut words))),
            "held" => self.trial.handle.is_held_by(handle(), walker()),
            _ => self.tries(0, &mut all) == Some(true),
        }
    }
}

// The number, or 0 where the word is none.
fn number(word: &str) -> u64 {
    word.parse::<u64>().unwrap_or(0)
}

fn number_in(words: &mut SplitWhitespace<'_>) -> u64 {
    number(words.next().unwrap_or(""))
}

fn is_spelled(taken: &Taken, words: &mut SplitWhitespace<'_>) -> bool {
    number_in(words) == taken.page().get()
        && number_in(words) == taken.frame().get()
        && number_in(words) == taken.object()
}

// The place of the first line of the script that isn't right. Lines are parted by commas.
fn first_wrong(alloc: Global, script: &str) -> Result<Option<u32>, Refused> {
    let mut run = Run::new(alloc)?;
    let mut place = 0;
    for line in script.split(',') {
        if !run.is_right(line) {
            return Ok(Some(place));
        }
        place = place.wrapping_add(1);
    }
    Ok(None)
}

// The walk over two pages counts a pin of each frame, and what it has taken becomes the handle's.
#[test]
fn an_undisturbed_walk_ends_in_a_handle(rt: HostRuntime) -> Result<(), Fail> {
    let script = "map 0, tables 0, take 2, fill 0 2, \
        map 1, take 3, fill 1 3, upgrade 1 3, \
        enter read, sequence, entry 0, grab, above, same, mark, counts 0 0 1025 1, \
        entry 1, grab, above, same, mark, taken 0 2 0 1 3 1, cannot entry 1, \
        again, leave, handle, counts 0 0 1025 1025, taken, held";
    let wrong = first_wrong(rt.alloc(), script).or(Err("memory"))?;
    assert_eq!(rt; wrong, None);
    Ok(())
}

// While a fork runs, the sequence is odd: a walk that reads it is over, and has taken nothing.
#[test]
fn a_walk_is_over_at_an_odd_sequence(rt: HostRuntime) -> Result<(), Fail> {
    let script = "map 0, tables 0, take 2, fill 0 2, \
        begin, enter read, sequence, cannot entry 0, leave, counts 0 0 1 0, taken";
    let wrong = first_wrong(rt.alloc(), script).or(Err("memory"))?;
    assert_eq!(rt; wrong, None);
    Ok(())
}

// An absent entry, a read-only one for a write pin, and a movable frame for a long pin stop the walk. A pin to read
// takes the frame that a long one doesn't.
#[test]
fn a_walk_stops_at_an_entry_that_is_not_right(rt: HostRuntime) -> Result<(), Fail> {
    let script = "map 0, tables 0, take 0, fill 0 0, \
        enter read, sequence, entry 1, cannot grab, again stopped, leave, counts 1 0 0 0, taken, \
        enter write, sequence, entry 0, cannot grab, again stopped, leave, counts 1 0 0 0, taken, \
        enter long, sequence, entry 0, cannot grab, again stopped, leave, counts 1 0 0 0, taken, \
        enter read, sequence, entry 0, grab, above, same, mark, counts 1025 0 0 0, taken 0 0 0";
    let wrong = first_wrong(rt.alloc(), script).or(Err("memory"))?;
    assert_eq!(rt; wrong, None);
    Ok(())
}

// The page is unmapped after the reading of its entry. Its frame is free, and isn't grabbed.
#[test]
fn a_free_frame_is_not_grabbed(rt: HostRuntime) -> Result<(), Fail> {
    let script = "map 0, tables 0, take 2, fill 0 2, \
        enter read, sequence, entry 0, \
        unmap 0, put 2, \
        cannot grab, miss, again stopped, leave, counts 0 0 0 0, taken";
    let wrong = first_wrong(rt.alloc(), script).or(Err("memory"))?;
    assert_eq!(rt; wrong, None);
    Ok(())
}

// The page is unmapped after the grab: the recheck finds no entry, and the frame is free once the grab is dropped.
#[test]
fn a_grab_is_dropped_where_the_entry_is_another(rt: HostRuntime) -> Result<(), Fail> {
    let script = "map 0, tables 0, take 2, fill 0 2, \
        enter read, sequence, entry 0, grab, \
        unmap 0, put 2, counts 0 0 1024 0, \
        above, cannot same, other, drop grab, counts 0 0 0 0, again stopped, leave, taken";
    let wrong = first_wrong(rt.alloc(), script).or(Err("memory"))?;
    assert_eq!(rt; wrong, None);
    Ok(())
}

// A frame that a fork has shared isn't marked: the page is taken by the recheck, and dropped.
#[test]
fn an_unmarked_frame_is_dropped(rt: HostRuntime) -> Result<(), Fail> {
    let script = "map 0, tables 0, take 2, fill 0 2, \
        begin, count 0 2, lower 0 2, unmark 0 2, child 0 2, finish 0, \
        enter read, sequence, entry 0, grab, above, same, counts 0 0 1026 0, taken 0 2 0, \
        mark, cannot again, drop last, again stopped, leave, counts 0 0 2 0, taken";
    let wrong = first_wrong(rt.alloc(), script).or(Err("memory"))?;
    assert_eq!(rt; wrong, None);
    Ok(())
}

// A fork decides to share a page just before the walk grabs its frame. The walk finds the entry equal and the frame
// marked, but the sequence has changed: it drops that page and the one that it took before.
#[test]
fn a_fork_makes_a_walk_drop_all(rt: HostRuntime) -> Result<(), Fail> {
    let script = "map 0, tables 0, take 2, fill 0 2, \
        map 1, take 3, fill 1 3, \
        enter read, sequence, entry 1, grab, above, same, mark, entry 0, \
        begin, count 0 2, \
        grab, above, same, mark, \
        lower 0 2, unmark 0 2, child 0 2, counts 0 0 1026 1025, taken 1 3 1 0 2 0, \
        again, cannot leave, drop first, counts 0 0 1026 1, taken 0 2 0, \
        cannot leave, drop first, leave, counts 0 0 2 1, taken";
    let wrong = first_wrong(rt.alloc(), script).or(Err("memory"))?;
    assert_eq!(rt; wrong, None);
    Ok(())
}

// A mover that has cleared the entry finds the grab in the count, and puts the entry back. The walk takes the page.
#[test]
fn a_mover_meets_a_grab(rt: HostRuntime) -> Result<(), Fail> {
    let script = "map 0, tables 0, take 2, fill 0 2, \
        enter read, sequence, entry 0, \
        clear 0 2, \
        grab, \
        cannot read 0 2 1, read 0 2 1025, cannot take 3, restore 0 2 1025, \
        above, same, mark, again, leave, counts 0 0 1025 0, taken 0 2 0";
    let wrong = first_wrong(rt.alloc(), script).or(Err("memory"))?;
    assert_eq!(rt; wrong, None);
    Ok(())
}

// A mover counts before the grab, and gives the page another frame. The walk finds that, and drops the old one.
#[test]
fn a_walk_meets_a_moved_page(rt: HostRuntime) -> Result<(), Fail> {
    let script = "map 0, tables 0, take 2, fill 0 2, \
        enter read, sequence, entry 0, \
        clear 0 2, read 0 2 1, take 3, \
        grab, \
        place 0 2 3, put 2, counts 0 0 1024 1, \
        above, cannot same, other, drop grab, again stopped, leave, counts 0 0 0 1, taken";
    let wrong = first_wrong(rt.alloc(), script).or(Err("memory"))?;
    assert_eq!(rt; wrong, None);
    Ok(())
}

// The page is unmapped after the reading of its entry, and another process gets its frame. The walk grabs that, finds
// no entry, and leaves the frame to its new owner.
#[test]
fn a_frame_that_was_taken_again_is_dropped(rt: HostRuntime) -> Result<(), Fail> {
    let script = "begin, end, map 0, tables 0, take 2, fill 0 2, \
        enter read, sequence, entry 0, \
        unmap 0, put 2, counts 0 0 0 0, \
        second map 0, second take 2, second fill 0 2, \
        grab, counts 0 0 1025 0, \
        above, cannot same, other, drop grab, again stopped, leave, counts 0 0 1 0, marked 2, taken";
    let wrong = first_wrong(rt.alloc(), script).or(Err("memory"))?;
    assert_eq!(rt; wrong, None);
    Ok(())
}

// The page is unmapped after the reading of its entry, mapped again, and gets the same frame. The recheck finds the
// entry equal, and takes the object that the page names now.
#[test]
fn a_page_that_was_mapped_again_is_taken_anew(rt: HostRuntime) -> Result<(), Fail> {
    let script = "map 0, tables 0, take 2, fill 0 2, \
        enter read, sequence, entry 0, \
        unmap 0, put 2, map 0, take 2, fill 0 2, \
        grab, above, same, mark, again, leave, counts 0 0 1025 0, taken 0 2 1";
    let wrong = first_wrong(rt.alloc(), script).or(Err("memory"))?;
    assert_eq!(rt; wrong, None);
    Ok(())
}

// The page is unmapped after the grab, and the table of its entry taken out. The word above leads there no more, and the
// grab is dropped. The table comes free when the walk is over.
#[test]
fn a_walk_meets_a_table_that_was_taken_out(rt: HostRuntime) -> Result<(), Fail> {
    let script = "map 0, tables 0, take 2, fill 0 2, \
        enter read, sequence, entry 0, grab, \
        cannot detach 0 3, unmap 0, put 2, detach 0 3, counts 0 0 1024 0, \
        cannot reclaim, above, cannot same, cannot other, drop grab, counts 0 0 0 0, \
        again stopped, leave, taken, reclaim";
    let wrong = first_wrong(rt.alloc(), script).or(Err("memory"))?;
    assert_eq!(rt; wrong, None);
    Ok(())
}

// A table is taken out while the walk is inside of it: no word of it leads on, and the walk stops.
#[test]
fn a_walk_stops_in_a_table_that_was_taken_out(rt: HostRuntime) -> Result<(), Fail> {
    let script = "map 0, tables 0, take 2, fill 0 2, \
        enter read, sequence, link 0, link 0, \
        unmap 0, put 2, detach 0 3, detach 0 2, \
        cannot again, link 0, cannot link 0, again stopped, leave, taken, reclaim";
    let wrong = first_wrong(rt.alloc(), script).or(Err("memory"))?;
    assert_eq!(rt; wrong, None);
    Ok(())
}
