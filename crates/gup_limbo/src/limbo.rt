//! What was taken out, in order, and the number of walks.
ghost use Rattle.std.specs.Prelude.{◌≡◌, ℕ, ◌+◌, ◌-◌, ◌<◌, ◌^◌, length, IfOk};
ghost use Rattle.std.specs.VecDeque.Iter.{deque_iter_rest};
ghost use Rattle.gup_limbo.specs.Limbo.{LimboValue, no_limbo, with_retired, IsReclaimed};

use gup_base::NoMemory;
use std::alloc::Global;
use std::collections::VecDeque;
use std::collections::vec_deque::Iter;
use std::marker::Model;

/// What was taken out and waits, with the number of walks that run. A walk takes no lock, so it may be inside of a page
/// table while another actor takes that table out. What was taken out is free only once no walk runs: until then it may
/// not be used again. (Linux reaches the same otherwise: a walk runs with interrupts off, and `tlb_remove_table`,
/// `mm/mmu_gather.c`, frees a table after an interrupt of every processor, or after a grace period of RCU.)
#[derive(Drop)]
pub struct Limbo<T> {
    retired: VecDeque<T>,
    walks: u64,
}

impl<T> Model for Limbo<T> {
    ghost use Rattle.std.specs.VecDeque.{deque_capacity};
    ghost use Rattle.gup_limbo.specs.Limbo.{LimboValue};

    ghost Value = { LimboValue T };

    ghost view = { λ l. record { retired = l.retired.items; room = deque_capacity l.retired; walks = l.walks } };
}

/// What [`Limbo::reclaim`] comes to.
#[derive(Debug, Drop)]
pub enum Reclaim<T> {
    /// So many walks run, at least one. All that waits is kept.
    Kept(u64),
    /// No walk runs, and nothing waits.
    Empty,
    /// No walk runs, and this waited longest. It waits no more.
    Free(T),
}

impl<T> Limbo<T> {
    /// Nothing waits and no walk runs. There is the memory for `room` that wait: no other call takes any.
    pub fn new(alloc: Global, room: u32) -> Result<Limbo<T>, NoMemory>
        ensures { IfOk result (λ limbo. limbo ≡ no_limbo room) }
    {
        let retired = VecDeque::with_capacity(alloc, room as usize)?;
        Ok(Limbo { retired, walks: 0 })
    }

    /// How many walks run.
    #[inline]
    pub fn walks(&self) -> u64
        ensures { result ≡ self.now.walks }
    {
        self.walks
    }

    /// One walk more runs. Fewer than 2^40 run before.
    #[inline]
    pub fn enter(&mut self)
        requires { self.old.walks < 2 ^ 40 }
        ensures { self.new ≡ record (self.old) { walks = self.old.walks + 1 } }
    {
        self.walks += 1;
    }

    /// One of the walks is over.
    #[inline]
    pub fn leave(&mut self)
        requires { 0 < self.old.walks }
        ensures { self.new ≡ record (self.old) { walks = self.old.walks - 1 } }
    {
        self.walks -= 1;
    }

    /// Puts this behind all that waits. There is room left for it.
    #[inline]
    pub fn retire(&mut self, item: T)
        requires { length self.old.retired < self.old.room }
        ensures { self.new ≡ with_retired item (self.old) }
    {
        self.retired.push_back_reserved(item);
    }

    /// What waits, the longest first.
    #[inline]
    pub fn items(&self) -> Iter<'_, T>
        ensures { deque_iter_rest result ≡ self.now.retired }
    {
        self.retired.iter()
    }

    /// Takes out what has waited longest, if no walk runs. A walk keeps all that waits, also what was taken out before it
    /// began (this project's own: one number tells of all walks, and not which of them began when).
    #[inline]
    pub fn reclaim(&mut self) -> Reclaim<T>
        ensures { IsReclaimed self.old result self.new }
    {
        if self.walks > 0 {
            return Reclaim::Kept(self.walks);
        }
        match self.retired.pop_front() {
            Some(item) => Reclaim::Free(item),
            None => Reclaim::Empty,
        }
    }
}
