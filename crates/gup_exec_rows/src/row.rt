//! Values by number.
ghost use Rattle.std.specs.Prelude.{◌≡◌, ◌<◌, None, IfOk, vec_len};
ghost use Rattle.gup_plain.specs.Put.{put};
ghost use Rattle.gup_exec_rows.specs.Row.{at, standing};

use gup_base::{ActorNo, FrameNo, HandleNo, MirrorNo, NoMemory, ProcNo};
use gup_tables::TableNo;
use std::alloc::Global;
use std::marker::Model;

/// A value for each number below `N`, and the blank one for all others.
#[derive(Drop)]
pub struct Row<V, const N: usize> {
    blank: Box<V>,
    items: Vec<Option<V>>,
}

impl<V, const N: usize> Model for Row<V, N> {
    ghost use Rattle.std.specs.Prelude.{◌≡◌, List, Option, vec_len};

    ghost Value = { V × List (Option V) };

    ghost view = { λ r. (r.blank.value, r.items.items) };

    ghost invariant = { λ r. vec_len r.items ≡ N };
}

impl<V: Drop, const N: usize> Row<V, N> {
    /// The blank value for each number.
    pub fn new(alloc: Global, blank: V) -> Result<Row<V, N>, NoMemory>
        ensures { IfOk result (λ row. at row ≡ (λ _. blank)) }
    {
        let items = absent(alloc, N)?;
        let blank = Box::new(alloc, blank)?;
        Ok(Row { blank, items })
    }

    // The value of the number.
    fn value(&self, k: usize) -> &V
        requires { k < N }
        ensures { result.now ≡ at self.now k }
    {
        match &self.items[k] {
            Some(value) => value,
            None => &self.blank,
        }
    }

    // Gives the number this value.
    fn set(&mut self, k: usize, value: V)
        requires { k < N }
        ensures { at self.new ≡ put k value (at self.old) }
    {
        self.items[k] = Some(value);
    }
}

impl<V: Drop> Row<V, 16> {
    /// The value of the process.
    pub fn get(&self, p: ProcNo) -> &V
        ensures { result.now ≡ at self.now p }
    {
        self.value(p.get() as usize)
    }

    /// Gives the process this value.
    pub fn put(&mut self, p: ProcNo, value: V)
        ensures { at self.new ≡ put p value (at self.old) }
    {
        self.set(p.get() as usize, value);
    }
}

impl<V: Drop> Row<V, 81> {
    /// The value of the actor.
    pub fn get(&self, a: ActorNo) -> &V
        ensures { result.now ≡ at self.now a }
    {
        self.value(a.get() as usize)
    }

    /// Gives the actor this value.
    pub fn put(&mut self, a: ActorNo, value: V)
        ensures { at self.new ≡ put a value (at self.old) }
    {
        self.set(a.get() as usize, value);
    }
}

impl<V: Drop> Row<V, 1024> {
    /// The value of the handle.
    pub fn get(&self, h: HandleNo) -> &V
        ensures { result.now ≡ at self.now h }
    {
        self.value(h.get() as usize)
    }

    /// Gives the handle this value.
    pub fn put(&mut self, h: HandleNo, value: V)
        ensures { at self.new ≡ put h value (at self.old) }
    {
        self.set(h.get() as usize, value);
    }
}

impl<V: Drop> Row<V, 64> {
    /// The value of the mirror slot.
    pub fn get(&self, m: MirrorNo) -> &V
        ensures { result.now ≡ at self.now m }
    {
        self.value(m.get() as usize)
    }

    /// Gives the mirror slot this value.
    pub fn put(&mut self, m: MirrorNo, value: V)
        ensures { at self.new ≡ put m value (at self.old) }
    {
        self.set(m.get() as usize, value);
    }
}

impl<V: Drop> Row<V, 16384> {
    /// The value of the frame.
    pub fn get(&self, f: FrameNo) -> &V
        ensures { result.now ≡ at self.now f }
    {
        self.value(f.get() as usize)
    }

    /// Gives the frame this value.
    pub fn put(&mut self, f: FrameNo, value: V)
        ensures { at self.new ≡ put f value (at self.old) }
    {
        self.set(f.get() as usize, value);
    }
}

impl<V: Drop> Row<V, 8192> {
    /// The value of the page table.
    pub fn get(&self, table: TableNo) -> &V
        ensures { result.now ≡ at self.now table }
    {
        self.value(table.get() as usize)
    }

    /// Gives the page table this value.
    pub fn put(&mut self, table: TableNo, value: V)
        ensures { at self.new ≡ put table value (at self.old) }
    {
        self.set(table.get() as usize, value);
    }
}

// So many places without a value.
fn absent<V: Drop>(alloc: Global, n: usize) -> Result<Vec<Option<V>>, NoMemory>
    ensures len { IfOk result (λ items. vec_len items ≡ n) }
    ensures none { IfOk result (λ items. standing items.items ≡ (λ _. None)) }
{
    let mut items = Vec::new(alloc);
    for _k in 0..n {
        items.push(None)?;
    }
    Ok(items)
}
