//! The words of devices.
ghost use Rattle.std.specs.Prelude.{◌≡◌, OnOk, OnErr, IfOk};
ghost use Rattle.gup_plain.specs.Put.{put, put2};
ghost use Rattle.gup_exec_parts.specs.Actor.{slots_in};
ghost use Rattle.gup_exec_rows.specs.Stores.{slots_of};

use crate::row::Row;
use gup_base::{ActorNo, NoMemory};
use std::alloc::Global;
use std::collections::BTreeMap;

/// The words of each device. A slot that was never written has 0.
#[derive(Drop)]
pub struct Stores {
    rows: Row<BTreeMap<u32, u64>, 81>,
    alloc: Global,
}

impl Stores {
    /// Zeros.
    #[tactic(auto, unfolding(crate::specs::Stores::slots_of))]
    pub fn new(alloc: Global) -> Result<Stores, NoMemory>
        ensures { IfOk result (λ stores. slots_of stores ≡ (λ _ _. 0)) }
    {
        Ok(Stores {
            rows: Row::new(alloc, BTreeMap::new(alloc))?,
            alloc,
        })
    }

    /// The word in the slot.
    #[tactic(auto, unfolding(crate::specs::Stores::slots_of))]
    pub fn get(&self, a: ActorNo, slot: u32) -> u64
        ensures { result ≡ slots_of self.now a slot }
    {
        match self.rows.get(a).get(&slot) {
            None => 0,
            Some(value) => *value,
        }
    }

    // The actor's slots once more.
    fn copy_of(&self, a: ActorNo) -> Result<BTreeMap<u32, u64>, NoMemory>
        ensures { IfOk result (λ row. slots_in row ≡ slots_of self.now a) }
    {
        let row = self.rows.get(a);
        let row = row.iter().map(|(slot, v)| (*slot, *v)).collect(self.alloc)?;
        Ok(row)
    }

    // The actor's slots once more, but with this value in one of them.
    fn with(&self, a: ActorNo, slot: u32, value: u64) -> Result<BTreeMap<u32, u64>, NoMemory>
        ensures { IfOk result (λ row. slots_in row ≡ put slot value (slots_of self.now a)) }
    {
        let mut row = self.copy_of(a)?;
        row.insert(slot, value)?;
        Ok(row)
    }

    /// Writes the slot.
    pub fn set(&mut self, a: ActorNo, slot: u32, value: u64) -> Result<(), NoMemory>
        ensures ok { OnOk result (slots_of self.new ≡ put2 a slot value (slots_of self.old)) }
        ensures err { OnErr result (slots_of self.new ≡ slots_of self.old) }
    {
        let row = self.with(a, slot, value)?;
        self.rows.put(a, row);
        Ok(())
    }
}
