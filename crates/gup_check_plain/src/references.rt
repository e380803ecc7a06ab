//! References that were got, and not put back.
ghost use Rattle.std.specs.Prelude.{◌≡◌, Some, None, OnOk, OnErr};
ghost use Rattle.gup_plain.specs.Put.{put};
ghost use Rattle.gup_spec_journal.specs.Denial.{no_references};
ghost use Rattle.gup_check_plain.specs.Referring.{references_of};

use gup_base::{ActorNo, HandleNo, NoMemory};
use std::alloc::Global;
use std::collections::BTreeMap;
use std::marker::Model;

/// Who has got a reference under each handle, and not put it back. Contracts see it by `references_of`, as a function
/// of handles.
#[derive(Drop)]
pub struct References {
    holders: BTreeMap<HandleNo, ActorNo>,
}

impl Model for References {
    ghost use Rattle.std.specs.Prelude.{ℕ, List};

    ghost Value = { List (ℕ × ℕ) };

    ghost view = { λ r. r.holders.entries };
}

impl References {
    /// Nobody has got a reference.
    pub fn new(alloc: Global) -> References
        ensures { references_of result ≡ no_references }
    {
        References {
            holders: BTreeMap::new(alloc),
        }
    }

    /// Who has got a reference under the handle, if somebody has.
    pub fn get(&self, h: HandleNo) -> Option<ActorNo>
        ensures { result ≡ references_of self.now h }
    {
        self.holders.get(&h).copied()
    }

    /// From now on the actor has the reference under the handle. If the program's own memory ran out, nothing has
    /// changed.
    pub fn set(&mut self, h: HandleNo, by: ActorNo) -> Result<(), NoMemory>
        ensures ok { OnOk result (references_of self.new ≡ put h (Some by) (references_of self.old)) }
        ensures err { OnErr result (self.new ≡ self.old) }
    {
        self.holders.insert(h, by)?;
        Ok(())
    }

    /// From now on nobody has a reference under the handle.
    pub fn clear(&mut self, h: HandleNo)
        ensures { references_of self.new ≡ put h None (references_of self.old) }
    {
        self.holders.remove(&h);
    }
}
