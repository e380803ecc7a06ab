//! Names with their numbers.
ghost use Rattle.std.specs.Prelude.{◌≡◌, ◌<◌, ◌++◌, [], ◌∷◌, length, None, IfSome, OnOk};
ghost use Rattle.gup_read_notes.specs.Names.{place_of};

use gup_base::NoMemory;
use indexmap::IndexSet;
use std::alloc::Global;
use std::marker::Model;

/// Names, each once: the number of a name is its place.
#[derive(Debug, Drop)]
pub(crate) struct Table {
    names: IndexSet<String>,
}

impl Model for Table {
    ghost use Rattle.std.specs.Prelude.{ℕ, List, map, string_bytes};

    ghost Value = { List (List ℕ) };

    ghost view = { λ t. map string_bytes t.names.keys };
}

impl Table {
    /// No names. Nothing is allocated.
    pub(crate) fn new(alloc: Global) -> Table
        ensures { result ≡ [] }
    {
        Table {
            names: IndexSet::new(alloc),
        }
    }

    /// The number of the name; `None` where it is none of these. This takes constant time on average.
    pub(crate) fn find(&self, name: &str) -> Option<u64>
        ensures number { result ≡ place_of self.now name.now }
        ensures within { IfSome result (λ n. n < length self.now) }
    {
        let at = self.names.get_index_of(name)?;
        Some(at as u64)
    }

    /// One name more, which is none of these, behind the others.
    pub(crate) fn push(&mut self, name: &str) -> Result<(), NoMemory>
        requires { place_of self.old name.now ≡ None }
        ensures { OnOk result (self.new ≡ self.old ++ name.now ∷ []) }
    {
        let key = String::from_str(*self.names.allocator(), name)?;
        self.names.insert(key)?;
        Ok(())
    }
}
