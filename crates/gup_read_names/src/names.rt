//! The table of the names.
ghost use Rattle.std.specs.Prelude.{◌≡◌, true, [], OnOk, OnErr};
ghost use Rattle.gup_spec_grammar.specs.Names.{find, is_unused, declared};

use gup_spec_grammar::Named;
use indexmap::IndexMap;
use std::alloc::{AllocError, Global};
use std::marker::Model;

/// The names that a script has declared so far, in the order of their declarations, with what each names.
#[derive(Debug, Drop)]
pub struct Names {
    entries: IndexMap<String, Named>,
}

impl Model for Names {
    ghost use Rattle.std.specs.Prelude.{List};
    ghost use Rattle.gup_spec_grammar.specs.Names.{NamedEntry};

    ghost Value = { List NamedEntry };

    ghost use Rattle.gup_read_names.specs.Views.{entries_of};

    ghost view = { entries_of };
}

impl Names {
    /// No names. Nothing is allocated.
    pub fn new(alloc: Global) -> Names
        ensures { result ≡ [] }
    {
        Names {
            entries: IndexMap::new(alloc),
        }
    }

    /// What the name names; `None` where it is not declared. This takes constant time on average.
    pub fn find(&self, name: &str) -> Option<Named>
        ensures { result ≡ find self.now name.now }
    {
        self.entries.get(name).copied()
    }

    /// Declares a name that is unused, as `find` tells, after the others. It is refused because allocation failed alone,
    /// and then nothing has changed.
    pub fn declare(&mut self, name: &str, named: Named) -> Result<(), AllocError>
        requires { is_unused self.old name.now ≡ true }
        ensures ok { OnOk result (self.new ≡ declared self.old name.now named) }
        ensures err { OnErr result (self.new ≡ self.old) }
    {
        let key = String::from_str(*self.entries.allocator(), name)?;
        self.entries.insert(key, named)?;
        Ok(())
    }
}
