//! The states that orders lead to, and how they are kept.
ghost use Rattle.std.specs.Prelude.{◌≡◌, ◌<◌, ◌↔◌, [], Some, length, slice_get, IsTrue, IfOk, OnErr};
ghost use Rattle.gup_search.specs.States.{State, Has, Inserts};

use crate::pools::{numbers_in, put_in, read};
use gup_base::NoMemory;
use gup_image::KeptFact;
use gup_spec_orders::Tell;
use indexmap::IndexSet;
use std::alloc::Global;
use std::marker::Model;

/// A state as it is kept: the numbers of its facts and of its tells.
#[derive(Debug, PartialEq, Eq, Hash, Drop)]
struct Row {
    facts: Vec<u32>,
    tells: Vec<u32>,
}

/// States, each once, in the order in which they came. Each fact and each tell is kept once, however many states have it. Contracts see
/// the list of states.
#[derive(Drop)]
pub(crate) struct States {
    facts: IndexSet<KeptFact>,
    tells: IndexSet<Tell>,
    rows: IndexSet<Row>,
}

impl Model for States {
    ghost use Rattle.std.specs.Prelude.{List};
    ghost use Rattle.gup_search.specs.States.{State, states_of, AreKept};

    ghost Value = { List State };

    ghost view = { λ s. states_of s.facts.keys s.tells.keys s.rows.keys };

    ghost invariant = { λ s. AreKept s.facts.keys s.tells.keys s.rows.keys };
}

impl States {
    /// No states.
    pub(crate) fn new(alloc: Global) -> States
        ensures { result ≡ [] }
    {
        States {
            facts: IndexSet::new(alloc),
            tells: IndexSet::new(alloc),
            rows: IndexSet::new(alloc),
        }
    }

    /// How many there are.
    pub(crate) fn len(&self) -> usize
        ensures { result ≡ length self.now }
    {
        self.rows.len()
    }

    /// Puts the state with these facts and tells in last, unless it is there, and says whether it is new.
    pub(crate) fn insert(
        &mut self,
        alloc: Global,
        facts: &[KeptFact],
        tells: &[Tell],
    ) -> Result<bool, NoMemory>
        ensures inserts { IfOk result (λ is_new. Inserts self.old self.new (record { facts = facts.now; tells = tells.now }) is_new) }
        ensures err { OnErr result (self.new ≡ self.old) }
    {
        let facts = put_in(alloc, &mut self.facts, facts)?;
        let tells = put_in(alloc, &mut self.tells, tells)?;
        let is_new = self.rows.insert(Row { facts, tells })?;
        Ok(is_new)
    }

    /// Whether the state with these facts and tells is there. Nothing is put in.
    pub(crate) fn contains(
        &self,
        alloc: Global,
        facts: &[KeptFact],
        tells: &[Tell],
    ) -> Result<bool, NoMemory>
        ensures { IfOk result (λ is_there. IsTrue is_there ↔ Has self.now (record { facts = facts.now; tells = tells.now })) }
    {
        let Some(facts) = numbers_in(alloc, &self.facts, facts)? else {
            return Ok(false);
        };
        let Some(tells) = numbers_in(alloc, &self.tells, tells)? else {
            return Ok(false);
        };
        Ok(self.rows.contains(&Row { facts, tells }))
    }

    /// The tells of the state with this number.
    pub(crate) fn tells(&self, alloc: Global, i: usize) -> Result<Vec<Tell>, NoMemory>
        requires { i < length self.now }
        ensures { IfOk result (λ tells. (state : State) → slice_get self.now i ≡ Some state → tells.items ≡ state.tells) }
    {
        let row = &self.rows.as_slice()[i];
        read(alloc, self.tells.as_slice(), row.tells.as_slice())
    }
}
