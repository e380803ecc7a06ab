//! Actors: the pages that a running pin has taken, and a device's words.
ghost use Rattle.std.specs.Prelude.{◌≡◌, vec_len, [], IfOk, OnOk, OnErr};
ghost use Rattle.gup_plain.specs.Put.{put};
ghost use Rattle.gup_exec_parts.specs.Actor.{slots_in, store_of};
ghost use Rattle.gup_exec_parts.specs.Tables.{at_place};
ghost use Rattle.gup_exec_parts.specs.declared.actor.Actor.{Actor};

use crate::taken::Taken;
use gup_base::NoMemory;
use std::alloc::Global;
use std::collections::BTreeMap;

/// An actor: the pages that its running pin has taken, and a device's words.
#[derive(Drop)]
pub struct Actor {
    pub taken: Vec<Taken>,
    pub store: BTreeMap<u32, u64>,
}

/// So many actors, without pages, with stores of zeros.
pub fn idle(alloc: Global, n: u8) -> Result<Vec<Actor>, NoMemory>
    ensures len { IfOk result (λ actors. vec_len actors ≡ n) }
    ensures taken { IfOk result (λ actors. at_place (λ (a : Actor). a.taken.items) [] actors.items ≡ (λ _. [])) }
    ensures store { IfOk result (λ actors. at_place store_of (λ _. 0) actors.items ≡ (λ _ _. 0)) }
{
    let mut actors = Vec::new(alloc);
    for _a in 0..n {
        actors.push(Actor {
            taken: Vec::new(alloc),
            store: BTreeMap::new(alloc),
        })?;
    }
    Ok(actors)
}

/// Writes a slot of a store.
pub fn set_slot(store: &mut BTreeMap<u32, u64>, slot: u32, value: u64) -> Result<(), NoMemory>
    ensures ok { OnOk result (slots_in store.new ≡ put slot value (slots_in store.old)) }
    ensures err { OnErr result (slots_in store.new ≡ slots_in store.old) }
{
    store.insert(slot, value)?;
    Ok(())
}
