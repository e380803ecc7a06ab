//! What a machine is made of.
ghost use Rattle.std.specs.Prelude.{◌≡◌, ℕ, ◌<◌, ◌≤◌, length, slice_get, Some, None, All, List, IfOk, Option};
ghost use Rattle.arrayvec.specs.ArrayVec.{ArrayVec as ArrayVecValue};
ghost use Rattle.gup_spec_journal.specs.Place.{doer, slots_of_kind};
ghost use Rattle.gup_base.specs.Counts.{most_slots};
ghost use Rattle.gup_script.specs.declared.op.Kind.TheVariants.{Device};
ghost use Rattle.gup_space.specs.Space.{SpaceParts, space_of, no_space};
ghost use Rattle.gup_spec_turns.specs.Run.{run_start};
ghost use Rattle.gup_op_waits.specs.Parts.{AreParts, ShowsParts};
ghost use Rattle.gup_op_waits.specs.Stores.{IsEmptyStore};

use crate::births::{self, Birth};
use arrayvec::ArrayVec;
use gup_base::{ActorNo, FrameNo, NoMemory};
use gup_device::Store;
use gup_frames::Frames;
use gup_handles::Handles;
use gup_script::{Kind, Script};
use gup_space::Space;
use std::alloc::Global;

/// All that a machine has beside its script and where its actors stand.
#[derive(Drop)]
pub struct Parts {
    pub frames: Frames,
    pub spaces: Vec<Space>,
    pub births: Vec<Birth>,
    pub handles: Handles,
    /// For each actor the frames of the pages that its running pin has taken.
    pub taken: Vec<ArrayVec<FrameNo, 16>>,
    /// For each actor its words, if it is a device.
    pub stores: Vec<Option<Store>>,
}

/// The parts of a machine at the start of the script.
pub fn first(alloc: Global, script: &Script) -> Result<Parts, NoMemory>
    ensures parts { IfOk result (AreParts script.now) }
    ensures shown { IfOk result (λ parts. ShowsParts parts (run_start script.now).core) }
{
    let (movable, normal, _tables) = script.frames();
    Ok(Parts {
        frames: Frames::new(alloc, movable, normal)?,
        spaces: empty_spaces(alloc, script.processes())?,
        births: births::first(alloc, script)?,
        handles: Handles::new(alloc)?,
        taken: empty_pins(alloc, script.actors())?,
        stores: empty_stores(alloc, script)?,
    })
}

// So many processes without mappings.
fn empty_spaces(alloc: Global, n: u8) -> Result<Vec<Space>, NoMemory>
    ensures many { IfOk result (λ spaces. length spaces.items ≡ n) }
    ensures empty { IfOk result (λ spaces. All (λ (space : SpaceParts). space_of space ≡ no_space) spaces.items) }
{
    let mut spaces = Vec::new(alloc);
    for _p in 0..n {
        spaces.push(Space::new(alloc)?)?;
    }
    Ok(spaces)
}

// So many actors that have taken no page.
fn empty_pins(alloc: Global, n: u8) -> Result<Vec<ArrayVec<FrameNo, 16>>, NoMemory>
    ensures many { IfOk result (λ taken. length taken.items ≡ n) }
    ensures empty { IfOk result (λ taken. All (λ (pages : ArrayVecValue ℕ). length pages.items ≡ 0) taken.items) }
{
    let mut taken = Vec::new(alloc);
    for _a in 0..n {
        taken.push(ArrayVec::new())?;
    }
    Ok(taken)
}

// The stores of the script's devices, all words 0.
fn empty_stores(alloc: Global, script: &Script) -> Result<Vec<Option<Store>>, NoMemory>
    ensures many { IfOk result (λ stores. length stores.items ≡ length script.now.actors) }
    ensures empty { IfOk result (λ stores. (a : ℕ) (store : Option (List ℕ))
        → slice_get stores.items a ≡ Some store → IsEmptyStore (doer script.now a).slots store) }
{
    let mut stores = Vec::new(alloc);
    for a in 0..script.actors() {
        stores.push(store_of(alloc, script, a)?)?;
    }
    Ok(stores)
}

// The store of the actor with this number, if it is a device.
fn store_of(alloc: Global, script: &Script, a: u8) -> Result<Option<Store>, NoMemory>
    requires { a < length script.now.actors }
    ensures { IfOk result (IsEmptyStore (doer script.now a).slots) }
{
    let _actors = script.actors();
    empty_store(alloc, script.kind(ActorNo::new(u64::from(a)).unwrap()))
}

// The store of a device.
fn empty_store(alloc: Global, kind: Kind) -> Result<Option<Store>, NoMemory>
    requires { (slots : ℕ) → kind ≡ Device slots → (1 ≤ slots) × (slots ≤ most_slots) }
    ensures { IfOk result (IsEmptyStore (slots_of_kind kind)) }
{
    match kind {
        Kind::Device(slots) => Ok(Some(Store::new(alloc, slots)?)),
        Kind::Thread(_) | Kind::Mover => Ok(None),
    }
}
