//! Which processes are born.
ghost use Rattle.std.specs.Prelude.{◌≡◌, ℕ, ◌<◌, length, slice_get, Some, IfOk, IfSome, IsTrue, if◌then◌else◌};
ghost use Rattle.gup_spec_journal.specs.Place.{starts_born};
ghost use Rattle.gup_op_waits.specs.declared.births.Birth.TheVariants.{Unborn, Born};
ghost use Rattle.gup_op_waits.specs.Births.{HasFailed};

use gup_base::{NoMemory, ProcNo};
use gup_script::Script;
use std::alloc::Global;

/// Whether a process is born.
#[derive(Clone, Copy, Debug, PartialEq, Eq, Hash)]
pub enum Birth {
    /// No fork has begun to bring it.
    Unborn,
    /// A fork is bringing it.
    Growing,
    /// It is born.
    Born,
    /// A fork that was to bring it failed.
    Failed,
}

/// What the script's processes are at the start: those of its `process` lines are born.
pub fn first(alloc: Global, script: &Script) -> Result<Vec<Birth>, NoMemory>
    ensures many { IfOk result (λ births. length births.items ≡ length script.now.processes) }
    ensures births { IfOk result (λ births. (p : ℕ) → p < length script.now.processes
        → slice_get births.items p ≡ Some (if starts_born script.now p then Born else Unborn)) }
{
    let mut births = Vec::new(alloc);
    for p in 0..script.processes() {
        births.push(first_birth(script, p))?;
    }
    Ok(births)
}

// What the process with this number is at the start.
fn first_birth(script: &Script, p: u8) -> Birth
    requires { p < length script.now.processes }
    ensures { result ≡ (if starts_born script.now p then Born else Unborn) }
{
    let _actors = script.actors();
    if is_born(script, ProcNo::new(u64::from(p)).unwrap()) {
        Birth::Born
    } else {
        Birth::Unborn
    }
}

// Whether the process is born at the start.
fn is_born(script: &Script, proc: ProcNo) -> bool
    requires { proc < length script.now.processes }
    ensures { result ≡ starts_born script.now proc }
{
    script.starts_born(proc)
}

/// What a process is now.
pub fn birth_of(births: &Vec<Birth>, proc: ProcNo) -> Birth
    requires { proc < length births.now.items }
    ensures { slice_get births.now.items proc ≡ Some result }
{
    births[proc.get() as usize]
}

/// Whether it is a process, and has failed.
pub fn has_failed(births: &Vec<Birth>, proc: &Option<ProcNo>) -> bool
    requires { IfSome proc.now (λ p. p < length births.now.items) }
    ensures failed { IsTrue result → HasFailed births.now.items proc.now }
    ensures other { HasFailed births.now.items proc.now → IsTrue result }
{
    match proc {
        Some(proc) => matches!(birth_of(births, *proc), Birth::Failed),
        None => false,
    }
}

/// From now on a process is that.
pub fn set_birth(births: &mut Vec<Birth>, proc: ProcNo, birth: Birth)
    requires { proc < length births.old.items }
    ensures many { length births.new.items ≡ length births.old.items }
    ensures here { slice_get births.new.items proc ≡ Some birth }
    ensures others { (q : ℕ) → (q ≡ proc → ⊥) → slice_get births.new.items q ≡ slice_get births.old.items q }
{
    births[proc.get() as usize] = birth;
}
