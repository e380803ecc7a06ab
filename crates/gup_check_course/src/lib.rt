//! Which events and answers of an operation may come next: how far it has come is a small state.
#![tactic(auto)]

ghost use Rattle.std.specs.Prelude.{ℕ, List, IsSome, ◌↔◌};
ghost use Rattle.gup_script.specs.Script.{ScriptValue};
ghost use Rattle.gup_script.specs.Valid.{IsScript};
ghost use Rattle.gup_spec_accepted.specs.Said.{Said, BeginsOperations};
ghost use Rattle.gup_check_course.specs.Standing.{standing_after};

mod course;
mod follow;
mod said;
mod steps;

pub use course::{Course, Step};
pub use follow::next;

/// What an actor has said is the beginning of what notes of its operations say exactly where its standing says so.
pub fn courses_are_beginnings()
    ensures { (script : ScriptValue) (a : ℕ) (said : List Said) → IsScript script → IsSome (standing_after script a said) ↔ BeginsOperations script a said }
{}
