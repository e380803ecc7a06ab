//! What the grammar promises: the bytes of a text are one script, or have one first fault, and never both.
ghost use Rattle.std.specs.Prelude.{◌≡◌, ◌⊎◌, ℕ, List};
ghost use Rattle.gup_spec_grammar.specs.declared.fault.ScriptFault.{ScriptFault as Fault};
ghost use Rattle.gup_script.specs.Script.{ScriptValue};
ghost use Rattle.gup_spec_grammar.specs.Grammar.{Accepts};
ghost use Rattle.gup_spec_grammar.specs.Fault.{HasFault};

/// The bytes are at most one script.
pub fn one_script()
    ensures { (text : List ℕ) (a b : ScriptValue) → Accepts text a → Accepts text b → a ≡ b }
{}

/// The bytes have at most one first fault.
pub fn one_fault()
    ensures { (text : List ℕ) (a b : Fault) → HasFault text a → HasFault text b → a ≡ b }
{}

/// The bytes are a script or have a first fault.
pub fn script_or_fault()
    ensures { (text : List ℕ) → ((script : ScriptValue) × Accepts text script) ⊎ ((fault : Fault) × HasFault text fault) }
{}

/// The bytes of a script have no fault.
pub fn scripts_have_no_fault()
    ensures { (text : List ℕ) (script : ScriptValue) (fault : Fault) → Accepts text script → HasFault text fault → ⊥ }
{}
