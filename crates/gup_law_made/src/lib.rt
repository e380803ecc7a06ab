//! That the text which is made from a number is a script.
#![tactic(auto)]

ghost use Rattle.std.specs.Prelude.{ℕ, ◌^◌, ◌<◌};
ghost use Rattle.gup_make.specs.Made.{made_text};
ghost use Rattle.gup_script.specs.Script.{ScriptValue};
ghost use Rattle.gup_spec_grammar.specs.Grammar.{Accepts};

/// The text that is made from a number is that of a script, whatever the number: so no reader refuses it.
pub fn made_texts_are_scripts()
    ensures { (n : ℕ) → n < 2 ^ 64 → (script : ScriptValue) × Accepts (made_text n) script }
{}
