//! That the names of a script are names, and apart.
#![tactic(auto)]

ghost use Rattle.std.specs.Prelude.{ℕ, List};
ghost use Rattle.gup_script.specs.Script.{ScriptValue};
ghost use Rattle.gup_spec_grammar.specs.Grammar.{Accepts};
ghost use Rattle.gup_spec_trace.specs.Names.{AreNames};

/// Each name in a script that a text spells is spelled as a name, and no two processes, no two actors, no two handles and no
/// two mirror slots have the same.
pub fn scripts_have_names()
    ensures { (text : List ℕ) (script : ScriptValue) → Accepts text script → AreNames script }
{}
