//! What the grammar of traces promises: the bytes of a text are one trace at most, and a trace has no fault.
ghost use Rattle.std.specs.Prelude.{◌≡◌, ◌≤◌, ℕ, List, length};
ghost use Rattle.gup_plain.specs.Note.{NoteValue};
ghost use Rattle.gup_script.specs.Script.{ScriptValue};
ghost use Rattle.gup_spec_grammar.specs.declared.fault.ScriptFault.{ScriptFault as Fault};
ghost use Rattle.gup_spec_trace.specs.Trace.{IsTrace, HasTraceFault, most_bytes};

use gup_law_names::scripts_have_names;
use gup_read::{one_script, scripts_have_no_fault};
use gup_read_notes::one_note;

/// The bytes are at most one trace: one script, and one list of notes.
pub fn one_trace()
    ensures { (text : List ℕ) (s t : ScriptValue) (m n : List NoteValue) → IsTrace text s m → IsTrace text t n → (s ≡ t) × (m ≡ n) }
{
    one_script();
    scripts_have_names();
    one_note();
}

/// A trace that isn't too long has no fault.
pub fn traces_have_no_fault()
    ensures { (text : List ℕ) (s : ScriptValue) (notes : List NoteValue) (fault : Fault) → IsTrace text s notes → HasTraceFault text fault → length text ≤ most_bytes → ⊥ }
{
    one_script();
    scripts_have_names();
    scripts_have_no_fault();
}
