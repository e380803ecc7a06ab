//! What is true of the operations of every script.
ghost use Rattle.std.specs.Prelude.{◌≡◌, ℕ, slice_get, Some, true};
ghost use Rattle.gup_script.specs.Script.{ScriptValue, ops_of};
ghost use Rattle.gup_script.specs.Valid.{IsScript, IsOp};
ghost use Rattle.gup_script.specs.declared.op.Op.{Op};
ghost use Rattle.gup_spec_journal.specs.Place.{doer_of};
ghost use Rattle.gup_check_plain.specs.Needs.{NeedsProcess};

/// An operation of a script is of a process, if it needs one, and its numbers are in range.
pub fn operations_fit()
    ensures { (script : ScriptValue) (a k : ℕ) (op : Op) → IsScript script → slice_get (ops_of script a) k ≡ Some op
        → (NeedsProcess op → (doer_of script a (Some op)).of_process ≡ true) × IsOp op }
{}
