//! What is judged by values is what the definitions say of the notes so far.
ghost use Rattle.std.specs.Prelude.{◌≡◌, ℕ, true, is_some, Option};
ghost use Rattle.gup_plain.specs.State.{PlainState, Birth};
ghost use Rattle.gup_plain.specs.declared.answer.Answer.{Answer};
ghost use Rattle.gup_script.specs.Script.{ScriptValue};
ghost use Rattle.gup_spec_journal.specs.Place.{doer_of, birth_by, present_op};
ghost use Rattle.gup_spec_journal.specs.Order.{waiting_at};
ghost use Rattle.gup_spec_journal.specs.Plain.{Judged, got_at, pages_got};
ghost use Rattle.gup_spec_accepted.specs.Waits.{waits_for};
ghost use Rattle.gup_check_answers.specs.Answers.{got_by};
ghost use Rattle.gup_check_answers.specs.Waits.{waits_by, waits_to_take, process_number, is_given};

/// How many pages a pin has got at an answer is told by the answer and by how many are pending.
pub fn pages_are_got()
    ensures { (s : PlainState) (a : ℕ) (answer : Answer) → got_at s a answer ≡ got_by (pages_got s a) answer }
{}

/// What an actor waits for is told by the process of its operation, the birth of that, and whether the handle of a take is given
/// to the actor.
pub fn waits_are_seen()
    ensures { (script : ScriptValue) (j : Judged) (a : ℕ) →
        let op = present_op script a (j.places a) in
        let who = doer_of script a op in
        waits_for script j a
        ≡ waiting_at who.proc (birth_by who.of_process (j.plain.birth who.proc)) (waits_to_take (is_given j.plain.handle a op) op) }
{}

/// So what `waits_for` of this crate says of these values is what the actor waits for.
pub fn waits_are_by_values()
    ensures { (script : ScriptValue) (j : Judged) (a : ℕ) (process : Option ℕ) (birth : Birth) →
        let op = present_op script a (j.places a) in
        let who = doer_of script a op in
        is_some process ≡ who.of_process → process_number process ≡ who.proc
        → (who.of_process ≡ true → birth ≡ j.plain.birth who.proc)
        → waits_for script j a ≡ waits_by process birth (is_given j.plain.handle a op) op }
{}
