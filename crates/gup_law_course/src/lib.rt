//! The laws of courses: an event goes on and an answer ends, and where an actor stands agrees with its place.
#![tactic(auto)]

ghost use Rattle.std.specs.Prelude.{◌≡◌, ℕ, ◌<◌, List, Some};
ghost use Rattle.gup_plain.specs.Note.{NoteValue};
ghost use Rattle.gup_plain.specs.declared.answer.Answer.{Answer};
ghost use Rattle.gup_plain.specs.declared.event.PlainEvent.{PlainEvent};
ghost use Rattle.gup_plain.specs.declared.note.What.TheVariants.{Event, Done};
ghost use Rattle.gup_script.specs.Script.{ScriptValue};
ghost use Rattle.gup_script.specs.declared.op.Op.{Op};
ghost use Rattle.gup_spec_journal.specs.Follows.{Who};
ghost use Rattle.gup_exec_plain.specs.Parts.{HasActor};
ghost use Rattle.gup_check_course.specs.declared.course.Course.{Course};
ghost use Rattle.gup_check_course.specs.declared.course.Course.TheVariants.{Start};
ghost use Rattle.gup_check_course.specs.declared.course.Step.{Step};
ghost use Rattle.gup_check_course.specs.declared.course.Step.TheVariants.{On, Ended};
ghost use Rattle.gup_check_course.specs.Arcs.{next_of};
ghost use Rattle.gup_check_course.specs.Standing.{Standing};
ghost use Rattle.gup_spec_check.specs.Seen.{seen_of};
ghost use Rattle.gup_law_course.specs.UnderWay.{is_under_way};

/// An event doesn't end an operation, and it isn't at its beginning then. It is one of the operation's own actor, if it names one.
pub fn events_go_on()
    ensures { (who : Who) (op : Op) (course : Course) (event : PlainEvent) (step : Step) → next_of who op course (Event event) ≡ Some step → ((next : Course) × (step ≡ On next) × (next ≡ Start → ⊥)) × ((n : ℕ) → who.actor < n → HasActor n event) }
{}

/// An answer ends its operation.
pub fn answers_end()
    ensures { (who : Who) (op : Op) (course : Course) (answer : Answer) (step : Step) → next_of who op course (Done answer) ≡ Some step → step ≡ Ended }
{}

/// Where an actor stands says how many operations it has answered, and whether its present one has had an event.
pub fn standings_are_places()
    ensures { (script : ScriptValue) (notes : List NoteValue) (a : ℕ) (standing : Standing) → (seen_of script notes).standings a ≡ Some standing → (standing.answered ≡ ((seen_of script notes).judged.places a).answered) × (((seen_of script notes).judged.places a).had ≡ is_under_way standing.course) }
{}
