//! What a turn of an operation says: its notes, which are put on at a journal's end where they are made.
ghost use Rattle.std.specs.Prelude.{◌≡◌, ◌≤◌, ◌+◌, ◌++◌, [], ◌∷◌, length};
ghost use Rattle.gup_plain.specs.declared.note.What.TheVariants.{Event};
ghost use Rattle.gup_spec_journal.specs.Follows.{note_of, notes_of_turn};
ghost use Rattle.gup_op_base.specs.Said.{Tells, silent_said, happened_said, done_said, answered_said};

use gup_base::ActorNo;
use gup_plain::{Answer, Journal, Note, PlainEvent, What};

/// What all notes of a turn have in common: its number, its actor, and the number of that actor's operation. Its calls put
/// notes on at the end of a journal that has room for them.
#[derive(Clone, Copy, Debug)]
pub struct Head {
    pub turn: u32,
    pub actor: ActorNo,
    pub op: u32,
}

impl Head {
    /// The note that says this.
    #[inline(always)]
    pub fn note(&self, what: What) -> Note
        ensures { result ≡ note_of self.now.turn self.now.actor self.now.op what }
    {
        Note::new(self.turn, self.actor, self.op, what)
    }

    /// Puts on a note.
    #[inline(always)]
    pub fn tell(&self, journal: &mut Journal, what: What)
        requires { 1 ≤ journal.old.room }
        ensures notes { journal.new.notes
            ≡ journal.old.notes ++ notes_of_turn self.now.turn self.now.actor self.now.op (what ∷ []) }
        ensures room { journal.old.room ≤ journal.new.room + 1 }
        ensures kept { length journal.old.notes + journal.old.room ≤ length journal.new.notes + journal.new.room }
    {
        journal.push(self.note(what)).unwrap();
    }

    /// An event at which the operation goes on: that of its turn, or the first of two.
    #[inline(always)]
    pub fn happened(&self, journal: &mut Journal, event: PlainEvent)
        requires { 1 ≤ journal.old.room }
        ensures says { Tells self.now journal.old journal.new (happened_said event) }
        ensures room { journal.old.room ≤ journal.new.room + 1 }
    {
        self.tell(journal, What::Event(event));
    }

    /// An event with which the operation ends, and its answer.
    #[inline(always)]
    pub fn done(&self, journal: &mut Journal, event: PlainEvent, answer: Answer)
        requires { 2 ≤ journal.old.room }
        ensures { Tells self.now journal.old journal.new (done_said event answer) }
    {
        self.tell(journal, What::Event(event));
        self.tell(journal, What::Done(answer));
    }

    /// The operation's end without an event.
    #[inline(always)]
    pub fn answered(&self, journal: &mut Journal, answer: Answer)
        requires { 1 ≤ journal.old.room }
        ensures { Tells self.now journal.old journal.new (answered_said answer) }
    {
        self.tell(journal, What::Done(answer));
    }

    /// A turn without an event, at which the operation goes on.
    #[inline(always)]
    pub fn silent(&self, journal: &mut Journal)
        requires { 1 ≤ journal.old.room }
        ensures { Tells self.now journal.old journal.new silent_said }
    {
        self.tell(journal, What::Silent);
    }
}
