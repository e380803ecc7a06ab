ghost use Rattle.std.specs.Prelude.{◌≡◌};
ghost use Rattle.gup_plain.specs.Kinds.{kind_of, kind_of_waiting, kind_of_event, kind_of_answer, kind_of_short, what_of};

use crate::answer::{Answer, Cause};
use crate::event::PlainEvent;
use gup_base::{ActorNo, HandleNo, MirrorNo, PageNo, ProcNo, Rights, WordNo};
use std::marker::Model;

/// What one note of a turn says.
#[derive(Clone, Copy, Debug, PartialEq, Eq, Hash)]
pub enum What {
    /// A turn without a plain event.
    Silent,
    /// A written turn of an actor that has finished.
    Idle,
    /// A written turn of an actor that waits.
    Wait(Waiting),
    /// A plain event.
    Event(PlainEvent),
    /// The end of the operation, with its answer.
    Done(Answer),
}

/// What an actor waits for.
#[derive(Clone, Copy, Debug, PartialEq, Eq, Hash)]
pub enum Waiting {
    /// A lock that this actor holds.
    Holder(ActorNo),
    /// A handle that isn't given to the actor.
    Handle(HandleNo),
    /// A process that isn't born.
    Process(ProcNo),
}

/// A note of a journal: the number of its turn, from 1, the actor whose turn it is, the number of that actor's
/// operation, from 1, and what happened. In a note that says `Idle` the operation is one more than the actor has.
#[derive(Clone, Copy, Debug)]
pub struct Note {
    turn: u32,
    op: u32,
    actor: ActorNo,
    kind: Kind,
}

impl Model for Note {
    ghost use Rattle.gup_plain.specs.Note.{NoteValue};

    ghost Value = { NoteValue };

    ghost use Rattle.gup_plain.specs.Kinds.{note_value, fields_of};

    ghost view = { note_value };

    ghost inverse = { fields_of };

    ghost use Rattle.gup_plain.specs.Kinds.{fields-note_value};

    ghost inverse_ok = { λ a h. fields-note_value a };
}

impl Note {
    /// The note that says this. Nothing is judged here: whoever writes a journal counts its turns and operations.
    #[inline(always)]
    pub fn new(turn: u32, actor: ActorNo, op: u32, what: What) -> Self
        ensures { result ≡ record { turn = turn; actor = actor; op = op; what = what } }
    {
        Note {
            turn,
            op,
            actor,
            kind: Kind::of(what),
        }
    }

    /// The number of the note's turn, from 1. The one to three notes of a turn have the same.
    #[inline(always)]
    pub fn turn(&self) -> u32
        ensures { result ≡ self.now.turn }
    {
        self.turn
    }

    /// The actor whose turn it is.
    #[inline(always)]
    pub fn actor(&self) -> ActorNo
        ensures { result ≡ self.now.actor }
    {
        self.actor
    }

    /// The number of the operation among those of its actor, from 1.
    #[inline(always)]
    pub fn op(&self) -> u32
        ensures { result ≡ self.now.op }
    {
        self.op
    }

    /// What happened.
    #[inline(always)]
    pub fn what(&self) -> What
        ensures { result ≡ self.now.what }
    {
        self.kind.what()
    }
}

// A `What` with its parts in one enum, ordered so that a note has 40 bytes and not 56 or more.
#[derive(Clone, Copy, Debug)]
enum Kind {
    Silent,
    Idle,
    WaitHolder(ActorNo),
    WaitHandle(HandleNo),
    WaitProcess(ProcNo),
    Map {
        actor: ActorNo,
        proc: ProcNo,
        rights: Rights,
        n: u16,
        page: PageNo,
    },
    Unmap {
        actor: ActorNo,
        proc: ProcNo,
        page: PageNo,
    },
    Discard {
        actor: ActorNo,
        proc: ProcNo,
        page: PageNo,
    },
    Protect {
        actor: ActorNo,
        proc: ProcNo,
        rights: Rights,
        n: u16,
        page: PageNo,
    },
    Load {
        actor: ActorNo,
        proc: ProcNo,
        word: WordNo,
        page: PageNo,
        value: u64,
    },
    Store {
        actor: ActorNo,
        proc: ProcNo,
        word: WordNo,
        page: PageNo,
        value: u64,
    },
    PinTry {
        actor: ActorNo,
        proc: ProcNo,
        write: bool,
        page: PageNo,
    },
    PinDrop {
        actor: ActorNo,
        page: PageNo,
    },
    PinOk {
        actor: ActorNo,
        handle: HandleNo,
    },
    Unpin {
        actor: ActorNo,
        handle: HandleNo,
    },
    Give {
        actor: ActorNo,
        to: ActorNo,
        handle: HandleNo,
    },
    Take {
        actor: ActorNo,
        handle: HandleNo,
    },
    MoveOut {
        actor: ActorNo,
        handle: HandleNo,
        index: u32,
        slot: u32,
        value: u64,
    },
    MoveIn {
        actor: ActorNo,
        handle: HandleNo,
        index: u32,
        slot: u32,
        value: u64,
    },
    MirrorFill {
        actor: ActorNo,
        proc: ProcNo,
        mirror: MirrorNo,
        page: PageNo,
    },
    Look {
        actor: ActorNo,
        mirror: MirrorNo,
        word: WordNo,
        value: u64,
    },
    ForkBegin {
        parent: ProcNo,
        child: ProcNo,
    },
    ForkPage {
        parent: ProcNo,
        child: ProcNo,
        page: PageNo,
    },
    ForkWord {
        parent: ProcNo,
        child: ProcNo,
        word: WordNo,
        page: PageNo,
    },
    ForkEnd {
        parent: ProcNo,
        child: ProcNo,
    },
    ForkFail {
        child: ProcNo,
    },
    DonePlain,
    DoneWords,
    DoneMissing,
    DoneForbidden,
    DoneNoFrame,
    DoneNotHeld,
    DoneRange,
    DoneOverlap,
    DoneFull,
    DoneUntouched,
    DoneStale,
    DoneUnborn,
    DoneValue(u64),
    DoneUnmovable(u64),
    DoneBusy(u64),
    DonePinned(u8),
    ShortMissing(u8, u8),
    ShortForbidden(u8, u8),
    ShortNoFrame(u8, u8),
    ShortUnmovable(u8, u8, u64),
}

const _: () = prove!(size_of::<Note>() <= 40);

impl Kind {
    #[inline(always)]
    fn of(what: What) -> Self
        ensures { result ≡ kind_of what }
    {
        match what {
            What::Silent => Kind::Silent,
            What::Idle => Kind::Idle,
            What::Wait(waiting) => Kind::of_waiting(waiting),
            What::Event(event) => Kind::of_event(event),
            What::Done(answer) => Kind::of_answer(answer),
        }
    }

    #[inline(always)]
    fn of_waiting(waiting: Waiting) -> Self
        ensures { result ≡ kind_of_waiting waiting }
    {
        match waiting {
            Waiting::Holder(actor) => Kind::WaitHolder(actor),
            Waiting::Handle(handle) => Kind::WaitHandle(handle),
            Waiting::Process(proc) => Kind::WaitProcess(proc),
        }
    }

    #[inline(always)]
    fn of_event(event: PlainEvent) -> Self
        ensures { result ≡ kind_of_event event }
    {
        match event {
            PlainEvent::Map {
                actor,
                proc,
                page,
                n,
                rights,
            } => Kind::Map {
                actor,
                proc,
                rights,
                n,
                page,
            },
            PlainEvent::Unmap { actor, proc, page } => Kind::Unmap { actor, proc, page },
            PlainEvent::Discard { actor, proc, page } => Kind::Discard { actor, proc, page },
            PlainEvent::Protect {
                actor,
                proc,
                page,
                n,
                rights,
            } => Kind::Protect {
                actor,
                proc,
                rights,
                n,
                page,
            },
            PlainEvent::Load {
                actor,
                proc,
                page,
                word,
                value,
            } => Kind::Load {
                actor,
                proc,
                word,
                page,
                value,
            },
            PlainEvent::Store {
                actor,
                proc,
                page,
                word,
                value,
            } => Kind::Store {
                actor,
                proc,
                word,
                page,
                value,
            },
            PlainEvent::PinTry {
                actor,
                proc,
                page,
                write,
            } => Kind::PinTry {
                actor,
                proc,
                write,
                page,
            },
            PlainEvent::PinDrop { actor, page } => Kind::PinDrop { actor, page },
            PlainEvent::PinOk { actor, handle } => Kind::PinOk { actor, handle },
            PlainEvent::Unpin { actor, handle } => Kind::Unpin { actor, handle },
            PlainEvent::Give { actor, handle, to } => Kind::Give { actor, to, handle },
            PlainEvent::Take { actor, handle } => Kind::Take { actor, handle },
            PlainEvent::MoveOut {
                actor,
                handle,
                index,
                slot,
                value,
            } => Kind::MoveOut {
                actor,
                handle,
                index,
                slot,
                value,
            },
            PlainEvent::MoveIn {
                actor,
                handle,
                index,
                slot,
                value,
            } => Kind::MoveIn {
                actor,
                handle,
                index,
                slot,
                value,
            },
            PlainEvent::MirrorFill {
                actor,
                mirror,
                proc,
                page,
            } => Kind::MirrorFill {
                actor,
                proc,
                mirror,
                page,
            },
            PlainEvent::Look {
                actor,
                mirror,
                word,
                value,
            } => Kind::Look {
                actor,
                mirror,
                word,
                value,
            },
            PlainEvent::ForkBegin { parent, child } => Kind::ForkBegin { parent, child },
            PlainEvent::ForkPage {
                parent,
                child,
                page,
            } => Kind::ForkPage {
                parent,
                child,
                page,
            },
            PlainEvent::ForkWord {
                parent,
                child,
                page,
                word,
            } => Kind::ForkWord {
                parent,
                child,
                word,
                page,
            },
            PlainEvent::ForkEnd { parent, child } => Kind::ForkEnd { parent, child },
            PlainEvent::ForkFail { child } => Kind::ForkFail { child },
        }
    }

    #[inline(always)]
    fn of_answer(answer: Answer) -> Self
        ensures { result ≡ kind_of_answer answer }
    {
        match answer {
            Answer::Plain => Kind::DonePlain,
            Answer::Words => Kind::DoneWords,
            Answer::Missing => Kind::DoneMissing,
            Answer::Forbidden => Kind::DoneForbidden,
            Answer::NoFrame => Kind::DoneNoFrame,
            Answer::NotHeld => Kind::DoneNotHeld,
            Answer::Range => Kind::DoneRange,
            Answer::Overlap => Kind::DoneOverlap,
            Answer::Full => Kind::DoneFull,
            Answer::Untouched => Kind::DoneUntouched,
            Answer::Stale => Kind::DoneStale,
            Answer::Unborn => Kind::DoneUnborn,
            Answer::Value(value) => Kind::DoneValue(value),
            Answer::Unmovable(value) => Kind::DoneUnmovable(value),
            Answer::Busy(value) => Kind::DoneBusy(value),
            Answer::Pinned(pages) => Kind::DonePinned(pages),
            Answer::Short { got, wanted, cause } => Kind::of_short(got, wanted, cause),
        }
    }

    #[inline(always)]
    fn of_short(got: u8, wanted: u8, cause: Cause) -> Self
        ensures { result ≡ kind_of_short got wanted cause }
    {
        match cause {
            Cause::Missing => Kind::ShortMissing(got, wanted),
            Cause::Forbidden => Kind::ShortForbidden(got, wanted),
            Cause::NoFrame => Kind::ShortNoFrame(got, wanted),
            Cause::Unmovable(count) => Kind::ShortUnmovable(got, wanted, count),
        }
    }

    #[inline(always)]
    fn what(self) -> What
        ensures { result ≡ what_of self }
    {
        match self {
            Kind::Silent => What::Silent,
            Kind::Idle => What::Idle,
            Kind::WaitHolder(actor) => What::Wait(Waiting::Holder(actor)),
            Kind::WaitHandle(handle) => What::Wait(Waiting::Handle(handle)),
            Kind::WaitProcess(proc) => What::Wait(Waiting::Process(proc)),
            Kind::Map {
                actor,
                proc,
                rights,
                n,
                page,
            } => What::Event(PlainEvent::Map {
                actor,
                proc,
                page,
                n,
                rights,
            }),
            Kind::Unmap { actor, proc, page } => What::Event(PlainEvent::Unmap {
                actor,
                proc,
                page,
            }),
            Kind::Discard { actor, proc, page } => What::Event(PlainEvent::Discard {
                actor,
                proc,
                page,
            }),
            Kind::Protect {
                actor,
                proc,
                rights,
                n,
                page,
            } => What::Event(PlainEvent::Protect {
                actor,
                proc,
                page,
                n,
                rights,
            }),
            Kind::Load {
                actor,
                proc,
                word,
                page,
                value,
            } => What::Event(PlainEvent::Load {
                actor,
                proc,
                page,
                word,
                value,
            }),
            Kind::Store {
                actor,
                proc,
                word,
                page,
                value,
            } => What::Event(PlainEvent::Store {
                actor,
                proc,
                page,
                word,
                value,
            }),
            Kind::PinTry {
                actor,
                proc,
                write,
                page,
            } => What::Event(PlainEvent::PinTry {
                actor,
                proc,
                page,
                write,
            }),
            Kind::PinDrop { actor, page } => What::Event(PlainEvent::PinDrop { actor, page }),
            Kind::PinOk { actor, handle } => What::Event(PlainEvent::PinOk { actor, handle }),
            Kind::Unpin { actor, handle } => What::Event(PlainEvent::Unpin { actor, handle }),
            Kind::Give { actor, to, handle } => What::Event(PlainEvent::Give { actor, handle, to }),
            Kind::Take { actor, handle } => What::Event(PlainEvent::Take { actor, handle }),
            Kind::MoveOut {
                actor,
                handle,
                index,
                slot,
                value,
            } => What::Event(PlainEvent::MoveOut {
                actor,
                handle,
                index,
                slot,
                value,
            }),
            Kind::MoveIn {
                actor,
                handle,
                index,
                slot,
                value,
            } => What::Event(PlainEvent::MoveIn {
                actor,
                handle,
                index,
                slot,
                value,
            }),
            Kind::MirrorFill {
                actor,
                proc,
                mirror,
                page,
            } => What::Event(PlainEvent::MirrorFill {
                actor,
                mirror,
                proc,
                page,
            }),
            Kind::Look {
                actor,
                mirror,
                word,
                value,
            } => What::Event(PlainEvent::Look {
                actor,
                mirror,
                word,
                value,
            }),
            Kind::ForkBegin { parent, child } => What::Event(PlainEvent::ForkBegin {
                parent,
                child,
            }),
            Kind::ForkPage {
                parent,
                child,
                page,
            } => What::Event(PlainEvent::ForkPage {
                parent,
                child,
                page,
            }),
            Kind::ForkWord {
                parent,
                child,
                word,
                page,
            } => What::Event(PlainEvent::ForkWord {
                parent,
                child,
                page,
                word,
            }),
            Kind::ForkEnd { parent, child } => What::Event(PlainEvent::ForkEnd { parent, child }),
            Kind::ForkFail { child } => What::Event(PlainEvent::ForkFail { child }),
            Kind::DonePlain => What::Done(Answer::Plain),
            Kind::DoneWords => What::Done(Answer::Words),
            Kind::DoneMissing => What::Done(Answer::Missing),
            Kind::DoneForbidden => What::Done(Answer::Forbidden),
            Kind::DoneNoFrame => What::Done(Answer::NoFrame),
            Kind::DoneNotHeld => What::Done(Answer::NotHeld),
            Kind::DoneRange => What::Done(Answer::Range),
            Kind::DoneOverlap => What::Done(Answer::Overlap),
            Kind::DoneFull => What::Done(Answer::Full),
            Kind::DoneUntouched => What::Done(Answer::Untouched),
            Kind::DoneStale => What::Done(Answer::Stale),
            Kind::DoneUnborn => What::Done(Answer::Unborn),
            Kind::DoneValue(value) => What::Done(Answer::Value(value)),
            Kind::DoneUnmovable(value) => What::Done(Answer::Unmovable(value)),
            Kind::DoneBusy(value) => What::Done(Answer::Busy(value)),
            Kind::DonePinned(pages) => What::Done(Answer::Pinned(pages)),
            Kind::ShortMissing(got, wanted) => What::Done(Answer::Short {
                got,
                wanted,
                cause: Cause::Missing,
            }),
            Kind::ShortForbidden(got, wanted) => What::Done(Answer::Short {
                got,
                wanted,
                cause: Cause::Forbidden,
            }),
            Kind::ShortNoFrame(got, wanted) => What::Done(Answer::Short {
                got,
                wanted,
                cause: Cause::NoFrame,
            }),
            Kind::ShortUnmovable(got, wanted, count) => What::Done(Answer::Short {
                got,
                wanted,
                cause: Cause::Unmovable(count),
            }),
        }
    }
}
