//! A plain event, let happen in the parts.
ghost use Rattle.gup_exec_plain.specs.Parts.{state_of, actors_of, HasActor, IsAsMany, IsSound, Applies};

use crate::parts::Parts;
use crate::refusal::PlainRefusal;
use gup_plain::PlainEvent;

impl Parts {
    /// Lets the event happen.
    pub fn apply(&mut self, e: &PlainEvent) -> Result<(), PlainRefusal>
        requires sound { IsSound self.old }
        requires actor { HasActor (actors_of self.old) e.now }
        ensures event { Applies (state_of self.old) (state_of self.new) e.now result }
        ensures many { IsAsMany self.old self.new }
    {
        match *e {
            PlainEvent::Map {
                actor: _,
                proc,
                page,
                n,
                rights,
            } => self.map(proc, page, n, rights),
            PlainEvent::Unmap {
                actor: _,
                proc,
                page,
            } => self.unmap(proc, page),
            PlainEvent::Discard {
                actor: _,
                proc,
                page,
            } => self.discard(proc, page),
            PlainEvent::Protect {
                actor: _,
                proc,
                page,
                n,
                rights,
            } => self.protect(proc, page, n, rights),
            PlainEvent::Load {
                actor: _,
                proc,
                page,
                word,
                value,
            } => self.load(proc, page, word, value),
            PlainEvent::Store {
                actor: _,
                proc,
                page,
                word,
                value,
            } => self.store(proc, page, word, value),
            PlainEvent::PinTry {
                actor,
                proc,
                page,
                write,
            } => self.pin_try(actor, proc, page, write),
            PlainEvent::PinDrop { actor, page } => self.pin_drop(actor, page),
            PlainEvent::PinOk { actor, handle } => self.pin_ok(actor, handle),
            PlainEvent::Unpin { actor, handle } => self.unpin(actor, handle),
            PlainEvent::Give { actor, handle, to } => self.give(actor, handle, to),
            PlainEvent::Take { actor, handle } => self.take(actor, handle),
            PlainEvent::MoveOut {
                actor,
                handle,
                index,
                slot,
                value,
            } => self.move_out(actor, handle, index, slot, value),
            PlainEvent::MoveIn {
                actor,
                handle,
                index,
                slot,
                value,
            } => self.move_in(actor, handle, index, slot, value),
            PlainEvent::MirrorFill {
                actor: _,
                mirror,
                proc,
                page,
            } => self.mirror_fill(mirror, proc, page),
            PlainEvent::Look {
                actor: _,
                mirror,
                word,
                value,
            } => self.look(mirror, word, value),
            PlainEvent::ForkBegin { parent, child } => self.fork_begin(parent, child),
            PlainEvent::ForkPage {
                parent,
                child,
                page,
            } => self.fork_page(parent, child, page),
            PlainEvent::ForkWord {
                parent,
                child,
                page,
                word,
            } => self.fork_word(parent, child, page, word),
            PlainEvent::ForkEnd { parent, child } => self.fork_end(parent, child),
            PlainEvent::ForkFail { child } => self.fork_fail(child),
        }
    }
}
