//! Which actors are asked for their turns.
ghost use Rattle.std.specs.Prelude.{◌≡◌, ℕ, ◌<◌, ◌≤◌, nat_lt, IfSome, true, false};
ghost use Rattle.gup_plain.specs.Put.{put};
ghost use Rattle.gup_sched.specs.Awake.{is_awake, awake_from};

use crate::order::actor_no;
use gup_base::ActorNo;
use std::marker::Model;

/// Which of at most 81 actors are awake. The others are asleep: they can't go, so nobody asks them.
#[derive(Drop)]
pub(crate) struct Awake {
    actors: u8,
    bits: u128,
}

impl Model for Awake {
    ghost use Rattle.gup_sched.specs.Awake.{AwakeValue, AreActors};

    ghost Value = { AwakeValue };

    ghost view = { λ a. record { actors = a.actors; bits = a.bits } };

    ghost invariant = { λ a. AreActors a.actors a.bits };
}

impl Awake {
    /// All of so many actors are awake.
    pub(crate) fn all(actors: u8) -> Awake
        requires { actors ≤ 81 }
        ensures actors { result.actors ≡ actors }
        ensures awake { is_awake result ≡ (λ k. nat_lt k actors) }
    {
        let bits = (1 << actors) - 1;
        Awake { actors, bits }
    }

    /// How many actors there are.
    pub(crate) fn actors(&self) -> u8
        ensures { result ≡ self.now.actors }
    {
        self.actors
    }

    /// Wakes each actor.
    pub(crate) fn wake_all(&mut self)
        ensures actors { self.new.actors ≡ self.old.actors }
        ensures awake { is_awake self.new ≡ (λ k. nat_lt k self.old.actors) }
    {
        self.bits = (1 << self.actors) - 1;
    }

    /// Wakes this actor.
    pub(crate) fn wake(&mut self, actor: ActorNo)
        requires { actor < self.old.actors }
        ensures actors { self.new.actors ≡ self.old.actors }
        ensures awake { is_awake self.new ≡ put actor true (is_awake self.old) }
    {
        self.bits |= 1 << actor.get();
    }

    /// Puts this actor to sleep.
    pub(crate) fn remove(&mut self, actor: ActorNo)
        ensures actors { self.new.actors ≡ self.old.actors }
        ensures awake { is_awake self.new ≡ put actor false (is_awake self.old) }
    {
        self.bits &= !(1 << actor.get());
    }

    /// The first awake actor at or after this one, in a circle.
    pub(crate) fn next(&self, from: ActorNo) -> Option<ActorNo>
        requires { 0 < self.now.actors → from < self.now.actors }
        ensures next { result ≡ awake_from (is_awake self.now) self.now.actors self.now.actors from }
        ensures awake { IfSome result (λ actor. is_awake self.now actor ≡ true) }
        ensures below { IfSome result (λ actor. actor < self.now.actors) }
    {
        let first = from.get() as u8;
        let rest = self.bits >> first;
        if rest != 0 {
            return Some(actor_no(first + rest.trailing_zeros() as u8));
        }
        if self.bits != 0 {
            return Some(actor_no(self.bits.trailing_zeros() as u8));
        }
        None
    }
}
