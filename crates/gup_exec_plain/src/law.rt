//! What the plain model promises, over every list of its events.
ghost use Rattle.std.specs.Prelude.{ℕ, ◌==◌, Bool, List};
ghost use Rattle.gup_plain.specs.declared.event.PlainEvent.{PlainEvent};
ghost use Rattle.gup_plain.specs.State.{plain_start};
ghost use Rattle.gup_exec_plain.specs.Possible.{one_run};
ghost use Rattle.gup_exec_plain.specs.LastWrite.{ArePossible, after, LastWrite, CountsPages};

/// The law of the last write: whatever reads a word of an object, be it a load, a device, a look or a fork, finds what
/// was last written to it, or 0; and what a page names was written by its process's stores to the page, by devices
/// through a pin of the object, and by the fork that made the page, and by nothing else.
pub fn last_write()
    ensures { (is_born : ℕ → Bool) → LastWrite is_born }
{}

/// A process has as many pages as are named.
pub fn pages_are_counted()
    ensures { (is_born : ℕ → Bool) (events : List PlainEvent) → ArePossible (plain_start is_born) events → CountsPages (after (plain_start is_born) events) }
{}

/// The laws are not empty: a page is mapped, written, pinned, read and written through the pin, and copied by a fork,
/// whose child finds what the pin has written.
pub fn runs_are_possible()
    ensures { ArePossible (plain_start (λ p. p == 0)) one_run }
{}
