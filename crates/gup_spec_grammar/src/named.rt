//! What names name.

use gup_base::{ActorNo, HandleNo, MirrorNo, ProcNo};

/// What a name of a script names.
#[derive(Clone, Copy, Debug, PartialEq, Eq)]
pub enum Named {
    Process(ProcNo),
    Actor(ActorNo),
    /// A handle that a `pin` or `pinfast` line makes.
    Pin(HandleNo),
    /// A reference that a `get` line takes.
    Got(HandleNo),
    /// A mirror slot, and the device whose it is.
    Mirror(MirrorNo, ActorNo),
}
