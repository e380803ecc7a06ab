use gup_base::ActorNo;

/// A gate before each operation, for tests. It may wait.
pub trait Pace {
    /// Is called before the first step of the operation with number `op` of this actor.
    fn before(&self, actor: ActorNo, op: u32);
}

/// The pace that holds nobody up.
#[derive(Clone, Copy, Debug, PartialEq, Eq)]
pub struct NoPace;

impl Pace for NoPace {
    fn before(&self, _actor: ActorNo, _op: u32) {}
}
