//! What operations tell, and what orders come to.
use gup_base::ActorNo;
use gup_plain::{Answer, Waiting};

/// An operation: its actor, and its number in it, from 1.
#[derive(Clone, Copy, Debug, PartialEq, Eq)]
pub struct Named {
    pub actor: ActorNo,
    pub op: u32,
}

/// What an operation tells: a word that its transfer has moved, or its answer.
#[derive(Clone, Copy, Debug, PartialEq, Eq, Hash)]
pub enum Told {
    Word(u64),
    Answer(Answer),
}

/// Something that is told of the operation at this place among those that are named.
#[derive(Clone, Copy, Debug, PartialEq, Eq, Hash)]
pub struct Tell {
    pub name: usize,
    pub told: Told,
}

/// What an order comes to: what the named operations tell, what each actor waits for at the end, and the order.
#[derive(Debug, Drop)]
pub struct Outcome {
    pub tells: Vec<Tell>,
    pub waits: Vec<Option<Waiting>>,
    pub path: Vec<ActorNo>,
}
