use crate::nodes::{Kids, Node, Slot};
use crate::outcomes::Outcome;
use crate::running::Running;
use crate::tray::Tray;
use kinds::gearbox::Situation;
use kinds::kids::Kid;
use orders::limits::Party;

// How many slots, inboxes, trays, kids and carriers name a node.
pub type Count = u16;

// Which shared word a step touches.
#[derive(Clone, Copy, Debug, PartialEq, Eq)]
pub enum Address {
    Nowhere,
    CountOf(Node),
    LockOf(Node),
    KidOf(Node, Kid),
    DataOf(Node),
    InboxOf(Party),
    TrayOf(Party),
}

// A shared word as a step reads it, or as it is to write it; `NoWord` where it does neither.
#[derive(Clone, Copy, Debug, PartialEq, Eq)]
pub enum Word<D> {
    NoWord,
    CountWord(Count),
    LockWord(Party),
    KidWord(Node),
    DataWord(D),
    InboxWord(Node),
    TrayWord(Tray),
}

// What a step does to its party's slots and trail.
#[derive(Clone, Copy, Debug, PartialEq, Eq)]
pub enum Change {
    Stays,
    Fills(Slot, Node),
    Lengthens(Node),
}

// What a walk has read of a node: its data and its kids, in the walk's situation.
#[derive(Clone, Copy, Debug, PartialEq, Eq)]
pub struct NodeRead<D> {
    pub situation: Situation,
    pub given: D,
    pub kids: Kids,
}

// What a step tells: an outcome, or that a walk has read its node and is to settle it.
#[derive(Clone, Copy, Debug, PartialEq, Eq)]
pub enum Told<D, W> {
    Tells(Outcome<D, W>),
    Settles(NodeRead<D>),
}

// What a step decides from the word that it has read.
#[derive(Clone, Copy, Debug, PartialEq, Eq)]
pub struct Decision<D, W> {
    pub word: Word<D>,
    pub change: Change,
    pub next: Running<D>,
    pub told: Told<D, W>,
}
