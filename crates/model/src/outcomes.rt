use crate::nodes::{Kids, Node};
use orders::limits::Party;
use refusals::Refusal;

// How many nodes a term has.
pub type TermSize = u16;

// What a call or walk answers when it ends.
#[derive(Clone, Copy, Debug, PartialEq, Eq)]
pub enum Answer<D, W> {
    // Enter, Up and Leave
    Done,
    // Down, Keep, Drop, Hand, Fetch and Make
    AtNode(Node),
    // Read: the node, its data and its kids
    Contents(Node, D, Kids),
    // Sweep: the node and the party that took it, 0 where there is none
    Swept(Node, Party),
    // a walk: the worth, and the number of different nodes
    WorthIs(W, TermSize),
}

// How far an accepted Begin or Turn brings its call.
#[derive(Clone, Copy, Debug, PartialEq, Eq)]
pub enum Progress<D, W> {
    Begun,
    StillRunning,
    Ended(Answer<D, W>),
}

// What a Begin or a Turn tells.
pub type Outcome<D, W> = Result<Progress<D, W>, Refusal>;
