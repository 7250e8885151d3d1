ghost use Rattle.std.specs.Prelude.{◌≡◌};
ghost use Rattle.model.specs.Checks.{is_idle, is_walking};

use crate::nodes::{Node, Slot};
use crate::place::Place;
use kinds::gearbox::Situation;
use kinds::kids::{Kid, PerKid};
use orders::limits::Party;

// What a Make is to make: the slot to fill, the slots that give the kids, and the data.
#[derive(Clone, Copy, Debug, PartialEq, Eq)]
pub struct Plan<D> {
    pub slot: Slot,
    pub kids: PerKid<Slot>,
    pub given: D,
}

// The two calls that search for a node: a Make fills a slot with it, a Sweep only cleans it and hands it on.
#[derive(Clone, Copy, Debug, PartialEq, Eq)]
pub enum Job<D> {
    Makes(Plan<D>),
    Sweeps,
}

// What a Read, or a walk's reading, has read so far of the trail's last node.
#[derive(Clone, Copy, Debug, PartialEq, Eq)]
pub enum Reading<D> {
    ReadNothing,
    ReadData(D),
    ReadFirst(D, Node),
    ReadSecond(D, Node, Node),
}

// The call or walk that a party is running, with what it remembers between two steps.
#[derive(Clone, Copy, Debug, PartialEq, Eq)]
pub enum Running<D> {
    Idle,
    Reads(Reading<D>),
    GoesDown(Kid),
    Keeps(Slot),
    Drops(Slot),
    Hands(Slot, Party),
    Fetches(Slot),
    TakesOut(Slot, Node),
    Works(Job<D>, Place),
    WalkReads(Situation, Reading<D>),
    WalkGoesDown(Situation, Kid),
}

impl<D> Running<D> {
    pub fn is_idle(&self) -> bool
        ensures { result ≡ is_idle self.now }
    {
        matches!(self, Running::Idle)
    }

    pub fn is_walking(&self) -> bool
        ensures { result ≡ is_walking self.now }
    {
        matches!(self, Running::WalkReads(_, _) | Running::WalkGoesDown(_, _))
    }
}
