// A party's trail, in an array that is long enough for every path.
ghost use Rattle.std.specs.Prelude.{◌≡◌, ◌<◌, ◌≤◌, []};
ghost use Rattle.orders.specs.Limits.{largest_size};
ghost use Rattle.model.specs.Checks.{entered_at, is_none};
ghost use Rattle.model.specs.State.{along, last_of, longer, no_trail, shorter, trail_of};

use crate::nodes::{Node, Slot};
use orders::limits::LARGEST_SIZE;

// A trail never has more nodes than a store can have.
pub const LONGEST_TRAIL: usize = LARGEST_SIZE as usize;

// A path from the node of one of the party's slots along kids: the first `length` of `nodes`; none where `length` is 0.
// Two records may hold one trail, since what lies beyond `length` may be anything.
#[derive(Clone, Copy, Debug)]
pub struct Trail {
    pub entered: Slot,
    pub length: usize,
    pub nodes: [Node; LONGEST_TRAIL],
}

impl Trail {
    pub fn is_none(&self) -> bool
        ensures { result ≡ is_none (trail_of self.now) }
    {
        self.length == 0
    }

    // An empty trail remembers no slot, whatever its record holds.
    pub fn entered_at(&self, i: Slot) -> bool
        ensures { result ≡ entered_at (trail_of self.now) i }
    {
        !self.is_none() && self.entered == i
    }

    // The last node, 0 where there is no trail.
    pub fn last(&self) -> Node
        ensures { result ≡ last_of (trail_of self.now) }
    {
        if self.length < 1 || self.length > LONGEST_TRAIL {
            return 0;
        }
        self.nodes[self.length - 1]
    }

    // Starts at the node of the slot.
    pub fn enter(&mut self, slot: Slot, node: Node)
        ensures { trail_of self.new ≡ along slot node [] }
    {
        self.entered = slot;
        self.nodes[0] = node;
        self.length = 1;
    }

    // Goes on to a node; where there is no trail there stays none, and a full one stays as it is.
    #[tactic(auto, using(crate::proofs::TrailRecords::longer_is))]
    pub fn lengthen(&mut self, node: Node)
        ensures longer { self.old.length < largest_size → trail_of self.new ≡ longer (trail_of self.old) node }
        ensures full { largest_size ≤ self.old.length → self.new ≡ self.old }
    {
        if self.length == 0 || self.length >= LONGEST_TRAIL {
            return;
        }
        self.nodes[self.length] = node;
        self.length += 1;
    }

    // Goes back by one node.
    pub fn shorten(&mut self)
        ensures { trail_of self.new ≡ shorter (trail_of self.old) }
    {
        if self.length == 0 {
            return;
        }
        self.length -= 1;
    }

    // Leaves no trail.
    pub fn leave(&mut self)
        ensures { trail_of self.new ≡ no_trail }
    {
        self.length = 0;
    }
}
