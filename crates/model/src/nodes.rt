// Numbers of nodes and slots, and the kids of a node.
ghost use Rattle.std.specs.Prelude.{◌≡◌};
ghost use Rattle.model.specs.Checks.{last_slot};
ghost use Rattle.model.specs.Steps.{between};

use kinds::kids::PerKid;
use orders::limits::Number;

// A node, from 1; 0 stands for no node.
pub type Node = Number;

// One of a party's slots, from 1; 0 stands for no slot.
pub type Slot = u8;

pub const SLOTS: usize = 8;

// Whether the number is a slot's.
pub fn is_slot(i: Slot) -> bool
    ensures { result ≡ between 1 last_slot i }
{
    (1..=SLOTS).contains(&usize::from(i))
}

// The kids of a node; 0 for none.
pub type Kids = PerKid<Node>;
