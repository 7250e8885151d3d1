ghost use Rattle.std.specs.Prelude.{◌≡◌};
ghost use Rattle.model.specs.Steps.{between};

use crate::nodes::Node;
use orders::limits::Party;

// How many parties share a store, and how many nodes it has. Both go by numbers from 1.
#[derive(Clone, Copy, Debug, PartialEq, Eq)]
pub struct Sizes {
    pub parties: usize,
    pub nodes: usize,
}

impl Sizes {
    pub fn has_party(self, q: Party) -> bool
        ensures { result ≡ between 1 self.parties q }
    {
        (1..=self.parties).contains(&usize::from(q))
    }

    pub fn has_node(self, n: Node) -> bool
        ensures { result ≡ between 1 self.nodes n }
    {
        (1..=self.nodes).contains(&usize::from(n))
    }
}
