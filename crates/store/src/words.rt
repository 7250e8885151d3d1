// What stands in the store's words, for whoever wants to see it between two turns.
ghost use Rattle.std.specs.Prelude.{◌≡◌, true, false, MatchOption};
ghost use Rattle.model.specs.References.{references};
ghost use Rattle.model.specs.Reach.{Acyclic};
ghost use Rattle.model.specs.Steps.{between};
ghost use Rattle.cells.specs.View.{view_of, record_of, parties_of, nodes_of};

use crate::store::Store;
use kinds::kind::Kind;
use model::nodes::{Kids, Node};
use model::party::PartyRecord;
use model::words::Count;
use orders::limits::Party;
use orders::order::Order;

impl<K: Kind, U: Order + Drop, V: Order + Drop> Store<K, U, V> {
    // The node's count, which is how many slots, inboxes, trays and kids name it, and how many parties carry it between two
    // steps; 0 for what is no node.
    pub fn count(&self, n: Node) -> Count
        ensures value { result ≡ (view_of self.now.cells).count n }
        ensures references { between 1 (nodes_of self.now.cells) n ≡ true → result ≡ references (parties_of self.now.cells) (nodes_of self.now.cells) (view_of self.now.cells) n }
    {
        match self.cells.words(n) {
            Some(words) => words.count,
            None => 0,
        }
    }

    // The party that has locked the node, 0 where none has and for what is no node.
    pub fn lock(&self, n: Node) -> Party
        ensures { result ≡ (view_of self.now.cells).lock n }
    {
        match self.cells.words(n) {
            Some(words) => words.lock,
            None => 0,
        }
    }

    // The node's kids, none for what is no node. Down along kids no node comes back to itself.
    pub fn kids(&self, n: Node) -> Kids
        ensures value { result ≡ (view_of self.now.cells).kids n }
        ensures no_node_reaches_itself { Acyclic (view_of self.now.cells).kids }
    {
        match self.cells.words(n) {
            Some(words) => words.kids,
            None => Kids::all(0),
        }
    }

    // What the party has, if there is such a party.
    pub fn party(&self, p: Party) -> Option<&PartyRecord<K::Data>>
        ensures { MatchOption result (between 1 (parties_of self.now.cells) p ≡ false) (λ x. (between 1 (parties_of self.now.cells) p ≡ true) × (x.now ≡ record_of self.now.cells p)) }
    {
        self.cells.record(p)
    }
}
