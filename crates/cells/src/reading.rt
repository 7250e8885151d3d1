// What is read of the cells: their sizes, and what a party has.
ghost use Rattle.std.specs.Prelude.{◌≡◌, true, false, MatchOption};
ghost use Rattle.model.specs.State.{last};
ghost use Rattle.model.specs.Steps.{between};
ghost use Rattle.cells.specs.View.{view_of, record_of, parties_of, nodes_of};

use crate::records::Cells;
use model::nodes::Node;
use model::party::PartyRecord;
use model::running::Running;
use model::sizes::Sizes;
use orders::limits::Party;

impl<D: Copy> Cells<D> {
    // How many parties and nodes there are.
    pub fn sizes(&self) -> Sizes
        ensures { result ≡ record { parties = parties_of self.now; nodes = nodes_of self.now } }
    {
        Sizes {
            parties: self.table.records.len(),
            nodes: self.nodes.len(),
        }
    }

    // The party's record, if there is such a party.
    pub fn record(&self, party: Party) -> Option<&PartyRecord<D>>
        ensures { MatchOption result (between 1 (parties_of self.now) party ≡ false) (λ x. (between 1 (parties_of self.now) party ≡ true) × (x.now ≡ record_of self.now party)) }
    {
        self.table.record(party)
    }

    // What the party is running; what is no party runs nothing.
    pub fn running(&self, party: Party) -> Running<D>
        ensures { result ≡ (view_of self.now).run party }
    {
        match self.record(party) {
            Some(record) => record.running,
            None => Running::Idle,
        }
    }

    // The last node of the party's trail, 0 where it has none.
    pub fn last(&self, party: Party) -> Node
        ensures { result ≡ last (view_of self.now) party }
    {
        match self.record(party) {
            Some(record) => record.trail.last(),
            None => 0,
        }
    }
}
