// A walk has read a node, and settles it.
ghost use Rattle.std.specs.Prelude.{◌≡◌, ◌≤◌, true, length};
ghost use Rattle.model.specs.Setting.{setting_for};
ghost use Rattle.model.specs.State.{last};
ghost use Rattle.model.specs.Steps.{between};
ghost use Rattle.cells.specs.View.{view_of, parties_of, SameSizes};
ghost use Rattle.walks.specs.Notes.{SameLists};

use crate::store::Store;
use cells::records::Cells;
use kinds::kind::Kind;
use model::nodes::Node;
use model::outcomes::{Answer, Outcome, Progress};
use model::words::NodeRead;
use orders::limits::Party;
use orders::order::Order;
use walks::notes::Notes;

impl<K: Kind, U: Order + Drop, V: Order + Drop> Store<K, U, V> {
    ghost use Rattle.store.specs.Moved.{FurtherStay, noted_on};
    ghost use Rattle.store.specs.Settled.{Settled};

    // On to the first unmarked kid; where there is none, the node's worth is noted and the walk goes up. At the top it ends.
    pub(crate) fn settle(
        cells: &mut Cells<K::Data>,
        nodes: Node,
        party: Party,
        read: NodeRead<K::Data>,
        notes: &mut Notes<'_, K::Worth>,
    ) -> Outcome<K::Data, K::Worth>
        requires party { between 1 (parties_of cells.old) party ≡ true }
        requires node { between 1 nodes (last (view_of cells.old) party) ≡ true }
        requires lists { (nodes ≤ length notes.old.marks.now) × (nodes ≤ length notes.old.worths.now) }
        ensures settled { Settled (setting_for K.Kind U.Order V.Order (parties_of cells.old) nodes) (view_of cells.old) (view_of cells.new) party read (noted_on K.Kind nodes notes.old) (noted_on K.Kind nodes notes.new) result }
        ensures further { FurtherStay K.Kind nodes notes.old notes.new }
        ensures sizes { SameSizes cells.old cells.new }
        ensures same_lists { SameLists notes.old notes.new }
    {
        let node = cells.last(party);
        let below = notes.first_unmarked(nodes, read.kids);
        if below.is_none() {
            notes.set_down::<K>(nodes, node, read);
        }
        if !cells.go_on(party, read.situation, below) {
            return Ok(Progress::StillRunning);
        }
        let worth = notes.worth_at::<K>(node);
        Ok(Progress::Ended(Answer::WorthIs(worth, notes.count_marked(nodes))))
    }
}
