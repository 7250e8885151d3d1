ghost use Rattle.std.specs.Prelude.{MatchResult};
ghost use Rattle.store.specs.Opening.{Opens, OpeningFails};

use crate::errors::OpenError;
use crate::limits::within_limits;
use crate::store::Store;
use cells::records::Cells;
use kinds::kind::Kind;
use orders::order::Order;
use refusals::Refusal;
use std::alloc::Global;

impl<K: Kind, U: Order + Drop, V: Order + Drop> Store<K, U, V> {
    // A new store: all zeros, closed trays, empty trails. Refused with 1 for a number of nodes outside 1 to 255 or of
    // parties outside 1 to 15, then with 3 for an order that is made for another number.
    pub fn open(
        heap: Global,
        nodes: u32,
        parties: u32,
        node_order: U,
        party_order: V,
    ) -> Result<Store<K, U, V>, OpenError>
        ensures { MatchResult result (λ s. Opens U.Order.numbers V.Order.numbers nodes parties node_order party_order s.cells s.node_order s.party_order) (λ e. OpeningFails U.Order.numbers V.Order.numbers nodes parties node_order party_order e) }
    {
        let sizes = within_limits(nodes, parties)?;
        if usize::from(node_order.size()) != sizes.nodes
            || usize::from(party_order.size()) != sizes.parties
        {
            return Err(OpenError::Refused(Refusal::OrderOfAnotherSize));
        }
        let cells = Cells::new(heap, sizes)?;
        Ok(Store {
            cells,
            node_order,
            party_order,
        })
    }
}
