ghost use Rattle.std.specs.Prelude.{◌≤◌};
ghost use Rattle.orders.specs.Limits.{last_party, largest_size};
ghost use Rattle.model.specs.Sound.{Sound};
ghost use Rattle.cells.specs.View.{view_of, parties_of, nodes_of};

use cells::records::Cells;
use kinds::kind::Kind;
use orders::order::Order;

// A store that parties share: its words, the order in which a party looks for a node, and the order in which it offers one.
// The limits and the model's invariant stand in its type.
#[derive(Drop)]
pub struct Store<K: Kind, U: Order + Drop, V: Order + Drop> {
    pub(crate) cells: Cells<K::Data>,
    pub(crate) node_order: U,
    pub(crate) party_order: V,
    ghost parties: { (1 ≤ parties_of cells) × (parties_of cells ≤ last_party) },
    ghost nodes: { (1 ≤ nodes_of cells) × (nodes_of cells ≤ largest_size) },
    ghost sound: { ∥ Sound (parties_of cells) (nodes_of cells) (view_of cells) ∥₁ },
}
