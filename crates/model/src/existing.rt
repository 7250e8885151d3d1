// What is promised of every store that can exist, for every kind of data and every two search orders.
ghost use Rattle.std.specs.Prelude.{◌≡◌, ℕ, ◌+◌, ◌*◌};
ghost use Rattle.model.specs.Setting.{setting_for};
ghost use Rattle.model.specs.Existing.{CountsAreReferences, CountsAreAtMost, NoNodeReachesItself, NoTrailOutgrowsTheNodes, TrailsArePaths, ReachedDataFits, EachNodeHasOneWorth, EachTermHasOneSize};

use crate::nodes::Node;
use crate::words::Count;
use kinds::kind::Kind;
use orders::limits::Party;
use orders::order::Order;

// Each count is the number of slots, inboxes, trays and kids naming the node, plus one for each party carrying it.
pub fn counts_are_references<K: Kind, U: Order, V: Order>()
    ensures { (N M : ℕ) → CountsAreReferences (setting_for K.Kind U.Order V.Order N M) }
{}

// The most that a count can be in a store of so many parties and nodes.
pub fn most_references<K: Kind, U: Order, V: Order>(parties: Party, nodes: Node) -> Count
    ensures value { result ≡ 12 * parties + 3 * nodes }
    ensures bound { CountsAreAtMost (setting_for K.Kind U.Order V.Order parties nodes) result }
{
    references(parties, nodes)
}

// Eight slots, an inbox, a tray and two hands of each party, three kids of each node.
fn references(parties: Party, nodes: Node) -> Count
    ensures { result ≡ 12 * parties + 3 * nodes }
{
    12 * Count::from(parties) + 3 * Count::from(nodes)
}

// No node reaches itself through kids.
pub fn no_node_reaches_itself<K: Kind, U: Order, V: Order>()
    ensures { (N M : ℕ) → NoNodeReachesItself (setting_for K.Kind U.Order V.Order N M) }
{}

// A trail has at most as many nodes as the store.
pub fn no_trail_outgrows_the_nodes<K: Kind, U: Order, V: Order>()
    ensures { (N M : ℕ) → NoTrailOutgrowsTheNodes (setting_for K.Kind U.Order V.Order N M) }
{}

// A trail is empty, or a path from the node of one of its party's slots, from node to kid.
pub fn trails_are_paths<K: Kind, U: Order, V: Order>()
    ensures { (N M : ℕ) → TrailsArePaths (setting_for K.Kind U.Order V.Order N M) }
{}

// The data of every node that a slot or inbox reaches fits its kids.
pub fn reached_data_fits<K: Kind, U: Order, V: Order>()
    ensures { (N M : ℕ) → ReachedDataFits (setting_for K.Kind U.Order V.Order N M) }
{}

// In each situation a node works out to a worth, and to no other.
pub fn each_node_has_one_worth<K: Kind, U: Order, V: Order>()
    ensures { (N M : ℕ) → EachNodeHasOneWorth (setting_for K.Kind U.Order V.Order N M) }
{}

// A term has one number of different nodes.
pub fn each_term_has_one_size<K: Kind, U: Order, V: Order>()
    ensures { (N M : ℕ) → EachTermHasOneSize (setting_for K.Kind U.Order V.Order N M) }
{}
