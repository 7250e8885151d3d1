// An accepted step: the orders' picks, and the step itself.
ghost use Rattle.std.specs.Prelude.{◌≡◌, ℕ, ◌≤◌, false, length};
ghost use Rattle.model.specs.Checks.{is_idle};
ghost use Rattle.model.specs.Runs.{Asks, asks_nodes, asks_parties};
ghost use Rattle.cells.specs.View.{view_of, parties_of, nodes_of, SameSizes};
ghost use Rattle.model.specs.Setting.{meaning_of};

use crate::store::Store;
use kinds::kind::Kind;
use model::place::Place;
use model::running::Running;
use model::words::Told;
use orders::limits::{Number, Party};
use orders::order::Order;

// The pick that the party's step asks an order for, 0 where it asks none.
fn pick<D: Copy, U: Order, V: Order>(
    node_order: &mut U,
    party_order: &mut V,
    running: &Running<D>,
    party: Party,
) -> Number
    ensures nodes { Asks (meaning_of U.Order) (asks_nodes running.now) node_order.old node_order.new party result }
    ensures parties { Asks (meaning_of V.Order) (asks_parties running.now) party_order.old party_order.new party result }
{
    match *running {
        Running::Works(_, Place::LookForNode) => node_order.pick(party),
        Running::Works(_, Place::Offer(_)) => party_order.pick(party),
        _ => 0,
    }
}

impl<K: Kind, U: Order + Drop, V: Order + Drop> Store<K, U, V> {
    ghost use Rattle.store.specs.Shown.{shown};
    ghost use Rattle.store.specs.Taken.{TakesStep};

    // The next step of what the party is running.
    pub(crate) fn take_step(
        &mut self,
        party: Party,
        data: &mut [K::Data],
    ) -> Told<K::Data, K::Worth>
        requires party { (1 ≤ party) × (party ≤ parties_of self.old.cells) }
        requires entries { nodes_of self.old.cells ≤ length «data».old }
        requires runs { is_idle ((view_of self.old.cells).run party) ≡ false }
        ensures { TakesStep K.Kind U.Order V.Order party result (shown self.old «data».old) (shown self.new «data».new) }
    {
        let running = self.cells.running(party);
        let number = pick(&mut self.node_order, &mut self.party_order, &running, party);
        self.cells.step(data, party, number).unwrap()
    }
}
