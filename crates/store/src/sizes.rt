ghost use Rattle.std.specs.Prelude.{◌≡◌};
ghost use Rattle.cells.specs.View.{parties_of, nodes_of};

use crate::store::Store;
use kinds::kind::Kind;
use model::nodes::Node;
use orders::limits::Party;
use orders::order::Order;

impl<K: Kind, U: Order + Drop, V: Order + Drop> Store<K, U, V> {
    // How many parties share the store.
    pub fn parties(&self) -> Party
        ensures { result ≡ parties_of self.now.cells }
    {
        self.cells.sizes().parties as Party
    }

    // How many nodes the store has.
    pub fn nodes(&self) -> Node
        ensures { result ≡ nodes_of self.now.cells }
    {
        self.cells.sizes().nodes as Node
    }
}
