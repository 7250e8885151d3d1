ghost use Rattle.std.specs.Prelude.{◌≡◌, true, false, MatchOption, vec_items};
ghost use Rattle.cells.specs.View.{parties_of};
ghost use Rattle.model.specs.Entries.{nth};
ghost use Rattle.model.specs.Steps.{between};
ghost use Rattle.session.specs.declared.lists.WalkLists.{WalkLists as Lists};

use crate::lists::WalkLists;
use crate::session::Session;
use kinds::kind::Kind;
use model::entries::entry_at;
use orders::limits::Party;
use orders::order::Order;
use store::store::Store;

impl<K: Kind, U: Order + Drop, V: Order + Drop> Session<K, U, V> {
    // The store, to look at its words.
    pub fn store(&self) -> &Store<K, U, V>
        ensures { result.now ≡ self.now.store }
    {
        &self.store
    }

    // The data of all nodes, node n's at n - 1.
    pub fn entries(&self) -> &[K::Data]
        ensures { result.now ≡ vec_items self.now.entries }
    {
        &self.entries
    }

    // What the party's walks have noted, if there is such a party.
    pub fn lists(&self, p: Party) -> Option<&WalkLists<K::Worth>>
        ensures { MatchOption result (between 1 (parties_of self.now.store.cells) p ≡ false) (λ x. (between 1 (parties_of self.now.store.cells) p ≡ true) × ((blank : Lists K.Worth) → x.now ≡ nth blank (vec_items self.now.walks) p)) }
    {
        entry_at(&self.walks, p)
    }
}
