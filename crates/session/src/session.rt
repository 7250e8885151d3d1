ghost use Rattle.std.specs.Prelude.{◌≡◌, All, vec_items, vec_len};
ghost use Rattle.cells.specs.View.{parties_of, nodes_of};
ghost use Rattle.session.specs.Lists.{AnEntryEach};

use crate::lists::WalkLists;
use kinds::kind::Kind;
use orders::order::Order;
use store::store::Store;

// A store with the lists that its parties lend it: the data of all nodes, and for each party what its walks note.
#[derive(Drop)]
pub struct Session<K: Kind, U: Order + Drop, V: Order + Drop> {
    pub(crate) store: Store<K, U, V>,
    pub(crate) entries: Vec<K::Data>,
    pub(crate) walks: Vec<WalkLists<K::Worth>>,
    ghost all_nodes: { vec_len entries ≡ nodes_of store.cells },
    ghost all_parties: { vec_len walks ≡ parties_of store.cells },
    ghost noted: { All (AnEntryEach (nodes_of store.cells)) (vec_items walks) },
}
