// The cells of a new store.
ghost use Rattle.std.specs.Prelude.{◌≡◌, IfOk};
ghost use Rattle.model.specs.State.{new_store};
ghost use Rattle.cells.specs.View.{new_words, view_of, parties_of, nodes_of};

use crate::records::{Cells, NodeWords, Table};
use model::nodes::Kids;
use model::party::PartyRecord;
use model::sizes::Sizes;
use std::alloc::{AllocError, Global};

impl NodeWords {
    fn new() -> NodeWords
        ensures { result ≡ new_words }
    {
        NodeWords {
            count: 0,
            lock: 0,
            kids: Kids::all(0),
        }
    }
}

impl<D: Copy> Cells<D> {
    // All zeros, closed trays, empty trails, nothing running.
    pub fn new(heap: Global, sizes: Sizes) -> Result<Cells<D>, AllocError>
        ensures view { IfOk result (λ c. view_of c ≡ new_store) }
        ensures sizes { IfOk result (λ c. (nodes_of c ≡ sizes.nodes) × (parties_of c ≡ sizes.parties)) }
    {
        let nodes = vec![in heap; NodeWords::new(); sizes.nodes]?;
        let records = vec![in heap; PartyRecord::new(); sizes.parties]?;
        Ok(Cells {
            nodes,
            table: Table { records },
        })
    }
}
