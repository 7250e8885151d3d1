ghost use Rattle.std.specs.Prelude.{◌≡◌, All, IfOk, MatchResult, replicate, vec_items, vec_len};
ghost use Rattle.session.specs.Performed.{Unnoted};
ghost use Rattle.store.specs.Given.{zero_data};
ghost use Rattle.store.specs.Opening.{OpeningFails};

use crate::lists::WalkLists;
use crate::session::Session;
use kinds::kind::Kind;
use orders::order::Order;
use std::alloc::{AllocError, Global};
use store::errors::OpenError;
use store::store::Store;

// A list with so many entries, all alike.
fn filled<T: Copy>(heap: Global, len: usize, entry: T) -> Result<Vec<T>, AllocError>
    ensures { IfOk result (λ v. vec_items v ≡ replicate len entry) }
{
    let mut list = Vec::with_capacity(heap, len)?;
    for _ in 0..len {
        list.push_reserved(entry);
    }
    Ok(list)
}

// Data of all zero bytes for each of so many nodes.
fn zero_entries<K: Kind>(heap: Global, nodes: usize) -> Result<Vec<K::Data>, AllocError>
    ensures { IfOk result (λ v. vec_items v ≡ replicate nodes (zero_data K.Kind)) }
{
    filled(heap, nodes, K::from_bytes(0, [0; 4]))
}

// Lists for so many nodes, on which nothing is noted.
fn unnoted<K: Kind>(heap: Global, nodes: usize) -> Result<WalkLists<K::Worth>, AllocError>
    ensures { IfOk result (λ l. Unnoted K.Kind.none nodes l) }
{
    Ok(WalkLists {
        marks: filled(heap, nodes, false)?,
        worths: filled(heap, nodes, K::blank())?,
    })
}

// Such lists for each of so many parties.
fn unnoted_by_all<K: Kind>(
    heap: Global,
    nodes: usize,
    parties: usize,
) -> Result<Vec<WalkLists<K::Worth>>, AllocError>
    ensures len { IfOk result (λ v. vec_len v ≡ parties) }
    ensures nothing { IfOk result (λ v. All (Unnoted K.Kind.none nodes) (vec_items v)) }
{
    let mut walks = Vec::with_capacity(heap, parties)?;
    for _ in 0..parties {
        walks.push_reserved(unnoted::<K>(heap, nodes)?);
    }
    Ok(walks)
}

impl<K: Kind, U: Order + Drop, V: Order + Drop> Session<K, U, V> {
    ghost use Rattle.session.specs.Performed.{NewSession};

    // A new store, data of all zero bytes for each of its nodes, and lists for the walks of each of its parties. Refused as
    // a store is.
    pub fn open(
        heap: Global,
        nodes: u32,
        parties: u32,
        node_order: U,
        party_order: V,
    ) -> Result<Session<K, U, V>, OpenError>
        ensures { MatchResult result (λ s. NewSession nodes parties node_order party_order s) (λ e. OpeningFails U.Order.numbers V.Order.numbers nodes parties node_order party_order e) }
    {
        let store = Store::open(heap, nodes, parties, node_order, party_order)?;
        let all_nodes = nodes as usize;
        Ok(Session {
            store,
            entries: zero_entries::<K>(heap, all_nodes)?,
            walks: unnoted_by_all::<K>(heap, all_nodes, parties as usize)?,
        })
    }
}
