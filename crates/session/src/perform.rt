ghost use Rattle.std.specs.Prelude.{MatchResult, vec_items};
ghost use Rattle.store.specs.Opening.{OpeningFails};
ghost use Rattle.session.specs.Performed.{Performs};

use crate::session::Session;
use kinds::kind::Kind;
use model::calls::Event;
use model::outcomes::Outcome;
use orders::order::Order;
use std::alloc::Global;
use store::errors::OpenError;

// What performing commands comes to: the outcome of each, and the store with its lists as it is then.
#[derive(Drop)]
pub struct Performed<K: Kind, U: Order + Drop, V: Order + Drop> {
    pub session: Session<K, U, V>,
    pub outcomes: Vec<Outcome<K::Data, K::Worth>>,
}

// Opens a store and carries out the commands, one after another. Memory for the outcomes is asked for before the first
// command, so that no command is lost for want of it.
pub fn perform<K: Kind, U: Order + Drop, V: Order + Drop>(
    heap: Global,
    nodes: u32,
    parties: u32,
    node_order: U,
    party_order: V,
    commands: &[Event<K::Data>],
) -> Result<Performed<K, U, V>, OpenError>
    ensures { MatchResult result (λ p. Performs nodes parties node_order party_order «commands».now (vec_items p.outcomes) p.session) (λ e. OpeningFails U.Order.numbers V.Order.numbers nodes parties node_order party_order e) }
{
    let mut session = Session::open(heap, nodes, parties, node_order, party_order)?;
    let mut outcomes = Vec::with_capacity(heap, commands.len())?;
    for command in commands {
        outcomes.push_reserved(session.carry_out(*command));
    }
    Ok(Performed { session, outcomes })
}
