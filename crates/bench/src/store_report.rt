// The store itself: which sizes open, which slots there are, how long a Make may take, and one over two cards.
ghost use Rattle.std.specs.Prelude.{◌≡◌, ◌+◌, ◌*◌};

use kinds::kids::PerKid;
use kinds::maps::{MapData, Maps};
use model::calls::Call;
use model::nodes::{Node, Slot};
use model::outcomes::Progress;
use model::running::Plan;
use orders::card::Card;
use orders::order::Order;
use orders::stride::Stride;
use refusals::Refusal;
use std::alloc::Global;
use store::errors::OpenError;
use store::store::Store;

pub(crate) const BLANK: MapData = MapData { code: 0, number: 0 };

pub(crate) fn report(rt: &HostRuntime) -> anyhow::Result<()> {
    let heap = rt.alloc();
    println!(rt; "the store")?;
    for nodes in [255, 256, 0] {
        answered(rt, "nodes", nodes, opened(heap, nodes)?)?;
    }
    for slot in [8, 9] {
        answered(rt, "slot", u32::from(slot), begun(heap, slot)?)?;
    }
    let (node_order, party_order) = (Stride::new(2, 1)?, Stride::new(2, 1)?);
    made(rt, "strides 1 and 1", node_order, party_order)?;
    made(rt, "cards 2 1 and 2 1", card(heap)?, card(heap)?)
}

fn answered(
    rt: &HostRuntime,
    what: &str,
    number: u32,
    answer: Result<(), Refusal>,
) -> anyhow::Result<()> {
    print!(rt; "  {what} {number}: ")?;
    match answer {
        Ok(()) => println!(rt; "accepted")?,
        Err(refusal) => println!(rt; "{refusal}")?,
    }
    Ok(())
}

// Opens a store of so many nodes, with orders for the most nodes and parties.
fn opened(heap: Global, nodes: u32) -> anyhow::Result<Result<(), Refusal>> {
    let (node_order, party_order) = (Stride::new(255, 1)?, Stride::new(15, 1)?);
    match Store::<Maps, Stride, Stride>::open(heap, nodes, 15, node_order, party_order) {
        Ok(_) => Ok(Ok(())),
        Err(OpenError::Refused(refusal)) => Ok(Err(refusal)),
        Err(e) => Err(e.into()),
    }
}

pub(crate) fn make(slot: Slot) -> Call<MapData> {
    Call::Make(Plan {
        slot,
        kids: PerKid::all(0),
        given: BLANK,
    })
}

// Begins a Make into the slot.
fn begun(heap: Global, slot: Slot) -> anyhow::Result<Result<(), Refusal>> {
    let (node_order, party_order) = (Stride::new(2, 1)?, Stride::new(2, 1)?);
    let mut store = Store::<Maps, Stride, Stride>::open(heap, 2, 2, node_order, party_order)?;
    Ok(store.begin(1, make(slot), &[BLANK; 2]).map(|_| ()))
}

fn card(heap: Global) -> anyhow::Result<Card> {
    Ok(Card::new(2, [2, 1].to_vec(heap)?)?)
}

// Turns of its own after which no Make still runs, unless at some moment of it no node was free.
fn bound(node_span: u32, parties: u8, party_span: u32) -> u128
    ensures { result ≡ 18 * node_span * (parties * party_span + 1) + 28 }
{
    let rounds = u128::from(parties) * u128::from(party_span) + 1;
    18 * u128::from(node_span) * rounds + 28
}

// Makes a node in a store of two nodes and two parties, and tells where and in how many turns.
fn made<U: Order + Drop, V: Order + Drop>(
    rt: &HostRuntime,
    orders: &str,
    node_order: U,
    party_order: V,
) -> anyhow::Result<()> {
    let bound = bound(node_order.span(), 2, party_order.span());
    let mut store = Store::<Maps, U, V>::open(rt.alloc(), 2, 2, node_order, party_order)?;
    let (node, turns) = ended(&mut store, bound)?;
    println!(rt;
        "  two nodes, two parties, {orders}: Make's bound is {bound}, one ended at node {node} after {turns} turns"
    )?;
    Ok(())
}

// Where party 1's Make ended, and in how many turns; 0 where it did not.
fn ended<U: Order + Drop, V: Order + Drop>(
    store: &mut Store<Maps, U, V>,
    bound: u128,
) -> Result<(Node, u128), Refusal> {
    let mut data = [BLANK; 2];
    store.begin(1, make(1), &data)?;
    for turn in 0..bound {
        if let Progress::Ended(answer) = store.turn(1, &mut data)? {
            return Ok((answer.node(), turn + 1));
        }
    }
    Ok((0, bound))
}
