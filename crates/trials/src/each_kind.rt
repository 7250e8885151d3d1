// One store for all kinds of data and all orders: the same calls over maps and traces, strides and cards.
use kinds::kids::PerKid;
use kinds::kind::Kind;
use kinds::maps::{MapData, Maps};
use kinds::traces::{TraceData, Traces, Worst};
use model::calls::{Call, Walk};
use model::nodes::{Node, Slot};
use model::outcomes::{Answer, Outcome, Progress, TermSize};
use model::running::Plan;
use model::shown::outcome_number;
use orders::card::Card;
use orders::limits::Party;
use orders::order::Order;
use orders::stride::Stride;
use refusals::Refusal;
use std::alloc::Global;
use std::process::Abort;
use std::test::Fail;
use store::store::Store;
use walks::notes::Notes;

const WALK: Walk = Walk {
    slot: 2,
    range: 0,
    gear: 1,
    temperature: 20,
};

// The two nodes that the Makes end at, and in how many turns each.
#[derive(Clone, Copy, Debug)]
struct Made {
    leaf: (Node, u32),
    top: (Node, u32),
}

// A stride of 1: party 1 looks at node 2 first, and offers to party 2 first.
const STRIDES: Made = Made {
    leaf: (2, 14),
    top: (1, 17),
};

// The card 2 1: party 1 looks at node 1 first, and offers to itself first.
const CARDS: Made = Made {
    leaf: (1, 13),
    top: (2, 18),
};

// Nodes by strides, parties by cards.
const BOTH: Made = Made {
    leaf: (2, 13),
    top: (1, 18),
};

// A Make of a node with the slot's node as its first two kids.
fn plan<D: Copy>(slot: Slot, kid: Slot, given: D) -> Call<D> {
    Call::Make(Plan {
        slot,
        kids: PerKid {
            first: kid,
            second: kid,
            third: 0,
        },
        given,
    })
}

// The call ends at the node with its last turn.
fn whole<K: Kind, U: Order + Drop, V: Order + Drop>(
    rt: &impl Abort,
    store: &mut Store<K, U, V>,
    data: &mut [K::Data],
    party: Party,
    call: Call<K::Data>,
    (node, turns): (Node, u32),
) {
    assert_eq!(rt; outcome_number(&store.begin(party, call, data)), 0);
    for _ in 1..turns {
        assert_eq!(rt; outcome_number(&store.turn(party, data)), 100);
    }
    assert_eq!(rt; ended_at(store.turn(party, data)), node);
}

fn ended_at<D: Copy, W: Copy>(outcome: Outcome<D, W>) -> Node {
    match outcome {
        Ok(Progress::Ended(answer)) => answer.node(),
        _ => 0,
    }
}

// The worth and the size of a walk that ended.
fn worth_told<D: Copy, W: Copy>(outcome: Outcome<D, W>) -> Option<(W, TermSize)> {
    match outcome {
        Ok(Progress::Ended(Answer::WorthIs(worth, size))) => Some((worth, size)),
        _ => None,
    }
}

// Party 1's walk ends at its 13th turn: each of the two nodes is read, the upper one twice, and it goes down once.
fn walk<K: Kind, U: Order + Drop, V: Order + Drop>(
    rt: &impl Abort,
    store: &mut Store<K, U, V>,
    data: &mut [K::Data],
    worths: &mut [K::Worth],
) -> Option<(K::Worth, TermSize)> {
    let mut notes = Notes {
        marks: &mut [true; 2],
        worths,
    };
    assert_eq!(rt;
        outcome_number(&store.begin_walk(1, WALK, data, &mut notes)),
        0
    );
    for _ in 0..12 {
        assert_eq!(rt; outcome_number(&store.turn_walk(1, data, &mut notes)), 100);
    }
    worth_told(store.turn_walk(1, data, &mut notes))
}

// Party 1 makes a leaf, and a node with the leaf as both its kids; walks over that, and hands it to party 2, which fetches it.
fn tour<K: Kind, U: Order + Drop, V: Order + Drop>(
    rt: &impl Abort,
    heap: Global,
    orders: (U, V),
    [leaf, top]: [K::Data; 2],
    data: &mut [K::Data],
    worths: &mut [K::Worth],
    made: Made,
) -> Result<Option<(K::Worth, TermSize)>, Fail> {
    let (node_order, party_order) = orders;
    let mut store = Store::<K, U, V>::open(heap, 2, 2, node_order, party_order)?;
    let (node, _) = made.top;
    whole(rt, &mut store, data, 1, plan(1, 0, leaf), made.leaf);
    whole(rt, &mut store, data, 1, plan(2, 1, top), made.top);
    let told = walk(rt, &mut store, data, worths);
    whole(rt, &mut store, data, 1, Call::Hand(2, 2), (node, 1));
    whole(rt, &mut store, data, 2, Call::Fetch(3), (node, 2));
    Ok(told)
}

fn card(heap: Global) -> Result<Card, Fail> {
    Ok(Card::new(2, [2, 1].to_vec(heap)?)?)
}

fn stride() -> Result<Stride, Refusal> {
    Stride::new(2, 1)
}

// A sum of twice 175.
const MAP: [MapData; 2] = [
    MapData {
        code: 0,
        number: 175,
    },
    MapData {
        code: 16,
        number: 0,
    },
];

// The later hour stands below, the greater severity above.
const TRACE: [TraceData; 2] = [
    TraceData {
        severity: 2,
        hour: 30,
    },
    TraceData {
        severity: 4,
        hour: 10,
    },
];

const WORST: Worst = Worst {
    severity: 4,
    hour: 30,
};

#[test]
fn maps(rt: HostRuntime) -> Result<(), Fail> {
    let heap = rt.alloc();
    let (d, w) = (&mut [MAP[0]; 2], &mut [0; 2]);
    let strides = (stride()?, stride()?);
    let told = tour::<Maps, Stride, Stride>(&rt, heap, strides, MAP, d, w, STRIDES)?;
    assert_eq!(rt; told, Some((350, 2)));
    let cards = (card(heap)?, card(heap)?);
    let told = tour::<Maps, Card, Card>(&rt, heap, cards, MAP, d, w, CARDS)?;
    assert_eq!(rt; told, Some((350, 2)));
    let both = (stride()?, card(heap)?);
    let told = tour::<Maps, Stride, Card>(&rt, heap, both, MAP, d, w, BOTH)?;
    assert_eq!(rt; told, Some((350, 2)));
    Ok(())
}

#[test]
fn traces(rt: HostRuntime) -> Result<(), Fail> {
    let heap = rt.alloc();
    let (d, w) = (&mut [TRACE[0]; 2], &mut [Traces::blank(); 2]);
    let strides = (stride()?, stride()?);
    let told = tour::<Traces, Stride, Stride>(&rt, heap, strides, TRACE, d, w, STRIDES)?;
    assert_eq!(rt; told, Some((WORST, 2)));
    let cards = (card(heap)?, card(heap)?);
    let told = tour::<Traces, Card, Card>(&rt, heap, cards, TRACE, d, w, CARDS)?;
    assert_eq!(rt; told, Some((WORST, 2)));
    let both = (stride()?, card(heap)?);
    let told = tour::<Traces, Stride, Card>(&rt, heap, both, TRACE, d, w, BOTH)?;
    assert_eq!(rt; told, Some((WORST, 2)));
    Ok(())
}
