// The largest store: 15 parties that take turns on 255 nodes, and the last node is used.
use crate::unit::{ended_at, make};
use kinds::maps::{MapData, Maps};
use model::calls::Call;
use model::nodes::Node;
use model::shown::outcome_number;
use orders::limits::Party;
use orders::stride::Stride;
use std::process::Abort;
use std::test::Fail;
use store::store::Store;

const NODES: usize = 255;

// Each party, the node that it makes, and the one that it fetches. By the stride of 254 party 1 first looks at node 255 and
// party p at p - 1. By the stride of 1 it offers that to the next party, whose tray is open; and hands what it made to it.
const PARTIES: [(Party, Node, Node); 15] = [
    (1, 14, 13),
    (2, 255, 14),
    (3, 1, 255),
    (4, 2, 1),
    (5, 3, 2),
    (6, 4, 3),
    (7, 5, 4),
    (8, 6, 5),
    (9, 7, 6),
    (10, 8, 7),
    (11, 9, 8),
    (12, 10, 9),
    (13, 11, 10),
    (14, 12, 11),
    (15, 13, 12),
];

#[derive(Drop)]
struct Largest {
    store: Store<Maps, Stride, Stride>,
    data: [MapData; NODES],
}

// Each party's call is begun.
fn begin(rt: &impl Abort, unit: &mut Largest, party: Party, call: Call<MapData>) {
    assert_eq!(rt;
        outcome_number(&unit.store.begin(party, call, &unit.data)),
        0
    );
}

// All parties' calls go on for so many turns, one after another.
fn go_on(rt: &impl Abort, unit: &mut Largest, turns: u32) {
    for _ in 0..turns {
        for (party, _, _) in PARTIES {
            assert_eq!(rt;
                outcome_number(&unit.store.turn(party, &mut unit.data)),
                100
            );
        }
    }
}

// The party's call ends at the node.
fn end(rt: &impl Abort, unit: &mut Largest, party: Party, node: Node) {
    assert_eq!(rt; ended_at(unit.store.turn(party, &mut unit.data)), node);
}

#[test]
fn largest_store(rt: HostRuntime) -> Result<(), Fail> {
    let mut unit = Largest {
        store: Store::open(
            rt.alloc(),
            255,
            15,
            Stride::new(255, 254)?,
            Stride::new(15, 1)?,
        )?,
        data: [MapData { code: 0, number: 0 }; NODES],
    };
    for (party, _, _) in PARTIES {
        begin(&rt, &mut unit, party, make(1, [0, 0, 0], 0, party as i32));
    }
    go_on(&rt, &mut unit, 13);
    for (party, made, _) in PARTIES {
        end(&rt, &mut unit, party, made);
    }
    for (party, made, _) in PARTIES {
        begin(&rt, &mut unit, party, Call::Hand(1, party % 15 + 1));
        end(&rt, &mut unit, party, made);
    }
    for (party, _, _) in PARTIES {
        begin(&rt, &mut unit, party, Call::Fetch(8));
    }
    go_on(&rt, &mut unit, 1);
    for (party, _, fetched) in PARTIES {
        end(&rt, &mut unit, party, fetched);
    }
    assert_eq!(rt; unit.data[254].number, 2);
    assert_eq!(rt; unit.data[13].number, 1);
    assert_eq!(rt; unit.data[12].number, 15);
    Ok(())
}
