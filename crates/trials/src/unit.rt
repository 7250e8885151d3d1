// A store of maps with two nodes and two parties, strides of 1 as its orders, and the data list that its tasks share.
use kinds::kids::PerKid;
use kinds::maps::{Kpa, MapData, Maps};
use model::calls::Call;
use model::nodes::{Node, Slot};
use model::outcomes::{Outcome, Progress};
use model::running::Plan;
use model::shown::outcome_number;
use orders::limits::Party;
use orders::stride::Stride;
use std::alloc::Global;
use std::process::Abort;
use std::test::Fail;
use store::store::Store;

#[derive(Drop)]
pub(crate) struct Unit {
    pub(crate) store: Store<Maps, Stride, Stride>,
    pub(crate) data: [MapData; 2],
}

// A new store. Party 1 picks the nodes 2, 1, 2, 1 .. and so the parties; party 2 picks 1, 2, 1, 2 ..
pub(crate) fn new_unit(heap: Global) -> Result<Unit, Fail> {
    let store = Store::open(heap, 2, 2, Stride::new(2, 1)?, Stride::new(2, 1)?)?;
    Ok(Unit {
        store,
        data: [MapData { code: 0, number: 0 }; 2],
    })
}

// A Make of a node with this data, from kid slots of which 0 gives none.
pub(crate) fn make(slot: Slot, kids: [Slot; 3], code: u8, number: i32) -> Call<MapData> {
    let [first, second, third] = kids;
    Call::Make(Plan {
        slot,
        kids: PerKid {
            first,
            second,
            third,
        },
        given: MapData { code, number },
    })
}

// The node of a call that ended, 0 where it did not.
pub(crate) fn ended_at(outcome: Outcome<MapData, Kpa>) -> Node {
    match outcome {
        Ok(Progress::Ended(answer)) => answer.node(),
        _ => 0,
    }
}

// Begins the call, which is accepted.
pub(crate) fn begin(rt: &impl Abort, unit: &mut Unit, party: Party, call: Call<MapData>) {
    assert_eq!(rt;
        outcome_number(&unit.store.begin(party, call, &unit.data)),
        0
    );
}

// The party's call goes on for so many turns.
pub(crate) fn go_on(rt: &impl Abort, unit: &mut Unit, party: Party, turns: u32) {
    for _ in 0..turns {
        assert_eq!(rt;
            outcome_number(&unit.store.turn(party, &mut unit.data)),
            100
        );
    }
}

// The call ends at the node, with its last turn of so many.
pub(crate) fn whole(
    rt: &impl Abort,
    unit: &mut Unit,
    party: Party,
    call: Call<MapData>,
    turns: u32,
    node: Node,
) {
    begin(rt, unit, party, call);
    go_on(rt, unit, party, turns.saturating_sub(1));
    assert_eq!(rt; ended_at(unit.store.turn(party, &mut unit.data)), node);
}
