// A Make ends within its bound beside a party that never stops working.
use crate::unit::{Unit, begin, ended_at, make, new_unit};
use kinds::maps::MapData;
use model::calls::Call;
use model::shown::outcome_number;
use std::test::Fail;

// For two nodes, two parties and orders of span 2.
const BOUND: u32 = 18 * 2 * (2 * 2 + 1) + 28;

const NOTHING_TO_TURN: u8 = 12;

const SLOT_FILLED: u8 = 14;

// Party 1 takes a turn, or begins the call again; where its slot is filled it drops that first.
fn work(unit: &mut Unit, call: Call<MapData>) {
    if outcome_number(&unit.store.turn(1, &mut unit.data)) == NOTHING_TO_TURN
        && outcome_number(&unit.store.begin(1, call, &unit.data)) == SLOT_FILLED
    {
        let _dropping = unit.store.begin(1, Call::Drop(1), &unit.data);
    }
}

// Whether party 2's Make ends within the bound, if party 1 takes so many turns between two of party 2's.
fn ends_within_bound(unit: &mut Unit, call: Call<MapData>, between: u32) -> bool {
    for _ in 0..BOUND {
        for _ in 0..between {
            work(unit, call);
        }
        if ended_at(unit.store.turn(2, &mut unit.data)) != 0 {
            return true;
        }
    }
    false
}

#[test]
fn make_beside_a_working_party(rt: HostRuntime) -> Result<(), Fail> {
    assert_eq!(rt; BOUND, 208);
    for between in 0..40 {
        for call in [make(1, [0, 0, 0], 0, 7), Call::Sweep] {
            let mut unit = new_unit(rt.alloc())?;
            begin(&rt, &mut unit, 2, make(1, [0, 0, 0], 0, 8));
            assert!(rt;
                ends_within_bound(&mut unit, call, between),
                "{call:?} {between}"
            );
        }
    }
    Ok(())
}
