// What the Begins of calls are refused with, the first of two faults where there are two; and nothing has changed then.
use crate::states::State::{OnTrail, Reads, Rests, Sweeps, Walks};
use crate::states::{State, same, set_up};
use crate::unit::Unit;
use kinds::kids::PerKid;
use kinds::maps::MapData;
use model::calls::Call;
use model::running::Plan;
use model::shown::outcome_number;
use orders::limits::Party;
use std::test::Fail;

const MAKE: Call<MapData> = Call::Make(Plan {
    slot: 3,
    kids: PerKid {
        first: 1,
        second: 0,
        third: 0,
    },
    given: MapData { code: 8, number: 0 },
});

const EACH_CALL: [Call<MapData>; 11] = [
    Call::Enter(1),
    Call::Up,
    Call::Leave,
    Call::Read,
    Call::Down(1),
    Call::Keep(3),
    Call::Drop(1),
    Call::Hand(1, 2),
    Call::Fetch(3),
    MAKE,
    Call::Sweep,
];

// What party 1 is doing, the party that begins, the length of its data list, and what it is refused with, whatever the call.
const WHATEVER_THE_CALL: [(State, Party, usize, u8); 10] = [
    (Rests, 0, 2, 4),
    (Rests, 3, 2, 4),
    (Rests, 255, 2, 4),
    (Rests, 3, 1, 4),
    (Rests, 1, 1, 6),
    (Sweeps, 1, 1, 6),
    (Walks, 1, 0, 6),
    (Sweeps, 1, 2, 11),
    (Reads, 1, 2, 11),
    (Walks, 1, 2, 11),
];

// Party 1's call, and what it is refused with.
const CALLS: [(State, usize, Call<MapData>, u8); 47] = [
    // the receiver
    (Rests, 2, Call::Hand(1, 0), 4),
    (Rests, 2, Call::Hand(1, 3), 4),
    (Rests, 1, Call::Hand(1, 3), 4),
    (Sweeps, 2, Call::Hand(1, 3), 4),
    (Rests, 2, Call::Hand(9, 3), 4),
    // busy, and a fault of the call's own
    (Sweeps, 2, Call::Enter(9), 11),
    (Sweeps, 2, Call::Down(4), 11),
    (Sweeps, 2, Call::Keep(9), 11),
    (Sweeps, 2, Call::Drop(9), 11),
    (Sweeps, 2, Call::Hand(9, 2), 11),
    (Sweeps, 2, Call::Fetch(9), 11),
    (Reads, 2, Call::Drop(1), 11),
    (Reads, 2, Call::Hand(1, 2), 11),
    (Sweeps, 2, Call::Drop(3), 11),
    (Sweeps, 2, Call::Hand(3, 2), 11),
    (Sweeps, 2, Call::Fetch(1), 11),
    // no such slot or kid
    (Rests, 2, Call::Enter(0), 5),
    (Rests, 2, Call::Enter(9), 5),
    (OnTrail, 2, Call::Enter(9), 5),
    (OnTrail, 2, Call::Down(0), 5),
    (OnTrail, 2, Call::Down(4), 5),
    (Rests, 2, Call::Down(4), 5),
    (OnTrail, 2, Call::Keep(0), 5),
    (OnTrail, 2, Call::Keep(9), 5),
    (Rests, 2, Call::Keep(9), 5),
    (Rests, 2, Call::Drop(0), 5),
    (Rests, 2, Call::Drop(9), 5),
    (Rests, 2, Call::Hand(0, 2), 5),
    (Rests, 2, Call::Hand(9, 2), 5),
    (Rests, 2, Call::Fetch(0), 5),
    (Rests, 2, Call::Fetch(9), 5),
    // no trail
    (Rests, 2, Call::Up, 15),
    (Rests, 2, Call::Leave, 15),
    (Rests, 2, Call::Read, 15),
    (Rests, 2, Call::Down(1), 15),
    (Rests, 2, Call::Keep(3), 15),
    (Rests, 2, Call::Keep(1), 15),
    // a trail stands
    (OnTrail, 2, Call::Enter(2), 16),
    (OnTrail, 2, Call::Enter(3), 16),
    (OnTrail, 2, Call::Drop(1), 16),
    (OnTrail, 2, Call::Hand(1, 2), 16),
    // an empty slot
    (Rests, 2, Call::Enter(3), 13),
    (Rests, 2, Call::Drop(3), 13),
    (Rests, 2, Call::Hand(3, 2), 13),
    // a filled one
    (OnTrail, 2, Call::Keep(1), 14),
    (OnTrail, 2, Call::Keep(2), 14),
    (Rests, 2, Call::Fetch(1), 14),
];

// The number that the Begin tells, given a data list of this length.
pub(crate) fn begun(unit: &mut Unit, party: Party, entries: usize, call: Call<MapData>) -> u8 {
    let data = unit.data;
    outcome_number(&unit.store.begin(party, call, &data[0..entries.min(2)]))
}

#[test]
fn refused_whatever_the_call(rt: HostRuntime) -> Result<(), Fail> {
    for (state, party, entries, number) in WHATEVER_THE_CALL {
        let before = set_up(&rt, rt.alloc(), state)?;
        let mut unit = set_up(&rt, rt.alloc(), state)?;
        for call in EACH_CALL {
            assert_eq!(rt;
                begun(&mut unit, party, entries, call),
                number,
                "{state:?} {call:?}"
            );
            same(&rt, &unit, &before);
        }
    }
    Ok(())
}

#[test]
fn calls_refused(rt: HostRuntime) -> Result<(), Fail> {
    for (state, entries, call, number) in CALLS {
        let before = set_up(&rt, rt.alloc(), state)?;
        let mut unit = set_up(&rt, rt.alloc(), state)?;
        assert_eq!(rt;
            begun(&mut unit, 1, entries, call),
            number,
            "{state:?} {call:?}"
        );
        same(&rt, &unit, &before);
    }
    Ok(())
}
