// What Turns are refused with, and calls at their first step; and nothing has changed then but that such a call has ended.
use crate::refused_calls::begun;
use crate::refused_walks::Lengths;
use crate::states::State::{OnTrail, Reads, Rests, Sweeps, Walks};
use crate::states::{State, same, set_up};
use crate::unit::Unit;
use kinds::maps::MapData;
use model::calls::Call;
use model::shown::outcome_number;
use orders::limits::Party;
use std::test::Fail;
use walks::notes::Notes;

const FULL: Lengths = [2, 2, 2];

// What party 1 is doing, the party that turns, its list's length, and what it is refused with.
const TURNS: [(State, Party, usize, u8); 13] = [
    (Sweeps, 0, 2, 4),
    (Sweeps, 3, 2, 4),
    (Walks, 255, 2, 4),
    (Sweeps, 3, 1, 4),
    (Sweeps, 1, 1, 6),
    (Reads, 1, 0, 6),
    (Walks, 1, 1, 6),
    (Rests, 1, 1, 6),
    (Walks, 1, 2, 11),
    (Rests, 1, 2, 12),
    (OnTrail, 1, 2, 12),
    (Sweeps, 2, 2, 12),
    (Walks, 2, 2, 12),
];

// The same of a walk's Turns.
const WALK_TURNS: [(State, Party, Lengths, u8); 12] = [
    (Walks, 0, FULL, 4),
    (Walks, 3, FULL, 4),
    (Walks, 3, [2, 1, 2], 4),
    (Walks, 1, [1, 2, 2], 6),
    (Walks, 1, [2, 1, 2], 6),
    (Walks, 1, [2, 2, 1], 6),
    (Rests, 1, [2, 2, 1], 6),
    (Sweeps, 1, [2, 1, 2], 6),
    (Rests, 1, FULL, 12),
    (Sweeps, 1, FULL, 12),
    (Reads, 1, FULL, 12),
    (Walks, 2, FULL, 12),
];

// Party 1's call, and what its first step is refused with.
const FIRST_STEPS: [(State, Call<MapData>, u8); 5] = [
    (OnTrail, Call::Down(1), 17),
    (OnTrail, Call::Down(2), 17),
    (OnTrail, Call::Down(3), 17),
    (Rests, Call::Hand(1, 2), 18),
    (Rests, Call::Fetch(3), 19),
];

// The number that the Turn tells, given a data list of this length.
fn turned(unit: &mut Unit, party: Party, entries: usize) -> u8 {
    let mut data = unit.data;
    let number = outcome_number(&unit.store.turn(party, &mut data[0..entries.min(2)]));
    unit.data = data;
    number
}

#[test]
fn turns_refused(rt: HostRuntime) -> Result<(), Fail> {
    for (state, party, entries, number) in TURNS {
        let before = set_up(&rt, rt.alloc(), state)?;
        let mut unit = set_up(&rt, rt.alloc(), state)?;
        assert_eq!(rt;
            turned(&mut unit, party, entries),
            number,
            "{state:?} {party}"
        );
        same(&rt, &unit, &before);
    }
    Ok(())
}

#[test]
fn walk_turns_refused(rt: HostRuntime) -> Result<(), Fail> {
    for (state, party, lengths, number) in WALK_TURNS {
        let before = set_up(&rt, rt.alloc(), state)?;
        let mut unit = set_up(&rt, rt.alloc(), state)?;
        let [entries, marks, worths] = lengths;
        let mut marked = [true, false];
        let mut noted = [5, 6];
        let mut notes = Notes {
            marks: &mut marked[0..marks.min(2)],
            worths: &mut noted[0..worths.min(2)],
        };
        let mut data = unit.data;
        let entries = &mut data[0..entries.min(2)];
        let outcome = unit.store.turn_walk(party, entries, &mut notes);
        unit.data = data;
        assert_eq!(rt; outcome_number(&outcome), number, "{state:?} {party}");
        assert_eq!(rt; (marked, noted), ([true, false], [5, 6]));
        same(&rt, &unit, &before);
    }
    Ok(())
}

#[test]
fn first_steps_refused(rt: HostRuntime) -> Result<(), Fail> {
    for (state, call, number) in FIRST_STEPS {
        let before = set_up(&rt, rt.alloc(), state)?;
        let mut unit = set_up(&rt, rt.alloc(), state)?;
        assert_eq!(rt; begun(&mut unit, 1, 2, call), 0);
        assert_eq!(rt; turned(&mut unit, 1, 2), number, "{call:?}");
        same(&rt, &unit, &before);
        assert_eq!(rt; turned(&mut unit, 1, 2), 12);
    }
    Ok(())
}
