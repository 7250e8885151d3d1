// What the Begins of walks are refused with, the first of two faults where there are two; and nothing has changed then.
use crate::states::State::{OnTrail, Reads, Rests, Sweeps, Walks};
use crate::states::{State, same, set_up};
use model::calls::Walk;
use model::nodes::Slot;
use model::shown::outcome_number;
use orders::limits::Party;
use std::test::Fail;
use walks::notes::Notes;

// The lengths of the data, the marks and the worths.
pub(crate) type Lengths = [usize; 3];

const FULL: Lengths = [2, 2, 2];

// What party 1 is doing, the party that begins, its lists' lengths; the slot, range, gear and temperature; and what the walk
// is refused with.
const WALKS: [(State, Party, Lengths, Slot, i32, i32, i32, u8); 28] = [
    (Rests, 0, FULL, 1, 0, 1, 20, 4),
    (Rests, 3, FULL, 1, 0, 1, 20, 4),
    (Rests, 3, [1, 2, 2], 1, 0, 1, 20, 4),
    // a list is too short
    (Rests, 1, [1, 2, 2], 1, 0, 1, 20, 6),
    (Rests, 1, [2, 1, 2], 1, 0, 1, 20, 6),
    (Rests, 1, [2, 2, 1], 1, 0, 1, 20, 6),
    (Sweeps, 1, [2, 1, 2], 1, 0, 1, 20, 6),
    (Walks, 1, [2, 2, 1], 1, 0, 1, 20, 6),
    // busy
    (Sweeps, 1, FULL, 1, 0, 1, 20, 11),
    (Reads, 1, FULL, 1, 0, 1, 20, 11),
    (Walks, 1, FULL, 1, 0, 1, 20, 11),
    (Sweeps, 1, FULL, 9, 0, 1, 20, 11),
    // no such slot
    (Rests, 1, FULL, 0, 0, 1, 20, 5),
    (Rests, 1, FULL, 9, 0, 1, 20, 5),
    (Rests, 1, FULL, 9, 2, 1, 20, 5),
    (OnTrail, 1, FULL, 9, 0, 1, 20, 5),
    // a bad situation
    (Rests, 1, FULL, 1, -1, 1, 20, 8),
    (Rests, 1, FULL, 1, 2, 1, 20, 8),
    (Rests, 1, FULL, 1, 0, 0, 20, 8),
    (Rests, 1, FULL, 1, 0, 17, 20, 8),
    (Rests, 1, FULL, 1, 0, 1, -41, 8),
    (Rests, 1, FULL, 1, 0, 1, 151, 8),
    (OnTrail, 1, FULL, 1, 2, 1, 20, 8),
    (Rests, 1, FULL, 3, 2, 1, 20, 8),
    // a trail stands
    (OnTrail, 1, FULL, 1, 0, 1, 20, 16),
    (OnTrail, 1, FULL, 2, 0, 1, 20, 16),
    (OnTrail, 1, FULL, 3, 0, 1, 20, 16),
    // an empty slot
    (Rests, 1, FULL, 3, 0, 1, 20, 13),
];

#[test]
fn walks_refused(rt: HostRuntime) -> Result<(), Fail> {
    for (state, party, lengths, slot, range, gear, temperature, number) in WALKS {
        let before = set_up(&rt, rt.alloc(), state)?;
        let mut unit = set_up(&rt, rt.alloc(), state)?;
        let walk = Walk {
            slot,
            range,
            gear,
            temperature,
        };
        let [entries, marks, worths] = lengths;
        let mut marked = [true, false];
        let mut noted = [5, 6];
        let mut notes = Notes {
            marks: &mut marked[0..marks.min(2)],
            worths: &mut noted[0..worths.min(2)],
        };
        let data = unit.data;
        let entries = &data[0..entries.min(2)];
        let outcome = unit.store.begin_walk(party, walk, entries, &mut notes);
        assert_eq!(rt; outcome_number(&outcome), number, "{state:?} {walk:?}");
        assert_eq!(rt; (marked, noted), ([true, false], [5, 6]));
        same(&rt, &unit, &before);
    }
    Ok(())
}
