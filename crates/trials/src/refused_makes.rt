// What the Begins of Makes are refused with, the first of two faults where there are two; and nothing has changed then.
use crate::refused_calls::begun;
use crate::states::State::{Rests, Sweeps};
use crate::states::{State, same, set_up};
use crate::unit::make;
use model::nodes::Slot;
use std::test::Fail;

// The slot to fill, the kid slots, code and number, and what the Make is refused with.
const MAKES: [(State, Slot, [Slot; 3], u8, i32, u8); 25] = [
    (Sweeps, 9, [0, 0, 0], 0, 1, 11),
    // no such slot, or kid slot
    (Rests, 0, [0, 0, 0], 0, 1, 5),
    (Rests, 9, [0, 0, 0], 0, 1, 5),
    (Rests, 3, [9, 0, 0], 8, 0, 5),
    (Rests, 3, [1, 9, 0], 16, 0, 5),
    (Rests, 3, [1, 1, 9], 24, 0, 5),
    (Rests, 9, [4, 0, 0], 8, 0, 5),
    (Rests, 3, [4, 9, 0], 16, 0, 5),
    (Rests, 1, [9, 0, 0], 8, 0, 5),
    (Rests, 9, [0, 0, 0], 0, 1_000_001, 5),
    // a kid slot is empty
    (Rests, 3, [4, 0, 0], 8, 0, 13),
    (Rests, 3, [1, 4, 0], 16, 0, 13),
    (Rests, 3, [1, 1, 4], 24, 0, 13),
    (Rests, 3, [3, 0, 0], 8, 0, 13),
    (Rests, 1, [4, 0, 0], 8, 0, 13),
    (Rests, 3, [4, 0, 0], 0, 1, 13),
    // the slot to fill is not
    (Rests, 1, [0, 0, 0], 0, 1, 14),
    (Rests, 1, [1, 0, 0], 8, 0, 14),
    (Rests, 1, [0, 0, 0], 0, 1_000_001, 14),
    // the data does not fit
    (Rests, 3, [0, 0, 0], 0, 1_000_001, 7),
    (Rests, 3, [0, 0, 0], 26, 0, 7),
    (Rests, 3, [0, 0, 0], 8, 0, 7),
    (Rests, 3, [0, 1, 0], 8, 0, 7),
    (Rests, 3, [1, 1, 0], 8, 0, 7),
    (Rests, 3, [1, 0, 0], 8, 1, 7),
];

#[test]
fn makes_refused(rt: HostRuntime) -> Result<(), Fail> {
    for (state, slot, kids, code, data_number, number) in MAKES {
        let before = set_up(&rt, rt.alloc(), state)?;
        let mut unit = set_up(&rt, rt.alloc(), state)?;
        let call = make(slot, kids, code, data_number);
        assert_eq!(rt; begun(&mut unit, 1, 2, call), number, "{call:?}");
        same(&rt, &unit, &before);
    }
    Ok(())
}
