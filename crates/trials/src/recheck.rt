// A node is not taken on the reading of its count: another task may have locked and claimed it between.
use crate::unit::{begin, make, new_unit, whole};
use crate::words::{C, H2, O, Row, follow};
use model::calls::Call;
use std::test::Fail;

// Both find node 2 free. Party 2 claims it; party 1 then gets its lock, and the recheck shows the count.
const TURNS: [Row; 11] = [
    // party 1 opens its tray, reads it, and looks at node 2
    (1, 3, [1, 0], [0, 0], [0, 0], [1, 0], [O, C], [0, 0]),
    // party 2 does the same
    (2, 3, [1, 0], [0, 0], [0, 0], [1, 0], [O, O], [0, 0]),
    // party 2 locks node 2, rechecks it, and reads its three kids
    (2, 5, [1, 0], [0, 2], [0, 0], [1, 0], [O, O], [0, 0]),
    // party 2 claims it
    (2, 1, [1, 1], [0, 2], [0, 0], [1, 0], [O, O], [0, 0]),
    // party 2 unlocks it
    (2, 1, [1, 1], [0, 0], [0, 0], [1, 0], [O, O], [0, 0]),
    // party 1 locks it, and rechecks it
    (1, 2, [1, 1], [0, 1], [0, 0], [1, 0], [O, O], [0, 0]),
    // party 1 unlocks it and goes back
    (1, 1, [1, 1], [0, 0], [0, 0], [1, 0], [O, O], [0, 0]),
    // party 2 offers it, to itself
    (2, 1, [1, 1], [0, 0], [0, 0], [1, 0], [O, H2], [0, 0]),
    // party 2 closes its tray
    (2, 1, [1, 1], [0, 0], [0, 0], [1, 0], [O, C], [0, 0]),
    // party 2 writes the data, and has the node
    (2, 1, [1, 1], [0, 0], [0, 0], [1, 0], [O, C], [0, 2]),
    // party 1 reads its tray, and looks at node 1
    (1, 2, [1, 1], [0, 0], [0, 0], [1, 0], [O, C], [0, 2]),
];

// Node 1 lies in party 1's inbox all the while.
#[test]
fn recheck_after_the_lock(rt: HostRuntime) -> Result<(), Fail> {
    let mut unit = new_unit(rt.alloc())?;
    whole(&rt, &mut unit, 2, make(8, [0, 0, 0], 0, 350), 14, 1);
    whole(&rt, &mut unit, 2, Call::Hand(8, 1), 1, 1);
    begin(&rt, &mut unit, 1, make(1, [0, 0, 0], 0, 7));
    begin(&rt, &mut unit, 2, make(1, [0, 0, 0], 0, 8));
    follow(&rt, &mut unit, &TURNS);
    Ok(())
}
