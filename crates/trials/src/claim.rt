// A node is claimed before it is unlocked: at no moment of the claim are its count and its lock both 0.
use crate::unit::{begin, go_on, make, new_unit, whole};
use crate::words::{C, H1, H2, O, Row, follow};
use model::calls::Call;
use model::words::Count;
use orders::limits::Party;
use std::test::Fail;

// Node 1 is free and has node 2 as its first kid, which nothing else names.
const TURNS: [Row; 24] = [
    // party 1 opens its tray, reads it, looks at node 2, reads its tray, and looks at node 1
    (1, 5, [0, 1], [0, 0], [2, 0], [0, 0], [O, C], [0, 0]),
    // party 1 locks node 1, rechecks it, and reads its first kid
    (1, 3, [0, 1], [1, 0], [2, 0], [0, 0], [O, C], [0, 0]),
    // party 2 opens its tray, reads it, looks at node 1, finds it locked, and reads its tray
    (2, 5, [0, 1], [1, 0], [2, 0], [0, 0], [O, O], [0, 0]),
    // party 2 looks at node 2, reads its tray, and looks at node 1
    (2, 3, [0, 1], [1, 0], [2, 0], [0, 0], [O, O], [0, 0]),
    // party 1 clears the kid
    (1, 1, [0, 1], [1, 0], [0, 0], [0, 0], [O, O], [0, 0]),
    // party 1 uncounts it
    (1, 1, [0, 0], [1, 0], [0, 0], [0, 0], [O, O], [0, 0]),
    // party 1 reads the other kids
    (1, 2, [0, 0], [1, 0], [0, 0], [0, 0], [O, O], [0, 0]),
    // party 1 claims node 1
    (1, 1, [1, 0], [1, 0], [0, 0], [0, 0], [O, O], [0, 0]),
    // party 2, which read the count 0, finds it locked
    (2, 1, [1, 0], [1, 0], [0, 0], [0, 0], [O, O], [0, 0]),
    // party 1 unlocks it
    (1, 1, [1, 0], [0, 0], [0, 0], [0, 0], [O, O], [0, 0]),
    // party 2 reads its tray, and looks at node 2
    (2, 2, [1, 0], [0, 0], [0, 0], [0, 0], [O, O], [0, 0]),
    // party 1 offers node 1 to party 2
    (1, 1, [1, 0], [0, 0], [0, 0], [0, 0], [O, H1], [0, 0]),
    // party 2 locks node 2, rechecks it, and reads its three kids
    (2, 5, [1, 0], [0, 2], [0, 0], [0, 0], [O, H1], [0, 0]),
    // party 2 claims node 2
    (2, 1, [1, 1], [0, 2], [0, 0], [0, 0], [O, H1], [0, 0]),
    // party 2 unlocks it
    (2, 1, [1, 1], [0, 0], [0, 0], [0, 0], [O, H1], [0, 0]),
    // party 2 offers it to party 1
    (2, 1, [1, 1], [0, 0], [0, 0], [0, 0], [H2, H1], [0, 0]),
    // party 2 reads its tray
    (2, 1, [1, 1], [0, 0], [0, 0], [0, 0], [H2, H1], [0, 0]),
    // party 2 closes it
    (2, 1, [1, 1], [0, 0], [0, 0], [0, 0], [H2, C], [0, 0]),
    // party 2 writes the data, and has node 1
    (2, 1, [1, 1], [0, 0], [0, 0], [0, 0], [H2, C], [0, 1]),
    // party 1 reads its tray
    (1, 1, [1, 1], [0, 0], [0, 0], [0, 0], [H2, C], [0, 1]),
    // party 1 closes it
    (1, 1, [1, 1], [0, 0], [0, 0], [0, 0], [C, C], [0, 1]),
    // party 1 writes the data, and has node 2
    (1, 1, [1, 1], [0, 0], [0, 0], [0, 0], [C, C], [2, 1]),
    // nothing is left to turn
    (1, 1, [1, 1], [0, 0], [0, 0], [0, 0], [C, C], [2, 1]),
    (2, 1, [1, 1], [0, 0], [0, 0], [0, 0], [C, C], [2, 1]),
];

// So many turns of party 1 from its Begin on, and then the count and the lock of node 2.
const HELD: [(u32, Count, Party); 7] = [
    (4, 0, 1),
    (5, 0, 1),
    (6, 0, 1),
    (7, 0, 1),
    (8, 0, 1),
    (9, 1, 1),
    (10, 1, 0),
];

#[test]
fn claim_before_the_unlock(rt: HostRuntime) -> Result<(), Fail> {
    let mut unit = new_unit(rt.alloc())?;
    whole(&rt, &mut unit, 1, make(1, [0, 0, 0], 0, 350), 14, 2);
    whole(&rt, &mut unit, 1, make(2, [1, 0, 0], 8, 0), 15, 1);
    whole(&rt, &mut unit, 1, Call::Drop(2), 1, 1);
    whole(&rt, &mut unit, 1, Call::Drop(1), 1, 2);
    begin(&rt, &mut unit, 1, make(1, [0, 0, 0], 0, 7));
    begin(&rt, &mut unit, 2, make(1, [0, 0, 0], 0, 8));
    follow(&rt, &mut unit, &TURNS);
    Ok(())
}

// However long party 2 works at any moment of the claim, the node stays as party 1 left it.
#[test]
fn claim_stands_at_each_moment(rt: HostRuntime) -> Result<(), Fail> {
    for (turns, count, lock) in HELD {
        let mut unit = new_unit(rt.alloc())?;
        begin(&rt, &mut unit, 1, make(1, [0, 0, 0], 0, 7));
        begin(&rt, &mut unit, 2, make(1, [0, 0, 0], 0, 8));
        go_on(&rt, &mut unit, 1, turns);
        for _ in 0..40 {
            go_on(&rt, &mut unit, 2, 1);
            assert_eq!(rt; (unit.store.count(2), unit.store.lock(2)), (count, lock));
        }
    }
    Ok(())
}
