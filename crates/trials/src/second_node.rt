// A Make keeps one node: it gives its own back where its tray was filled meanwhile. The table is that of docs/INTERLEAVING.md,
// and the two are kept equal.
use crate::unit::{begin, make, new_unit};
use crate::words::{C, H1, H2, O, Row, follow};
use std::test::Fail;

const TURNS: [Row; 21] = [
    // party 1 opens its tray, reads it, and looks at node 2
    (1, 3, [0, 0], [0, 0], [0, 0], [0, 0], [O, C], [0, 0]),
    // party 1 locks node 2, rechecks it, and reads its three kids
    (1, 5, [0, 0], [0, 1], [0, 0], [0, 0], [O, C], [0, 0]),
    // party 1 claims node 2
    (1, 1, [0, 1], [0, 1], [0, 0], [0, 0], [O, C], [0, 0]),
    // party 1 unlocks it, and offers it to party 2, whose tray is closed
    (1, 2, [0, 1], [0, 0], [0, 0], [0, 0], [O, C], [0, 0]),
    // party 2 opens its tray, reads it, and looks at node 1
    (2, 3, [0, 1], [0, 0], [0, 0], [0, 0], [O, O], [0, 0]),
    // party 2 locks node 1, rechecks it, and reads its three kids
    (2, 5, [0, 1], [2, 0], [0, 0], [0, 0], [O, O], [0, 0]),
    // party 2 claims node 1
    (2, 1, [1, 1], [2, 0], [0, 0], [0, 0], [O, O], [0, 0]),
    // party 2 unlocks it
    (2, 1, [1, 1], [0, 0], [0, 0], [0, 0], [O, O], [0, 0]),
    // party 2 offers it to party 1, whose tray is open
    (2, 1, [1, 1], [0, 0], [0, 0], [0, 0], [H1, O], [0, 0]),
    // party 1 finds its tray filled, and may not put node 2 there
    (1, 1, [1, 1], [0, 0], [0, 0], [0, 0], [H1, O], [0, 0]),
    // party 1 gives node 2 back
    (1, 1, [1, 0], [0, 0], [0, 0], [0, 0], [H1, O], [0, 0]),
    // party 1 reads its tray: node 1
    (1, 1, [1, 0], [0, 0], [0, 0], [0, 0], [H1, O], [0, 0]),
    // party 1 closes its tray
    (1, 1, [1, 0], [0, 0], [0, 0], [0, 0], [C, O], [0, 0]),
    // party 1 writes the data, and has node 1
    (1, 1, [1, 0], [0, 0], [0, 0], [0, 0], [C, O], [1, 0]),
    // party 2 reads its tray, and looks at node 2
    (2, 2, [1, 0], [0, 0], [0, 0], [0, 0], [C, O], [1, 0]),
    // party 2 locks node 2, rechecks it, and reads its three kids
    (2, 5, [1, 0], [0, 2], [0, 0], [0, 0], [C, O], [1, 0]),
    // party 2 claims node 2
    (2, 1, [1, 1], [0, 2], [0, 0], [0, 0], [C, O], [1, 0]),
    // party 2 unlocks it
    (2, 1, [1, 1], [0, 0], [0, 0], [0, 0], [C, O], [1, 0]),
    // party 2 offers it to itself
    (2, 1, [1, 1], [0, 0], [0, 0], [0, 0], [C, H2], [1, 0]),
    // party 2 closes its tray
    (2, 1, [1, 1], [0, 0], [0, 0], [0, 0], [C, C], [1, 0]),
    // party 2 writes the data, and has node 2
    (2, 1, [1, 1], [0, 0], [0, 0], [0, 0], [C, C], [1, 2]),
];

#[test]
fn tray_filled_meanwhile(rt: HostRuntime) -> Result<(), Fail> {
    let mut unit = new_unit(rt.alloc())?;
    begin(&rt, &mut unit, 1, make(1, [0, 0, 0], 0, 7));
    begin(&rt, &mut unit, 2, make(1, [0, 0, 0], 0, 8));
    follow(&rt, &mut unit, &TURNS);
    assert_eq!(rt; unit.data[0].number, 7);
    assert_eq!(rt; unit.data[1].number, 8);
    Ok(())
}
