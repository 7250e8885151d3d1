// A Make goes on without end while no node is free, and ends once one is.
use crate::unit::{begin, ended_at, go_on, make, new_unit, whole};
use model::calls::Call;
use std::test::Fail;

// Party 2 has looked 2499 times when party 1 drops node 2, which it looks at next: looks for it, locks it, rechecks it, reads
// three kids, claims it, unlocks it, offers it to party 1, keeps it, closes its tray, writes the data.
#[test]
fn make_in_a_full_store(rt: HostRuntime) -> Result<(), Fail> {
    let mut unit = new_unit(rt.alloc())?;
    whole(&rt, &mut unit, 1, make(1, [0, 0, 0], 0, 350), 14, 2);
    whole(&rt, &mut unit, 1, make(2, [0, 0, 0], 0, 7), 13, 1);
    begin(&rt, &mut unit, 2, make(1, [0, 0, 0], 0, 8));
    go_on(&rt, &mut unit, 2, 5_000);
    whole(&rt, &mut unit, 1, Call::Drop(1), 1, 2);
    go_on(&rt, &mut unit, 2, 11);
    assert_eq!(rt; ended_at(unit.store.turn(2, &mut unit.data)), 2);
    assert_eq!(rt; unit.data[1].number, 8);
    Ok(())
}
