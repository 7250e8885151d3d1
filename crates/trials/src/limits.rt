// Which stores open, and the last slot.
use crate::refused_calls::begun;
use crate::unit::{make, new_unit};
use kinds::maps::Maps;
use orders::stride::Stride;
use std::alloc::Global;
use std::test::Fail;
use store::errors::OpenError;
use store::store::Store;

// Nodes, parties, the sizes of the two orders, and the refusal's number, 0 for a store that opened.
const OPENINGS: [(u32, u32, u32, u32, u8); 10] = [
    (255, 15, 255, 15, 0),
    (1, 1, 1, 1, 0),
    (0, 1, 1, 1, 1),
    (256, 1, 255, 1, 1),
    (65_537, 1, 1, 1, 1),
    (1, 0, 1, 1, 1),
    (1, 16, 1, 15, 1),
    (2, 2, 3, 2, 3),
    (2, 2, 2, 3, 3),
    (0, 2, 3, 2, 1),
];

const NO_MEMORY: u8 = 255;

// Slots to fill, and what a Make into them is told.
const SLOTS: [(u8, u8); 4] = [(9, 5), (0, 5), (255, 5), (8, 0)];

// The refusal's number, 0 for a store of the sizes asked for.
fn opening(heap: Global, nodes: u32, parties: u32, node_order: Stride, party_order: Stride) -> u8 {
    match Store::<Maps, Stride, Stride>::open(heap, nodes, parties, node_order, party_order) {
        Ok(store) if store.nodes() as u32 == nodes && store.parties() as u32 == parties => 0,
        Ok(_) => NO_MEMORY - 1,
        Err(OpenError::Refused(refusal)) => refusal.number(),
        Err(OpenError::NoMemory(_)) => NO_MEMORY,
    }
}

#[test]
fn limits(rt: HostRuntime) -> Result<(), Fail> {
    for (nodes, parties, for_nodes, for_parties, number) in OPENINGS {
        let node_order = Stride::new(for_nodes, 1)?;
        let party_order = Stride::new(for_parties, 1)?;
        assert_eq!(rt;
            opening(rt.alloc(), nodes, parties, node_order, party_order),
            number
        );
    }
    let mut unit = new_unit(rt.alloc())?;
    for (slot, number) in SLOTS {
        assert_eq!(rt; begun(&mut unit, 1, 2, make(slot, [0, 0, 0], 0, 7)), number);
    }
    Ok(())
}
