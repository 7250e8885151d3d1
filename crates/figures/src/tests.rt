// Tables of worths, fits, picks and refusals, with their edges.
use kinds::gearbox::Situation;
use kinds::kids::PerKid;
use kinds::kind::Kind;
use kinds::maps::{Kpa, MapData, Maps};
use kinds::traces::{TraceData, Traces, Worst};
use orders::card::Card;
use orders::order::Order;
use orders::stride::Stride;
use std::test::Fail;

const LOW: i32 = i32::MIN;

const TOP: i32 = i32::MAX;

// Code, number, the kids' worths, and the worth in low range, gear 3, oil at -7 degrees.
const WORTHS: [(u8, i32, Kpa, Kpa, Kpa, Kpa); 40] = [
    (0, 1_000_000, 0, 0, 0, 1_000_000),
    (0, -1_000_000, 0, 0, 0, -1_000_000),
    (0, 1_000_001, 0, 0, 0, 0),
    (0, -1_000_001, 0, 0, 0, 0),
    (1, 0, 9, 9, 9, 0),
    (2, 0, 9, 9, 9, 3),
    (3, 0, 9, 9, 9, -7),
    (4, 0, 9, 9, 9, 0),
    (26, 0, 9, 9, 9, 0),
    (255, 0, 9, 9, 9, 0),
    (16, 1, 2, 3, 0, 0),
    (8, 0, -1_000_000, 0, 0, 1_000_000),
    (8, 0, LOW, 0, 0, 1_000_000),
    (16, 0, 2, 3, 0, 5),
    (16, 0, 900_000, 100_000, 0, 1_000_000),
    (16, 0, 900_000, 200_000, 0, 1_000_000),
    (16, 0, -900_000, -200_000, 0, -1_000_000),
    (16, 0, TOP, TOP, 0, 1_000_000),
    (16, 0, LOW, LOW, 0, -1_000_000),
    (17, 0, 5, 8, 0, -3),
    (17, 0, LOW, TOP, 0, -1_000_000),
    (18, 0, 5, -8, 0, -8),
    (19, 0, 5, -8, 0, 5),
    (20, 0, 7, 50, 0, 3),
    (20, 0, -7, 50, 0, -3),
    (20, 0, 7, -50, 0, -3),
    (20, 0, -7, -50, 0, 3),
    (20, 0, 1, 99, 0, 0),
    (20, 0, -1, 99, 0, 0),
    (20, 0, 1_000_000, 1_000_000, 0, 1_000_000),
    (20, 0, -1_000_000, 1_000_000, 0, -1_000_000),
    (20, 0, LOW, LOW, 0, 1_000_000),
    (24, 0, 0, 4, 9, 4),
    (24, 0, 1, 4, 9, 9),
    (24, 0, -1, 4, 9, 9),
    (24, 0, 0, TOP, 9, 1_000_000),
    (25, 0, 5, 10, 3, 10),
    (25, 0, 5, 1, 3, 3),
    (25, 0, 2, 1, 3, 2),
    (25, 0, LOW, LOW, LOW, -1_000_000),
];

#[test]
fn worths(rt: HostRuntime) -> Result<(), Fail> {
    let s = Situation::new(0, 3, -7)?;
    for (code, number, first, second, third, expected) in WORTHS {
        let kids = PerKid {
            first,
            second,
            third,
        };
        assert_eq!(rt; Maps::work_out(MapData { code, number }, s, kids), expected);
    }
    Ok(())
}

// Code, number, which kids are given, and whether that fits.
const FITS: [(u8, i32, [bool; 3], bool); 14] = [
    (0, 1_000_000, [false, false, false], true),
    (0, 1_000_001, [false, false, false], false),
    (0, -1_000_001, [false, false, false], false),
    (0, 5, [true, false, false], false),
    (3, 0, [false, false, false], true),
    (3, 1, [false, false, false], false),
    (4, 0, [false, false, false], false),
    (8, 0, [true, false, false], true),
    (8, 0, [false, true, false], false),
    (16, 0, [true, true, false], true),
    (16, 0, [true, false, true], false),
    (16, 0, [true, true, true], false),
    (25, 0, [true, true, true], true),
    (32, 0, [true, true, true], false),
];

#[test]
fn fits(rt: HostRuntime) {
    for (code, number, [first, second, third], expected) in FITS {
        let given = PerKid {
            first,
            second,
            third,
        };
        assert_eq!(rt; Maps::fits(MapData { code, number }, given), expected);
    }
}

#[test]
fn traces(rt: HostRuntime) -> Result<(), Fail> {
    let s = Situation::new(1, 16, 150)?;
    let none = PerKid::all(Traces::blank());
    let edge = Traces::work_out(trace(9, 2_000_000), s, none);
    assert_eq!(rt; edge, worst(9, 2_000_000));
    let late = Traces::work_out(trace(9, 2_000_001), s, PerKid::all(edge));
    assert_eq!(rt; late, worst(0, 0));
    let mut kids = none;
    kids.third = worst(7, 8);
    let split = Traces::work_out(trace(1, 9), s, kids);
    assert_eq!(rt; split, worst(7, 9));
    Ok(())
}

fn trace(severity: u8, hour: u32) -> TraceData {
    TraceData { severity, hour }
}

fn worst(severity: u8, hour: u32) -> Worst {
    Worst { severity, hour }
}

#[test]
fn parties_keep_their_places(rt: HostRuntime) -> Result<(), Fail> {
    let mut order = Stride::new(7, 3)?;
    assert_eq!(rt; order.pick(1), 4);
    assert_eq!(rt; order.pick(8), 4);
    assert_eq!(rt; order.pick(1), 7);
    assert_eq!(rt; order.pick(0), 0);
    assert_eq!(rt; order.pick(16), 0);
    assert_eq!(rt; order.pick(8), 7);
    assert_eq!(rt; order.pick(1), 3);
    Ok(())
}

#[test]
fn card_goes_round(rt: HostRuntime) -> Result<(), Fail> {
    let mut order = Card::new(4, [4, 2, 3, 1].to_vec(rt.alloc())?)?;
    assert_eq!(rt; order.pick(3), 1);
    assert_eq!(rt; order.pick(3), 4);
    assert_eq!(rt; order.pick(2), 3);
    assert_eq!(rt; order.pick(3), 2);
    Ok(())
}

// Size, stride, and the refusal's number, or 0.
const MAKINGS: [(u32, u32, u8); 12] = [
    (0, 1, 1),
    (256, 1, 1),
    (65_536, 0, 1),
    (65_537, 1, 1),
    (255, 255, 2),
    (255, 254, 0),
    (9, 0, 2),
    (9, 6, 2),
    (9, 256, 2),
    (9, 65_537, 2),
    (1, 255, 0),
    (9, 40, 0),
];

#[test]
fn makings(rt: HostRuntime) {
    for (m, stride, expected) in MAKINGS {
        let number = match Stride::new(m, stride) {
            Ok(_) => 0,
            Err(refusal) => refusal.number(),
        };
        assert_eq!(rt; number, expected);
    }
}
