ghost use Rattle.std.specs.Prelude.{◌≡◌, ◌*◌, true, pos, ◌≢◌, ◌≤ℤ◌};
ghost use Rattle.kinds.specs.Limits.{between, smallest, largest};
ghost use Rattle.kinds.specs.Maps.{exactly, limited};
ghost use Rattle.kinds.specs.declared.gearbox.Situation.{Situation};
ghost use Rattle.figures.specs.Pressures.{base_pressure, frost, line_pressure, OtherRange};

use kinds::codes::Code;
use kinds::gearbox::Situation;
use kinds::kids::PerKid;
use kinds::kind::Kind;
use kinds::maps::{Kpa, MapData, Maps};

// The line pressure, by a shift map of fifteen nodes: the range chooses the base, frost adds and the gear takes off,
// and the result is held between 400 and 1800 kPa. What it gives in one range it never gives in the other.
pub fn line_pressure(s: Situation) -> Kpa
    ensures value { result ≡ pos (line_pressure s) }
    ensures never_of_the_other_range { (t : Situation) → OtherRange s t → result ≢ pos (line_pressure t) }
{
    let wanted = node_within(Code::Sum, s, base(s), below_zero(s), 0);
    let eased = node_within(Code::Difference, s, wanted, sixteen_gears(s), 0);
    node_within(Code::Held, s, eased, number(400, s), number(1800, s))
}

fn base(s: Situation) -> Kpa
    ensures { result ≡ pos (base_pressure s.range) }
{
    node_within(
        Code::Choose,
        s,
        node_within(Code::Range, s, 0, 0, 0),
        number(1450, s),
        number(900, s),
    )
}

fn below_zero(s: Situation) -> Kpa
    ensures { result ≡ pos (frost s.temperature) }
{
    let oil = node_within(Code::Temperature, s, 0, 0, 0);
    node_within(
        Code::Larger,
        s,
        node_within(Code::Negated, s, oil, 0, 0),
        number(0, s),
        0,
    )
}

// Doubled four times, each node standing twice below the next.
fn sixteen_gears(s: Situation) -> Kpa
    ensures { result ≡ pos (16 * s.gear) }
{
    let gear = node_within(Code::Gear, s, 0, 0, 0);
    let two = node_within(Code::Sum, s, gear, gear, 0);
    let four = node_within(Code::Sum, s, two, two, 0);
    let eight = node_within(Code::Sum, s, four, four, 0);
    node_within(Code::Sum, s, eight, eight, 0)
}

// The worth of a number's node.
fn number(n: i32, s: Situation) -> Kpa
    ensures { between smallest largest n ≡ true → result ≡ n }
{
    Maps::work_out(MapData::new(Code::Number, n), s, PerKid::all(0))
}

// The worth of a node of another code over its kids' worths, where it is within the limits.
fn node_within(code: Code, s: Situation, first: Kpa, second: Kpa, third: Kpa) -> Kpa
    requires low { smallest ≤ℤ exactly code (pos 0) s first second third }
    requires high { exactly code (pos 0) s first second third ≤ℤ largest }
    ensures { result ≡ exactly code (pos 0) s first second third }
{
    node(code, s, first, second, third)
}

// The worth of a node of another code over its kids' worths, a blank for a missing one.
fn node(code: Code, s: Situation, first: Kpa, second: Kpa, third: Kpa) -> Kpa
    ensures { result ≡ limited (exactly code (pos 0) s first second third) }
{
    let kids = PerKid {
        first,
        second,
        third,
    };
    Maps::work_out(MapData::new(code, 0), s, kids)
}
