use figures::pressures::line_pressure;
use kinds::codes::Code;
use kinds::gearbox::Situation;
use kinds::kids::PerKid;
use kinds::kind::Kind;
use kinds::maps::{Kpa, MapData, Maps};

// Name, code and the kids' worths.
const NODES: [(&str, Code, Kpa, Kpa, Kpa); 4] = [
    ("scaled", Code::Scaled, 7, 50, 0),
    ("scaled", Code::Scaled, -7, 50, 0),
    ("sum", Code::Sum, 900_000, 200_000, 0),
    ("held", Code::Held, 5, 10, 3),
];

pub(crate) fn report(rt: &HostRuntime) -> anyhow::Result<()> {
    println!(rt; "shift maps")?;
    nodes(rt)?;
    number(rt, 1_000_000)?;
    number(rt, 1_000_001)?;
    bytes(rt, -350)?;
    for (gear, temperature) in [(1, -40), (1, 90), (8, 20), (16, -40), (16, 150)] {
        pressure(rt, 0, gear, temperature)?;
        pressure(rt, 1, gear, temperature)?;
    }
    for (range, gear, temperature) in [(2, 1, 20), (0, 17, 20), (0, 1, 151)] {
        pressure(rt, range, gear, temperature)?;
    }
    Ok(())
}

fn nodes(rt: &HostRuntime) -> anyhow::Result<()> {
    let s = Situation::new(0, 1, 20)?;
    for (name, code, first, second, third) in NODES {
        let kids = PerKid {
            first,
            second,
            third,
        };
        println!(rt;
            "  {name} {first}, {second}, {third}: {} kPa",
            Maps::work_out(MapData::new(code, 0), s, kids)
        )?;
    }
    Ok(())
}

fn number(rt: &HostRuntime, number: i32) -> anyhow::Result<()> {
    let data = MapData::new(Code::Number, number);
    let answer = if Maps::fits(data, PerKid::all(false)) {
        "fits"
    } else {
        "does not fit"
    };
    println!(rt; "  number {number}: {answer}")?;
    Ok(())
}

fn bytes(rt: &HostRuntime, number: i32) -> anyhow::Result<()> {
    let (byte, word) = Maps::to_bytes(MapData::new(Code::Number, number));
    let [a, b, c, d] = word;
    println!(rt;
        "  number {number} as bytes: {byte}, {a} {b} {c} {d}, and back: {}",
        Maps::from_bytes(byte, word).number
    )?;
    Ok(())
}

fn pressure(rt: &HostRuntime, range: i32, gear: i32, temperature: i32) -> anyhow::Result<()> {
    print!(rt; "  line pressure, range {range}, gear {gear}, oil {temperature} C: ")?;
    match Situation::new(range, gear, temperature) {
        Ok(s) => println!(rt; "{} kPa", line_pressure(s))?,
        Err(refusal) => println!(rt; "{refusal}")?,
    }
    Ok(())
}
