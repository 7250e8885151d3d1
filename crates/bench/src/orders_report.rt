use orders::card::Card;
use orders::limits::Party;
use orders::order::Order;
use orders::picks::picks;
use orders::stride::Stride;
use refusals::Refusal;

// Size, stride, party and how many picks.
const STRIDES: [(u32, u32, Party, u32); 9] = [
    (9, 4, 1, 4),
    (9, 4, 2, 9),
    (1, 1, 1, 1),
    (255, 254, 15, 3),
    (9, 3, 1, 4),
    (0, 1, 1, 1),
    (256, 1, 1, 1),
    (9, 0, 1, 1),
    (9, 256, 1, 1),
];

// Card, party and how many picks; the size is 3.
const CARDS: [([u32; 3], Party, u32); 4] = [
    ([2, 1, 3], 1, 3),
    ([2, 1, 3], 16, 2),
    ([2, 1, 2], 1, 1),
    ([2, 65_536, 3], 1, 1),
];

pub(crate) fn report(rt: &HostRuntime) -> anyhow::Result<()> {
    println!(rt; "search orders")?;
    for (m, by, party, times) in STRIDES {
        stride(rt, m, by, party, times)?;
    }
    for (entries, party, times) in CARDS {
        card(rt, 3, &entries, party, times)?;
    }
    card(rt, 3, &[2, 1], 1, 1)
}

fn stride(rt: &HostRuntime, m: u32, stride: u32, party: Party, times: u32) -> anyhow::Result<()> {
    print!(rt; "  stride order, m {m}, stride {stride}: ")?;
    answers(rt, Stride::new(m, stride), party, times)
}

fn card(rt: &HostRuntime, m: u32, entries: &[u32], party: Party, times: u32) -> anyhow::Result<()> {
    print!(rt; "  card order, m {m}, card")?;
    for e in entries {
        print!(rt; " {e}")?;
    }
    print!(rt; ": ")?;
    answers(rt, Card::new(m, entries.to_vec(rt.alloc())?), party, times)
}

fn answers<O: Order + Drop>(
    rt: &HostRuntime,
    made: Result<O, Refusal>,
    party: Party,
    times: u32,
) -> anyhow::Result<()> {
    let mut order = match made {
        Ok(order) => order,
        Err(refusal) => return Ok(println!(rt; "{refusal}")?),
    };
    print!(rt; "span {}, party {party} picks", order.span())?;
    let numbers = picks(&mut order, party, times, rt.alloc())?;
    for n in &numbers {
        print!(rt; " {n}")?;
    }
    println!(rt; "")?;
    Ok(())
}
