// A worked interleaving, carried out on a store: a Make and a Sweep that meet at one node.
use crate::store_report::{BLANK, make};
use kinds::kids::Kid;
use kinds::maps::{Kpa, MapData, Maps};
use model::calls::Call;
use model::outcomes::{Outcome, Progress};
use model::place::Place;
use model::running::Running;
use model::shown::outcome_number;
use orders::limits::Party;
use orders::stride::Stride;
use store::store::Store;

type Strides = Store<Maps, Stride, Stride>;

// Party 1 makes, party 3 sweeps; both pick node 2. What the party is to do next, turn by turn: the Sweep has the lock, so the
// Make goes back to its tray, and finds there what the Sweep has offered.
const TURNS: [(Party, Place); 16] = [
    (1, Place::OpenTray),
    (1, Place::ReadTray),
    (1, Place::LookForNode),
    (3, Place::LookForNode),
    (3, Place::LockNode(2)),
    (1, Place::LockNode(2)),
    (3, Place::Recheck(2)),
    (3, Place::ReadKid(2, Kid::First)),
    (3, Place::ReadKid(2, Kid::Second)),
    (3, Place::ReadKid(2, Kid::Third)),
    (3, Place::Claim(2)),
    (3, Place::Unlock(2)),
    (3, Place::Offer(2)),
    (1, Place::ReadTray),
    (1, Place::CloseTray(2)),
    (1, Place::WriteData(2)),
];

pub(crate) fn report(rt: &HostRuntime) -> anyhow::Result<()> {
    println!(rt; "a Make and a Sweep that meet at node 2")?;
    let (node_order, party_order) = (Stride::new(2, 1)?, Stride::new(3, 1)?);
    let mut store = Strides::open(rt.alloc(), 2, 3, node_order, party_order)?;
    let mut data = [BLANK; 2];
    store.begin(1, make(1), &data)?;
    store.begin(3, Call::Sweep, &data)?;
    for (party, place) in TURNS {
        let stands = stands_at(&store, party, place);
        let outcome = store.turn(party, &mut data);
        turned(rt, party, place, stands, &outcome)?;
    }
    Ok(())
}

// Whether the party's call is at this place, of this node.
fn stands_at(store: &Strides, party: Party, place: Place) -> bool {
    match store.party(party) {
        Some(record) => match record.running {
            Running::Works(_, at) => at == place,
            _ => false,
        },
        None => false,
    }
}

fn turned(
    rt: &HostRuntime,
    party: Party,
    place: Place,
    stands: bool,
    outcome: &Outcome<MapData, Kpa>,
) -> anyhow::Result<()> {
    let number = outcome_number(outcome);
    let whose = if stands { "is to" } else { "is not to" };
    print!(rt; "  party {party} {whose} {place}: {number}")?;
    match outcome {
        Ok(Progress::Ended(answer)) => {
            println!(rt; ", node {}, receiver {}", answer.node(), answer.receiver())?
        }
        _ => println!(rt; "")?,
    }
    Ok(())
}
