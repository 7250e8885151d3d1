// The states in which calls are refused, and whether a store still stands in one.
use crate::unit::{Unit, begin, make, new_unit, whole};
use kinds::maps::MapData;
use model::calls::{Call, Walk};
use model::party::PartyRecord;
use model::shown::outcome_number;
use orders::limits::Party;
use std::alloc::Global;
use std::process::Abort;
use std::test::Fail;
use walks::notes::Notes;

// What party 1 is doing. It has node 2 in slot 1 and node 1 in slot 2; node 2 is node 1's one kid, and node 1 lies in party
// 2's inbox. All other slots and party 1's inbox are empty.
#[derive(Clone, Copy, Debug, PartialEq, Eq)]
pub(crate) enum State {
    // nothing, and it has no trail
    Rests,
    // nothing, but its trail stands at slot 1
    OnTrail,
    // a Sweep, without a trail
    Sweeps,
    // a Read, on its trail from slot 1
    Reads,
    // a walk from slot 1
    Walks,
}

pub(crate) const WALK: Walk = Walk {
    slot: 1,
    range: 0,
    gear: 1,
    temperature: 20,
};

// A store in this state.
pub(crate) fn set_up(rt: &impl Abort, heap: Global, state: State) -> Result<Unit, Fail> {
    let mut unit = new_unit(heap)?;
    whole(rt, &mut unit, 1, make(1, [0, 0, 0], 0, 350), 14, 2);
    whole(rt, &mut unit, 1, make(2, [1, 0, 0], 8, 0), 15, 1);
    begin(rt, &mut unit, 1, Call::Enter(2));
    whole(rt, &mut unit, 1, Call::Keep(3), 1, 1);
    begin(rt, &mut unit, 1, Call::Leave);
    whole(rt, &mut unit, 1, Call::Hand(3, 2), 1, 1);
    enter(rt, &mut unit, state);
    Ok(unit)
}

fn enter(rt: &impl Abort, unit: &mut Unit, state: State) {
    match state {
        State::Rests => {}
        State::OnTrail => begin(rt, unit, 1, Call::Enter(1)),
        State::Sweeps => begin(rt, unit, 1, Call::Sweep),
        State::Reads => {
            begin(rt, unit, 1, Call::Enter(1));
            begin(rt, unit, 1, Call::Read);
        }
        State::Walks => {
            let mut notes = Notes {
                marks: &mut [true; 2],
                worths: &mut [0; 2],
            };
            let outcome = unit.store.begin_walk(1, WALK, &unit.data, &mut notes);
            assert_eq!(rt; outcome_number(&outcome), 0);
        }
    }
}

// Both stores have the same in every word, slot and list.
pub(crate) fn same(rt: &impl Abort, unit: &Unit, other: &Unit) {
    assert_eq!(rt; unit.data, other.data);
    for n in 1..=2 {
        assert_eq!(rt; unit.store.count(n), other.store.count(n));
        assert_eq!(rt; unit.store.lock(n), other.store.lock(n));
        assert_eq!(rt; unit.store.kids(n), other.store.kids(n));
        assert!(rt; same_party(unit, other, n));
    }
}

fn same_party(unit: &Unit, other: &Unit, party: Party) -> bool {
    match (unit.store.party(party), other.store.party(party)) {
        (Some(a), Some(b)) => same_record(a, b),
        _ => false,
    }
}

fn same_record(a: &PartyRecord<MapData>, b: &PartyRecord<MapData>) -> bool {
    a.slots == b.slots
        && a.inbox == b.inbox
        && a.tray == b.tray
        && a.trail.entered == b.trail.entered
        && a.trail.length == b.trail.length
        && a.trail.nodes == b.trail.nodes
        && a.running == b.running
}
