// What stands in the words of a store with two nodes and two parties, turn by turn.
use crate::unit::Unit;
use kinds::kids::PerKid;
use model::nodes::{Kids, Node};
use model::tray::Tray;
use model::words::Count;
use orders::limits::Party;
use std::process::Abort;

// A party's turns, and what stands after each of them: the nodes' counts, locks and first kids (they have no others), and
// the parties' inboxes, trays and first slots.
pub(crate) type Row = (
    Party,
    u32,
    [Count; 2],
    [Party; 2],
    [Node; 2],
    [Node; 2],
    [Tray; 2],
    [Node; 2],
);

// A closed tray, an open one, and one that holds a node.
pub(crate) const C: Tray = Tray::Closed;

pub(crate) const O: Tray = Tray::Open;

pub(crate) const H1: Tray = Tray::Holding(1);

pub(crate) const H2: Tray = Tray::Holding(2);

// No second and no third kid.
fn only_kid(first: Node) -> Kids {
    PerKid {
        first,
        second: 0,
        third: 0,
    }
}

// The inbox, the tray and the first slot of a party.
fn own(unit: &Unit, party: Party) -> (Node, Tray, Node) {
    match unit.store.party(party) {
        Some(record) => (record.inbox, record.tray, record.slots[0]),
        None => (0, Tray::Closed, 0),
    }
}

// Takes the turns, and finds the words as they are written down.
pub(crate) fn follow(rt: &impl Abort, unit: &mut Unit, rows: &[Row]) {
    for (party, turns, counts, locks, kids, inboxes, trays, slots) in rows {
        for _ in 0..*turns {
            let _outcome = unit.store.turn(*party, &mut unit.data);
            for n in 1..=2 {
                let i = n as usize - 1;
                assert_eq!(rt; unit.store.count(n), counts[i]);
                assert_eq!(rt; unit.store.lock(n), locks[i]);
                assert_eq!(rt; unit.store.kids(n), only_kid(kids[i]));
                assert_eq!(rt; own(unit, n), (inboxes[i], trays[i], slots[i]));
            }
        }
    }
}
