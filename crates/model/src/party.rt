ghost use Rattle.std.specs.Prelude.{◌≡◌};
ghost use Rattle.model.specs.Entries.{nth};
ghost use Rattle.model.specs.Party.{new_record};

use crate::entries::entry;
use crate::nodes::{Node, SLOTS, Slot};
use crate::running::Running;
use crate::trail::{LONGEST_TRAIL, Trail};
use crate::tray::Tray;

// What a party has: slots, inbox and tray, its trail, and the call that it is running.
#[derive(Clone, Copy, Debug)]
pub struct PartyRecord<D> {
    pub slots: [Node; SLOTS],
    pub inbox: Node,
    pub tray: Tray,
    pub trail: Trail,
    pub running: Running<D>,
}

impl<D: Copy> PartyRecord<D> {
    // Empty slots and inbox, a closed tray, no trail, nothing running.
    pub fn new() -> PartyRecord<D>
        ensures { result ≡ new_record }
    {
        PartyRecord {
            slots: [0; SLOTS],
            inbox: 0,
            tray: Tray::Closed,
            trail: Trail {
                entered: 0,
                length: 0,
                nodes: [0; LONGEST_TRAIL],
            },
            running: Running::Idle,
        }
    }

    // The node of the slot, 0 where it is empty and where there is no such slot.
    pub fn node_of(&self, i: Slot) -> Node
        ensures { result ≡ nth 0 self.now.slots i }
    {
        entry(&self.slots, i, 0)
    }
}
