ghost use Rattle.std.specs.Prelude.{◌≡◌, ◌≤◌, ℕ, true, length};
ghost use Rattle.model.specs.Entries.{nth};
ghost use Rattle.model.specs.State.{trail_of};
ghost use Rattle.model.specs.Steps.{between};
ghost use Rattle.cells.specs.Own.{Holds, slots_after, trail_after};
ghost use Rattle.cells.specs.Ready.{has_room, StepsIfReady};
ghost use Rattle.cells.specs.View.{view_of, parties_of, nodes_of, SameSizes};

use crate::records::Cells;
use model::nodes::is_slot;
use model::party::PartyRecord;
use model::running::Running;
use model::trail::{LONGEST_TRAIL, Trail};
use model::words::{Change, Told};
use orders::limits::{Number, Party};
use step::address::address_of;
use step::decide::decide;

// Whether the slot is one, or the trail has room for one node more.
fn has_room(trail: &Trail, change: Change) -> bool
    ensures { result ≡ has_room (trail_of trail.now) change }
{
    match change {
        Change::Stays => true,
        Change::Fills(i, _) => is_slot(i),
        Change::Lengthens(_) => trail.length < LONGEST_TRAIL,
    }
}

// The party's own things after its step.
fn settle<D: Copy>(own: &mut PartyRecord<D>, change: Change, next: Running<D>)
    requires { has_room (trail_of own.old.trail) change ≡ true }
    ensures { Holds own.old own.new (slots_after (nth 0 own.old.slots) change) (trail_after (trail_of own.old.trail) change) next }
{
    own.running = next;
    match change {
        Change::Stays => {}
        Change::Fills(i, v) => own.slots[usize::from(i - 1)] = v,
        Change::Lengthens(n) => own.trail.lengthen(n),
    }
}

impl<D: Copy> Cells<D> {
    // One step of the party: one word read, decided on and written, with the number that an order has picked for it. Nothing,
    // and nothing changed, where what it needs is not there.
    pub fn step<W: Copy>(
        &mut self,
        data: &mut [D],
        party: Party,
        pick: Number,
    ) -> Option<Told<D, W>>
        ensures steps { (d : D) → StepsIfReady (parties_of self.old) (nodes_of self.old) (length «data».old) (view_of self.old) (view_of self.new) (nth d «data».old) (nth d «data».new) party pick result }
        ensures sizes { SameSizes self.old self.new }
    {
        let record = self.record(party)?;
        let address = address_of(record, party, pick, self.sizes());
        let Some(word) = self.load(data, address) else {
            return None;
        };
        let Some(decision) = decide(record, &word, party, pick) else {
            return None;
        };
        if !has_room(&record.trail, decision.change) {
            return None;
        }
        self.put(data, address, decision.word);
        settle(self.table.lend(party)?, decision.change, decision.next);
        Some(decision.told)
    }
}
