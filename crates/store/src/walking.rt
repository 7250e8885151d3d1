ghost use Rattle.std.specs.Prelude.{◌≡◌, length};
ghost use Rattle.walks.specs.Notes.{SameLists};

use crate::store::Store;
use checks::begins::check_begin_walk;
use checks::turns::check_turn_walk;
use kinds::kind::Kind;
use model::calls::{Lengths, Walk};
use model::outcomes::{Outcome, Progress};
use model::words::Told;
use orders::limits::Party;
use orders::order::Order;
use refusals::Refusal;
use walks::notes::Notes;

impl<K: Kind, U: Order + Drop, V: Order + Drop> Store<K, U, V> {
    ghost use Rattle.store.specs.Moved.{BeginsWalk, TurnsWalk};
    ghost use Rattle.store.specs.Shown.{shown};

    // The party begins a walk, with marks and worths of its own.
    pub fn begin_walk(
        &mut self,
        party: Party,
        walk: Walk,
        data: &[K::Data],
        notes: &mut Notes<'_, K::Worth>,
    ) -> Outcome<K::Data, K::Worth>
        ensures begins { BeginsWalk K.Kind U.Order V.Order party walk result (shown self.old «data».now) (shown self.new «data».now) notes.old notes.new }
        ensures same_lists { SameLists notes.old notes.new }
    {
        let sizes = self.cells.sizes();
        let lengths = lengths_of(data, notes);
        let record = self.cells.record(party).ok_or(Refusal::NoSuchParty)?;
        let situation = check_begin_walk::<K>(walk, party, lengths, record, sizes)?;
        notes.clear(self.nodes());
        self.cells.start_walk(party, walk.slot, situation)?;
        Ok(Progress::Begun)
    }

    // The next step of the party's walk. Marks and worths may hold anything; only those of the store's nodes are looked at.
    pub fn turn_walk(
        &mut self,
        party: Party,
        data: &mut [K::Data],
        notes: &mut Notes<'_, K::Worth>,
    ) -> Outcome<K::Data, K::Worth>
        ensures turns { TurnsWalk K.Kind U.Order V.Order party result (shown self.old «data».old) (shown self.new «data».new) notes.old notes.new }
        ensures same_lists { SameLists notes.old notes.new }
    {
        let running = self.cells.running(party);
        let lengths = lengths_of(data, notes);
        check_turn_walk(&running, party, lengths, self.cells.sizes())?;
        match self.take_step(party, data) {
            Told::Tells(outcome) => outcome,
            Told::Settles(read) => {
                let nodes = self.nodes();
                Self::settle(&mut self.cells, nodes, party, read, notes)
            }
        }
    }
}

// The lengths of the lists that a walk is given.
fn lengths_of<D, W>(data: &[D], notes: &Notes<'_, W>) -> Lengths
    ensures { result ≡ record { entries = length «data».now; marks = length notes.now.marks.now; worths = length notes.now.worths.now } }
{
    Lengths {
        entries: data.len(),
        marks: notes.marks.len(),
        worths: notes.worths.len(),
    }
}
