ghost use Rattle.std.specs.Prelude.{◌≡◌, ◌-◌, true, false, vec_len, MatchOption};
ghost use Rattle.std.specs.Borrow.{LendsIf, sem};
ghost use Rattle.std.specs.Vec.{with_item};
ghost use Rattle.model.specs.Entries.{nth};
ghost use Rattle.model.specs.Party.{new_record};
ghost use Rattle.model.specs.Steps.{between};
ghost use Rattle.model.specs.contracts.party.PartyRecord.{the_row as record-row};
ghost use Rattle.cells.specs.contracts.records.Table.{the_row};

use crate::records::Table;
use model::entries::entry_at;
use model::party::PartyRecord;
use orders::limits::Party;

impl<D: Copy> Table<D> {
    // The party's record, if there is such a party.
    pub(crate) fn record(&self, p: Party) -> Option<&PartyRecord<D>>
        ensures { MatchOption result (between 1 (vec_len self.now.records) p ≡ false) (λ x. (between 1 (vec_len self.now.records) p ≡ true) × (x.now ≡ nth new_record self.now.records.items p)) }
    {
        entry_at(&self.records, p)
    }

    // The same, lent.
    pub(crate) fn lend(&mut self, p: Party) -> Option<&mut PartyRecord<D>>
        ensures* follows { sem 𝓛 (LendsIf (the_row D.row) (record-row D.row) self.entry result (λ w. record { records = with_item self.old.records (p - 1) w }) self.old) }
        ensures value { MatchOption result (between 1 (vec_len self.old.records) p ≡ false) (λ x. (between 1 (vec_len self.old.records) p ≡ true) × (x.now ≡ nth new_record self.old.records.items p)) }
    {
        if p < 1 {
            return None;
        }
        self.records.get_mut((p - 1) as usize)
    }
}
