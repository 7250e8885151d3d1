ghost use Rattle.std.specs.Prelude.{◌≡◌};
ghost use Rattle.model.specs.Runs.{tells_begun};

use crate::store::Store;
use checks::begins::check_begin;
use kinds::kind::Kind;
use model::calls::{Call, Lengths};
use model::outcomes::{Answer, Outcome, Progress};
use orders::limits::Party;
use orders::order::Order;
use refusals::Refusal;

// Enter, Up and Leave end in their Begin.
fn begun<D: Copy, W: Copy>(call: &Call<D>) -> Outcome<D, W>
    ensures { result ≡ tells_begun call.now }
{
    Ok(match *call {
        Call::Enter(_) | Call::Up | Call::Leave => Progress::Ended(Answer::Done),
        _ => Progress::Begun,
    })
}

impl<K: Kind, U: Order + Drop, V: Order + Drop> Store<K, U, V> {
    ghost use Rattle.store.specs.Moved.{BeginsCall};
    ghost use Rattle.store.specs.Shown.{shown};

    // The party begins the call.
    pub fn begin(
        &mut self,
        party: Party,
        call: Call<K::Data>,
        data: &[K::Data],
    ) -> Outcome<K::Data, K::Worth>
        ensures { BeginsCall K.Kind U.Order V.Order party call result (shown self.old «data».now) (shown self.new «data».now) }
    {
        let sizes = self.cells.sizes();
        let lengths = Lengths::of_call(data.len());
        let record = self.cells.record(party).ok_or(Refusal::NoSuchParty)?;
        check_begin::<K>(&call, party, lengths, record, sizes)?;
        self.cells.start(party, &call)?;
        begun(&call)
    }
}
