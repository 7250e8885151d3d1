ghost use Rattle.std.specs.Prelude.{◌≡◌};

use crate::store::Store;
use checks::turns::check_turn;
use kinds::kind::Kind;
use model::calls::Lengths;
use model::outcomes::Outcome;
use model::words::Told;
use orders::limits::Party;
use orders::order::Order;

impl<K: Kind, U: Order + Drop, V: Order + Drop> Store<K, U, V> {
    ghost use Rattle.store.specs.Moved.{TurnsCall};
    ghost use Rattle.store.specs.Shown.{shown};

    // The next step of the party's call. A Make's step that writes its node's data changes one entry of the list.
    pub fn turn(&mut self, party: Party, data: &mut [K::Data]) -> Outcome<K::Data, K::Worth>
        ensures { TurnsCall K.Kind U.Order V.Order party result (shown self.old «data».old) (shown self.new «data».new) }
    {
        let running = self.cells.running(party);
        let lengths = Lengths::of_call(data.len());
        check_turn(&running, party, lengths, self.cells.sizes())?;
        match self.take_step(party, data) {
            Told::Tells(outcome) => outcome,
            Told::Settles(_) => unreachable!(),
        }
    }
}
