ghost use Rattle.std.specs.Prelude.{◌≡◌, ℕ};
ghost use Rattle.model.specs.Steps.{read_on};
ghost use Rattle.model.specs.declared.running.Reading.{Reading};
ghost use Rattle.model.specs.declared.running.Running.{Running};
ghost use Rattle.model.specs.declared.words.Decision.{Decision};
ghost use Rattle.kinds.specs.declared.kids.PerKid.{PerKid};

use crate::decisions::{go, stuck};
use model::nodes::Kids;
use model::running::{Reading, Running};
use model::words::{Decision, Word};

// A reading has one word more; with the fourth it is done.
pub(crate) fn read_on<D: Copy, W: Copy, F, G>(
    reading: Reading<D>,
    word: &Word<D>,
    on: F,
    done: G,
) -> Decision<D, W>
where
    F: Fn(Reading<D>) -> Running<D>,
    G: Fn(D, Kids) -> Decision<D, W>,
    requires on { F.IsAlwaysCallable on }
    requires done { G.IsAlwaysCallable done }
    ensures { (as_on : Reading D → Running D) (as_done : D → PerKid ℕ → Decision D W) → ((h : Reading D) (r : Running D) → F.post on h r → r ≡ as_on h) → ((d : D) (ks : PerKid ℕ) (r : Decision D W) → G.post done d ks r → r ≡ as_done d ks) → result ≡ read_on reading word.now as_on as_done }
{
    match (reading, *word) {
        (Reading::ReadNothing, Word::DataWord(d)) => go(Word::NoWord, on(Reading::ReadData(d))),
        (Reading::ReadData(d), Word::KidWord(a)) => go(Word::NoWord, on(Reading::ReadFirst(d, a))),
        (Reading::ReadFirst(d, a), Word::KidWord(b)) => {
            go(Word::NoWord, on(Reading::ReadSecond(d, a, b)))
        }
        (Reading::ReadSecond(d, first, second), Word::KidWord(third)) => done(
            d,
            Kids {
                first,
                second,
                third,
            },
        ),
        _ => stuck(),
    }
}
