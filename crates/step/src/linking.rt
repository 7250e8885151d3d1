ghost use Rattle.std.specs.Prelude.{◌≡◌};
ghost use Rattle.model.specs.Steps.{data_given, kid_linked};
ghost use Rattle.step.specs.Linking.{link_from};

use crate::decisions::{end, go, stuck};
use crate::kid::next_kid;
use kinds::kids::Kid;
use model::nodes::Node;
use model::outcomes::Answer;
use model::place::Place;
use model::running::{Job, Plan, Running};
use model::words::{Change, Decision, Word};

// The Make gives its data to the node, and goes on to its first kid.
pub(crate) fn data_given<D: Copy, W: Copy>(job: &Job<D>, v: Node) -> Decision<D, W>
    ensures { result ≡ data_given job.now v }
{
    match job {
        Job::Makes(plan) => link_from(plan, v, Some(Kid::First), Word::DataWord(plan.given)),
        Job::Sweeps => stuck(),
    }
}

// The Make writes a kid into its node, and goes on to the next.
pub(crate) fn kid_linked<D: Copy, W: Copy>(job: &Job<D>, v: Node, k: Kid, w: Node) -> Decision<D, W>
    ensures { result ≡ kid_linked job.now v k w }
{
    match job {
        Job::Makes(plan) => link_from(plan, v, next_kid(k), Word::KidWord(w)),
        Job::Sweeps => stuck(),
    }
}

// The Make goes on to the first kid, from this one on, that it is given; where there is none, the node goes into the slot.
fn link_from<D: Copy, W: Copy>(
    plan: &Plan<D>,
    v: Node,
    from: Option<Kid>,
    word: Word<D>,
) -> Decision<D, W>
    ensures { result ≡ link_from plan.now v from word }
{
    match from {
        None => end(word, Change::Fills(plan.slot, v), Answer::AtNode(v)),
        Some(k) if plan.kids.at(k) == 0 => link_from(plan, v, next_kid(k), word),
        Some(k) => go(
            word,
            Running::Works(Job::Makes(*plan), Place::CountKid(v, k)),
        ),
    }
}
