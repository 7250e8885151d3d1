ghost use Rattle.std.specs.Prelude.{◌≡◌};
ghost use Rattle.model.specs.Entries.{nth};
ghost use Rattle.model.specs.Steps.{kid_wanted};
ghost use Rattle.step.specs.Linking.{next_kid};

use kinds::kids::Kid;
use model::nodes::Node;
use model::party::PartyRecord;
use model::running::Job;

// The kid after this one.
pub(crate) fn next_kid(k: Kid) -> Option<Kid>
    ensures { result ≡ next_kid k }
{
    match k {
        Kid::First => Some(Kid::Second),
        Kid::Second => Some(Kid::Third),
        Kid::Third => None,
    }
}

// The node that is to become the kid, 0 for a Sweep.
pub(crate) fn wanted<D: Copy>(job: &Job<D>, k: Kid, own: &PartyRecord<D>) -> Node
    ensures { result ≡ kid_wanted job.now k (nth 0 own.now.slots) }
{
    match job {
        Job::Makes(plan) => own.node_of(plan.kids.at(k)),
        Job::Sweeps => 0,
    }
}
