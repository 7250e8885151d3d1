ghost use Rattle.model.specs.Checks.{turn_fault, walk_turn_fault};
ghost use Rattle.checks.specs.Faults.{AcceptedUnless};

use crate::refuse::refuse_if;
use model::calls::Lengths;
use model::running::Running;
use model::sizes::Sizes;
use orders::limits::Party;
use refusals::Refusal;

// What a Turn is refused with.
pub fn check_turn<D: Copy>(
    running: &Running<D>,
    party: Party,
    lengths: Lengths,
    sizes: Sizes,
) -> Result<(), Refusal>
    ensures { AcceptedUnless (turn_fault sizes.parties sizes.nodes party lengths running.now) result }
{
    refuse_if(!sizes.has_party(party), Refusal::NoSuchParty)?;
    refuse_if(!lengths.covers_call(sizes.nodes), Refusal::ShortList)?;
    refuse_if(running.is_walking(), Refusal::Busy)?;
    refuse_if(running.is_idle(), Refusal::NothingToTurn)
}

// What a walk's Turn is refused with.
pub fn check_turn_walk<D: Copy>(
    running: &Running<D>,
    party: Party,
    lengths: Lengths,
    sizes: Sizes,
) -> Result<(), Refusal>
    ensures { AcceptedUnless (walk_turn_fault sizes.parties sizes.nodes party lengths running.now) result }
{
    refuse_if(!sizes.has_party(party), Refusal::NoSuchParty)?;
    refuse_if(!lengths.covers_walk(sizes.nodes), Refusal::ShortList)?;
    refuse_if(!running.is_walking(), Refusal::NothingToTurn)
}
