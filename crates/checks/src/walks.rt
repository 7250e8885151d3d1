ghost use Rattle.std.specs.Prelude.{IfOk};
ghost use Rattle.kinds.specs.Situations.{Describes};
ghost use Rattle.checks.specs.Faults.{AcceptedUnless, walk_fault_of};

use crate::slots::{check_slot, check_taking};
use kinds::gearbox::Situation;
use kinds::kind::Kind;
use model::calls::Walk;
use model::party::PartyRecord;
use refusals::Refusal;

// What a walk asks of its numbers and of its party's slots and trail.
pub(crate) fn check_walk<K: Kind>(
    walk: Walk,
    own: &PartyRecord<K::Data>,
) -> Result<Situation, Refusal>
    ensures fault { AcceptedUnless (walk_fault_of K.Kind.suits walk own.now) result }
    ensures situation { IfOk result (λ s. Describes s walk.range walk.gear walk.temperature) }
{
    check_slot(walk.slot)?;
    let situation = Situation::new(walk.range, walk.gear, walk.temperature)?;
    check_taking(walk.slot, !own.trail.is_none(), own)?;
    Ok(situation)
}
