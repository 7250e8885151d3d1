ghost use Rattle.std.specs.Prelude.{[], ◌∷◌, not};
ghost use Rattle.refusals.specs.declared.Refusal.TheVariants.{NoSuchSlot, NoTrail};
ghost use Rattle.model.specs.Checks.{first_fault, is_none, last_kid};
ghost use Rattle.model.specs.State.{trail_of};
ghost use Rattle.model.specs.Steps.{between};
ghost use Rattle.checks.specs.Faults.{AcceptedUnless, RefusedIf, call_fault_of};

use crate::makes::check_make;
use crate::refuse::refuse_if;
use crate::slots::{check_empty, check_slot, check_taking};
use kinds::kids::Kid;
use kinds::kind::Kind;
use model::calls::Call;
use model::party::PartyRecord;
use model::trail::Trail;
use refusals::Refusal;

// What a call asks of its party's slots and trail.
pub(crate) fn check_call<K: Kind>(
    call: &Call<K::Data>,
    own: &PartyRecord<K::Data>,
) -> Result<(), Refusal>
    ensures { AcceptedUnless (call_fault_of K.Kind.suits call.now own.now) result }
{
    match *call {
        Call::Enter(i) => check_taking(i, !own.trail.is_none(), own),
        Call::Up | Call::Leave | Call::Read => check_trail(&own.trail),
        Call::Down(k) => {
            check_kid(k)?;
            check_trail(&own.trail)
        }
        Call::Keep(i) => {
            check_slot(i)?;
            check_trail(&own.trail)?;
            check_empty(i, own)
        }
        // both empty their slot, which no trail may then have been entered at
        Call::Drop(i) | Call::Hand(i, _) => check_taking(i, own.trail.entered_at(i), own),
        Call::Fetch(i) => {
            check_slot(i)?;
            check_empty(i, own)
        }
        Call::Make(plan) => check_make::<K>(&plan, own),
        Call::Sweep => Ok(()),
    }
}

// Kids are numbered from 1.
fn check_kid(k: u8) -> Result<(), Refusal>
    ensures { RefusedIf (not (between 1 last_kid k)) NoSuchSlot result }
{
    Kid::try_from(k)?;
    Ok(())
}

fn check_trail(trail: &Trail) -> Result<(), Refusal>
    ensures { RefusedIf (is_none (trail_of trail.now)) NoTrail result }
{
    refuse_if(trail.is_none(), Refusal::NoTrail)
}
