ghost use Rattle.std.specs.Prelude.{[], ◌∷◌};
ghost use Rattle.model.specs.Checks.{first_fault};
ghost use Rattle.checks.specs.Faults.{RefusedIf};

use refusals::Refusal;

// Refused with this where the fault is there.
pub(crate) fn refuse_if(there: bool, refusal: Refusal) -> Result<(), Refusal>
    ensures { RefusedIf there refusal result }
{
    if there { Err(refusal) } else { Ok(()) }
}
