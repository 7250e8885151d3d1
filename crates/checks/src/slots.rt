ghost use Rattle.std.specs.Prelude.{not, [], ◌∷◌, ◌==◌};
ghost use Rattle.refusals.specs.declared.Refusal.TheVariants.{NoSuchSlot, SlotFilled};
ghost use Rattle.model.specs.Checks.{first_fault, no_slot};
ghost use Rattle.model.specs.Entries.{nth};
ghost use Rattle.checks.specs.Faults.{AcceptedUnless, RefusedIf, taking_fault_of};

use crate::refuse::refuse_if;
use model::nodes::{Slot, is_slot};
use model::party::PartyRecord;
use refusals::Refusal;

// Slots go by numbers from 1.
pub(crate) fn check_slot(i: Slot) -> Result<(), Refusal>
    ensures { RefusedIf (no_slot i) NoSuchSlot result }
{
    refuse_if(!is_slot(i), Refusal::NoSuchSlot)
}

// A slot is filled only while it is empty.
pub(crate) fn check_empty<D: Copy>(i: Slot, own: &PartyRecord<D>) -> Result<(), Refusal>
    ensures { RefusedIf (not (nth 0 own.now.slots i == 0)) SlotFilled result }
{
    refuse_if(own.node_of(i) != 0, Refusal::SlotFilled)
}

// A slot's node is taken only while no trail is in the way.
pub(crate) fn check_taking<D: Copy>(
    i: Slot,
    in_the_way: bool,
    own: &PartyRecord<D>,
) -> Result<(), Refusal>
    ensures { AcceptedUnless (taking_fault_of i in_the_way own.now) result }
{
    check_slot(i)?;
    refuse_if(in_the_way, Refusal::TrailStands)?;
    refuse_if(own.node_of(i) == 0, Refusal::SlotEmpty)
}
