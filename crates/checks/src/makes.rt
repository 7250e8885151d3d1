ghost use Rattle.std.specs.Prelude.{◌≡◌, ◌||◌};
ghost use Rattle.model.specs.declared.calls.Call.TheVariants.{Make};
ghost use Rattle.model.specs.Checks.{given_by, kid_slot_empty, no_kid_slot};
ghost use Rattle.model.specs.Entries.{nth};
ghost use Rattle.checks.specs.Faults.{AcceptedUnless, call_fault_of};

use crate::refuse::refuse_if;
use crate::slots::{check_empty, check_slot};
use kinds::kids::PerKid;
use kinds::kind::Kind;
use model::nodes::{SLOTS, Slot};
use model::party::PartyRecord;
use model::running::Plan;
use refusals::Refusal;

// What a Make asks of its party's slots. The kids of a plan are the slots that are to give them.
pub(crate) fn check_make<K: Kind>(
    plan: &Plan<K::Data>,
    own: &PartyRecord<K::Data>,
) -> Result<(), Refusal>
    ensures { AcceptedUnless (call_fault_of K.Kind.suits (Make plan.now) own.now) result }
{
    let kids = plan.kids;
    check_slot(plan.slot)?;
    refuse_if(some_kid_slot_missing(kids), Refusal::NoSuchSlot)?;
    refuse_if(some_kid_slot_empty(kids, own), Refusal::SlotEmpty)?;
    check_empty(plan.slot, own)?;
    refuse_if(
        !K::fits(plan.given, given_by(kids)),
        Refusal::DataDoesNotFit,
    )
}

fn some_kid_slot_missing(kids: PerKid<Slot>) -> bool
    ensures { result ≡ no_kid_slot kids.first || (no_kid_slot kids.second || no_kid_slot kids.third) }
{
    no_kid_slot(kids.first) || no_kid_slot(kids.second) || no_kid_slot(kids.third)
}

// 0 is no slot, and asks for no kid.
fn no_kid_slot(i: Slot) -> bool
    ensures { result ≡ no_kid_slot i }
{
    usize::from(i) > SLOTS
}

fn some_kid_slot_empty<D: Copy>(kids: PerKid<Slot>, own: &PartyRecord<D>) -> bool
    ensures { result ≡ kid_slot_empty (nth 0 own.now.slots) kids.first || (kid_slot_empty (nth 0 own.now.slots) kids.second || kid_slot_empty (nth 0 own.now.slots) kids.third) }
{
    kid_slot_empty(kids.first, own)
        || kid_slot_empty(kids.second, own)
        || kid_slot_empty(kids.third, own)
}

// A kid is asked for from a slot that has none to give.
fn kid_slot_empty<D: Copy>(i: Slot, own: &PartyRecord<D>) -> bool
    ensures { result ≡ kid_slot_empty (nth 0 own.now.slots) i }
{
    i != 0 && own.node_of(i) == 0
}

// Which kids the Make is given.
fn given_by(kids: PerKid<Slot>) -> PerKid<bool>
    ensures { result ≡ given_by kids }
{
    PerKid {
        first: kids.first != 0,
        second: kids.second != 0,
        third: kids.third != 0,
    }
}
