ghost use Rattle.std.specs.Prelude.{◌≡◌, not, [], ◌∷◌, IfOk};
ghost use Rattle.refusals.specs.declared.Refusal.TheVariants.{Busy};
ghost use Rattle.kinds.specs.Situations.{Describes};
ghost use Rattle.model.specs.declared.calls.Asked.TheVariants.{AsksCall, AsksWalk};
ghost use Rattle.model.specs.Checks.{first_fault, is_idle, no_receiver};
ghost use Rattle.checks.specs.Faults.{AcceptedUnless, RefusedIf, begin_fault_of};

use crate::calls::check_call;
use crate::refuse::refuse_if;
use crate::walks::check_walk;
use kinds::gearbox::Situation;
use kinds::kind::Kind;
use model::calls::{Call, Lengths, Walk};
use model::party::PartyRecord;
use model::running::Running;
use model::sizes::Sizes;
use orders::limits::Party;
use refusals::Refusal;

// What the Begin of a call is refused with: first for the numbers and lists that it names, then for a call under way, then
// for the party's slots and trail.
pub fn check_begin<K: Kind>(
    call: &Call<K::Data>,
    party: Party,
    lengths: Lengths,
    own: &PartyRecord<K::Data>,
    sizes: Sizes,
) -> Result<(), Refusal>
    ensures { AcceptedUnless (begin_fault_of K.Kind.suits sizes party (AsksCall call.now) lengths own.now) result }
{
    refuse_if(
        !sizes.has_party(party) || no_receiver(call, sizes),
        Refusal::NoSuchParty,
    )?;
    refuse_if(!lengths.covers_call(sizes.nodes), Refusal::ShortList)?;
    check_idle(&own.running)?;
    check_call::<K>(call, own)
}

// Only a Hand has a receiver.
fn no_receiver<D: Copy>(call: &Call<D>, sizes: Sizes) -> bool
    ensures { result ≡ no_receiver sizes.parties (AsksCall call.now) }
{
    match *call {
        Call::Hand(_, q) => !sizes.has_party(q),
        _ => false,
    }
}

// What the Begin of a walk is refused with, in the same order; accepted it goes by the situation of its numbers.
pub fn check_begin_walk<K: Kind>(
    walk: Walk,
    party: Party,
    lengths: Lengths,
    own: &PartyRecord<K::Data>,
    sizes: Sizes,
) -> Result<Situation, Refusal>
    ensures fault { AcceptedUnless (begin_fault_of K.Kind.suits sizes party (AsksWalk walk) lengths own.now) result }
    ensures situation { IfOk result (λ s. Describes s walk.range walk.gear walk.temperature) }
{
    refuse_if(!sizes.has_party(party), Refusal::NoSuchParty)?;
    refuse_if(!lengths.covers_walk(sizes.nodes), Refusal::ShortList)?;
    check_idle(&own.running)?;
    check_walk::<K>(walk, own)
}

// A party runs one call at a time.
fn check_idle<D: Copy>(running: &Running<D>) -> Result<(), Refusal>
    ensures { RefusedIf (not (is_idle running.now)) Busy result }
{
    refuse_if(!running.is_idle(), Refusal::Busy)
}
