ghost use Rattle.std.specs.Prelude.{◌≡◌};
ghost use Rattle.model.specs.Entries.{nth};
ghost use Rattle.model.specs.State.{last_of, trail_of};
ghost use Rattle.model.specs.Steps.{address, own_address, place_address, read_address};

use crate::kid::wanted;
use kinds::kids::Kid;
use model::nodes::Node;
use model::party::PartyRecord;
use model::place::Place;
use model::running::{Job, Reading, Running};
use model::sizes::Sizes;
use model::words::Address;
use orders::limits::{Number, Party};

// The shared word that the party's next step looks at, where its order has picked the number `pick`.
pub fn address_of<D: Copy>(
    own: &PartyRecord<D>,
    party: Party,
    pick: Number,
    sizes: Sizes,
) -> Address
    ensures { result ≡ address sizes.parties sizes.nodes own.now.running party pick (nth 0 own.now.slots) (last_of (trail_of own.now.trail)) }
{
    let last = own.trail.last();
    match own.running {
        Running::Idle => Address::Nowhere,
        Running::Reads(reading) | Running::WalkReads(_, reading) => reading_address(&reading, last),
        Running::GoesDown(k) | Running::WalkGoesDown(_, k) => Address::KidOf(last, k),
        Running::Keeps(_) => Address::CountOf(last),
        Running::Drops(i) => Address::CountOf(own.node_of(i)),
        Running::Hands(_, q) => Address::InboxOf(q),
        Running::Fetches(_) | Running::TakesOut(_, _) => Address::InboxOf(party),
        Running::Works(job, place) => place_address(&job, place, own, party, pick, sizes),
    }
}

fn reading_address<D: Copy>(reading: &Reading<D>, n: Node) -> Address
    ensures { result ≡ read_address reading.now n }
{
    match reading {
        Reading::ReadNothing => Address::DataOf(n),
        Reading::ReadData(_) => Address::KidOf(n, Kid::First),
        Reading::ReadFirst(_, _) => Address::KidOf(n, Kid::Second),
        Reading::ReadSecond(_, _, _) => Address::KidOf(n, Kid::Third),
    }
}

fn place_address<D: Copy>(
    job: &Job<D>,
    place: Place,
    own: &PartyRecord<D>,
    party: Party,
    pick: Number,
    sizes: Sizes,
) -> Address
    ensures { result ≡ place_address sizes.parties sizes.nodes place job.now party pick (nth 0 own.now.slots) }
{
    match place {
        Place::OpenTray | Place::ReadTray | Place::KeepForOneself(_) | Place::CloseTray(_) => {
            Address::TrayOf(party)
        }
        Place::LookForNode if sizes.has_node(pick) => Address::CountOf(pick),
        Place::LookForNode => Address::Nowhere,
        Place::LockNode(n) | Place::UnlockAndGoBack(n) | Place::Unlock(n) => Address::LockOf(n),
        Place::Recheck(n) | Place::UncountKid(_, _, n) | Place::Claim(n) | Place::GiveBack(n) => {
            Address::CountOf(n)
        }
        Place::ReadKid(n, k) | Place::ClearKid(n, k, _) | Place::LinkKid(n, k, _) => {
            Address::KidOf(n, k)
        }
        Place::Offer(n) if pick == party => own_address(job, party, n),
        Place::Offer(_) if sizes.has_party(pick) => Address::TrayOf(pick),
        Place::Offer(_) => Address::Nowhere,
        Place::WriteData(v) => Address::DataOf(v),
        Place::CountKid(_, k) => Address::CountOf(wanted(job, k, own)),
    }
}

// A node offered to oneself goes into the own tray, or a Sweep lets it go.
fn own_address<D: Copy>(job: &Job<D>, party: Party, n: Node) -> Address
    ensures { result ≡ own_address job.now party n }
{
    match job {
        Job::Makes(_) => Address::TrayOf(party),
        Job::Sweeps => Address::CountOf(n),
    }
}
