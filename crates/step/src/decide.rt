ghost use Rattle.std.specs.Prelude.{◌≡◌, ◌+◌, ◌-◌, ◌<◌, true, if◌then◌else◌, Some, None};
ghost use Rattle.model.specs.Entries.{nth};
ghost use Rattle.model.specs.State.{last_of, trail_of};
ghost use Rattle.model.specs.Steps.{decide as decides};
ghost use Rattle.step.specs.Counting.{movable};

use crate::decisions::{after_kid, end, end_sweep, go, go_down, go_to, settle, stop, stuck};
use crate::kid::wanted;
use crate::linking::{data_given, kid_linked};
use crate::reading::read_on;
use kinds::kids::Kid;
use model::outcomes::Answer;
use model::party::PartyRecord;
use model::place::Place;
use model::running::{Job, Reading, Running};
use model::tray::Tray;
use model::words::{Change, Count, Decision, NodeRead, Word};
use orders::limits::{Number, Party};
use refusals::Refusal;

// What the step decides: one match over the call, its place and the word that was read; guards set a Sweep apart from a
// Make.
fn ruled<D: Copy, W: Copy>(
    own: &PartyRecord<D>,
    word: &Word<D>,
    party: Party,
    pick: Number,
) -> Decision<D, W>
    requires { movable own.now.running word.now ≡ true }
    ensures { result ≡ decides own.now.running word.now party pick (nth 0 own.now.slots) (last_of (trail_of own.now.trail)) }
{
    let last = own.trail.last();
    let sweeps = matches!(own.running, Running::Works(Job::Sweeps, _));
    match (own.running, *word) {
        (Running::Reads(reading), _) => read_on(
            reading,
            word,
            |more| Running::Reads(more),
            |d, kids| end(Word::NoWord, Change::Stays, Answer::Contents(last, d, kids)),
        ),
        (Running::GoesDown(_), Word::KidWord(0)) => stop(Err(Refusal::NoKid)),
        (Running::GoesDown(_), Word::KidWord(c)) => {
            end(Word::NoWord, Change::Lengthens(c), Answer::AtNode(c))
        }
        (Running::Keeps(i), Word::CountWord(c)) => {
            end(
                Word::CountWord(c + 1),
                Change::Fills(i, last),
                Answer::AtNode(last),
            )
        }
        (Running::Drops(i), Word::CountWord(c)) => {
            end(
                Word::CountWord(c - 1),
                Change::Fills(i, 0),
                Answer::AtNode(own.node_of(i)),
            )
        }
        (Running::Hands(i, _), Word::InboxWord(0)) => {
            let n = own.node_of(i);
            end(Word::InboxWord(n), Change::Fills(i, 0), Answer::AtNode(n))
        }
        (Running::Hands(_, _), Word::InboxWord(_)) => stop(Err(Refusal::InboxFull)),
        (Running::Fetches(_), Word::InboxWord(0)) => stop(Err(Refusal::InboxEmpty)),
        (Running::Fetches(i), Word::InboxWord(b)) => go(Word::NoWord, Running::TakesOut(i, b)),
        (Running::TakesOut(i, v), Word::InboxWord(_)) => {
            end(Word::InboxWord(0), Change::Fills(i, v), Answer::AtNode(v))
        }
        (Running::Works(_, Place::OpenTray), Word::TrayWord(_)) => {
            go_to(Word::TrayWord(Tray::Open), own, Place::ReadTray)
        }
        (Running::Works(_, Place::ReadTray), Word::TrayWord(Tray::Holding(v))) => {
            go_to(Word::NoWord, own, Place::CloseTray(v))
        }
        (Running::Works(_, Place::ReadTray), Word::TrayWord(_)) => {
            go_to(Word::NoWord, own, Place::LookForNode)
        }
        (Running::Works(_, Place::LookForNode), Word::CountWord(0)) => {
            go_to(Word::NoWord, own, Place::LockNode(pick))
        }
        (Running::Works(_, Place::LockNode(n)), Word::LockWord(0)) => {
            go_to(Word::LockWord(party), own, Place::Recheck(n))
        }
        (Running::Works(_, Place::LookForNode), _)
        | (Running::Works(_, Place::LockNode(_)), Word::LockWord(_))
            if sweeps => { end_sweep(Word::NoWord, 0, 0) }
        (Running::Works(_, Place::LookForNode), _)
        | (Running::Works(_, Place::LockNode(_)), Word::LockWord(_)) => {
            go_to(Word::NoWord, own, Place::ReadTray)
        }
        (Running::Works(_, Place::Recheck(n)), Word::CountWord(0)) => {
            go_to(Word::NoWord, own, Place::ReadKid(n, Kid::First))
        }
        (Running::Works(_, Place::Recheck(n)), Word::CountWord(_)) => {
            go_to(Word::NoWord, own, Place::UnlockAndGoBack(n))
        }
        (Running::Works(_, Place::UnlockAndGoBack(_)), Word::LockWord(_)) if sweeps => {
            end_sweep(Word::LockWord(0), 0, 0)
        }
        (Running::Works(_, Place::UnlockAndGoBack(_)), Word::LockWord(_)) => {
            go_to(Word::LockWord(0), own, Place::ReadTray)
        }
        (Running::Works(_, Place::ReadKid(n, k)), Word::KidWord(0)) => {
            go_to(Word::NoWord, own, after_kid(n, k))
        }
        (Running::Works(_, Place::ReadKid(n, k)), Word::KidWord(w)) => {
            go_to(Word::NoWord, own, Place::ClearKid(n, k, w))
        }
        (Running::Works(_, Place::ClearKid(n, k, w)), Word::KidWord(_)) => {
            go_to(Word::KidWord(0), own, Place::UncountKid(n, k, w))
        }
        (Running::Works(_, Place::UncountKid(n, k, _)), Word::CountWord(c)) => {
            go_to(Word::CountWord(c - 1), own, after_kid(n, k))
        }
        (Running::Works(_, Place::Claim(n)), Word::CountWord(_)) => {
            go_to(Word::CountWord(1), own, Place::Unlock(n))
        }
        (Running::Works(_, Place::Unlock(n)), Word::LockWord(_)) => {
            go_to(Word::LockWord(0), own, Place::Offer(n))
        }
        (Running::Works(_, Place::KeepForOneself(n)), Word::TrayWord(Tray::Open)) => {
            go_to(Word::TrayWord(Tray::Holding(n)), own, Place::CloseTray(n))
        }
        (Running::Works(_, Place::KeepForOneself(n)), Word::TrayWord(_)) => go_to(
            Word::NoWord,
            own,
            Place::GiveBack(n),
        ),
        (Running::Works(_, Place::GiveBack(n)), Word::CountWord(_)) if sweeps => end_sweep(
            Word::CountWord(0),
            n,
            0,
        ),
        (Running::Works(_, Place::GiveBack(_)), Word::CountWord(_)) => {
            go_to(Word::CountWord(0), own, Place::ReadTray)
        }
        (Running::Works(_, Place::CloseTray(v)), Word::TrayWord(_)) => {
            go_to(Word::TrayWord(Tray::Closed), own, Place::WriteData(v))
        }
        (Running::Works(job, Place::WriteData(v)), Word::DataWord(_)) => data_given(&job, v),
        (Running::Works(job, Place::CountKid(v, k)), Word::CountWord(c)) => go_to(
            Word::CountWord(c + 1),
            own,
            Place::LinkKid(v, k, wanted(&job, k, own)),
        ),
        (Running::Works(job, Place::LinkKid(v, k, w)), Word::KidWord(_)) => {
            kid_linked(&job, v, k, w)
        }
        // Offer stands last, since the proof goes once more through the arms below each of its guards.
        (Running::Works(_, Place::Offer(n)), Word::TrayWord(Tray::Open))
            if pick != party && sweeps => { end_sweep(Word::TrayWord(Tray::Holding(n)), n, pick) }
        (Running::Works(_, Place::Offer(n)), Word::TrayWord(Tray::Open)) if pick != party => {
            go_to(Word::TrayWord(Tray::Holding(n)), own, Place::ReadTray)
        }
        (Running::Works(_, Place::Offer(n)), _) if pick != party && sweeps => {
            go_to(Word::NoWord, own, Place::GiveBack(n))
        }
        (Running::Works(_, Place::Offer(n)), _) if pick != party => {
            go_to(Word::NoWord, own, Place::KeepForOneself(n))
        }
        (Running::Works(_, Place::Offer(n)), Word::CountWord(_)) if sweeps => {
            end_sweep(Word::CountWord(0), n, 0)
        }
        (Running::Works(_, Place::Offer(n)), Word::TrayWord(Tray::Open)) if !sweeps => {
            go_to(Word::TrayWord(Tray::Holding(n)), own, Place::CloseTray(n))
        }
        (Running::Works(_, Place::Offer(n)), Word::TrayWord(_)) if !sweeps => {
            go_to(Word::NoWord, own, Place::GiveBack(n))
        }
        (Running::Works(_, _), _) => stuck(),
        (Running::WalkReads(situation, reading), _) => read_on(
            reading,
            word,
            |more| Running::WalkReads(situation, more),
            |given, kids| settle(NodeRead {
                situation,
                given,
                kids,
            }),
        ),
        (Running::WalkGoesDown(t, _), Word::KidWord(0)) => {
            go(Word::NoWord, Running::WalkReads(t, Reading::ReadNothing))
        }
        (Running::WalkGoesDown(t, _), Word::KidWord(c)) => go_down(t, c),
        _ => stuck(),
    }
}

// Whether the count that the step found can move as the step wants.
fn can_move<D: Copy>(running: &Running<D>, word: &Word<D>) -> bool
    ensures { result ≡ movable running.now word.now }
{
    let Word::CountWord(c) = *word else {
        return true;
    };
    match running {
        Running::Drops(_) | Running::Works(_, Place::UncountKid(_, _, _)) => c != 0,
        Running::Keeps(_) | Running::Works(_, Place::CountKid(_, _)) => c != Count::MAX,
        _ => true,
    }
}

// What the step decides on the word that it has read. Nothing where it would take 1 off a count of 0 or add 1 to the
// largest; no store that can exist has such a count there.
pub fn decide<D: Copy, W: Copy>(
    own: &PartyRecord<D>,
    word: &Word<D>,
    party: Party,
    pick: Number,
) -> Option<Decision<D, W>>
    ensures { result ≡ (if movable own.now.running word.now then Some (decides own.now.running word.now party pick (nth 0 own.now.slots) (last_of (trail_of own.now.trail))) else None) }
{
    if !can_move(&own.running, word) {
        return None;
    }
    Some(ruled(own, word, party, pick))
}
