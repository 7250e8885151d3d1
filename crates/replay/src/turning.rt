ghost use Rattle.std.specs.Prelude.{◌≡◌, ◌≤◌, if◌then◌else◌};
ghost use Rattle.cells.specs.View.{view_of, SameSizes};
ghost use Rattle.model.specs.Checks.{is_walking};
ghost use Rattle.model.specs.Runs.{Log, Moves};
ghost use Rattle.session.specs.Sessions.{setting_of, system_in};
ghost use Rattle.replay.specs.Turns.{TurnsUpTo, all_entries, is_running_on, next_turn};

use kinds::kind::Kind;
use model::calls::{Event, Lengths};
use model::outcomes::{Outcome, Progress};
use orders::limits::Party;
use orders::stride::Stride;
use session::session::Session;

// As many entries as the store has nodes.
pub(crate) fn entries_of_all<K: Kind>(session: &Session<K, Stride, Stride>) -> Lengths
    ensures { result ≡ all_entries (setting_of session.now).nodes }
{
    let nodes = usize::from(session.store().nodes());
    Lengths {
        entries: nodes,
        marks: nodes,
        worths: nodes,
    }
}

fn walks<K: Kind>(session: &Session<K, Stride, Stride>, party: Party) -> bool
    ensures { result ≡ is_walking ((view_of session.now.store.cells).run party) }
{
    match session.store().party(party) {
        Some(record) => record.running.is_walking(),
        None => false,
    }
}

// What turns it on: a walk's Turn while the party walks, and else a plain Turn.
fn next_turn<K: Kind>(session: &Session<K, Stride, Stride>, party: Party) -> Event<K::Data>
    ensures { result ≡ next_turn (setting_of session.now) party (system_in session.now) }
{
    let lengths = entries_of_all(session);
    if walks(session, party) {
        Event::WalkTurns(party, lengths)
    } else {
        Event::Turns(party, lengths)
    }
}

// The next turn of what the party is running.
fn turn_once<K: Kind>(
    session: &mut Session<K, Stride, Stride>,
    party: Party,
) -> Outcome<K::Data, K::Worth>
    ensures moves { Moves (setting_of session.old) (system_in session.old) (next_turn (setting_of session.old) party (system_in session.old)) result (system_in session.new) }
    ensures sizes { SameSizes session.old.store.cells session.new.store.cells }
{
    let turn = next_turn(session, party);
    session.carry_out(turn)
}

fn runs_on<D, W>(outcome: &Outcome<D, W>) -> bool
    ensures { result ≡ is_running_on outcome.now }
{
    match outcome {
        Ok(Progress::StillRunning) => true,
        _ => false,
    }
}

// Up to so many turns of what the party is running, until one ends it or is refused. Answers what the last of them tells.
#[tactic(auto, using(crate::proofs::TurnsOn::turned_first))]
pub(crate) fn turn_up_to<K: Kind>(
    session: &mut Session<K, Stride, Stride>,
    party: Party,
    most: u16,
) -> Outcome<K::Data, K::Worth>
    requires { 1 ≤ most }
    ensures turns { (es : Log (setting_of session.old)) × TurnsUpTo (setting_of session.old) party most (system_in session.old) es result (system_in session.new) }
    ensures sizes { SameSizes session.old.store.cells session.new.store.cells }
{
    let mut outcome = turn_once(session, party);
    for _ in 1..most {
        if !runs_on(&outcome) {
            return outcome;
        }
        outcome = turn_once(session, party);
    }
    outcome
}
