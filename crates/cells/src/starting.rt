// What an accepted Begin changes of its party's record.
ghost use Rattle.std.specs.Prelude.{◌≡◌, [], Ok, Err, if◌then◌else◌};
ghost use Rattle.refusals.specs.declared.Refusal.TheVariants.{NoSuchParty};
ghost use Rattle.model.specs.Begins.{kid_of, started, started_walk};
ghost use Rattle.model.specs.Entries.{nth};
ghost use Rattle.model.specs.State.{along, trail_of};
ghost use Rattle.model.specs.Steps.{between};
ghost use Rattle.model.specs.declared.running.Reading.TheVariants.{ReadNothing};
ghost use Rattle.model.specs.declared.running.Running.TheVariants.{WalkReads};
ghost use Rattle.cells.specs.Own.{Holds};
ghost use Rattle.cells.specs.Started.{run_begun, trail_begun};
ghost use Rattle.cells.specs.View.{parties_of, BecomesIfParty};

use crate::records::Cells;
use kinds::gearbox::Situation;
use kinds::kids::Kid;
use model::calls::Call;
use model::nodes::Slot;
use model::party::PartyRecord;
use model::place::Place;
use model::running::{Job, Reading, Running};
use orders::limits::Party;
use refusals::Refusal;

// The kid of the number. What no kid is numbered by has been refused by then.
fn kid_numbered(k: u8) -> Kid
    ensures { result ≡ kid_of k }
{
    Kid::try_from(k).unwrap_or(Kid::Third)
}

// What the party runs once its call has begun; Enter, Up and Leave have ended by then.
fn begin_running<D: Copy>(running: Running<D>, call: &Call<D>) -> Running<D>
    ensures { result ≡ run_begun call.now running }
{
    match *call {
        Call::Enter(_) | Call::Up | Call::Leave => running,
        Call::Read => Running::Reads(Reading::ReadNothing),
        Call::Down(k) => Running::GoesDown(kid_numbered(k)),
        Call::Keep(i) => Running::Keeps(i),
        Call::Drop(i) => Running::Drops(i),
        Call::Hand(i, q) => Running::Hands(i, q),
        Call::Fetch(i) => Running::Fetches(i),
        Call::Make(plan) => Running::Works(Job::Makes(plan), Place::OpenTray),
        Call::Sweep => Running::Works(Job::Sweeps, Place::LookForNode),
    }
}

// The call begins; Enter, Up and Leave change the trail.
fn begin<D: Copy>(own: &mut PartyRecord<D>, call: &Call<D>)
    ensures { Holds own.old own.new (nth 0 own.old.slots) (trail_begun call.now (nth 0 own.old.slots) (trail_of own.old.trail)) (run_begun call.now own.old.running) }
{
    own.running = begin_running(own.running, call);
    match *call {
        Call::Enter(i) => {
            let node = own.node_of(i);
            own.trail.enter(i, node);
        }
        Call::Up => own.trail.shorten(),
        Call::Leave => own.trail.leave(),
        _ => {}
    }
}

// A walk begins from the slot.
fn begin_walk<D: Copy>(own: &mut PartyRecord<D>, slot: Slot, situation: Situation)
    ensures { Holds own.old own.new (nth 0 own.old.slots) (along slot (nth 0 own.old.slots slot) []) (WalkReads situation ReadNothing) }
{
    let node = own.node_of(slot);
    own.trail.enter(slot, node);
    own.running = Running::WalkReads(situation, Reading::ReadNothing);
}

impl<D: Copy> Cells<D> {
    // The party begins the call. What is no party is refused, and nothing changes.
    pub fn start(&mut self, party: Party, call: &Call<D>) -> Result<(), Refusal>
        ensures told { result ≡ (if between 1 (parties_of self.old) party then Ok tt else Err NoSuchParty) }
        ensures becomes { BecomesIfParty self.old self.new party (λ s. started call.now s party) }
    {
        let Some(record) = self.table.lend(party) else {
            return Err(Refusal::NoSuchParty);
        };
        begin(record, call);
        Ok(())
    }

    // The party begins a walk from the slot. What is no party is refused, and nothing changes.
    pub fn start_walk(
        &mut self,
        party: Party,
        slot: Slot,
        situation: Situation,
    ) -> Result<(), Refusal>
        ensures told { result ≡ (if between 1 (parties_of self.old) party then Ok tt else Err NoSuchParty) }
        ensures becomes { BecomesIfParty self.old self.new party (λ s. started_walk slot situation s party) }
    {
        let Some(record) = self.table.lend(party) else {
            return Err(Refusal::NoSuchParty);
        };
        begin_walk(record, slot, situation);
        Ok(())
    }
}
