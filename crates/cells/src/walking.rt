// Where a walk goes once it has read a node.
ghost use Rattle.std.specs.Prelude.{◌≡◌, if◌then◌else◌};
ghost use Rattle.model.specs.Checks.{is_idle};
ghost use Rattle.model.specs.Entries.{nth};
ghost use Rattle.model.specs.State.{trail_of};
ghost use Rattle.model.specs.Steps.{between};
ghost use Rattle.model.specs.Walks.{resumes};
ghost use Rattle.cells.specs.Own.{Holds};
ghost use Rattle.cells.specs.View.{view_of, BecomesIfParty};
ghost use Rattle.cells.specs.Walked.{goes_on, runs_on, trails_on};

use crate::records::Cells;
use kinds::gearbox::Situation;
use kinds::kids::Kid;
use model::party::PartyRecord;
use model::running::{Reading, Running};
use model::trail::Trail;
use orders::limits::Party;

// What a walk runs on the trail that it stands on; without one it has ended.
fn resume<D: Copy>(trail: &Trail, situation: Situation) -> Running<D>
    ensures { result ≡ resumes situation (trail_of trail.now) }
{
    if trail.is_none() {
        return Running::Idle;
    }
    Running::WalkReads(situation, Reading::ReadNothing)
}

// Down to the kid, or up and on with the reading there.
fn walk_on<D: Copy>(own: &mut PartyRecord<D>, situation: Situation, below: Option<Kid>)
    ensures { Holds own.old own.new (nth 0 own.old.slots) (trails_on below (trail_of own.old.trail)) (runs_on situation below (trails_on below (trail_of own.old.trail))) }
{
    match below {
        Some(k) => own.running = Running::WalkGoesDown(situation, k),
        None => {
            own.trail.shorten();
            own.running = resume(&own.trail, situation);
        }
    }
}

impl<D: Copy> Cells<D> {
    // The walk of the party has read a node: it will go down to the kid, or goes up where none is left. Answers whether it has
    // ended. Nothing happens for what is no party.
    pub fn go_on(&mut self, party: Party, situation: Situation, below: Option<Kid>) -> bool
        ensures told { result ≡ is_idle ((view_of self.new).run party) }
        ensures becomes { BecomesIfParty self.old self.new party (λ s. goes_on s party situation below) }
    {
        let Some(record) = self.table.lend(party) else {
            return true;
        };
        walk_on(record, situation, below);
        record.running.is_idle()
    }
}
