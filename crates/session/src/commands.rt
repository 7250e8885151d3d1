ghost use Rattle.std.specs.Prelude.{◌≡◌, ◌-◌, ◌≤◌, false, MatchResult};
ghost use Rattle.refusals.specs.declared.Refusal.TheVariants.{NoSuchParty};
ghost use Rattle.model.specs.Steps.{between};

use crate::lending::{begin, begin_walk, turn, turn_walk};
use crate::session::Session;
use kinds::kind::Kind;
use model::calls::{Asked, Call, Event, Lengths, Walk};
use model::outcomes::Outcome;
use orders::limits::Party;
use orders::order::Order;
use refusals::Refusal;

impl<K: Kind, U: Order + Drop, V: Order + Drop> Session<K, U, V> {
    ghost use Rattle.model.specs.declared.calls.Asked.TheVariants.{AsksCall, AsksWalk};
    ghost use Rattle.model.specs.declared.calls.Event.TheVariants.{Begins, Turns, WalkTurns};
    ghost use Rattle.session.specs.Sessions.{CommandOnSession};

    // Carries out one command. It is lent as many entries of each list as it says, and no more than there are.
    pub fn carry_out(&mut self, command: Event<K::Data>) -> Outcome<K::Data, K::Worth>
        ensures { CommandOnSession command result self.old self.new }
    {
        match command {
            Event::Begins(party, Asked::AsksCall(call), lengths) => {
                self.begin(party, call, lengths)
            }
            Event::Begins(party, Asked::AsksWalk(walk), lengths) => {
                self.begin_walk(party, walk, lengths)
            }
            Event::Turns(party, lengths) => self.turn(party, lengths),
            Event::WalkTurns(party, lengths) => self.turn_walk(party, lengths),
        }
    }

    fn begin(
        &mut self,
        party: Party,
        call: Call<K::Data>,
        lengths: Lengths,
    ) -> Outcome<K::Data, K::Worth>
        ensures { CommandOnSession (Begins party (AsksCall call) lengths) result self.old self.new }
    {
        begin(&mut self.store, party, call, lengths, &self.entries)
    }

    fn turn(&mut self, party: Party, lengths: Lengths) -> Outcome<K::Data, K::Worth>
        ensures { CommandOnSession (Turns party lengths) result self.old self.new }
    {
        turn(&mut self.store, party, lengths, &mut self.entries)
    }

    fn begin_walk(
        &mut self,
        party: Party,
        walk: Walk,
        lengths: Lengths,
    ) -> Outcome<K::Data, K::Worth>
        ensures { CommandOnSession (Begins party (AsksWalk walk) lengths) result self.old self.new }
    {
        let place = place_of(party, self.walks.len())?;
        let own = &mut self.walks[place];
        let entries = &self.entries;
        begin_walk(
            &mut self.store,
            party,
            walk,
            lengths,
            entries,
            &mut own.marks,
            &mut own.worths,
        )
    }

    fn turn_walk(&mut self, party: Party, lengths: Lengths) -> Outcome<K::Data, K::Worth>
        ensures { CommandOnSession (WalkTurns party lengths) result self.old self.new }
    {
        let place = place_of(party, self.walks.len())?;
        let own = &mut self.walks[place];
        let entries = &mut self.entries;
        turn_walk(
            &mut self.store,
            party,
            lengths,
            entries,
            &mut own.marks,
            &mut own.worths,
        )
    }
}

// Where the party's lists stand among those of so many parties.
fn place_of(party: Party, parties: usize) -> Result<usize, Refusal>
    ensures { MatchResult result (λ place. (1 ≤ party) × (party ≤ parties) × (place ≡ party - 1)) (λ e. (between 1 parties party ≡ false) × (e ≡ NoSuchParty)) }
{
    let number = usize::from(party);
    if number < 1 || number > parties {
        return Err(Refusal::NoSuchParty);
    }
    Ok(number - 1)
}
