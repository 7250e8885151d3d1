ghost use Rattle.std.specs.Prelude.{◌≡◌, ℕ, ◌+◌, ◌-◌, ◌<◌, length, MatchBool, MatchResult, ◌≢◌, slice_set};
ghost use Rattle.orders.specs.Limits.{IsParty};
ghost use Rattle.orders.specs.Making.{CardFits, RefusedBy, Made, times_on};
ghost use Rattle.orders.specs.Meaning.{IsNumber};
ghost use Rattle.orders.specs.Rounds.{next_place, place_of, round_due, entry_at};
ghost use Rattle.orders.specs.CardsLemmas.{card_dues_below};

use crate::limits::{Number, Party};
use crate::order::Order;
use crate::round::Round;
use refusals::Refusal;

// Goes along a card on which each number stands once, each party from a position of its own.
#[derive(Debug, PartialEq, Eq, Drop)]
pub struct Card {
    round: Round,
    entries: Vec<u32>,
    ghost fits: { CardFits round.size entries.items },
}

impl Card {
    // Refused for a size outside 1 to 255, and then for a card that has not m entries or on which a number of
    // 1 to m does not stand once.
    pub fn new(m: u32, entries: Vec<u32>) -> Result<Card, Refusal>
        ensures { MatchResult result (λ s. Made m (CardFits m entries.items) s.round.size s.round.places × (s.entries.items ≡ entries.items)) (λ e. RefusedBy m (CardFits m entries.items) e) }
    {
        let round = Round::start(m)?;
        if !fits(m, entries.as_slice()) {
            return Err(Refusal::BadOrder);
        }
        Ok(Card { round, entries })
    }

    fn entry(&self, place: Number) -> Number
        requires { IsNumber self.now.round.size place }
        ensures { result ≡ entry_at self.now.entries.items place }
    {
        self.entries[usize::from(place) - 1] as Number
    }
}

impl Order for Card {
    ghost numbers = { λ s. s.round.size };

    ghost horizon = { λ s. s.round.size };

    ghost due = { λ s p n. round_due (entry_at s.entries.items) s.round.size 1 (place_of s.round.places p) n };

    ghost at_least_one = { λ o. o.round.size_fits.low };

    ghost at_most_largest = { λ o. o.round.size_fits.high };

    ghost due_below_span = { λ o p n is number.
        card_dues_below o.round.size o.entries.items o.fits
        o.round.size_fits.low (place_of o.round.places p) n (o.round.placed p is) number };

    fn size(&self) -> Number {
        self.round.size
    }

    fn span(&self) -> u32 {
        u32::from(self.size())
    }

    fn pick(&mut self, party: Party) -> Number
        ensures answer { IsParty party → result ≡ entry_at self.old.entries.items (next_place self.old.round.size 1 (place_of self.old.round.places party)) }
        ensures places { IsParty party → self.new.round.places ≡ slice_set self.old.round.places (party - 1) (next_place self.old.round.size 1 (place_of self.old.round.places party)) }
        ensures same { (self.new.round.size ≡ self.old.round.size) × (self.new.entries ≡ self.old.entries) }
        ensures refused { (IsParty party → ⊥) → (result ≡ 0) × (self.new ≡ self.old) }
    {
        self.round
            .advance(party, 1)
            .map_or(0, |place| self.entry(place))
    }
}

fn fits(m: u32, entries: &[u32]) -> bool
    ensures { MatchBool result (CardFits m entries.now) (CardFits m entries.now → ⊥) }
{
    entries.len() == m as usize && (1..=m).all(|n| times_on(entries, n) == 1)
}

fn times_on(entries: &[u32], n: u32) -> usize
    ensures { result ≡ times_on entries.now n }
{
    entries.iter().map(|e| usize::from(*e == n)).sum()
}
