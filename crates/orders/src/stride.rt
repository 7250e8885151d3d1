ghost use Rattle.std.specs.Prelude.{◌≡◌, ◌+◌, ◌-◌, ◌%◌, ◌<◌, ◌≤◌, MatchBool, MatchResult, slice_set, refl};
ghost use Rattle.orders.specs.Limits.{IsParty};
ghost use Rattle.orders.specs.Making.{StrideFits, NoSharedFactor, RefusedBy, Made};
ghost use Rattle.orders.specs.Rounds.{next_place, place_of, round_due};
ghost use Rattle.orders.specs.RoundsLemmas.{dues_below};

use crate::limits::{LONGEST_STRIDE, Number, Party};
use crate::order::Order;
use crate::round::Round;
use refusals::Refusal;

// Goes round the numbers by a fixed stride, each party from a place of its own.
#[derive(Clone, Copy, Debug, PartialEq, Eq)]
pub struct Stride {
    round: Round,
    stride: u32,
    ghost fits: { StrideFits round.size stride },
}

impl Stride {
    // Refused for a size outside 1 to 255, and then for a stride outside 1 to 255 or one that shares a factor
    // above 1 with the size.
    pub fn new(m: u32, stride: u32) -> Result<Stride, Refusal>
        ensures { MatchResult result (λ s. Made m (StrideFits m stride) s.round.size s.round.places × (s.stride ≡ stride)) (λ e. RefusedBy m (StrideFits m stride) e) }
    {
        let round = Round::start(m)?;
        if !(1..=LONGEST_STRIDE).contains(&stride) || shares_factor(stride, m) {
            return Err(Refusal::BadOrder);
        }
        Ok(Stride { round, stride })
    }
}

impl Order for Stride {
    ghost numbers = { λ s. s.round.size };

    ghost horizon = { λ s. s.round.size };

    ghost due = { λ s p n. round_due (λ q. q) s.round.size s.stride (place_of s.round.places p) n };

    ghost at_least_one = { λ o. o.round.size_fits.low };

    ghost at_most_largest = { λ o. o.round.size_fits.high };

    ghost due_below_span = { λ o p n is number.
        dues_below (λ q. q) o.round.size o.stride o.round.size_fits.low o.fits.low o.fits.apart
        (λ i h. (i, h, refl)) (λ i h. h) (place_of o.round.places p) n (o.round.placed p is) number };

    fn size(&self) -> Number {
        self.round.size
    }

    fn span(&self) -> u32 {
        u32::from(self.size())
    }

    fn pick(&mut self, party: Party) -> Number
        ensures answer { IsParty party → result ≡ next_place self.old.round.size self.old.stride (place_of self.old.round.places party) }
        ensures places { IsParty party → self.new.round.places ≡ slice_set self.old.round.places (party - 1) result }
        ensures same { (self.new.round.size ≡ self.old.round.size) × (self.new.stride ≡ self.old.stride) }
        ensures refused { (IsParty party → ⊥) → (result ≡ 0) × (self.new ≡ self.old) }
    {
        self.round.advance(party, self.stride).unwrap_or(0)
    }
}

fn shares_factor(a: u32, b: u32) -> bool
    requires { 1 ≤ b }
    ensures { MatchBool result (NoSharedFactor a b → ⊥) (NoSharedFactor a b) }
{
    (2..=b).any(|d| a % d == 0 && b % d == 0)
}
