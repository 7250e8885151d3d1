ghost use Rattle.std.specs.Prelude.{◌≡◌, ℕ, ◌+◌, ◌-◌, ◌%◌, ◌<◌, ◌≤◌, slice_set, MatchResult, MatchOption, IfSome};
ghost use Rattle.orders.specs.Limits.{IsParty};
ghost use Rattle.orders.specs.Meaning.{IsNumber};
ghost use Rattle.orders.specs.Making.{AtStart, SizeFits};
ghost use Rattle.refusals.specs.declared.Refusal.TheVariants.{OutsideLimits};
ghost use Rattle.orders.specs.Rounds.{start_place, next_place, place_of};

use crate::limits::{LARGEST_SIZE, Number, PARTIES, Party};
use refusals::Refusal;

// A round of places, with the place of each party on it.
#[derive(Clone, Copy, Debug, PartialEq, Eq)]
pub(crate) struct Round {
    pub(crate) size: Number,
    pub(crate) places: [Number; PARTIES],
    ghost size_fits: { SizeFits size },
    ghost placed: { (p : ℕ) → IsParty p → IsNumber size (place_of places p) },
}

impl Round {
    // Every party at its start; refused for a size outside 1 to 255.
    pub(crate) fn start(m: u32) -> Result<Round, Refusal>
        ensures { MatchResult result (λ r. SizeFits m × (r.size ≡ m) × AtStart m r.places) (λ e. (e ≡ OutsideLimits) × (SizeFits m → ⊥)) }
    {
        if !(1..=LARGEST_SIZE).contains(&m) {
            return Err(Refusal::OutsideLimits);
        }
        let size = m as Number;
        Ok(Round {
            size,
            places: starts(size),
        })
    }

    // Moves the party on by the stride, and tells its new place; `None`, and nothing changed, for any other than the
    // parties 1 to 15.
    pub(crate) fn advance(&mut self, party: Party, stride: u32) -> Option<Number>
        requires { stride < 65536 }
        ensures size { self.new.size ≡ self.old.size }
        ensures moved { MatchOption result ((IsParty party → ⊥) × (self.new ≡ self.old)) (λ place. IsParty party × (place ≡ next_place self.old.size stride (place_of self.old.places party)) × (self.new.places ≡ slice_set self.old.places (party - 1) place)) }
        ensures placed { IfSome result (λ place. IsNumber self.old.size place) }
    {
        let index = usize::from(party).checked_sub(1)?;
        let from = u32::from(*self.places.get(index)?) - 1 + stride;
        let place = (from % u32::from(self.size) + 1) as Number;
        self.places[index] = place;
        Some(place)
    }
}

fn starts(size: Number) -> [Number; PARTIES]
    requires { 1 ≤ size }
    ensures { AtStart size result }
{
    std::array::from_fn(|i| start_place(i as Party + 1, size))
}

fn start_place(party: Party, size: Number) -> Number
    requires { (IsParty party) × (1 ≤ size) }
    ensures { result ≡ start_place size party }
{
    (party - 1) % size + 1
}
