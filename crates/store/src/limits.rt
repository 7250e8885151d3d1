ghost use Rattle.std.specs.Prelude.{◌≡◌, MatchResult};
ghost use Rattle.refusals.specs.declared.Refusal.TheVariants.{OutsideLimits};
ghost use Rattle.store.specs.Opening.{InLimits};

use model::sizes::Sizes;
use orders::limits::{LARGEST_SIZE, PARTIES};
use refusals::Refusal;

// The sizes of a store with 1 to 255 nodes and 1 to 15 parties. Refused with 1 for other numbers.
pub fn within_limits(nodes: u32, parties: u32) -> Result<Sizes, Refusal>
    ensures { MatchResult result (λ s. InLimits nodes parties × (s.nodes ≡ nodes) × (s.parties ≡ parties)) (λ e. (InLimits nodes parties → ⊥) × (e ≡ OutsideLimits)) }
{
    if !(1..=LARGEST_SIZE).contains(&nodes) || !(1..=PARTIES as u32).contains(&parties) {
        return Err(Refusal::OutsideLimits);
    }
    Ok(Sizes {
        parties: parties as usize,
        nodes: nodes as usize,
    })
}
