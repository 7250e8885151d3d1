ghost use Rattle.std.specs.Prelude.{◌≡◌, true, false, MatchResult};
ghost use Rattle.refusals.specs.declared.Refusal.TheVariants.{BadSituation};
ghost use Rattle.kinds.specs.Situations.{in_limits, Describes, RangeOf};

use crate::gearbox::{Range, Situation};
use refusals::Refusal;

const LAST_GEAR: i32 = 16;

const COLDEST: i32 = -40;

const HOTTEST: i32 = 150;

// 0 for the low range and 1 for the high one.
impl TryFrom<i32> for Range {
    type Error = Refusal;

    ghost try_from_gives = { RangeOf };

    fn try_from(number: i32) -> Result<Range, Refusal> {
        match number {
            0 => Ok(Range::Low),
            1 => Ok(Range::High),
            _ => Err(Refusal::BadSituation),
        }
    }
}

impl Situation {
    // Refused for a range other than 0 (low) and 1 (high), a gear outside 1 to 16 or a temperature outside -40 to 150.
    pub fn new(range: i32, gear: i32, temperature: i32) -> Result<Situation, Refusal>
        ensures { MatchResult result (λ s. (in_limits range gear temperature ≡ true) × Describes s range gear temperature) (λ e. (in_limits range gear temperature ≡ false) × (e ≡ BadSituation)) }
    {
        let range = Range::try_from(range)?;
        if !(1..=LAST_GEAR).contains(&gear) || !(COLDEST..=HOTTEST).contains(&temperature) {
            return Err(Refusal::BadSituation);
        }
        Ok(Situation {
            range,
            gear: gear as u8,
            temperature: temperature as i16,
        })
    }
}
