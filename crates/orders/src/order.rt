ghost use Rattle.std.specs.Prelude.{◌≡◌, ℕ, ◌<◌, ◌≤◌};
ghost use Rattle.orders.specs.Limits.{IsParty, largest_size};
ghost use Rattle.orders.specs.Meaning.{IsNumber, Picked};

use crate::limits::{Number, Party};

// A search order over the numbers 1 to `size`, with a memory of its own for each of the parties 1 to 15.
// Code above it knows an order by its ghost members alone.
pub trait Order {
    // the order is made for the numbers 1 to this
    ghost numbers: { Self → ℕ };

    // the span: in so many picks of a party every number comes
    ghost horizon: { Self → ℕ };

    // how many picks of the party may still pass the number by
    ghost due: { Self → ℕ → ℕ → ℕ };

    fn size(&self) -> Number
        ensures { result ≡ numbers self.now };

    fn span(&self) -> u32
        ensures { result ≡ horizon self.now };

    // The party's next number; 0, and nothing changed, for any other than the parties 1 to 15.
    fn pick(&mut self, party: Party) -> Number
        ensures picked { Picked numbers horizon due self.old self.new party result };

    ghost at_least_one: { (o : Self) → 1 ≤ numbers o };

    ghost at_most_largest: { (o : Self) → numbers o ≤ largest_size };

    ghost due_below_span: { (o : Self) (p n : ℕ) → IsParty p → IsNumber (numbers o) n → due o p n < horizon o };
}
