ghost use Rattle.std.specs.Prelude.{◌≡◌, ℕ, ◌<◌, Bool, false, List};
ghost use Rattle.kinds.specs.Bytes.{AreBytes};
ghost use Rattle.kinds.specs.declared.kids.PerKid.{PerKid};
ghost use Rattle.kinds.specs.declared.gearbox.Situation.{Situation};

use crate::gearbox::Situation;
use crate::kids::PerKid;

// A kind of data. Code above it knows a kind by its ghost members alone.
pub trait Kind {
    type Data: Copy;

    type Worth: Copy;

    // whether the data fits the kids given
    ghost suits: { Self.Data → PerKid Bool → Bool };

    // what a node is worth, from its data, the situation and the worths of its kids
    ghost worth: { Self.Data → Situation → Self.Worth → Self.Worth → Self.Worth → Self.Worth };

    // the worth that stands for a missing kid
    ghost none: { Self.Worth };

    // the data as a byte and four bytes, and back
    ghost bytes: { Self.Data → ℕ × List ℕ };

    ghost restored: { ℕ → List ℕ → Self.Data };

    // the data is a value that its type can hold
    ghost storable: { Self.Data → Type 0 };

    fn blank() -> Self::Worth
        ensures { result ≡ none };

    fn fits(d: Self::Data, given: PerKid<bool>) -> bool
        ensures { result ≡ suits d given };

    fn work_out(d: Self::Data, s: Situation, kids: PerKid<Self::Worth>) -> Self::Worth
        ensures { result ≡ worth d s kids.first kids.second kids.third };

    fn to_bytes(d: Self::Data) -> (u8, [u8; 4])
        ensures value { result ≡ bytes d }
        ensures storable { storable d };

    fn from_bytes(byte: u8, word: [u8; 4]) -> Self::Data
        ensures { result ≡ restored byte word };

    ghost unfit_is_blank: { (d : Self.Data) (s : Situation) (a b c : Self.Worth) → ((k : PerKid Bool) → suits d k ≡ false) → worth d s a b c ≡ none };

    ghost data_comes_back: { (d : Self.Data) → storable d → restored (bytes d).0 (bytes d).1 ≡ d };

    ghost bytes_come_back: { (byte : ℕ) (word : List ℕ) → byte < 256 → AreBytes word → bytes (restored byte word) ≡ (byte, word) };
}
