// Lists whose entries go by numbers from 1, as nodes, parties and slots do.
ghost use Rattle.std.specs.Prelude.{◌≡◌, true, false, length, MatchOption};
ghost use Rattle.model.specs.Entries.{nth};
ghost use Rattle.model.specs.Steps.{between};

use orders::limits::Number;

// The entry of the number, if the list has one.
pub fn entry_at<T>(list: &[T], n: Number) -> Option<&T>
    ensures { MatchOption result (between 1 (length list.now) n ≡ false) (λ x. (between 1 (length list.now) n ≡ true) × ((blank : T) → x.now ≡ nth blank list.now n)) }
{
    list.get(usize::from(n.checked_sub(1)?))
}

// The entry of the number; the blank where the list has none.
pub fn entry<T: Copy>(list: &[T], n: Number, blank: T) -> T
    ensures { result ≡ nth blank list.now n }
{
    entry_at(list, n).copied().unwrap_or(blank)
}
