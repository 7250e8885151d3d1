// What a Begin and a Turn may change, for every kind of data and every two search orders.
ghost use Rattle.std.specs.Prelude.{ℕ};
ghost use Rattle.model.specs.Setting.{setting_for};
ghost use Rattle.model.specs.OneWord.{BeginsChangeNoWord, TurnsChangeOneWord};

use kinds::kind::Kind;
use orders::order::Order;

// A Turn changes one shared word at most, and beside that only what its party has for itself.
pub fn turns_change_one_word<K: Kind, U: Order, V: Order>()
    ensures { (N M : ℕ) → TurnsChangeOneWord (setting_for K.Kind U.Order V.Order N M) }
{}

// A Begin changes no shared word and no slot, only its party's trail, running call and notes.
pub fn begins_change_no_word<K: Kind, U: Order, V: Order>()
    ensures { (N M : ℕ) → BeginsChangeNoWord (setting_for K.Kind U.Order V.Order N M) }
{}
