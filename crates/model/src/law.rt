// The law of the shared store, for every kind of data and every two search orders, after every list of Begins and Turns.
ghost use Rattle.std.specs.Prelude.{ℕ};
ghost use Rattle.model.specs.Setting.{setting_for};
ghost use Rattle.model.specs.Law.{StoreLaw};
ghost use Rattle.model.specs.FiveCalls.{FiveCallsInterleaved};
ghost use Rattle.model.specs.RefusedCalls.{RefusedCallsStand};
ghost use Rattle.model.specs.Strides.{StridesOpenANewStore};

use kinds::kind::Kind;
use orders::order::Order;

// From any opened pair of a store and a plain store, calls under way included: the plain store runs through the same calls
// with the same answers and refusals and agrees at the end; with nothing running, nodes are free exactly when nodes are out
// of reach; Makes, other calls and walks end within their bounds. A new store is opened.
pub fn store_law<K: Kind, U: Order, V: Order>()
    ensures { (N M : ℕ) → StoreLaw (setting_for K.Kind U.Order V.Order N M) }
{}

// The law speaks of something: from a new store two parties interleave a Make, a Hand, a Fetch, a walk and a Drop.
pub fn five_calls_interleaved()
    ensures { FiveCallsInterleaved }
{}

// A call that is refused, but not for being busy, stands where it is refused; a Turn of nothing stands nowhere.
pub fn refused_calls_stand()
    ensures { RefusedCallsStand }
{}

// What the law starts from is met by a new store whose search orders are two strides.
pub fn strides_open_a_new_store<K: Kind>()
    ensures { StridesOpenANewStore K.Kind }
{}
