// What is promised of every run of the model, for every kind of data and every two search orders.
ghost use Rattle.std.specs.Prelude.{ℕ};
ghost use Rattle.model.specs.Setting.{setting_for};
ghost use Rattle.model.specs.Existing.{FreeExactlyWhenLost, CallsEndWithinSixteen, MakesEndWhileANodeIsFree};
ghost use Rattle.model.specs.Sixteen.{SixteenIsReached};

use kinds::kind::Kind;
use orders::order::Order;

// With nothing running, some node is free exactly when some node is out of reach.
pub fn free_exactly_when_lost<K: Kind, U: Order, V: Order>()
    ensures { (N M : ℕ) → FreeExactlyWhenLost (setting_for K.Kind U.Order V.Order N M) }
{}

// A Make ends, counted from any moment of it, within so many turns of its own as the two orders' spans and the number of
// parties allow, unless at some moment no node is free.
pub fn makes_end_while_a_node_is_free<K: Kind, U: Order, V: Order>()
    ensures { (N M : ℕ) → MakesEndWhileANodeIsFree (setting_for K.Kind U.Order V.Order N M) }
{}

// A call that is neither Make nor walk ends within sixteen turns of its own.
pub fn calls_end_within_sixteen<K: Kind, U: Order, V: Order>()
    ensures { (N M : ℕ) → CallsEndWithinSixteen (setting_for K.Kind U.Order V.Order N M) }
{}

// No smaller bound would do: a Sweep with three kids to drop takes all sixteen.
pub fn sixteen_is_reached()
    ensures { SixteenIsReached }
{}
