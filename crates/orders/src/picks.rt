ghost use Rattle.std.specs.Prelude.{◌≡◌, ◌+◌, ◌<◌, ◌≤◌, [], ◌∷◌, ◌++◌, IfOk, vec_len, vec_capacity, OnErr};
ghost use Rattle.orders.specs.Limits.{IsParty};
ghost use Rattle.orders.specs.Meaning.{EachComes, Picked, PickedInTurn};

use crate::limits::{Number, Party};
use crate::order::Order;
use std::alloc::{AllocError, Global};

// So many picks for one party, in the order in which they come. In as many as the span says every number comes,
// whatever the order. Memory is asked for before the first pick, so want of it leaves the order as it was.
pub fn picks<O: Order>(
    order: &mut O,
    party: Party,
    times: u32,
    heap: Global,
) -> Result<Vec<Number>, AllocError>
    ensures picked { IfOk result (λ v. PickedInTurn O.Order.numbers O.Order.horizon O.Order.due party order.old v.items order.new) }
    ensures len { IfOk result (λ v. vec_len v ≡ times) }
    ensures each_comes { IfOk result (λ v. IsParty party → O.Order.horizon order.old ≤ times → EachComes (O.Order.numbers order.old) v.items) }
    ensures same { OnErr result (order.new ≡ order.old) }
{
    let mut answers = Vec::with_capacity(heap, times as usize)?;
    for _ in 0..times {
        answers.push_reserved(order.pick(party));
    }
    Ok(answers)
}
