// What the meaning of the two orders leaves open of a pick: nothing.
ghost use Rattle.orders.specs.OnePick.{CardsAnswerAlong, CardsLeaveOnePick, StridesAnswerAlong, StridesLeaveOnePick};

// Whatever pick of a stride keeps the meaning answers the number that is due at once, which comes last from then on, and
// brings every other number nearer by one. So who knows a stride by its meaning alone knows each of its answers.
pub fn strides_leave_one_pick()
    ensures one_pick { StridesLeaveOnePick }
    ensures in_turn { StridesAnswerAlong }
{}

// The same of cards.
pub fn cards_leave_one_pick()
    ensures one_pick { CardsLeaveOnePick }
    ensures in_turn { CardsAnswerAlong }
{}
