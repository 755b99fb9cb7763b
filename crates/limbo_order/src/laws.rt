//! What holds of orders.

ghost use Rattle.limbo_order.specs.Laws.{AllBefore, NoneNeedsItself};

/// In an order each number stands behind all that it needs, through however many others.
pub fn all_before()
    ensures { AllBefore }
{}

/// Where there is an order, no number needs itself, through however many others.
pub fn none_needs_itself()
    ensures { NoneNeedsItself }
{}
