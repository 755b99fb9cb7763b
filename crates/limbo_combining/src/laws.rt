//! What holds of the definitions.

ghost use Rattle.limbo_combining.specs.Laws.{OneCombined, OneOperated, OneBytes};

/// Operands are put together to one expression at most.
pub fn one_expression()
    ensures between { OneCombined }
    ensures before { OneOperated }
    ensures bytes { OneBytes }
{}
