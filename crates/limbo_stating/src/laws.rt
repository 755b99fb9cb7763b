//! What holds of the definitions.

ghost use Rattle.limbo_stating.specs.Laws.{OneStatement, OneBlock, OneModule};
ghost use Rattle.limbo_stating.specs.Laws.{FailsOrStates, FailsOrBlock, FailsOrModule};

/// A statement is one typed statement at most, and so are a block and the functions of a module.
pub fn one_statement()
    ensures statement { OneStatement }
    ensures block { OneBlock }
    ensures functions { OneModule }
{
    limbo_local::limbo_typing::one_typed();
    limbo_standing::settled_values();
    limbo_arguments::one_settled();
    limbo_things::one_thing();
    limbo_local::one_declared();
}

/// What fails, by whatever reason, is no typed statement, no block and no function.
pub fn fails_or_states()
    ensures statement { FailsOrStates }
    ensures block { FailsOrBlock }
    ensures functions { FailsOrModule }
{
    limbo_local::limbo_typing::one_typed();
    limbo_local::limbo_typing::fails_or_types();
    limbo_standing::settled_values();
    limbo_arguments::one_settled();
    limbo_arguments::failing_values();
    limbo_things::one_thing();
    limbo_local::one_declared();
    limbo_local::fails_or_declares();
}
