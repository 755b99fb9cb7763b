//! What holds of typed modules of sources.

ghost use Rattle.limbo_modules.specs.Laws.{OneModule, FailsOrModule};

/// A source is one typed module at most.
pub fn one_module()
    ensures { OneModule }
{
    limbo_source_context::one_context();
    limbo_source_context::one_beginnings();
    limbo_stmt_values::limbo_stating::one_statement();
}

/// A source that fails, by whatever reason, is no typed module.
pub fn fails_or_module()
    ensures { FailsOrModule }
{
    limbo_type_names::circles_stand_for_nothing();
    limbo_type_names::fails_or_means();
    limbo_source_context::one_context();
    limbo_source_context::fails_or_context();
    limbo_declared_types::forbidden_or_all_permitted();
    limbo_stmt_values::limbo_stating::fails_or_states();
}
