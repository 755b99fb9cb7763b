//! What holds of typed modules of sources, where files are told.

ghost use Rattle.source_modules.specs.Laws.{OneChecked, FailsOrChecked};

/// A source is one typed module at most.
pub fn one_checked()
    ensures { OneChecked }
{
    limbo_modules::one_module();
}

/// A source of which a refusal holds is no typed module, where its tree is one by the grammar.
pub fn fails_or_checked()
    ensures { FailsOrChecked }
{
    limbo_modules::fails_or_module();
    source_names::refused_declares_nothing();
}
