//! What holds of the definitions.

ghost use Rattle.limbo_value_forms.specs.Laws.{OneForm};

/// A form with given values as its parts is one expression at most.
pub fn one_form()
    ensures { OneForm }
{
    limbo_combining::one_expression();
    limbo_assigning::one_expression();
}
