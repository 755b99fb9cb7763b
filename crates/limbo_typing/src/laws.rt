//! What holds of the definitions.

ghost use Rattle.limbo_typing.specs.Laws.{OneTyped, OneValue, OneThing, OnePattern};
ghost use Rattle.limbo_typing.specs.Laws.{FailsOrTypes, FailsOrValue, FailsOrThing, FailsOrPattern};

/// An expression is one typed tree at most, and so is a value, a thing and a pattern.
pub fn one_typed()
    ensures typed { OneTyped }
    ensures value { OneValue }
    ensures thing { OneThing }
    ensures pattern { OnePattern }
{
    limbo_value_forms::one_form();
    limbo_assigning::one_expression();
}

/// What fails, by whatever cause, is no typed tree, value, thing or pattern.
pub fn fails_or_types()
    ensures typed { FailsOrTypes }
    ensures value { FailsOrValue }
    ensures thing { FailsOrThing }
    ensures pattern { FailsOrPattern }
{
    limbo_value_forms::one_form();
    limbo_assigning::one_expression();
}
