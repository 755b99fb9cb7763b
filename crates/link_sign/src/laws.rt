//! What holds of texts, signatures and clashes.

ghost use Rattle.link_sign.specs.Laws.{OneText, EachHasText, SameTypesOneText, OneSignature, NoneIsPrint, OneClash, ClashOrApart, NotBoth};

/// A function's type has one text at most.
pub fn one_text()
    ensures { OneText }
{}

/// Each function's type has a text.
pub fn each_has_text()
    ensures { EachHasText }
{}

/// Functions whose arguments and answers are `equal` have the same text.
pub fn equal_types_one_text()
    ensures { SameTypesOneText }
{}

/// A function has one signature.
pub fn one_signature()
    ensures { OneSignature }
{}

/// No function has the text of a built-in print.
pub fn none_is_print()
    ensures { NoneIsPrint }
{}

/// Texts that clash have one first clash.
pub fn one_clash()
    ensures { OneClash }
{}

/// Texts clash or are told apart, and never both.
pub fn clash_or_apart()
    ensures either { ClashOrApart }
    ensures not_both { NotBoth }
{}
