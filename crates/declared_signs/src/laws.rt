//! What holds of the texts of the functions that a module declares.

ghost use Rattle.declared_signs.specs.Laws.{EachHasTexts, OneListOfTexts, ClashOrApart, NotBoth, OneFirstClash};

/// A module has one list of texts.
pub fn one_list_of_texts()
    ensures some { EachHasTexts }
    ensures one { OneListOfTexts }
{
    link_sign::each_has_text();
    link_sign::one_text();
}

/// The functions that a module declares clash or are told apart, and never both.
pub fn clash_or_apart()
    ensures either { ClashOrApart }
    ensures not_both { NotBoth }
{
    link_sign::each_has_text();
    link_sign::one_text();
    link_sign::clash_or_apart();
}

/// A module has one first clash at most.
pub fn one_first_clash()
    ensures { OneFirstClash }
{
    link_sign::one_text();
    link_sign::one_clash();
}
