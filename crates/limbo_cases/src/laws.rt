//! What holds of labels.

ghost use Rattle.std.specs.Prelude.{◌≤ℤ◌};
ghost use Rattle.limbo_cases.specs.Labels.{AtMost};
ghost use Rattle.limbo_cases.specs.Texts.{TextAtMost};
ghost use Rattle.limbo_cases.specs.Laws.{AtMostOne, FirstIsOne, EndsDecide, EmptyFitsNothing};

/// Where no two labels overlap, each value fits at most one.
pub fn at_most_one<T: Ord>()
    ensures any { AtMostOne (AtMost T.cmp) }
    ensures numbers { AtMostOne ◌≤ℤ◌ }
    ensures texts { AtMostOne TextAtMost }
{}

/// There is one first label that an earlier one overlaps, and none where labels are apart.
pub fn first_is_one<T: Ord>()
    ensures any { FirstIsOne (AtMost T.cmp) }
    ensures numbers { FirstIsOne ◌≤ℤ◌ }
    ensures texts { FirstIsOne TextAtMost }
{}

/// Two labels overlap exactly where the greater of their low ends is at most the lesser of their high ends.
pub fn ends_decide<T: Ord>()
    ensures { EndsDecide T.cmp }
{}

/// No value fits a label whose low end is above its high one.
pub fn empty_fits_nothing<T: Ord>()
    ensures { EmptyFitsNothing T.cmp }
{}
