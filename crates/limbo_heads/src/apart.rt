//! The labels of all arms of a `case`.

ghost use Rattle.std.specs.Prelude.{◌≡◌, ◌≤◌, ◌≤ℤ◌, ◌↔◌, ◌++◌, ◌∷◌, [], map, option_map, count_by, IsTrue, IfOk};
ghost use Rattle.std.specs.List.{filter_map};
ghost use Rattle.limbo_cases.specs.Labels.{Apart};
ghost use Rattle.limbo_cases.specs.Texts as texts;
ghost use Rattle.limbo_cases.specs.Texts.{TextAtMost};
ghost use Rattle.limbo_typed.specs.View.{view_case_arm, heads_of};
ghost use Rattle.limbo_stmt_values.specs.limbo_stating.Cases as rules;
ghost use Rattle.limbo_stmt_values.specs.limbo_stating.Cases.{all_patterns, AreApart};
ghost use Rattle.limbo_heads.specs.Labels as labels;
ghost use Rattle.limbo_heads.specs.Labels.{label_in};

use inf_text::Text;
use limbo_cases::{Label, overlapping_numbers, overlapping_texts};
use limbo_typed::{CaseArm, CasePattern, Constant};
use std::alloc::{AllocError, Global};

// More patterns.
fn push_patterns<'a>(
    all: &mut Vec<&'a CasePattern>,
    patterns: &'a [CasePattern],
) -> Result<(), AllocError>
    ensures { IfOk result (λ _. map (λ p. p.now) all.new.items ≡ map (λ p. p.now) all.old.items ++ patterns.now) }
{
    for pattern in patterns {
        all.push(pattern)?;
    }
    Ok(())
}

// The patterns of all arms, one arm after the other.
fn patterns_in(alloc: Global, arms: &[CaseArm]) -> Result<Vec<&CasePattern>, AllocError>
    ensures { IfOk result (λ ps. map (λ p. p.now) ps.items ≡ all_patterns (heads_of (map view_case_arm arms.now))) }
{
    let mut all = Vec::new(alloc);
    for arm in arms {
        push_patterns(&mut all, &arm.patterns)?;
    }
    Ok(all)
}

// Whether a pattern is `*`.
fn is_star(pattern: &CasePattern) -> bool
    ensures { result ≡ rules.is_star pattern.now }
{
    match pattern {
        CasePattern::Any => true,
        _ => false,
    }
}

// How many patterns are `*`.
fn stars(patterns: &[&CasePattern]) -> usize
    ensures { result ≡ count_by (λ p. rules.is_star p.now) patterns.now }
{
    let mut count = 0;
    for pattern in patterns {
        if is_star(pattern) {
            count += 1;
        }
    }
    count
}

// The number that a constant is.
fn number_in(constant: &Constant) -> Option<i64>
    ensures { result ≡ labels.number_in constant.now }
{
    match constant {
        Constant::Number(number) => Some(*number),
        Constant::Chars(_) => None,
    }
}

// A label with these ends, where both are there.
fn number_label(low: Option<i64>, high: Option<i64>) -> Option<Label<i64>>
    ensures { result ≡ labels.label_of low high }
{
    Some(Label {
        low: low?,
        high: high?,
    })
}

// The label that a pattern is, where its ends are numbers.
fn numbers_in(pattern: &CasePattern) -> Option<Label<i64>>
    ensures { result ≡ label_in labels.number_in pattern.now }
{
    match pattern {
        CasePattern::One(value) => number_label(number_in(value), number_in(value)),
        CasePattern::Range { from, to } => number_label(number_in(from), number_in(to)),
        CasePattern::Any => None,
    }
}

// The label that a pattern is, where its ends are numbers, behind others.
fn push_number(all: &mut Vec<Label<i64>>, pattern: &CasePattern) -> Result<(), AllocError>
    ensures { IfOk result (λ _. all.new.items ≡ all.old.items ++ filter_map (label_in labels.number_in) (pattern.now ∷ [])) }
{
    if let Some(label) = numbers_in(pattern) {
        all.push(label)?;
    }
    Ok(())
}

// The labels whose ends are numbers.
fn number_labels(alloc: Global, patterns: &[&CasePattern]) -> Result<Vec<Label<i64>>, AllocError>
    ensures { IfOk result (λ ls. ls.items ≡ filter_map (label_in labels.number_in) (map (λ p. p.now) patterns.now)) }
{
    let mut all = Vec::new(alloc);
    for pattern in patterns {
        push_number(&mut all, pattern)?;
    }
    Ok(all)
}

// The string that a constant is.
fn text_in(constant: &Constant) -> Option<&Text>
    ensures { option_map (λ t. t.now) result ≡ labels.text_in constant.now }
{
    match constant {
        Constant::Number(_) => None,
        Constant::Chars(text) => Some(text),
    }
}

// The label between two constants, where both are strings.
fn text_label<'a>(low: &'a Constant, high: &'a Constant) -> Option<Label<&'a Text>>
    ensures { option_map texts.text_label result ≡ labels.label_of (labels.text_in low.now) (labels.text_in high.now) }
{
    Some(Label {
        low: text_in(low)?,
        high: text_in(high)?,
    })
}

// The label that a pattern is, where its ends are strings.
fn texts_in(pattern: &CasePattern) -> Option<Label<&Text>>
    ensures { option_map texts.text_label result ≡ label_in labels.text_in pattern.now }
{
    match pattern {
        CasePattern::One(value) => text_label(value, value),
        CasePattern::Range { from, to } => text_label(from, to),
        CasePattern::Any => None,
    }
}

// The label that a pattern is, where its ends are strings, behind others.
fn push_text<'a>(all: &mut Vec<Label<&'a Text>>, pattern: &'a CasePattern) -> Result<(), AllocError>
    ensures { IfOk result (λ _. map texts.text_label all.new.items
        ≡ map texts.text_label all.old.items ++ filter_map (label_in labels.text_in) (pattern.now ∷ [])) }
{
    if let Some(label) = texts_in(pattern) {
        all.push(label)?;
    }
    Ok(())
}

// The labels whose ends are strings.
fn text_labels<'a>(
    alloc: Global,
    patterns: &[&'a CasePattern],
) -> Result<Vec<Label<&'a Text>>, AllocError>
    ensures { IfOk result (λ ls. map texts.text_label ls.items
        ≡ filter_map (label_in labels.text_in) (map (λ p. p.now) patterns.now)) }
{
    let mut all = Vec::new(alloc);
    for pattern in patterns {
        push_text(&mut all, pattern)?;
    }
    Ok(all)
}

// Whether no two labels overlap that are numbers.
fn numbers_apart(alloc: Global, patterns: &[&CasePattern]) -> Result<bool, AllocError>
    ensures { IfOk result (λ yes. IsTrue yes ↔ Apart ◌≤ℤ◌
        (filter_map (label_in labels.number_in) (map (λ p. p.now) patterns.now))) }
{
    let numbers = number_labels(alloc, patterns)?;
    Ok(overlapping_numbers(alloc, &numbers)?.is_none())
}

// Whether no two labels overlap that are strings.
fn texts_apart(alloc: Global, patterns: &[&CasePattern]) -> Result<bool, AllocError>
    ensures { IfOk result (λ yes. IsTrue yes ↔ Apart TextAtMost
        (filter_map (label_in labels.text_in) (map (λ p. p.now) patterns.now))) }
{
    let strings = text_labels(alloc, patterns)?;
    Ok(overlapping_texts(alloc, &strings)?.is_none())
}

// Whether all is as it should be: numbers, strings and so many stars.
fn are_all(numbers: bool, texts: bool, stars: usize) -> bool
    ensures { IsTrue result ↔ (IsTrue numbers × IsTrue texts × (stars ≤ 1)) }
{
    numbers && texts && stars <= 1
}

/// Whether no value fits two labels of a `case`, and `*` stands once at most.
///
/// # Errors
/// Want of memory.
pub fn are_apart(alloc: Global, arms: &[CaseArm]) -> Result<bool, AllocError>
    ensures { IfOk result (λ yes. IsTrue yes ↔ AreApart (heads_of (map view_case_arm arms.now))) }
{
    let patterns = patterns_in(alloc, arms)?;
    let numbers = numbers_apart(alloc, &patterns)?;
    let texts = texts_apart(alloc, &patterns)?;
    Ok(are_all(numbers, texts, stars(&patterns)))
}
