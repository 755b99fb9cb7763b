//! The functions of adts that stand in adts.

ghost use Rattle.std.specs.Prelude.{ℕ, List, [], ◌∷◌, map, IfSome, IfNone};
ghost use Rattle.std.specs.List.{Contains};
ghost use Rattle.limbo_tree.specs.Decls.{FnType};
ghost use Rattle.limbo_tree.specs.View.{view_member, view_members, members_of, names_of};
ghost use Rattle.limbo_declarations.specs.Rows as kinds;
ghost use Rattle.limbo_declarations.specs.Rows.{each, rows_of_member, rows_of_members};
ghost use Rattle.limbo_declarations.specs.View.{view_row, rows_of};
ghost use Rattle.limbo_defined.specs.Defined.{Holds, HasInner, IsNested};
ghost use Rattle.limbo_defined.specs.Places.{NamesInside, NamesInner, NamesNested};

use inf_text::Text;
use limbo_declarations::{Declared, Row};
use limbo_tree::{Member, Name};

// The first of the names of functions.
fn first(names: &[Name]) -> Option<&Name>
    ensures some { IfSome result (λ n. (path : List ℕ) (f : FnType)
        → Holds n.now.text (each path (names_of names.now) (kinds.Function f))) }
    ensures none { IfNone result ((path name : List ℕ) (f : FnType)
        → Holds name (each path (names_of names.now) (kinds.Function f)) → ⊥) }
    ensures among { IfSome result (λ n. Contains names.now n.now) }
{
    names.first()
}

// A function that a member declares, or an adt that stands in it.
#[cycle(inside)]
fn function_in_member(m: &Member) -> Option<&Name>
    ensures some { IfSome result (λ n. (path : List ℕ) → Holds n.now.text (rows_of_member path (view_member m.now))) }
    ensures none { IfNone result ((path name : List ℕ) → Holds name (rows_of_member path (view_member m.now)) → ⊥) }
    ensures placed { IfSome result (λ n. NamesInside n.now (m.now ∷ [])) }
{
    match m {
        Member::Function { names, .. } => first(names),
        Member::Adt { members, .. } => function_in(members),
        Member::Var { .. } => None,
        Member::Con { .. } => None,
        Member::Type { .. } => None,
    }
}

// A function that members declare, or an adt that stands there.
#[cycle(inside)]
fn function_in(members: &[Member]) -> Option<&Name>
    ensures some { IfSome result (λ n. (path : List ℕ)
        → Holds n.now.text (rows_of_members path (members_of (map view_member members.now)))) }
    ensures none { IfNone result ((path name : List ℕ)
        → Holds name (rows_of_members path (members_of (map view_member members.now))) → ⊥) }
    ensures placed { IfSome result (λ n. NamesInside n.now members.now) }
{
    for m in members {
        if let Some(name) = function_in_member(m) {
            return Some(name);
        }
    }
    None
}

// A function of an adt that is a member.
fn inner_of_member(m: &Member) -> Option<&Name>
    ensures some { IfSome result (λ n. (path : List ℕ) → HasInner (rows_of_member path (view_member m.now)) path n.now.text) }
    ensures none { IfNone result ((path name : List ℕ) → HasInner (rows_of_member path (view_member m.now)) path name → ⊥) }
    ensures placed { IfSome result (λ n. NamesInner n.now (m.now ∷ [])) }
{
    match m {
        Member::Adt { members, .. } => function_in(members),
        Member::Function { .. } => None,
        Member::Var { .. } => None,
        Member::Con { .. } => None,
        Member::Type { .. } => None,
    }
}

// A function of an adt that stands among members.
fn inner_function(members: &[Member]) -> Option<&Name>
    ensures some { IfSome result (λ n. (path : List ℕ)
        → HasInner (rows_of_members path (members_of (map view_member members.now))) path n.now.text) }
    ensures none { IfNone result ((path name : List ℕ)
        → HasInner (rows_of_members path (members_of (map view_member members.now))) path name → ⊥) }
    ensures placed { IfSome result (λ n. NamesInner n.now members.now) }
{
    for m in members {
        if let Some(name) = inner_of_member(m) {
            return Some(name);
        }
    }
    None
}

// A function of an adt that stands in an adt that a row declares.
fn inner_of_row<'a>(row: Row<'a>) -> Option<&'a Name>
    ensures some { IfSome result (λ n. IsNested (view_row row.entry ∷ []) row.entry.path.now n.now.text) }
    ensures none { IfNone result ((path name : List ℕ) → IsNested (view_row row.entry ∷ []) path name → ⊥) }
    ensures placed { IfSome result (λ n. NamesNested n.now row.entry.path (row.entry ∷ [])) }
{
    match row.declared {
        Declared::Adt { members, .. } => inner_function(members),
        _ => None,
    }
}

/// A function of an adt that stands in an adt: the path of the text in which it is declared, and its name.
pub fn nested<'a>(rows: &[Row<'a>]) -> Option<(&'a Text, &'a Name)>
    ensures some { IfSome result (λ n. IsNested (rows_of rows.now) n.0.now n.1.now.text) }
    ensures none { IfNone result ((path name : List ℕ) → IsNested (rows_of rows.now) path name → ⊥) }
    ensures placed { IfSome result (λ n. NamesNested n.1.now n.0 rows.now) }
{
    for row in rows {
        if let Some(name) = inner_of_row(*row) {
            return Some((row.path, name));
        }
    }
    None
}
