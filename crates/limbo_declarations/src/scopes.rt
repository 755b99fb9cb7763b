//! That the scopes inside a declaration declare each name once.

ghost use Rattle.std.specs.Prelude.{◌≡◌, ◌++◌, ℕ, List, map, option_map, IfOk, IfErr, IfSome, IfNone};
ghost use Rattle.inf_text.specs.declared.span.Span.{Span};
ghost use Rattle.limbo_tree.specs.View.{view_decl, view_member, view_members, members_of, view_variant, view_field, view_fn, view_param};
ghost use Rattle.limbo_tree.specs.View.{name_of, names_of};
ghost use Rattle.limbo_declarations.specs.Names.{AreOnce, IsIndex};
ghost use Rattle.limbo_declarations.specs.Scopes.{FnIsOnce, AreApart, FieldsAreOnce, PickIsOnce, MembersAreOnce, MemberIsOnce, AdtIsOnce};
ghost use Rattle.limbo_declarations.specs.Scopes.{ModuleIsOnce, DeclIsOnce};
ghost use Rattle.limbo_declarations.specs.Scopes.{member_names, variant_names, pick_names, field_names, present, param_names};
ghost use Rattle.limbo_declarations.specs.View.{texts_of};
ghost use Rattle.limbo_declarations.specs.declared.scopes.OnceFault.TheVariants.{Twice};

use crate::names::{NamesFault, index, look_up};
use inf_text::{Span, Text};
use limbo_tree::{Decl, Field, FnType, Member, Name, Param, Variant, names_of_member};
use std::alloc::{AllocError, AllocFailed, Global};
use std::collections::BTreeMap;

/// Why a scope isn't one.
#[derive(Clone, Copy, PartialEq, Eq, Debug)]
pub enum OnceFault {
    /// Want of memory.
    NoMemory,
    /// Refusal 41: the name that stands there is declared before it in the same scope.
    Twice { at: Span },
}

impl From<AllocError> for OnceFault {
    ghost use Rattle.std.specs.Prelude.{◌≡◌};
    ghost use Rattle.limbo_declarations.specs.declared.scopes.OnceFault.TheVariants.{NoMemory};

    ghost from_gives = { λ _ e. e ≡ NoMemory };

    fn from(_error: AllocError) -> OnceFault {
        OnceFault::NoMemory
    }
}

impl<T: Drop> From<AllocFailed<T>> for OnceFault {
    ghost use Rattle.std.specs.Prelude.{◌≡◌};
    ghost use Rattle.limbo_declarations.specs.declared.scopes.OnceFault.TheVariants.{NoMemory};

    ghost from_gives = { λ _ e. e ≡ NoMemory };

    fn from(_error: AllocFailed<T>) -> OnceFault {
        OnceFault::NoMemory
    }
}

// ---- names in rows

fn push_names<'a>(all: &mut Vec<&'a Name>, more: &'a [Name]) -> Result<(), AllocError>
    ensures { IfOk result (λ _. texts_of all.new.items ≡ texts_of all.old.items ++ names_of more.now) }
{
    for name in more {
        all.push(name)?;
    }
    Ok(())
}

fn push_members<'a>(all: &mut Vec<&'a Name>, members: &'a [Member]) -> Result<(), AllocError>
    ensures { IfOk result (λ _. texts_of all.new.items ≡ texts_of all.old.items
        ++ member_names (members_of (map view_member members.now))) }
{
    for m in members {
        push_names(all, names_of_member(m))?;
    }
    Ok(())
}

fn push_variants<'a>(all: &mut Vec<&'a Name>, variants: &'a [Variant]) -> Result<(), AllocError>
    ensures { IfOk result (λ _. texts_of all.new.items ≡ texts_of all.old.items ++ variant_names (map view_variant variants.now)) }
{
    for v in variants {
        push_names(all, &v.names)?;
    }
    Ok(())
}

#[tactic(auto, using(crate::proofs::Apart::none_behind))]
fn push_pick<'a>(all: &mut Vec<&'a Name>, pick: &'a Option<Vec<Variant>>) -> Result<(), AllocError>
    ensures { IfOk result (λ _. texts_of all.new.items ≡ texts_of all.old.items
        ++ pick_names (option_map (λ vs. map view_variant vs.items) pick.now)) }
{
    match pick {
        None => Ok(()),
        Some(variants) => push_variants(all, variants),
    }
}

fn push_fields<'a>(all: &mut Vec<&'a Name>, fields: &'a [Field]) -> Result<(), AllocError>
    ensures { IfOk result (λ _. texts_of all.new.items ≡ texts_of all.old.items ++ field_names (map view_field fields.now)) }
{
    for f in fields {
        push_names(all, &f.names)?;
    }
    Ok(())
}

// The names that aren't `nil`.
fn push_present<'a>(all: &mut Vec<&'a Name>, names: &'a [Option<Name>]) -> Result<(), AllocError>
    ensures { IfOk result (λ _. texts_of all.new.items ≡ texts_of all.old.items ++ present (map name_of names.now)) }
{
    for name in names {
        if let Some(name) = name {
            all.push(name)?;
        }
    }
    Ok(())
}

fn push_params<'a>(all: &mut Vec<&'a Name>, params: &'a [Param]) -> Result<(), AllocError>
    ensures { IfOk result (λ _. texts_of all.new.items ≡ texts_of all.old.items ++ param_names (map view_param params.now)) }
{
    for p in params {
        push_present(all, &p.names)?;
    }
    Ok(())
}

// ---- scopes

// The texts of names.
fn copied(alloc: Global, all: &[&Name]) -> Result<Vec<Text>, AllocError>
    ensures { IfOk result (λ texts. texts.items ≡ texts_of all.now) }
{
    let mut texts = Vec::with_capacity(alloc, all.len())?;
    for name in all {
        texts.push(name.text.clone()?)?;
    }
    Ok(texts)
}

// Where each name stands, if no two are one.
fn index_of(alloc: Global, all: &[&Name]) -> Result<BTreeMap<Text, usize>, OnceFault>
    ensures index { IfOk result (λ index. IsIndex index (texts_of all.now)) }
    ensures once { IfOk result (λ _. AreOnce (texts_of all.now)) }
    ensures twice { IfErr result (λ e. (at : Span) → e ≡ Twice at → AreOnce (texts_of all.now) → ⊥) }
{
    let texts = copied(alloc, all)?;
    match index(alloc, &texts) {
        Ok(index) => Ok(index),
        Err(NamesFault::NoMemory) => Err(OnceFault::NoMemory),
        Err(NamesFault::Twice { row }) => Err(OnceFault::Twice { at: all[row].span }),
    }
}

/// That no two parameters of a function have one name.
///
/// # Errors
/// Want of memory. `Twice` exactly where two have.
pub fn fn_once(alloc: Global, of: &FnType) -> Result<(), OnceFault>
    ensures once { IfOk result (λ _. FnIsOnce (view_fn of.now)) }
    ensures twice { IfErr result (λ e. (at : Span) → e ≡ Twice at → FnIsOnce (view_fn of.now) → ⊥) }
{
    let mut all = Vec::new(alloc);
    push_params(&mut all, &of.params)?;
    let _index = index_of(alloc, &all)?;
    Ok(())
}

// Where a name stands that is among these.
fn met(members: &BTreeMap<Text, usize>, fields: &[&Name]) -> Option<Span>
    ensures some { IfSome result (λ _. (ns : List (List ℕ)) → IsIndex members.now ns → AreApart ns (texts_of fields.now) → ⊥) }
    ensures none { IfNone result ((ns : List (List ℕ)) → IsIndex members.now ns → AreApart ns (texts_of fields.now)) }
{
    for field in fields {
        if let Some(_member) = look_up(members, &field.text) {
            return Some(field.span);
        }
    }
    None
}

// That a variant's fields have names of their own.
fn variant_once(
    alloc: Global,
    members: &BTreeMap<Text, usize>,
    v: &Variant,
) -> Result<(), OnceFault>
    ensures once { IfOk result (λ _. AreOnce (field_names (view_variant v.now).fields)) }
    ensures apart { IfOk result (λ _. (ns : List (List ℕ)) → IsIndex members.now ns
        → AreApart ns (field_names (view_variant v.now).fields)) }
    ensures twice { IfErr result (λ e. (at : Span) (ns : List (List ℕ)) → e ≡ Twice at → IsIndex members.now ns
        → AreOnce (field_names (view_variant v.now).fields) → AreApart ns (field_names (view_variant v.now).fields) → ⊥) }
{
    let mut all = Vec::new(alloc);
    push_fields(&mut all, &v.fields)?;
    let _index = index_of(alloc, &all)?;
    match met(members, &all) {
        Some(at) => Err(OnceFault::Twice { at }),
        None => Ok(()),
    }
}

fn variants_once(
    alloc: Global,
    members: &BTreeMap<Text, usize>,
    variants: &[Variant],
) -> Result<(), OnceFault>
    ensures once { IfOk result (λ _. (ns : List (List ℕ)) → IsIndex members.now ns → FieldsAreOnce ns (map view_variant variants.now)) }
    ensures twice { IfErr result (λ e. (at : Span) (ns : List (List ℕ)) → e ≡ Twice at → IsIndex members.now ns
        → FieldsAreOnce ns (map view_variant variants.now) → ⊥) }
{
    for v in variants {
        variant_once(alloc, members, v)?;
    }
    Ok(())
}

// That the fields of each variant have names of their own.
fn pick_once(
    alloc: Global,
    members: &[Member],
    pick: &Option<Vec<Variant>>,
) -> Result<(), OnceFault>
    ensures once { IfOk result (λ _. PickIsOnce (member_names (members_of (map view_member members.now))) (option_map
        (λ vs. map view_variant vs.items) pick.now)) }
    ensures twice { IfErr result (λ e. (at : Span) → e ≡ Twice at → AreOnce (member_names (members_of (map view_member members.now)))
        → PickIsOnce (member_names (members_of (map view_member members.now))) (option_map
        (λ vs. map view_variant vs.items) pick.now) → ⊥) }
{
    match pick {
        None => Ok(()),
        Some(variants) => {
            let mut all = Vec::new(alloc);
            push_members(&mut all, members)?;
            let index = index_of(alloc, &all)?;
            variants_once(alloc, &index, variants)
        }
    }
}

// The scope that the members of an adt share with the names of its variants.
fn shared_once(
    alloc: Global,
    members: &[Member],
    pick: &Option<Vec<Variant>>,
) -> Result<(), OnceFault>
    ensures once { IfOk result (λ _. AreOnce (member_names (members_of (map view_member members.now))
        ++ pick_names (option_map (λ vs. map view_variant vs.items) pick.now))) }
    ensures twice { IfErr result (λ e. (at : Span) → e ≡ Twice at
        → AreOnce (member_names (members_of (map view_member members.now))
        ++ pick_names (option_map (λ vs. map view_variant vs.items) pick.now)) → ⊥) }
{
    let mut all = Vec::new(alloc);
    push_members(&mut all, members)?;
    push_pick(&mut all, pick)?;
    let _index = index_of(alloc, &all)?;
    Ok(())
}

// The scopes inside an adt.
#[cycle(inside)]
fn adt_once(alloc: Global, members: &[Member], pick: &Option<Vec<Variant>>) -> Result<(), OnceFault>
    ensures once { IfOk result (λ _. AdtIsOnce (members_of (map view_member members.now)) (option_map
        (λ vs. map view_variant vs.items) pick.now)) }
    ensures twice { IfErr result (λ e. (at : Span) → e ≡ Twice at
        → AdtIsOnce (members_of (map view_member members.now)) (option_map (λ vs. map view_variant vs.items) pick.now) → ⊥) }
{
    shared_once(alloc, members, pick)?;
    pick_once(alloc, members, pick)?;
    members_once(alloc, members)
}

// The scopes inside a member.
#[tactic(auto, using(limbo_tree::proofs::Members::the_members), unfolding(limbo_tree::specs::View::view_members))]
#[cycle(inside)]
fn member_once(alloc: Global, m: &Member) -> Result<(), OnceFault>
    ensures once { IfOk result (λ _. MemberIsOnce (view_member m.now)) }
    ensures twice { IfErr result (λ e. (at : Span) → e ≡ Twice at → MemberIsOnce (view_member m.now) → ⊥) }
{
    match m {
        Member::Function { of, .. } => fn_once(alloc, of),
        Member::Adt { members, pick, .. } => adt_once(alloc, members, pick),
        Member::Var { .. } => Ok(()),
        Member::Con { .. } => Ok(()),
        Member::Type { .. } => Ok(()),
    }
}

#[cycle(inside)]
fn members_once(alloc: Global, members: &[Member]) -> Result<(), OnceFault>
    ensures once { IfOk result (λ _. MembersAreOnce (members_of (map view_member members.now))) }
    ensures twice { IfErr result (λ e. (at : Span) → e ≡ Twice at → MembersAreOnce (members_of (map view_member members.now)) → ⊥) }
{
    for m in members {
        member_once(alloc, m)?;
    }
    Ok(())
}

// The scopes inside a module.
fn module_once(alloc: Global, members: &[Member]) -> Result<(), OnceFault>
    ensures once { IfOk result (λ _. ModuleIsOnce (members_of (map view_member members.now))) }
    ensures twice { IfErr result (λ e. (at : Span) → e ≡ Twice at → ModuleIsOnce (members_of (map view_member members.now)) → ⊥) }
{
    let mut all = Vec::new(alloc);
    push_members(&mut all, members)?;
    let _index = index_of(alloc, &all)?;
    members_once(alloc, members)
}

/// That each scope inside a declaration declares each name once.
///
/// # Errors
/// Want of memory. `Twice` exactly where one doesn't.
#[tactic(auto, unfolding(limbo_tree::specs::View::view_members))]
pub fn decl_once(alloc: Global, d: &Decl) -> Result<(), OnceFault>
    ensures once { IfOk result (λ _. DeclIsOnce (view_decl d.now)) }
    ensures twice { IfErr result (λ e. (at : Span) → e ≡ Twice at → DeclIsOnce (view_decl d.now) → ⊥) }
{
    match d {
        Decl::Module { members, .. } => module_once(alloc, members),
        Decl::Adt { members, pick, .. } => adt_once(alloc, members, pick),
        Decl::Con { .. } => Ok(()),
        Decl::Type { .. } => Ok(()),
        Decl::Var { .. } => Ok(()),
        Decl::Define { .. } => Ok(()),
        Decl::Import { .. } => Ok(()),
        Decl::Exception { .. } => Ok(()),
    }
}
