//! What members give an adt.

ghost use Rattle.std.specs.Prelude.{◌≡◌, [], map, IfOk, OnOk};
ghost use Rattle.limbo_tree.specs.View.{names_of};
ghost use Rattle.limbo_types.specs.View.{view_ty};
ghost use Rattle.limbo_layout.specs.View.{view_variant};
ghost use Rattle.limbo_locals.specs.limbo_local.Members as members;
ghost use Rattle.limbo_members.specs.Adding.{view_given};

use crate::fields::push_fields;
use limbo_layout::{AdtDef, Field, Variant};
use limbo_tree::Name;
use limbo_types::Ty;
use std::alloc::{AllocError, Global};

/// What members give an adt: its fields, and the adts that stand in it, in the order of their numbers.
#[derive(Drop)]
pub(crate) struct Given {
    pub(crate) fields: Vec<Field>,
    pub(crate) adts: Vec<AdtDef>,
}

/// Nothing.
pub(crate) fn nothing_given(alloc: Global) -> Given
    ensures { view_given result ≡ members.nothing_inside }
{
    Given {
        fields: Vec::new(alloc),
        adts: Vec::new(alloc),
    }
}

/// Fields of a type.
pub(crate) fn fields_given(alloc: Global, names: &[Name], t: &Ty) -> Result<Given, AllocError>
    ensures { IfOk result (λ g. view_given g ≡ record { fields = members.fields (names_of names.now) (view_ty t.now); adts = [] }) }
{
    let mut fields = Vec::new(alloc);
    push_fields(alloc, &mut fields, names, t)?;
    Ok(Given {
        fields,
        adts: Vec::new(alloc),
    })
}

/// What more members give.
pub(crate) fn give_more(given: &mut Given, more: Given) -> Result<(), AllocError>
    ensures { OnOk result (view_given given.new ≡ members.beside (view_given given.old) (view_given more)) }
{
    let Given {
        mut fields,
        mut adts,
    } = more;
    given.fields.append(&mut fields)?;
    given.adts.append(&mut adts)?;
    Ok(())
}

/// An adt, with those that stand in it.
pub(crate) fn adt_given(
    alloc: Global,
    name: &Name,
    inside: Given,
    picks: Vec<Variant>,
) -> Result<Given, AllocError>
    ensures { IfOk result (λ g. view_given g
        ≡ members.adt_inside name.now.text (view_given inside) (map view_variant picks.items)) }
{
    let Given { fields, mut adts } = inside;
    let name = name.text.clone()?;
    let mut all = Vec::new(alloc);
    all.push(AdtDef {
        name,
        fields,
        picks,
    })?;
    all.append(&mut adts)?;
    Ok(Given {
        fields: Vec::new(alloc),
        adts: all,
    })
}
