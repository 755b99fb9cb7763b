//! The layout of a type.

ghost use Rattle.std.specs.Prelude.{◌≡◌, ℕ, ◌<◌, ◌≤◌, List, length, IfOk, IfErr};
ghost use Rattle.limbo_types.specs.View.{view_ty};
ghost use Rattle.limbo_layout.specs.Adts.{Def, Has, held};
ghost use Rattle.limbo_layout.specs.Layout.{IsLayout, IsTooLarge, limit};
ghost use Rattle.limbo_layout.specs.Laying.{AreLaid};
ghost use Rattle.limbo_layout.specs.declared.def.LayoutFault.TheVariants.{TooLarge};

use crate::def::LayoutFault;
use crate::laying::put_type;
use crate::room::Room;
use limbo_types::Ty;
use std::alloc::Global;

/// How a value of a type lies in memory.
#[derive(Drop)]
pub struct Layout {
    /// What it takes, in bytes.
    pub size: u32,
    /// Which of its words of 4 bytes refer to heap values, by their order.
    pub map: Vec<bool>,
}

/// The layout of a type, by the rooms of all adts.
///
/// # Errors
/// Want of memory. `TooLarge` exactly where it takes more than 65,536 bytes.
pub fn layout_of(alloc: Global, rooms: &[Room], t: &Ty) -> Result<Layout, LayoutFault>
    requires { (n : ℕ) → Has (held (view_ty t.now)) n → n < length rooms.now }
    ensures laid { (defs : List Def) → AreLaid defs rooms.now → IfOk result (λ l. IsLayout defs (view_ty t.now) l.size l.map.items) }
    ensures fits { IfOk result (λ l. l.size ≤ limit) }
    ensures too_large { (defs : List Def) → AreLaid defs rooms.now → IfErr result (λ e. e ≡ TooLarge → IsTooLarge defs (view_ty t.now)) }
{
    let mut whole = Room::new(alloc);
    put_type(alloc, rooms, &mut whole, t)?;
    let map = whole.map(alloc)?;
    Ok(Layout {
        size: whole.size(),
        map,
    })
}
