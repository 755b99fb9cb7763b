//! The adts of a module, with what is read of them.

ghost use Rattle.std.specs.Prelude.{◌≡◌, ◌↔◌, ℕ, ◌+◌, ◌<◌, ◌≤◌, ◌^◌, [], ◌∷◌, ◌++◌, length, IfOk, IfErr, IsTrue};
ghost use Rattle.limbo_types.specs.Types.{Adt};
ghost use Rattle.limbo_types.specs.View.{view_ty};
ghost use Rattle.limbo_layout.specs.Adts.{AreNamed, Names};
ghost use Rattle.limbo_layout.specs.Layout.{Fits, IsLayout, IsTooLarge, limit};
ghost use Rattle.limbo_layout.specs.View.{view_defs};
ghost use Rattle.limbo_layout.specs.declared.def.AdtsFault.TheVariants.{TooLarge};
ghost use Rattle.limbo_layout.specs.declared.def.LayoutFault.TheVariants as layout_fault;
ghost use Rattle.limbo_adts.specs.Reaches.{Reaches};
ghost use Rattle.limbo_adts.specs.Table.{defs_of};

use crate::closing::close;
use crate::reaching::reaches_by;
use inf_text::Text;
use limbo_layout::{AdtDef, AdtsFault, Layout, LayoutFault, Room, lay_all, layout_of};
use limbo_types::Ty;
use std::alloc::Global;
use std::marker::Model;

/// The adts of a module and the names of module types, each by its number.
#[derive(Drop)]
pub struct Adts {
    defs: Vec<AdtDef>,
    modules: Vec<Text>,
    // Of each adt its room.
    rooms: Vec<Room>,
    // Of each adt the adts that its values may come to hold.
    closed: Vec<Vec<u32>>,
}

impl Model for Adts {
    ghost use Rattle.std.specs.Coded.{codes};
    ghost use Rattle.limbo_types.specs.contracts.ty.Ty as ty;
    ghost use Rattle.limbo_adts.specs.Table.{Table};

    ghost Value = { Table };

    ghost coded = { Prim.hlevel (codes, ty.the_row.coded) };

    ghost use Rattle.limbo_adts.specs.Seen.{table_of, IsMade};

    ghost view = { table_of };

    ghost invariant = { IsMade };
}

impl Adts {
    /// The adts of these definitions.
    ///
    /// # Errors
    /// Want of memory. `TooLarge` exactly where an adt holds itself as a value, through adts and tuples, or takes more than
    /// 65,536 bytes: the first such.
    pub fn new(alloc: Global, defs: Vec<AdtDef>, modules: Vec<Text>) -> Result<Adts, AdtsFault>
        requires few { length defs.items < 2 ^ 32 }
        requires named { AreNamed (view_defs defs.items) (length modules.items) }
        ensures adts { IfOk result (λ adts. adts.adts ≡ defs.items) }
        ensures modules { IfOk result (λ adts. adts.modules ≡ modules.items) }
        ensures fits { IfOk result (λ adts. (n : ℕ) → n < length defs.items → Fits (view_defs defs.items) (Adt n)) }
        ensures there { IfErr result (λ e. (n : ℕ) → e ≡ TooLarge n → n < length defs.items) }
        ensures too_large { IfErr result (λ e. (n : ℕ) → e ≡ TooLarge n → Fits (view_defs defs.items) (Adt n) → ⊥) }
        ensures first { IfErr result (λ e. (n m : ℕ) → e ≡ TooLarge n → m < n → Fits (view_defs defs.items) (Adt m)) }
    {
        let rooms = lay_all(alloc, &defs)?;
        let closed = close(alloc, &defs)?;
        Ok(Adts {
            defs,
            modules,
            rooms,
            closed,
        })
    }

    /// These adts and one more, whose number is how many there were. The numbers before it keep their meaning: `layouts_stay` and
    /// `reaches_stay` say so.
    ///
    /// # Errors
    /// Want of memory. `TooLarge` exactly where the new one holds itself as a value or takes more than 65,536 bytes.
    pub fn with(self, alloc: Global, def: AdtDef) -> Result<Adts, AdtsFault>
        requires few { length self.adts + 1 < 2 ^ 32 }
        requires named { AreNamed (view_defs (self.adts ++ (def ∷ []))) (length self.modules) }
        ensures adts { IfOk result (λ adts. adts.adts ≡ self.adts ++ (def ∷ [])) }
        ensures modules { IfOk result (λ adts. adts.modules ≡ self.modules) }
        ensures fits { IfOk result (λ _. (n : ℕ) → n < length self.adts + 1 → Fits (view_defs (self.adts ++ (def ∷ []))) (Adt n)) }
        ensures last { IfErr result (λ e. (n : ℕ) → e ≡ TooLarge n → n ≡ length self.adts) }
        ensures too_large { IfErr result (λ e. (n : ℕ) → e ≡ TooLarge n → Fits (view_defs (self.adts ++ (def ∷ []))) (Adt n) → ⊥) }
    {
        let Adts {
            mut defs,
            modules,
            rooms: _,
            closed: _,
        } = self;
        defs.push(def)?;
        Adts::new(alloc, defs, modules)
    }

    /// The definitions, each at its number.
    pub fn defs(&self) -> &[AdtDef]
        ensures { result.now ≡ self.now.adts }
    {
        &self.defs
    }

    /// The names of module types, each at its number.
    pub fn modules(&self) -> &[Text]
        ensures { result.now ≡ self.now.modules }
    {
        &self.modules
    }

    /// Whether one type reaches another: whether it is the other or has it among its parts, followed through adts and
    /// references, where a `ref` of a variant counts as the `ref` of its adt. It takes no memory.
    pub fn reaches(&self, from: &Ty, to: &Ty) -> bool
        ensures { IsTrue result ↔ Reaches (defs_of self.now) (view_ty from.now) (view_ty to.now) }
    {
        reaches_by(&self.defs, &self.closed, from, to)
    }

    /// The layout of a type.
    ///
    /// # Errors
    /// Want of memory. `TooLarge` exactly where it takes more than 65,536 bytes.
    pub fn layout(&self, alloc: Global, t: &Ty) -> Result<Layout, LayoutFault>
        requires { Names (defs_of self.now) (length self.now.modules) (view_ty t.now) }
        ensures laid { IfOk result (λ l. IsLayout (defs_of self.now) (view_ty t.now) l.size l.map.items) }
        ensures fits { IfOk result (λ l. l.size ≤ limit) }
        ensures too_large { IfErr result (λ e. e ≡ layout_fault.TooLarge → IsTooLarge (defs_of self.now) (view_ty t.now)) }
    {
        layout_of(alloc, &self.rooms, t)
    }
}
