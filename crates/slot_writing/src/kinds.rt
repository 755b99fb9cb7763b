//! Of which kind values are, and what evaluating a term may change.

ghost use Rattle.std.specs.Prelude.{◌≡◌, option_map, Some};
ghost use Rattle.limbo_types.specs.View.{view_ty};
ghost use Rattle.limbo_typed.specs.View.{view_exprs};
ghost use Rattle.limbo_values.specs.Numbers as numbers;
ghost use Rattle.typed_meaning.specs.Program as program;
ghost use Rattle.typed_meaning.specs.Trees.{Local};
ghost use Rattle.typed_meaning.specs.Values as values;
ghost use Rattle.slot_code.specs.Code as slot;
ghost use Rattle.slot_code.specs.View.{view_spot, view_operand};
ghost use Rattle.typed_lower.specs.Kinds as kinds;
ghost use Rattle.typed_lower.specs.Statements as statements;
ghost use Rattle.typed_lower.specs.Terms as terms;
ghost use Rattle.slot_writing.specs.Terms.{view_at, view_variable, view_term, arguments};
ghost use Rattle.slot_writing.specs.Operands as operands;

use crate::terms::{At, Taker, Term, Variable, term_of};
use limbo_typed::{Operation, TExpr};
use limbo_types::Ty;
use limbo_values::{Kind, byte, int};
use slot_code::{Operand, Spot};
use typed_lower::Taking;

/// Of which kind the numbers of a type are.
#[tactic(auto, using(limbo_types::proofs::View::the_types, crate::proofs::Others::other_kind))]
pub(crate) fn kind_of(ty: &Ty) -> Kind
    ensures { result ≡ values.kind_of (view_ty ty.now) }
{
    match ty {
        Ty::Byte => Kind::Byte,
        Ty::Big => Kind::Big,
        _ => Kind::Int,
    }
}

/// Of which kind a variable of a type is: none where it isn't a number.
#[tactic(auto, using(limbo_types::proofs::View::the_types, crate::proofs::Others::no_number))]
pub(crate) fn number_kind(ty: &Ty) -> Option<Kind>
    ensures { result ≡ statements.number_kind (view_ty ty.now) }
{
    match ty {
        Ty::Byte => Some(Kind::Byte),
        Ty::Int => Some(Kind::Int),
        Ty::Big => Some(Kind::Big),
        _ => None,
    }
}

/// What is left of a number in the bits of a kind.
pub(crate) fn wrapped(kind: Kind, value: i64) -> i64
    ensures { result ≡ numbers.wrapped kind value }
{
    match kind {
        Kind::Byte => i64::from(byte::wrap(value)),
        Kind::Int => i64::from(int::wrap(value)),
        Kind::Big => value,
    }
}

// Of which kind an operation's value is.
fn kind_given(operation: Operation) -> Kind
    ensures { result ≡ kinds.kind_given operation }
{
    match operation {
        Operation::Arithmetic { kind, .. } => kind,
        Operation::Shift { kind, .. } => kind,
        Operation::Alter { kind, .. } => kind,
        Operation::Convert { to, .. } => to,
        _ => Kind::Int,
    }
}

impl<'a> Variable<'a> {
    /// Of which kind it is.
    pub(crate) fn kind(self) -> Kind
        ensures { result ≡ kinds.kind_at (view_variable self.entry) }
    {
        kind_of(self.ty)
    }

    /// Where it is.
    pub(crate) fn spot(self) -> Spot
        ensures { view_spot result ≡ kinds.spot_of (view_variable self.entry) }
    {
        let kind = kind_of(self.ty);
        match self.at {
            At::Local(number) => Spot::Variable { kind, number },
            At::Global(number) => Spot::Global { kind, number },
        }
    }

    // Whether it is the function's variable of this number.
    fn is_local(self, variable: u32) -> bool
        ensures { result ≡ kinds.is_at (Local variable) (view_variable self.entry) }
    {
        match self.at {
            At::Local(number) => variable == number,
            At::Global(_) => false,
        }
    }
}

/// Of which kind a term's value is.
pub(crate) fn kind_in(term: Term<'_>) -> Kind
    ensures { result ≡ kinds.kind_in (view_term term.entry) }
{
    match term {
        Term::Literal { ty, .. } => kind_of(ty),
        Term::Read(variable) => variable.kind(),
        Term::Apply { operation, .. } => kind_given(operation),
        Term::Store { into, .. } => into.kind(),
        Term::Update { into, .. } => into.kind(),
        Term::Step { into, .. } => into.kind(),
        Term::Call { ty, .. } => kind_of(ty),
        Term::Missing => Kind::Int,
        Term::Widened(_) => Kind::Int,
        Term::Lazy { .. } => Kind::Int,
        Term::Print { .. } => Kind::Int,
    }
}

/// A constant or a variable, which an instruction may take as it is.
#[tactic(auto, using(crate::proofs::Leaves::no_leaf))]
pub(crate) fn leaf_of(term: Term<'_>) -> Option<Operand>
    ensures { option_map view_operand result ≡ kinds.leaf (view_term term.entry) }
{
    match term {
        Term::Literal { ty, value } => Some(Operand::Number(wrapped(kind_of(ty), value))),
        Term::Read(variable) => Some(Operand::In(variable.spot())),
        _ => None,
    }
}

/// Whether evaluating a term makes a call.
#[cycle(calls)]
pub(crate) fn makes_call(term: Term<'_>) -> bool
    ensures { result ≡ kinds.makes_call (view_term term.entry) }
{
    match term {
        Term::Apply { args, .. } => make_call(args),
        Term::Widened(e) => makes_call(term_of(e)),
        Term::Lazy { left, right, .. } => {
            makes_call(term_of(left)) || makes_call(term_of(right))
        }
        Term::Store { value, .. } => makes_call(term_of(value)),
        Term::Update { value, .. } => makes_call(term_of(value)),
        Term::Call { .. } => true,
        Term::Print { .. } => true,
        Term::Missing => false,
        Term::Literal { .. } => false,
        Term::Read(_) => false,
        Term::Step { .. } => false,
    }
}

// Whether evaluating one of these expressions does.
#[cycle(calls)]
fn make_call(es: &[TExpr]) -> bool
    ensures { result ≡ kinds.make_call (program.terms_of (view_exprs es.now)) }
{
    match es.split_first() {
        None => false,
        Some((e, more)) => makes_call(term_of(e)) || make_call(more),
    }
}

// Whether a term writes a variable of the function itself.
#[cycle(writes)]
fn writes(variable: u32, term: Term<'_>) -> bool
    ensures { result ≡ kinds.writes (Local variable) (view_term term.entry) }
{
    match term {
        Term::Apply { args, .. } => write(variable, args),
        Term::Widened(e) => writes(variable, term_of(e)),
        Term::Lazy { left, right, .. } => {
            writes(variable, term_of(left)) || writes(variable, term_of(right))
        }
        Term::Store { into, value } => {
            into.is_local(variable) || writes(variable, term_of(value))
        }
        Term::Update { into, value, .. } => {
            into.is_local(variable) || writes(variable, term_of(value))
        }
        Term::Step { into, .. } => into.is_local(variable),
        Term::Call { args, .. } => write(variable, args),
        Term::Print { args, .. } => write(variable, args),
        Term::Missing => false,
        Term::Literal { .. } => false,
        Term::Read(_) => false,
    }
}

// Whether one of these expressions does.
#[cycle(writes)]
fn write(variable: u32, es: &[TExpr]) -> bool
    ensures { result ≡ kinds.write (Local variable) (program.terms_of (view_exprs es.now)) }
{
    match es.split_first() {
        None => false,
        Some((e, more)) => writes(variable, term_of(e)) || write(variable, more),
    }
}

// Whether a leaf can't wait until a term is evaluated.
fn changes(operand: Operand, term: Term<'_>) -> bool
    ensures { result ≡ kinds.changes (view_operand operand) (view_term term.entry) }
{
    match operand {
        Operand::In(Spot::Variable { number, .. }) => writes(number, term),
        Operand::In(Spot::Global { .. }) => leaf_of(term).is_none(),
        Operand::In(Spot::Temporary { .. }) => false,
        Operand::In(Spot::Argument { .. }) => false,
        Operand::Number(_) => false,
    }
}

/// Whether one instruction of a machine reads the operands of an operation and a later one writes the result.
pub(crate) fn takes_long(operation: Operation) -> bool
    ensures { result ≡ terms.takes_long operation }
{
    match operation {
        Operation::Compare { .. } => true,
        Operation::Not => true,
        Operation::Convert { from, to } => match (from, to) {
            (Kind::Byte, Kind::Big) => true,
            (Kind::Big, Kind::Byte) => true,
            (Kind::Byte, Kind::Byte) => false,
            (Kind::Byte, Kind::Int) => false,
            (Kind::Int, _) => false,
            (Kind::Big, Kind::Int) => false,
            (Kind::Big, Kind::Big) => false,
        },
        _ => false,
    }
}

// What is taken of an operation's operands, where it takes long or not.
fn long_taking(long: bool) -> Taking
    ensures { result ≡ terms.long_taking long }
{
    if long { Taking::Own } else { Taking::Any }
}

/// How an operation takes its left operand, or its only one.
#[tactic(auto, using(crate::proofs::Leaves::other_left))]
pub(crate) fn left_taking(operation: Operation) -> Taking
    ensures { result ≡ terms.left_taking operation }
{
    match operation {
        Operation::Arithmetic { .. } => Taking::Short,
        Operation::Shift { .. } => Taking::Short,
        _ => long_taking(takes_long(operation)),
    }
}

/// And its right one.
#[tactic(auto, using(crate::proofs::Leaves::other_right))]
pub(crate) fn right_taking(operation: Operation) -> Taking
    ensures { result ≡ terms.right_taking operation }
{
    match operation {
        Operation::Compare { .. } => Taking::Short,
        _ => Taking::Any,
    }
}

// An operand that isn't a variable of the module.
fn own(operand: Operand) -> Option<Operand>
    ensures { option_map view_operand result ≡ terms.own (Some (view_operand operand)) }
{
    match operand {
        Operand::In(Spot::Variable { .. }) => Some(operand),
        Operand::In(Spot::Global { .. }) => None,
        Operand::In(Spot::Temporary { .. }) => Some(operand),
        Operand::In(Spot::Argument { .. }) => Some(operand),
        Operand::Number(_) => Some(operand),
    }
}

// Whether a number has at most 16 bits.
fn is_short(number: i64) -> bool
    ensures { result ≡ terms.is_short number }
{
    -32_768 <= number && number <= 32_767
}

// A short number.
fn short_number(number: i64) -> Option<Operand>
    ensures { option_map view_operand result ≡ terms.short (Some (slot.Number number)) }
{
    if is_short(number) {
        Some(Operand::Number(number))
    } else {
        None
    }
}

// An operand that isn't a variable of the module, and isn't a number of more than 16 bits.
fn short(operand: Operand) -> Option<Operand>
    ensures { option_map view_operand result ≡ terms.short (Some (view_operand operand)) }
{
    match operand {
        Operand::In(Spot::Variable { .. }) => Some(operand),
        Operand::In(Spot::Global { .. }) => None,
        Operand::In(Spot::Temporary { .. }) => Some(operand),
        Operand::In(Spot::Argument { .. }) => Some(operand),
        Operand::Number(number) => short_number(number),
    }
}

fn taken_by(taking: Taking, operand: Operand) -> Option<Operand>
    ensures { option_map view_operand result ≡ terms.taken_by taking (Some (view_operand operand)) }
{
    match taking {
        Taking::Any => Some(operand),
        Taking::Own => own(operand),
        Taking::Short => short(operand),
    }
}

/// The leaf that a term is, which an instruction takes as it is.
#[tactic(auto, using(crate::proofs::Leaves::none_taken))]
pub(crate) fn taken(taking: Taking, term: Term<'_>) -> Option<Operand>
    ensures { option_map view_operand result ≡ operands.taken taking (view_term term.entry) }
{
    match leaf_of(term) {
        None => None,
        Some(operand) => taken_by(taking, operand),
    }
}

/// The same, where it stands while another term is evaluated behind it.
pub(crate) fn standing(taking: Taking, term: Term<'_>, behind: Term<'_>) -> Option<Operand>
    ensures { option_map view_operand result ≡ operands.standing taking (view_term term.entry) (view_term behind.entry) }
{
    match taken(taking, term) {
        None => None,
        Some(operand) => {
            if changes(operand, behind) {
                None
            } else {
                Some(operand)
            }
        }
    }
}
