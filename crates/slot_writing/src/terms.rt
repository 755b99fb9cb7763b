//! Expressions by the forms that have code.

ghost use Rattle.std.specs.Prelude.{◌≡◌, option_map};
ghost use Rattle.limbo_types.specs.View.{view_ty};
ghost use Rattle.limbo_typed.specs.View.{view_expr, view_node, view_place_node, view_place, view_pattern, view_exprs, view_optional};
ghost use Rattle.typed_meaning.specs.Program as program;
ghost use Rattle.slot_writing.specs.Terms.{view_at, view_variable, view_term};
ghost use Rattle.slot_writing.specs.Terms as terms;

use limbo_typed::{
    Connective, Given, Operation, Pattern, Piece, Place, PlaceNode, Printed, TExpr, TNode,
};
use limbo_types::Ty;

/// Where a variable is.
#[derive(Clone, Copy)]
pub(crate) enum At {
    /// A variable of the function, by its number.
    Local(u32),
    /// A variable of the module, by its number.
    Global(u32),
}

/// A variable, with its type.
#[derive(Clone, Copy)]
pub(crate) struct Variable<'a> {
    pub ty: &'a Ty,
    pub at: At,
}

/// What an expression is.
#[derive(Clone, Copy)]
pub(crate) enum Term<'a> {
    /// It isn't in this part of the language.
    Missing,
    /// A number, as its type has it.
    Literal {
        ty: &'a Ty,
        value: i64,
    },
    Read(Variable<'a>),
    Apply {
        operation: Operation,
        args: &'a [TExpr],
    },
    /// A byte as an int, as it is printed.
    Widened(&'a TExpr),
    Lazy {
        connective: Connective,
        left: &'a TExpr,
        right: &'a TExpr,
    },
    Store {
        into: Variable<'a>,
        value: &'a TExpr,
    },
    Update {
        operation: Operation,
        into: Variable<'a>,
        value: &'a TExpr,
    },
    Step {
        operation: Operation,
        given: Given,
        into: Variable<'a>,
    },
    Call {
        ty: &'a Ty,
        function: u32,
        args: &'a [TExpr],
    },
    Print {
        format: &'a [Piece],
        args: &'a [TExpr],
    },
}

/// What takes arguments: a function, or a print by a format.
#[derive(Clone, Copy)]
pub(crate) enum Taker<'a> {
    Function(u32),
    Format(&'a [Piece]),
}

#[tactic(auto, using(limbo_typed::proofs::View::the_exprs, crate::proofs::Others::no_at))]
fn at_of(node: &PlaceNode) -> Option<At>
    ensures { option_map view_at result ≡ program.place_node (view_place_node node.now) }
{
    match node {
        PlaceNode::Local(x) => Some(At::Local(*x)),
        PlaceNode::Global(x) => Some(At::Global(*x)),
        _ => None,
    }
}

// The variable that a place is.
#[tactic(auto, using(limbo_typed::proofs::View::the_exprs))]
fn variable_in(place: &Place) -> Option<Variable<'_>>
    ensures { option_map view_variable result ≡ program.place_of (view_place place.now) }
{
    match at_of(&place.at) {
        None => None,
        Some(at) => Some(Variable { ty: &place.ty, at }),
    }
}

// The variable that an assigned value goes to.
#[tactic(auto, using(limbo_typed::proofs::View::the_exprs, crate::proofs::Others::to_no_place))]
fn variable_to(pattern: &Pattern) -> Option<Variable<'_>>
    ensures { option_map view_variable result ≡ program.place_to (view_pattern pattern.now) }
{
    match pattern {
        Pattern::Place(place) => variable_in(place),
        _ => None,
    }
}

fn read<'a>(variable: Option<Variable<'a>>) -> Term<'a>
    ensures { view_term result ≡ terms.read (option_map view_variable variable.entry) }
{
    match variable {
        None => Term::Missing,
        Some(variable) => Term::Read(variable),
    }
}

fn stored<'a>(variable: Option<Variable<'a>>, value: &'a TExpr) -> Term<'a>
    ensures { view_term result ≡ terms.stored (option_map view_variable variable.entry) (program.term_of (view_expr value.now)) }
{
    match variable {
        None => Term::Missing,
        Some(into) => Term::Store { into, value },
    }
}

fn updated<'a>(operation: Operation, variable: Option<Variable<'a>>, value: &'a TExpr) -> Term<'a>
    ensures { view_term result
        ≡ terms.updated operation (option_map view_variable variable.entry) (program.term_of (view_expr value.now)) }
{
    match variable {
        None => Term::Missing,
        Some(into) => Term::Update {
            operation,
            into,
            value,
        },
    }
}

fn stepped<'a>(operation: Operation, given: Given, variable: Option<Variable<'a>>) -> Term<'a>
    ensures { view_term result ≡ terms.stepped operation given (option_map view_variable variable.entry) }
{
    match variable {
        None => Term::Missing,
        Some(into) => Term::Step {
            operation,
            given,
            into,
        },
    }
}

#[tactic(auto, using(limbo_typed::proofs::View::the_exprs))]
fn printing<'a>(
    printed: Printed,
    file: &'a Option<Box<TExpr>>,
    format: &'a [Piece],
    args: &'a [TExpr],
) -> Term<'a>
    ensures { view_term result
        ≡ program.printing printed (view_optional file.now) format.now (program.printed_of (view_exprs args.now)) }
{
    match (printed, file) {
        (Printed::Print, None) => Term::Print { format, args },
        (Printed::Print, Some(_)) => Term::Missing,
        (Printed::Fprint, _) => Term::Missing,
        (Printed::Sprint, _) => Term::Missing,
    }
}

#[tactic(auto, using(limbo_typed::proofs::View::the_exprs, crate::proofs::Others::no_term))]
fn node_of<'a>(ty: &'a Ty, node: &'a TNode) -> Term<'a>
    ensures { view_term result ≡ program.node_of (view_ty ty.now) (view_node node.now) }
{
    match node {
        TNode::Number(value) => Term::Literal { ty, value: *value },
        TNode::Read(place) => read(variable_in(place)),
        TNode::Apply { operation, args } => Term::Apply {
            operation: *operation,
            args,
        },
        TNode::Lazy {
            connective,
            left,
            right,
        } => Term::Lazy {
            connective: *connective,
            left,
            right,
        },
        TNode::Assign { pattern, value } => stored(variable_to(pattern), value),
        TNode::Update {
            operation,
            place,
            value,
        } => updated(*operation, variable_in(place), value),
        TNode::Step {
            operation,
            given,
            place,
        } => stepped(*operation, *given, variable_in(place)),
        TNode::Call { function, args } => Term::Call {
            ty,
            function: *function,
            args,
        },
        TNode::Print {
            printed,
            file,
            format,
            args,
            ..
        } => printing(*printed, file, format, args),
        _ => Term::Missing,
    }
}

/// What an expression is.
#[tactic(auto, using(limbo_typed::proofs::View::the_exprs))]
pub(crate) fn term_of(e: &TExpr) -> Term<'_>
    ensures { view_term result ≡ program.term_of (view_expr e.now) }
{
    node_of(&e.ty, &e.node)
}

// An argument as it is printed.
#[tactic(auto, using(limbo_typed::proofs::View::the_exprs, crate::proofs::Others::no_byte))]
fn printed(e: &TExpr) -> Term<'_>
    ensures { view_term result ≡ terms.printed (view_expr e.now) }
{
    match &e.ty {
        Ty::Byte => Term::Widened(e),
        _ => term_of(e),
    }
}

impl<'a> Taker<'a> {
    /// An argument, as it is taken.
    pub(crate) fn argument(self, e: &'a TExpr) -> Term<'a>
        ensures { view_term result ≡ terms.argument self.entry (view_expr e.now) }
    {
        match self {
            Taker::Function(_) => term_of(e),
            Taker::Format(_) => printed(e),
        }
    }
}
