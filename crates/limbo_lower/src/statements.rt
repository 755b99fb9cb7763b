//! The code of statements. What is written last stands first.

ghost use Rattle.std.specs.Prelude.{◌≡◌, ◌+◌, ◌-◌, ◌≤◌, ◌<◌, ◌∷◌, ◌++◌, ℕ, max, IfOk, OnOk, List, None, length, map, vec_len};
ghost use Rattle.limbo_typed.specs.View.{view_expr, view_boxed, view_stmt, view_stmts};
ghost use Rattle.limbo_meaning.specs.Program as program;
ghost use Rattle.limbo_meaning.specs.Trees.{Block, Done, Then, Over, Enter, tested};
ghost use Rattle.core_code.specs.Code as core;
ghost use Rattle.core_code.specs.Code.{Instr};
ghost use Rattle.core_code.specs.Terms.{lower};
ghost use Rattle.core_code.specs.Statements.{Around, whole, whole_if, test, free_after, stm_code, stm_slots, leaves_at, turns_at};
ghost use Rattle.core_data.specs.View.{view_inst};
ghost use Rattle.core_frames.specs.Sizes as sizes;
ghost use Rattle.core_frames.specs.Sizes.{largest_frame};
ghost use Rattle.core_parts.specs.Lowered.{code_of, view_lowered};
ghost use Rattle.limbo_lower.specs.Loops.{AreBehind, Stands, arounds_at, defs_in, types_in};
ghost use Rattle.limbo_lower.specs.Loops as stated;
ghost use Rattle.limbo_lower.specs.Written.{written};

use core_data::Inst;
use core_parts::Lowered;
use core_writing::{lower_declared, lower_expr};
use limbo_typed::{TExpr, TNode, TStmt, TVar};
use std::alloc::{AllocError, Global};
use value_extents::Extents;

/// A loop around a statement: how many instructions are written where its next turn begins, and where it ends.
#[derive(Clone, Copy)]
pub(crate) struct Loop {
    pub turn: usize,
    pub end: usize,
}

/// What is around a statement: the loops, the innermost first, and how many instructions are written where its block ends.
#[derive(Clone, Copy)]
pub(crate) struct Surroundings<'a> {
    pub loops: &'a [Loop],
    pub end: usize,
}

/// The function whose statements are written: what values of types take, and its variables.
#[derive(Clone, Copy)]
pub(crate) struct Function<'a> {
    pub alloc: Global,
    pub extents: &'a Extents<'a>,
    pub variables: &'a [TVar],
}

/// What is written of a function's code, and how many slots it needs.
#[derive(Drop)]
pub(crate) struct Written {
    pub code: Vec<Inst>,
    pub slots: u32,
}

// ---- instructions

/// Writes an instruction.
#[tactic(auto, using(crate::proofs::Written::written_put))]
pub(crate) fn put(code: &mut Vec<Inst>, inst: Inst) -> Result<(), AllocError>
    ensures { OnOk result (written code.new.items ≡ view_inst inst ∷ written code.old.items) }
{
    code.push(inst)?;
    Ok(())
}

// Writes instructions in a row.
fn put_all(code: &mut Vec<Inst>, mut front: Vec<Inst>) -> Result<(), AllocError>
    ensures { OnOk result (written code.new.items ≡ code_of front.items ++ written code.old.items) }
{
    front.reverse();
    code.append(&mut front)?;
    Ok(())
}

// Writes the code of an expression.
fn put_lowered(out: &mut Written, lowered: Lowered) -> Result<(), AllocError>
    ensures code { OnOk result (written out.new.code.items
        ≡ (view_lowered lowered).code ++ (view_lowered lowered).drops ++ written out.old.code.items) }
    ensures slots { OnOk result (out.new.slots ≡ max out.old.slots (view_lowered lowered).free) }
{
    let Lowered {
        code,
        drops,
        value: _,
        free,
    } = lowered;
    put_all(&mut out.code, drops)?;
    put_all(&mut out.code, code)?;
    out.slots = out.slots.max(free);
    Ok(())
}

// ---- expressions

// Whether a node is what `load` gives.
#[tactic(auto, using(limbo_typed::proofs::View::the_exprs, crate::proofs::Others::assigns_not, crate::proofs::Others::loads_not))]
fn loads(e: &TExpr) -> bool
    ensures { result ≡ stated.loads (view_expr e.now) }
{
    match &e.node {
        TNode::Assign { value, .. } => match &value.node {
            TNode::Load { .. } => true,
            _ => false,
        },
        _ => false,
    }
}

// The code of an expression of the function.
fn lowered(f: Function<'_>, e: &TExpr) -> Result<Lowered, AllocError>
    requires { sizes.expr_size (defs_in f) (view_expr e.now) ≤ largest_frame }
    ensures { IfOk result (λ l. view_lowered l ≡ lower (defs_in f.entry) 0 (program.term_of (view_expr e.now))) }
{
    lower_expr(f.alloc, f.extents, 0, e)
}

// Writes an expression as a statement.
#[tactic(auto, using(crate::proofs::Loaded::loaded, crate::proofs::Loaded::not_loaded))]
fn emit_evaluated(f: Function<'_>, out: &mut Written, e: &TExpr) -> Result<(), AllocError>
    requires { sizes.expr_size (defs_in f) (view_expr e.now) ≤ largest_frame }
    ensures code { OnOk result ((around : List Around) (rest : ℕ) → written out.new.code.items
        ≡ stm_code (defs_in f.entry) around rest (program.evaluated (view_expr e.now)) ++ written out.old.code.items) }
    ensures slots { OnOk result (out.new.slots ≡ max out.old.slots (stm_slots (defs_in f.entry) (program.evaluated
        (view_expr e.now)))) }
{
    if loads(e) {
        return Ok(());
    }
    let lowered = lowered(f, e)?;
    put_lowered(out, lowered)
}

// Writes what is done between two turns of a loop.
fn emit_next(f: Function<'_>, out: &mut Written, e: &Option<Box<TExpr>>) -> Result<(), AllocError>
    requires { sizes.some_size (defs_in f) (view_boxed e.now) ≤ largest_frame }
    ensures code { OnOk result (written out.new.code.items
        ≡ whole_if (defs_in f.entry) (program.optional (view_boxed e.now)) ++ written out.old.code.items) }
    ensures slots { OnOk result (out.new.slots
        ≡ max out.old.slots (free_after (defs_in f.entry) (program.optional (view_boxed e.now)))) }
{
    match e {
        None => Ok(()),
        Some(e) => {
            let lowered = lowered(f, e)?;
            put_lowered(out, lowered)
        }
    }
}

// Writes the test of a loop, which passes so many instructions where it doesn't hold.
fn emit_test(
    f: Function<'_>,
    out: &mut Written,
    e: &Option<Box<TExpr>>,
    passes: usize,
) -> Result<(), AllocError>
    requires { sizes.some_size (defs_in f) (view_boxed e.now) ≤ largest_frame }
    ensures code { OnOk result (written out.new.code.items
        ≡ test (defs_in f.entry) (program.optional (view_boxed e.now)) passes ++ written out.old.code.items) }
    ensures slots { OnOk result (out.new.slots
        ≡ max out.old.slots (free_after (defs_in f.entry) (program.optional (view_boxed e.now)))) }
{
    match e {
        None => Ok(()),
        Some(e) => emit_choice(f, out, e, passes),
    }
}

// Writes a condition, which passes so many instructions where it doesn't hold.
fn emit_choice(
    f: Function<'_>,
    out: &mut Written,
    e: &TExpr,
    passes: usize,
) -> Result<(), AllocError>
    requires { sizes.expr_size (defs_in f) (view_expr e.now) ≤ largest_frame }
    ensures code { OnOk result (written out.new.code.items
        ≡ whole (defs_in f.entry) (program.term_of (view_expr e.now))
        ++ core.Unless (lower (defs_in f.entry) 0 (program.term_of (view_expr e.now))).value passes ∷ written out.old.code.items) }
    ensures slots { OnOk result (out.new.slots
        ≡ max out.old.slots (lower (defs_in f.entry) 0 (program.term_of (view_expr e.now))).free) }
{
    let lowered = lowered(f, e)?;
    put(
        &mut out.code,
        Inst::Unless {
            condition: lowered.value,
            passes,
        },
    )?;
    put_lowered(out, lowered)
}

// Writes a `return`, with a value or without.
fn emit_return(f: Function<'_>, out: &mut Written, e: &Option<Box<TExpr>>) -> Result<(), AllocError>
    requires { sizes.some_size (defs_in f) (view_boxed e.now) ≤ largest_frame }
    ensures code { OnOk result ((around : List Around) (rest : ℕ) → written out.new.code.items
        ≡ stm_code (defs_in f.entry) around rest (program.return_of (view_boxed e.now)) ++ written out.old.code.items) }
    ensures slots { OnOk result (out.new.slots
        ≡ max out.old.slots (stm_slots (defs_in f.entry) (program.return_of (view_boxed e.now)))) }
{
    match e {
        None => put(&mut out.code, Inst::Return { from: None })?,
        Some(e) => {
            let Lowered {
                code,
                drops: _,
                value,
                free,
            } = lowered(f, e)?;
            put(&mut out.code, Inst::Return { from: Some(value) })?;
            put_all(&mut out.code, code)?;
            out.slots = out.slots.max(free);
        }
    }
    Ok(())
}

// Writes a declaration.
fn emit_declared(
    f: Function<'_>,
    out: &mut Written,
    declared: &[u32],
    value: &Option<Box<TExpr>>,
) -> Result<(), AllocError>
    requires { sizes.declared_size (defs_in f) (types_in f) declared.now (view_boxed value.now) ≤ largest_frame }
    ensures code { OnOk result (written out.new.code.items
        ≡ whole (defs_in f.entry) (stated.declaration (types_in f.entry) declared.now (view_boxed value.now))
        ++ written out.old.code.items) }
    ensures slots { OnOk result (out.new.slots ≡ max out.old.slots (lower (defs_in f.entry) 0
        (stated.declaration (types_in f.entry) declared.now (view_boxed value.now))).free) }
{
    let lowered = lower_declared(f.alloc, f.extents, f.variables, declared, value)?;
    put_lowered(out, lowered)
}

// ---- jumps

// How many instructions are written where the loop of this number ends.
fn end_of(around: Surroundings<'_>, number: u32) -> usize
    requires { AreBehind around.end around.loops.now }
    ensures { result + leaves_at number (arounds_at around.entry.end around.entry.loops.now) ≡ around.entry.end }
{
    match around.loops.get(number as usize) {
        None => around.end,
        Some(one) => one.end,
    }
}

// How many are written where its next turn begins.
fn turn_of(around: Surroundings<'_>, number: u32) -> usize
    requires { AreBehind around.end around.loops.now }
    ensures { result + turns_at number (arounds_at around.entry.end around.entry.loops.now) ≡ around.entry.end }
{
    match around.loops.get(number as usize) {
        None => around.end,
        Some(one) => one.turn,
    }
}

// Writes a jump to where so many instructions are written.
fn put_jump(code: &mut Vec<Inst>, to: usize) -> Result<(), AllocError>
    requires { to ≤ vec_len code.old }
    ensures { OnOk result (written code.new.items ≡ core.Jump (length code.old.items - to) ∷ written code.old.items) }
{
    let passes = code.len() - to;
    put(code, Inst::Jump { passes })
}

// One more loop around.
fn inside(alloc: Global, around: &[Loop], turn: usize, end: usize) -> Result<Vec<Loop>, AllocError>
    ensures { IfOk result (λ all. all.items ≡ record { turn = turn; end = end } ∷ around.now) }
{
    let mut all = Vec::new(alloc);
    all.push(Loop { turn, end })?;
    all.extend_from_slice(around)?;
    Ok(all)
}

// Writes how far back control goes at the end of a loop, over what was written there: the loop ended behind so many instructions.
fn put_back(code: &mut Vec<Inst>, mark: usize)
    requires { mark < vec_len code.old }
    ensures longer { length code.new.items ≡ length code.old.items }
    ensures back { (front back : List Instr) (last : Instr) → written code.old.items ≡ front ++ last ∷ back → length back ≡ mark
        → written code.new.items ≡ front ++ core.Back (length front) ∷ back }
{
    let steps = code.len() - mark - 1;
    code[mark] = Inst::Back { steps };
}

// ---- statements

/// Writes the statements of a block of its own, with these loops around.
#[cycle(statements)]
pub(crate) fn emit_block(
    f: Function<'_>,
    out: &mut Written,
    loops: &[Loop],
    body: &[TStmt],
) -> Result<(), AllocError>
    requires room { sizes.stmts_size (defs_in f) (types_in f) (view_stmts body.now) ≤ largest_frame }
    requires behind { AreBehind (length out.old.code.items) loops.now }
    requires begun { 1 ≤ out.old.slots }
    ensures { OnOk result (Stands (defs_in f.entry) loops.now (length out.old.code.items) (written out.old.code.items)
        out.old.slots (program.all_before (types_in f.entry) (view_stmts body.now) Done) out.new.code.items out.new.slots) }
{
    let around = Surroundings {
        loops,
        end: out.code.len(),
    };
    emit_stmts(f, out, around, body)
}

// Writes an `if`.
#[cycle(statements)]
fn emit_if(
    f: Function<'_>,
    out: &mut Written,
    around: Surroundings<'_>,
    condition: &TExpr,
    then: &[TStmt],
    other: &[TStmt],
) -> Result<(), AllocError>
    requires test { sizes.expr_size (defs_in f) (view_expr condition.now) ≤ largest_frame }
    requires first { sizes.stmts_size (defs_in f) (types_in f) (view_stmts then.now) ≤ largest_frame }
    requires second { sizes.stmts_size (defs_in f) (types_in f) (view_stmts other.now) ≤ largest_frame }
    requires behind { AreBehind around.end around.loops.now }
    requires end { around.end ≤ vec_len out.old.code }
    requires begun { 1 ≤ out.old.slots }
    ensures longer { OnOk result (length out.old.code.items ≤ length out.new.code.items) }
    ensures begun { OnOk result (1 ≤ out.new.slots) }
    ensures stands { (back : List Instr) (least : ℕ) (b : Block)
        → Stands (defs_in f.entry) around.entry.loops.now around.entry.end back least b out.old.code.items out.old.slots
        → OnOk result (Stands (defs_in f.entry) around.entry.loops.now around.entry.end back least
        (Then (stated.chosen (types_in f.entry) (view_expr condition.now) (view_stmts then.now) (view_stmts other.now)) b)
        out.new.code.items out.new.slots) }
{
    let mark = out.code.len();
    emit_block(f, out, around.loops, other)?;
    put_jump(&mut out.code, mark)?;
    let mark = out.code.len();
    emit_block(f, out, around.loops, then)?;
    let passes = out.code.len() - mark + 1;
    emit_choice(f, out, condition, passes)
}

// Writes a loop that tests first.
#[cycle(statements)]
fn emit_while(
    f: Function<'_>,
    out: &mut Written,
    around: Surroundings<'_>,
    condition: &Option<Box<TExpr>>,
    next: &Option<Box<TExpr>>,
    body: &[TStmt],
) -> Result<(), AllocError>
    requires test { sizes.some_size (defs_in f) (view_boxed condition.now) ≤ largest_frame }
    requires step { sizes.some_size (defs_in f) (view_boxed next.now) ≤ largest_frame }
    requires inner { sizes.stmts_size (defs_in f) (types_in f) (view_stmts body.now) ≤ largest_frame }
    requires behind { AreBehind around.end around.loops.now }
    requires end { around.end ≤ vec_len out.old.code }
    requires begun { 1 ≤ out.old.slots }
    ensures longer { OnOk result (length out.old.code.items ≤ length out.new.code.items) }
    ensures begun { OnOk result (1 ≤ out.new.slots) }
    ensures stands { (back : List Instr) (least : ℕ) (b : Block)
        → Stands (defs_in f.entry) around.entry.loops.now around.entry.end back least b out.old.code.items out.old.slots
        → OnOk result (Stands (defs_in f.entry) around.entry.loops.now around.entry.end back least
        (tested (stated.looping (types_in f.entry) (view_boxed condition.now) (view_boxed next.now) (view_stmts body.now))
        (Then Over b)) out.new.code.items out.new.slots) }
{
    let end = out.code.len();
    put(&mut out.code, Inst::Back { steps: 0 })?;
    emit_next(f, out, next)?;
    let all = inside(f.alloc, around.loops, out.code.len(), end)?;
    emit_block(f, out, &all, body)?;
    let passes = out.code.len() - end;
    emit_test(f, out, condition, passes)?;
    put_back(&mut out.code, end);
    Ok(())
}

// Writes a loop that tests last.
#[cycle(statements)]
fn emit_do(
    f: Function<'_>,
    out: &mut Written,
    around: Surroundings<'_>,
    condition: &Option<Box<TExpr>>,
    body: &[TStmt],
) -> Result<(), AllocError>
    requires test { sizes.some_size (defs_in f) (view_boxed condition.now) ≤ largest_frame }
    requires inner { sizes.stmts_size (defs_in f) (types_in f) (view_stmts body.now) ≤ largest_frame }
    requires behind { AreBehind around.end around.loops.now }
    requires end { around.end ≤ vec_len out.old.code }
    requires begun { 1 ≤ out.old.slots }
    ensures longer { OnOk result (length out.old.code.items ≤ length out.new.code.items) }
    ensures begun { OnOk result (1 ≤ out.new.slots) }
    ensures stands { (back : List Instr) (least : ℕ) (b : Block)
        → Stands (defs_in f.entry) around.entry.loops.now around.entry.end back least b out.old.code.items out.old.slots
        → OnOk result (Stands (defs_in f.entry) around.entry.loops.now around.entry.end back least
        (Then (Enter (stated.looping (types_in f.entry) (view_boxed condition.now) None (view_stmts body.now))) (Then Over b))
        out.new.code.items out.new.slots) }
{
    let end = out.code.len();
    put(&mut out.code, Inst::Back { steps: 0 })?;
    emit_test(f, out, condition, 1)?;
    let all = inside(f.alloc, around.loops, out.code.len(), end)?;
    emit_block(f, out, &all, body)?;
    put_back(&mut out.code, end);
    Ok(())
}

// Writes a `for`, with what it begins with.
#[cycle(statements)]
fn emit_for(
    f: Function<'_>,
    out: &mut Written,
    around: Surroundings<'_>,
    first: &Option<Box<TExpr>>,
    condition: &Option<Box<TExpr>>,
    next: &Option<Box<TExpr>>,
    body: &[TStmt],
) -> Result<(), AllocError>
    requires head { sizes.some_size (defs_in f) (view_boxed first.now) ≤ largest_frame }
    requires test { sizes.some_size (defs_in f) (view_boxed condition.now) ≤ largest_frame }
    requires step { sizes.some_size (defs_in f) (view_boxed next.now) ≤ largest_frame }
    requires inner { sizes.stmts_size (defs_in f) (types_in f) (view_stmts body.now) ≤ largest_frame }
    requires behind { AreBehind around.end around.loops.now }
    requires end { around.end ≤ vec_len out.old.code }
    requires begun { 1 ≤ out.old.slots }
    ensures longer { OnOk result (length out.old.code.items ≤ length out.new.code.items) }
    ensures begun { OnOk result (1 ≤ out.new.slots) }
    ensures stands { (back : List Instr) (least : ℕ) (b : Block)
        → Stands (defs_in f.entry) around.entry.loops.now around.entry.end back least b out.old.code.items out.old.slots
        → OnOk result (Stands (defs_in f.entry) around.entry.loops.now around.entry.end back least
        (program.first_of (view_boxed first.now)
        (tested (stated.looping (types_in f.entry) (view_boxed condition.now) (view_boxed next.now) (view_stmts body.now))
        (Then Over b))) out.new.code.items out.new.slots) }
{
    emit_while(f, out, around, condition, next, body)?;
    match first {
        None => Ok(()),
        Some(e) => emit_evaluated(f, out, e),
    }
}

// Writes a statement.
#[cycle(statements)]
fn emit_stmt(
    f: Function<'_>,
    out: &mut Written,
    around: Surroundings<'_>,
    s: &TStmt,
) -> Result<(), AllocError>
    requires room { sizes.stmt_size (defs_in f) (types_in f) (view_stmt s.now) ≤ largest_frame }
    requires behind { AreBehind around.end around.loops.now }
    requires end { around.end ≤ vec_len out.old.code }
    requires begun { 1 ≤ out.old.slots }
    ensures longer { OnOk result (length out.old.code.items ≤ length out.new.code.items) }
    ensures begun { OnOk result (1 ≤ out.new.slots) }
    ensures stands { (back : List Instr) (least : ℕ) (b : Block)
        → Stands (defs_in f.entry) around.entry.loops.now around.entry.end back least b out.old.code.items out.old.slots
        → OnOk result (Stands (defs_in f.entry) around.entry.loops.now around.entry.end back least
        (program.before (types_in f.entry) (view_stmt s.now) b) out.new.code.items out.new.slots) }
{
    match s {
        TStmt::Block(body) => emit_stmts(f, out, around, body),
        TStmt::Declare { variables, value } => emit_declared(f, out, variables, value),
        TStmt::Eval(e) => emit_evaluated(f, out, e),
        TStmt::If {
            condition,
            then,
            other,
        } => emit_if(f, out, around, condition, then, other),
        TStmt::While { condition, body } => emit_while(f, out, around, condition, &None, body),
        TStmt::Do { body, condition } => emit_do(f, out, around, condition, body),
        TStmt::For {
            first,
            condition,
            next,
            body,
        } => emit_for(f, out, around, first, condition, next, body),
        TStmt::Break(number) => put_jump(&mut out.code, end_of(around, *number)),
        TStmt::Continue(number) => put_jump(&mut out.code, turn_of(around, *number)),
        TStmt::Return(value) => emit_return(f, out, value),
        _ => Ok(()),
    }
}

// Writes statements in a row, in front of what is written of their block.
#[cycle(statements)]
fn emit_stmts(
    f: Function<'_>,
    out: &mut Written,
    around: Surroundings<'_>,
    body: &[TStmt],
) -> Result<(), AllocError>
    requires room { sizes.stmts_size (defs_in f) (types_in f) (view_stmts body.now) ≤ largest_frame }
    requires behind { AreBehind around.end around.loops.now }
    requires end { around.end ≤ vec_len out.old.code }
    requires begun { 1 ≤ out.old.slots }
    ensures longer { OnOk result (length out.old.code.items ≤ length out.new.code.items) }
    ensures begun { OnOk result (1 ≤ out.new.slots) }
    ensures stands { (back : List Instr) (least : ℕ) (b : Block)
        → Stands (defs_in f.entry) around.entry.loops.now around.entry.end back least b out.old.code.items out.old.slots
        → OnOk result (Stands (defs_in f.entry) around.entry.loops.now around.entry.end back least
        (program.all_before (types_in f.entry) (view_stmts body.now) b) out.new.code.items out.new.slots) }
{
    let mut i = body.len();
    while 0 < i {
        i -= 1;
        emit_stmt(f, out, around, &body[i])?;
    }
    Ok(())
}
