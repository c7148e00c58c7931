// The lines of the expressions of a graph. Each function fails only with `Memory`.
ghost use Rattle.std.specs.Prelude.{◌≡◌, ◌+◌, ◌<◌, ℕ, List, if◌then◌else◌, length, slice_get, IfOk};
ghost use Rattle.mir_base.specs.Appending.{AppendsOnOk};
ghost use Rattle.mir_base.specs.ExpressionVars.{rhs_of};
ghost use Rattle.motion_rewrite.specs.Temporaries.{has_insertion};
ghost use Rattle.path_laws.specs.Paths.{AreRows};
ghost use Rattle.expression_table.specs.Expressions.{expression_lines, expression_temporary, expressions_of, head_line, temporary_text};

use bit_rows::Rows;
use flow_graph::Graph;
use mir_base::{Expr, Memory, Rhs};
use motion_rewrite::{ExprTable, inserted_somewhere};
use std::alloc::{AllocError, Global};
use table_text::{put_count, put_field, put_name, put_right};

/// The expressions of a graph, and their temporaries.
#[derive(Drop)]
pub struct MovedExpressions<'a> {
    /// The graph.
    pub split: &'a Graph,
    /// The graph rewritten by the placement, which names the temporaries.
    pub moved: &'a Graph,
    /// The expressions.
    pub table: &'a ExprTable,
    /// Those that the placement evaluates into their temporaries just before a node, for each node.
    pub insert: &'a Rows,
}

/// What is found out of expressions, each known by its number. For contracts `lines` is the text of it, and `has` says
/// that there is something of this number.
pub trait ExpressionRows {
    ghost lines: { Self → ℕ → List ℕ };

    ghost has: { Self → ℕ → Type 0 };

    /// Appends what is found out of the expression of this number. It fails only with `Memory`.
    fn put(&self, text: &mut Vec<u8>, number: usize) -> Result<(), Memory>
        requires { has self.now number }
        ensures { AppendsOnOk result text.old text.new (lines self.now number) };
}

/// Appends the lines of all expressions, each with what is found out of it.
pub fn put_expressions<R: ExpressionRows>(
    alloc: Global,
    text: &mut Vec<u8>,
    moves: &MovedExpressions<'_>,
    rows: &R,
) -> Result<(), Memory>
    requires insert { AreRows (length moves.now.insert.now) (length moves.now.table.now)
        moves.now.insert.now }
    requires rows { (i : ℕ) → i < length moves.now.table.now → R.has rows.now i }
    ensures { AppendsOnOk result text.old text.new
        (expressions_of moves.now (R.lines rows.now) (length moves.now.table.now)) }
{
    let exprs = moves.table.len();
    let inserted = inserted_somewhere(alloc, exprs, moves.insert)?;
    let mut temporary = moves.split.vars().len();
    for number in 0..exprs {
        let has_temporary = inserted.get(number);
        temporary = put_expression(text, moves, rows, number, has_temporary, temporary)?;
    }
    Ok(())
}

/// Appends the lines of the expression of this number, and answers the number of the temporary of the next one;
/// `inserted` says whether this one has a temporary, and `temporary` is the number of it then.
fn put_expression<R: ExpressionRows>(
    text: &mut Vec<u8>,
    moves: &MovedExpressions<'_>,
    rows: &R,
    number: usize,
    inserted: bool,
    temporary: usize,
) -> Result<usize, Memory>
    requires number { number < length moves.now.table.now }
    requires rows { R.has rows.now number }
    requires inserted { inserted ≡ has_insertion moves.now.insert.now number }
    requires temporary { temporary ≡ expression_temporary moves.now number }
    ensures text { AppendsOnOk result text.old text.new
        (expression_lines moves.now.split.now.vars moves.now.moved.now.vars moves.now.insert.now
        (R.lines rows.now) number (slice_get moves.now.table.now number)) }
    ensures next { IfOk result (λ next. next ≡ expression_temporary moves.now (number + 1)) }
{
    let next = next_temporary(temporary, inserted)?;
    let expr = moves.table.get(number);
    put_head(text, moves, number, expr, inserted, temporary)?;
    rows.put(text, number)?;
    Ok(next)
}

/// The number of the next temporary.
fn next_temporary(temporary: usize, inserted: bool) -> Result<usize, Memory>
    ensures { IfOk result (λ next. next ≡ temporary + (if inserted then 1 else 0)) }
{
    if inserted {
        temporary.checked_add(1).ok_or(AllocError)
    } else {
        Ok(temporary)
    }
}

/// Appends the number of an expression, its temporary where it has one, and the expression.
fn put_head(
    text: &mut Vec<u8>,
    moves: &MovedExpressions<'_>,
    number: usize,
    expr: &Expr,
    inserted: bool,
    temporary: usize,
) -> Result<(), Memory>
    ensures { AppendsOnOk result text.old text.new
        (head_line moves.now.split.now.vars moves.now.moved.now.vars inserted temporary number
        expr.now) }
{
    text.extend_from_slice(b"expression")?;
    put_count(text, number)?;
    put_temporary(text, moves.moved, inserted, temporary)?;
    text.extend_from_slice(b" ")?;
    put_right(text, moves.split.vars(), &rhs_of(expr))?;
    text.extend_from_slice(b"\n")
}

/// Appends the name of a temporary of the graph, or `-` where nothing is inserted.
fn put_temporary(
    text: &mut Vec<u8>,
    moved: &Graph,
    inserted: bool,
    temporary: usize,
) -> Result<(), Memory>
    ensures { AppendsOnOk result text.old text.new
        (temporary_text moved.now.vars inserted temporary) }
{
    if inserted {
        text.extend_from_slice(b" ")?;
        put_name(text, moved.vars(), temporary)
    } else {
        put_field(text, b"-")
    }
}

/// The right side that is the expression.
fn rhs_of(expr: &Expr) -> Rhs
    ensures { result ≡ rhs_of expr.now }
{
    match expr {
        Expr::Un(op, a) => Rhs::Unary(*op, *a),
        Expr::Bin(op, a, b) => Rhs::Binary(*op, *a, *b),
    }
}
