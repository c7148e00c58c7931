// Tables of distinct expressions.
ghost use Rattle.std.specs.Prelude.{◌≡◌, length, IfOk, Some};
ghost use Rattle.mir_base.specs.ExpressionVars.{written_expr};
ghost use Rattle.mir_base.specs.Shapes.{AllDiffer};
ghost use Rattle.flow_graph.specs.Graphs.{node_rhs};
ghost use Rattle.motion_rewrite.specs.ExprTables.{AreDividing, AreMovable, AreOver, dividing_at, dividing_exprs, dividing_in, expr_at, movable_exprs};

use flow_graph::{Graph, Node};
use key_rows::{KeyOf, node_keys};
use key_table::KeyTable;
use mir_base::{Expr, Memory, Rhs, divides, expr_of};
use std::alloc::Global;

/// A table of distinct expressions, numbered from 0. Contracts see it as the list of them.
pub type ExprTable = KeyTable<Expr>;

/// The movable expressions that the nodes of a graph evaluate, in order of the first node that evaluates each. It fails
/// only with `Memory`.
pub fn exprs(alloc: Global, graph: &Graph) -> Result<ExprTable, Memory>
    ensures exprs { IfOk result (λ table. table ≡ movable_exprs graph.now.nodes) }
    ensures movable { IfOk result (AreMovable (length graph.now.vars)) }
    ensures differ { IfOk result AllDiffer }
{
    let nodes = graph.nodes();
    let exprs = node_keys(alloc, nodes, &Evaluated)?;
    Ok(exprs)
}

/// The expressions that the nodes of a graph evaluate and that divide, so that they may trap, in order of the first node
/// that evaluates each. It fails only with `Memory`.
pub fn dividing_exprs(alloc: Global, graph: &Graph) -> Result<ExprTable, Memory>
    ensures exprs { IfOk result (λ table. table ≡ dividing_exprs graph.now.nodes) }
    ensures dividing { IfOk result AreDividing }
    ensures over { IfOk result (AreOver (length graph.now.vars)) }
    ensures differ { IfOk result AllDiffer }
{
    let nodes = graph.nodes();
    let exprs = node_keys(alloc, nodes, &Dividing)?;
    Ok(exprs)
}

/// Reads off a node the movable expression that it evaluates.
struct Evaluated;

impl KeyOf<Expr> for Evaluated {
    ghost key_of = { λ of node. expr_at node };

    fn key_of(&self, node: &Node) -> Option<Expr> {
        expr_at(node)
    }
}

/// Reads off a node the expression that it evaluates, where it divides.
struct Dividing;

impl KeyOf<Expr> for Dividing {
    ghost key_of = { λ of node. dividing_at node };

    fn key_of(&self, node: &Node) -> Option<Expr> {
        dividing_at(node)
    }
}

/// The expression that a node evaluates, where it divides.
fn dividing_at(node: &Node) -> Option<Expr>
    ensures { result ≡ dividing_at node.now }
{
    match node {
        Node::Assign(_, rhs, _) => dividing_of(rhs),
        _ => None,
    }
}

/// The right side as an expression, where it divides.
fn dividing_of(rhs: &Rhs) -> Option<Expr>
    ensures { result ≡ dividing_in (Some rhs.now) }
{
    if divides(rhs) {
        expr_written(rhs)
    } else {
        None
    }
}

/// The right side as an expression, where it is one.
fn expr_written(rhs: &Rhs) -> Option<Expr>
    ensures { result ≡ written_expr (Some rhs.now) }
{
    match rhs {
        Rhs::Plain(_) => None,
        Rhs::Unary(op, a) => Some(Expr::Un(*op, *a)),
        Rhs::Binary(op, a, b) => Some(Expr::Bin(*op, *a, *b)),
    }
}

/// The movable expression that a node evaluates, where there is one.
pub(crate) fn expr_at(node: &Node) -> Option<Expr>
    ensures { result ≡ expr_at node.now }
{
    match node {
        Node::Assign(_, rhs, _) => expr_of(rhs),
        _ => None,
    }
}

/// Reads off a node the expression that its right side is, movable or not.
pub(crate) struct Written;

impl KeyOf<Expr> for Written {
    ghost key_of = { λ of node. written_expr (node_rhs node) };

    fn key_of(&self, node: &Node) -> Option<Expr> {
        match node {
            Node::Assign(_, rhs, _) => expr_written(rhs),
            _ => None,
        }
    }
}
