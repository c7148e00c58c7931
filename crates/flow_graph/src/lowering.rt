// The graph of a unit.
ghost use Rattle.std.specs.Prelude.{ℕ, ◌≡◌, ◌+◌, ◌-◌, ◌^◌, ◌<◌, length, Some, All, IfOk};
ghost use Rattle.mir_base.specs.Shapes.{inst_vars, receives_in, AllBelow, IsTidy};
ghost use Rattle.flow_graph.specs.DividingUnits.{DivisionsLowered};
ghost use Rattle.flow_graph.specs.Graphs.{IsBelow};
ghost use Rattle.flow_graph.specs.Keeps.{AsGraph, AsUnit, Keeps};
ghost use Rattle.flow_graph.specs.Lowered.{CanLower, IsLowered, all_nodes, place_node, received_in, target_of};

use crate::retain::make;
use crate::sharing::Names;
use crate::{Graph, Node};
use mir_base::{Inst, Memory, Operand, Unit as MirUnit};
use std::alloc::Global;

/// The graph of a unit: Start for its receives, and one node for each other place that is reached, in order of place. A
/// Goto becomes a Skip, an If a Test whose `other` is the next place, a TrapIf a Guard, and the place of `end` a Return
/// of 0. Variables keep their numbers. The graph does the same as the unit and evaluates no more operators. The time is
/// linear in the instructions. It fails only with `Memory`.
pub fn lower(alloc: Global, unit: &MirUnit) -> Result<Graph, Memory>
    requires { CanLower unit.now.shared unit.now.body }
    ensures lowered { IfOk result (λ graph. IsLowered unit.now graph) }

    // it has the name of the unit, does the same, evaluates no more operators, and makes no other calls
    ensures keeps { IfOk result (λ graph. Keeps (AsUnit unit.now) (AsGraph graph)) }

    // each division to which control can come is a node of the graph
    ensures divides { IfOk result (DivisionsLowered unit.now) }
{
    let graph = lower_unit(alloc, unit)?;
    Ok(graph)
}

/// The graph of a unit.
fn lower_unit(alloc: Global, unit: &MirUnit) -> Result<Graph, Memory>
    requires { CanLower unit.now.shared unit.now.body }
    ensures lowered { IfOk result (λ graph. IsLowered unit.now graph) }
    ensures tidy { IsTidy unit.now.shared unit.now.vars unit.now.body }
    ensures below { All (λ inst. AllBelow (length unit.now.vars) (inst_vars inst)) unit.now.body }
{
    let insts = unit.insts();
    let name = unit.name.clone()?;
    let vars = Names::copied(alloc, unit.vars.items())?;
    let received = received(alloc, insts)?;
    let nodes = all_nodes(alloc, insts, received.len())?;
    make(alloc, name, unit.shared, vars, received, nodes)
}

/// The variables of the receives that stand first.
fn received(alloc: Global, insts: &[Inst]) -> Result<Vec<usize>, Memory>
    ensures { IfOk result (λ received. received.items ≡ received_in insts.now) }
{
    let mut received = Vec::new(alloc);
    for inst in insts {
        match inst {
            Inst::Receive(x) => received.push(*x)?,
            _ => break,
        }
    }
    Ok(received)
}

/// Start, and a node for each place, the place of `end` last.
fn all_nodes(alloc: Global, insts: &[Inst], receives: usize) -> Result<Vec<Node>, Memory>
    requires lower { (n : ℕ) × CanLower n insts.now }
    requires receives { receives ≡ receives_in insts.now }
    requires room { length insts.now + 2 < 2 ^ 64 }
    ensures { IfOk result (λ nodes. nodes.items ≡ all_nodes insts.now) }
{
    let mut nodes = Vec::with_capacity(alloc, insts.len().saturating_add(2))?;
    nodes.push(Node::Start(receives + 1))?;
    let mut place = 0;
    for inst in insts {
        nodes.push(node_at(place, inst)?)?;
        place += 1;
    }
    nodes.push(Node::Return(Operand::Const(0)))?;
    Ok(nodes)
}

/// The node of the instruction at this place, where each place has the number after its own.
fn node_at(place: usize, inst: &Inst) -> Result<Node, Memory>
    requires place { place + 2 < 2 ^ 64 }
    requires target { IsBelow (2 ^ 64 - 1) (target_of (Some inst.now)) }
    ensures { IfOk result (λ node. node ≡ place_node place inst.now) }
{
    Ok(match inst {
        Inst::Receive(_) => Node::Return(Operand::Const(0)),
        Inst::Assign(x, rhs) => Node::Assign(*x, *rhs, place + 2),
        Inst::Goto(target) => Node::Skip(*target + 1),
        Inst::If(test, target) => Node::Test(*test, *target + 1, place + 2),
        Inst::Call(into, unit, args) => Node::Call(*into, *unit, args.clone()?, place + 2),
        Inst::Print(a) => Node::Print(*a, place + 2),
        Inst::TrapIf(test, number) => Node::Guard(*test, *number, place + 2),
        Inst::Return(a) => Node::Return(*a),
    })
}
