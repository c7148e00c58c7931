// The leaves of a program.
ghost use Rattle.std.specs.Prelude.{◌≡◌, ◌↔◌, ◌≤◌, IfOk, IsTrue, length};
ghost use Rattle.flow_graph.specs.Lowered.{CanLower};
ghost use Rattle.unit_join.specs.JoinPrograms.{AreLeavesMade, LeafMade, calls_none, is_call};
ghost use Rattle.unit_join.specs.Joins.{AreLeavesOf, IsLeafUnit, LeavesCan};

use flow_graph::Graph;
use mir_base::{Inst, Items, Memory, Program, Unit as MirUnit};
use program_pass::lowered_clean;
use std::alloc::Global;

/// The most instructions of a leaf, receives included.
const MOST_INSTS: usize = 32;

/// The leaves of a program: for each unit that is one its graph with clean jumps, and `None` for every other.
#[derive(Drop)]
pub struct Leaves {
    /// The entries, by the numbers of the units.
    pub units: Items<Option<Graph>>,
}

impl Leaves {
    /// The leaves of the program: a unit is one where it has at most 32 instructions, receives included, and no call.
    /// It fails only with `Memory`.
    pub fn of(alloc: Global, program: &Program) -> Result<Leaves, Memory>
        ensures leaves { IfOk result (λ leaves. AreLeavesOf program.now.units leaves.units) }

        // the graph of each leaf keeps its unit
        ensures made { IfOk result (λ leaves. AreLeavesMade program.now.units leaves.units) }
    {
        let units = all_leaves(alloc, program)?;
        Ok(Leaves {
            units: Items::of(units),
        })
    }
}

impl Leaves {
    /// Has no effect; carries the theorem that a graph can be made of each leaf, whose globals are variables of it,
    /// which is an invariant of each.
    pub(crate) fn can_be_made(&self)
        ensures { LeavesCan self.now.units }
    {
        for entry in self.units.items() {
            match entry {
                Some(leaf) => {
                    let _nodes = leaf.nodes();
                    let _shared = leaf.shared();
                }
                None => {}
            }
        }
    }
}

/// The entries of all units.
fn all_leaves(alloc: Global, program: &Program) -> Result<Vec<Option<Graph>>, Memory>
    ensures { IfOk result (λ leaves. AreLeavesMade program.now.units leaves.items) }
{
    let mut units = Vec::new(alloc);
    for number in 0..program.units.items().len() {
        units.push(leaf_of(alloc, program.unit(number))?)?;
    }
    Ok(units)
}

/// The graph of a unit with clean jumps, where the unit is a leaf.
fn leaf_of(alloc: Global, unit: &MirUnit) -> Result<Option<Graph>, Memory>
    requires { CanLower unit.now.shared unit.now.body }
    ensures { IfOk result (LeafMade unit.now) }
{
    if !is_leaf(unit) {
        return Ok(None);
    }
    let front = lowered_clean(alloc, unit)?;
    Ok(Some(front.cleaned))
}

/// Whether the unit is a leaf.
fn is_leaf(unit: &MirUnit) -> bool
    ensures { IsTrue result ↔ IsLeafUnit unit.now }
{
    is_short(unit.insts()) && calls_none(unit.insts())
}

/// Whether there are at most as many instructions as a leaf has.
pub(crate) fn is_short(insts: &[Inst]) -> bool
    ensures { IsTrue result ↔ (length insts.now ≤ 32) }
{
    insts.len() <= MOST_INSTS
}

/// Whether no instruction is a call.
fn calls_none(insts: &[Inst]) -> bool
    ensures { result ≡ calls_none insts.now }
{
    for inst in insts {
        if is_call(inst) {
            return false;
        }
    }
    true
}

/// Whether the instruction is a call.
fn is_call(inst: &Inst) -> bool
    ensures { result ≡ is_call inst.now }
{
    match inst {
        Inst::Call(_, _, _) => true,
        _ => false,
    }
}
