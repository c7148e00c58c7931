// What the passes make of a program.
use flow_graph::Graph;
use mir_base::{Items, Program};
use motion_rewrite::{ExprTable, Placement};
use sink_rounds::Rounds;

/// What the passes of `optimise` made of one unit, in their order.
#[derive(Drop)]
pub struct UnitTrail {
    /// The graph of the source's unit.
    pub lowered: Graph,
    /// This graph with clean jumps.
    pub cleaned: Graph,
    /// The same with what is known in the place of what is computed.
    pub folded: Graph,
    /// The same with a variable in the place of a right side whose value it has already.
    pub numbered: Graph,
    /// The same with the sources of copies in their place.
    pub copied: Graph,
    /// The same with a Skip on each edge into a join.
    pub split: Graph,
    /// The movable expressions of `split`.
    pub table: ExprTable,
    /// The lazy placement of these in `split`.
    pub placement: Placement,
    /// `split` rewritten by the placement.
    pub moved: Graph,
    /// `moved` with the sources of copies in their place.
    pub recopied: Graph,
    /// What each round of sinking made of it, one to sixteen graphs.
    pub rounds: Rounds,
    /// The last of these with clean jumps.
    pub swept: Graph,
}

/// What the passes made of a program.
#[derive(Drop)]
pub struct Trail {
    /// The program that was optimised.
    pub source: Program,
    /// What was made of each unit, by the number of the unit.
    pub units: Items<UnitTrail>,
    /// The program whose units are the layouts of the last graphs.
    pub target: Program,
}

/// What code motion alone, or the motion of divisions, made of one unit, in its steps.
#[derive(Drop)]
pub struct MoveUnit {
    /// The graph of the source's unit.
    pub lowered: Graph,
    /// This graph with clean jumps.
    pub cleaned: Graph,
    /// The same with a Skip on each edge into a join.
    pub split: Graph,
    /// The expressions of `split` that are moved: the movable ones, or those that divide.
    pub table: ExprTable,
    /// The lazy placement of these in `split`.
    pub placement: Placement,
    /// `split` rewritten by the placement.
    pub moved: Graph,
    /// `moved` with clean jumps.
    pub swept: Graph,
}

/// What code motion alone, or the motion of divisions, made of a program.
#[derive(Drop)]
pub struct MoveTrail {
    /// The program whose code was moved.
    pub source: Program,
    /// What was made of each unit, by the number of the unit.
    pub units: Items<MoveUnit>,
    /// The program whose units are the layouts of the last graphs.
    pub target: Program,
}
