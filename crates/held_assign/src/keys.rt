// Assignments as keys of a table, which are read off nodes.
ghost use Rattle.held_assign.specs.Assignments.{picked_of};
ghost use Rattle.held_assign.specs.SameAssignments.{same_assignments};

use crate::Picks;
use crate::table::{Assignment, picked_of};
use flow_graph::Node;
use key_rows::KeyOf;
use key_table::Key;

impl Key for Assignment {
    ghost same = { same_assignments };
}

/// Reads off a node the picked assignment that it is.
#[derive(Drop)]
pub(crate) struct AsPicked<'a, P: Picks> {
    pub(crate) picks: &'a P,
}

impl<'a, P: Picks> KeyOf<Assignment> for AsPicked<'a, P> {
    ghost key_of = { λ of node. picked_of (P.picked of.picks.now) node };

    fn key_of(&self, node: &Node) -> Option<Assignment> {
        picked_of(self.picks, node)
    }
}
