// What is inserted before each node.
ghost use Rattle.std.specs.Prelude.{◌≡◌};
ghost use Rattle.sink_code.specs.Puts.{put_at};

use crate::patterns::Pattern;
use mir_base::Rhs;

/// An assignment that is put before a node.
#[derive(Clone, Copy, Debug, PartialEq, Eq)]
pub(crate) struct PutBefore {
    pub(crate) node: usize,
    pub(crate) var: usize,
    pub(crate) rhs: Rhs,
}

/// The insertion of a pattern before a node.
pub(crate) fn put_of(node: usize, pattern: &Pattern) -> PutBefore
    ensures { result ≡ put_at node pattern.now }
{
    PutBefore {
        node,
        var: pattern.var,
        rhs: pattern.rhs,
    }
}
