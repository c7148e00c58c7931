// What the numbers in a unit's instructions stand for.
ghost use Rattle.mir_print.specs.Labels.{AreLabelCounts};

use mir_base::{Inst, Name, Unit};

/// What the numbers in a unit's instructions stand for: the units, by number; the unit's variables, by number; and its
/// body with the counts of its labels, by place.
#[derive(Drop)]
pub struct Scope<'a> {
    pub units: &'a [Unit],
    pub vars: &'a [Name],
    pub body: &'a [Inst],
    /// How many places below each place are jumped to, up to the place behind that of `end`.
    pub counts: &'a [usize],
    ghost counted: { AreLabelCounts body.now counts.now },
}
