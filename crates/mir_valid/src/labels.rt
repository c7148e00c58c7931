// The rules of labels.
ghost use Rattle.std.specs.Prelude.{◌≡◌, IfOk};
ghost use Rattle.mir_valid.specs.Rules.{same_label_lines, no_label_lines};
ghost use Rattle.mir_valid.specs.NameTables.{table_of};
ghost use Rattle.mir_valid.specs.Numbered.{label_places};

use crate::Memory;
use crate::lines::{Least, lesser_if};
use crate::lookups::{Lookup, least_where};
use crate::rules::Rule;
use crate::tables::Table;
use mir_parse::{RawLabel, RawUnit};
use std::alloc::Global;

/// The table of the labels with their places. It fails only with `Memory`.
pub fn label_places<'a>(alloc: Global, labels: &'a [RawLabel]) -> Result<Table<'a>, Memory>
    ensures { IfOk result (λ table. table ≡ table_of (label_places labels.now)) }
{
    let mut table = Table::new(alloc);
    for label in labels {
        let _ = table.add(&label.name, label.place)?;
    }
    Ok(table)
}

/// The rule that the labels of a unit have distinct names.
pub struct SameLabel;

impl Rule for SameLabel {
    ghost lines = { λ _ unit. same_label_lines unit };

    fn least_in(&self, alloc: Global, unit: &RawUnit, best: Least) -> Result<Least, Memory> {
        let mut seen = Table::new(alloc);
        let mut best = best;
        for label in unit.labels.items() {
            let is_new = seen.add(&label.name, 0)?;
            best = lesser_if(!is_new, best, label.line);
        }
        Ok(best)
    }
}

/// The rule that each jump of a unit names one of its labels.
pub struct NoLabel;

impl Rule for NoLabel {
    ghost lines = { λ _ unit. no_label_lines unit };

    fn least_in(&self, alloc: Global, unit: &RawUnit, best: Least) -> Result<Least, Memory> {
        let labels = label_places(alloc, unit.labels.items())?;
        Ok(least_where(Lookup::NoLabel, &labels, unit.body.items(), best))
    }
}
