// Marks of units that have to be looked at again.
ghost use Rattle.std.specs.Prelude.{◌≡◌, true, slice_set};
ghost use Rattle.unit_callers.specs.Stale.{AllStale, CallersMarked};

/// Marks these units as stale, where so much is told.
pub fn mark_if(raised: bool, units: &[usize], stale: &mut Vec<bool>)
    ensures { CallersMarked raised units.now stale.old.items stale.new.items }
{
    if raised {
        mark_all(units, stale);
    }
}

/// Marks these units as stale.
fn mark_all(units: &[usize], stale: &mut Vec<bool>)
    ensures { AllStale units.now stale.old.items stale.new.items }
{
    for unit in units {
        mark(*unit, stale);
    }
}

/// Marks a unit as stale, where there is one.
pub fn mark(unit: usize, stale: &mut Vec<bool>)
    ensures { stale.new.items ≡ slice_set stale.old.items unit true }
{
    if unit < stale.len() {
        stale[unit] = true;
    }
}
