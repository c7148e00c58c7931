// Tables of numbers: a new one, a part of one, and where what belongs to an index begins and ends.
ghost use Rattle.std.specs.Prelude.{◌≡◌, ◌+◌, ◌<◌, ◌≤◌, length, replicate, slice_range, IfOk};
ghost use Rattle.flow_graph.specs.NumberTables.{number_at};

use mir_base::Memory;
use std::alloc::Global;

/// A list of `count` numbers, each of them `number`.
pub(crate) fn filled(alloc: Global, number: usize, count: usize) -> Result<Vec<usize>, Memory>
    ensures { IfOk result (λ list. list.items ≡ replicate count number) }
{
    Ok(vec![in alloc; number; count]?)
}

/// The numbers from place `first` up to, and not including, place `end`.
pub(crate) fn part(numbers: &[usize], first: usize, end: usize) -> &[usize]
    requires ordered { first ≤ end }
    requires within { end ≤ length numbers.now }
    ensures { result.now ≡ slice_range numbers.now first end }
{
    &numbers[first..end]
}

/// The number at an index of a table.
pub(crate) fn entry(table: &[usize], index: usize) -> usize
    requires { index < length table.now }
    ensures { result ≡ number_at table.now index }
{
    table[index]
}

/// The number at an index of a table and the one after it: where what belongs to the index begins and ends.
pub(crate) fn bounds(starts: &[usize], index: usize) -> (usize, usize)
    requires { index + 1 < length starts.now }
    ensures first { result.0 ≡ number_at starts.now index }
    ensures end { result.1 ≡ number_at starts.now (index + 1) }
{
    (starts[index], starts[index + 1])
}
