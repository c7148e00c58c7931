// Numbers that are looked up by marks.
ghost use Rattle.std.specs.Prelude.{◌≡◌, replicate, false, IfOk};
ghost use Rattle.program_pass.specs.Marks.{AreMarksOf};

use mir_base::Memory;
use std::alloc::Global;

/// For each number below `count` whether it is one of these. The time is that of reading `numbers` once and writing so
/// many marks. It fails only with `Memory`.
pub fn marks_of(alloc: Global, numbers: &[usize], count: usize) -> Result<Vec<bool>, Memory>
    ensures { IfOk result (λ marks. AreMarksOf numbers.now count marks.items) }
{
    let mut marks = no_marks(alloc, count)?;
    for number in numbers {
        if *number < count {
            marks[*number] = true;
        }
    }
    Ok(marks)
}

/// So many marks, none of them set.
fn no_marks(alloc: Global, count: usize) -> Result<Vec<bool>, Memory>
    ensures { IfOk result (λ marks. marks.items ≡ replicate count false) }
{
    Ok(vec![in alloc; false; count]?)
}
