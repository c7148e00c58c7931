// Which expressions have a temporary, and the numbers of the temporaries.
ghost use Rattle.std.specs.Prelude.{◌≡◌, ◌+◌, length, IfOk};
ghost use Rattle.path_laws.specs.Paths.{AreRows};
ghost use Rattle.motion_rewrite.specs.Temporaries.{AreTemporaries, IsInsertionRow, temporaries_before};

use bit_rows::{Row, Rows};
use mir_base::Memory;
use std::alloc::{AllocError, Global};

/// The temporaries of a placement.
#[derive(Drop)]
pub(crate) struct Numbered {
    /// For each expression the number of its temporary, where it has one.
    pub(crate) numbers: Vec<usize>,
    /// How many temporaries there are.
    pub(crate) count: usize,
}

/// The temporaries where the graph has so many variables, and the table so many expressions. It fails only with
/// `Memory`.
pub(crate) fn number_temporaries(
    alloc: Global,
    vars: usize,
    exprs: usize,
    insert: &Rows,
) -> Result<Numbered, Memory>
    requires { AreRows (length insert.now) exprs insert.now }
    ensures long { IfOk result (λ made. length made.numbers.items ≡ exprs) }
    ensures numbers { IfOk result (λ made.
        AreTemporaries vars exprs insert.now made.numbers.items) }
    ensures count { IfOk result (λ made. made.count ≡ temporaries_before insert.now exprs) }
{
    let inserted = inserted_somewhere(alloc, exprs, insert)?;
    let mut numbers = Vec::new(alloc);
    let mut count = 0;
    for expr in 0..exprs {
        numbers.push(number_after(vars, count)?)?;
        if inserted.get(expr) {
            count += 1;
        }
    }
    Ok(Numbered { numbers, count })
}

/// The number of the next temporary after so many variables and temporaries.
fn number_after(vars: usize, count: usize) -> Result<usize, Memory>
    ensures { IfOk result (λ number. number ≡ vars + count) }
{
    vars.checked_add(count).ok_or(AllocError)
}

/// Which of so many expressions have an insertion, by the rows of all nodes: a bit for each. It fails only with
/// `Memory`.
pub fn inserted_somewhere(alloc: Global, exprs: usize, insert: &Rows) -> Result<Row, Memory>
    requires { AreRows (length insert.now) exprs insert.now }
    ensures long { IfOk result (λ row. length row ≡ exprs) }
    ensures inserted { IfOk result (IsInsertionRow insert.now) }
{
    let mut inserted = Row::new(alloc, exprs)?;
    for node in 0..insert.len() {
        let _changed = inserted.or_from(&insert.row(node));
    }
    Ok(inserted)
}
