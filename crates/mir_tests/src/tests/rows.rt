// Rows that take in rows of other sets.
use bit_rows::Rows;
use std::alloc::{AllocError, Global};
use std::test::Fail;

/// The first row has bit 0, and the second has bit 64, which stands alone in a second word.
#[test]
fn rows_of_other_sets(rt: HostRuntime) -> Result<(), Fail> {
    assert!(rt; take_in_others(rt.alloc())?);
    Ok(())
}

/// Whether they have the bits that they are to have then.
fn take_in_others(alloc: Global) -> Result<bool, AllocError> {
    let mut rows = Rows::new(alloc, 2, 65)?;
    rows.set(0, 0, true);
    rows.set(1, 64, true);
    let before = rows.copied(alloc)?;
    rows.or_into(1, &before, 0);
    rows.minus_into(1, &before, 1);
    let with_both = rows.row_eq(1, &before, 0);
    rows.and_into(1, &before, 1);
    let with_one = rows.row_eq(1, &before, 0);
    Ok(with_both && !with_one)
}
