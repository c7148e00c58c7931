// Two lists side by side, and the largest number of nodes.
use node_list::Links;
use std::alloc::{AllocError, Global};
use std::test::Fail;

/// A node is taken out of one list, and the other stays. Put back before the node of the other, and one more behind it,
/// they come out in the order 3, 0, 1.
#[test]
fn lists_stand_side_by_side(rt: HostRuntime) -> Result<(), Fail> {
    assert!(rt; stand_side_by_side(rt.alloc())?);
    Ok(())
}

/// Whether they do.
fn stand_side_by_side(alloc: Global) -> Result<bool, AllocError> {
    let mut links = Links::new(alloc, 4, 2)?;
    links.push_back(0, 3);
    links.push_back(1, 1);
    links.unlink(3);
    let firsts = (links.first(0), links.first(1));
    links.insert_before(1, 3);
    links.insert_before(1, 0);
    let afters = (links.next(3), links.next(0), links.next(1));
    let popped = (
        links.pop_front(1),
        links.pop_front(1),
        links.pop_front(1),
        links.pop_front(1),
    );
    Ok(
        firsts == (None, Some(1))
            && afters == (Some(0), Some(1), None)
            && popped == (Some(3), Some(0), Some(1), None),
    )
}

/// The number of links is the sum of both, which overflows here.
#[test]
fn more_links_than_there_is_memory(rt: HostRuntime) {
    assert!(rt; Links::new(rt.alloc(), usize::MAX, 1).is_err());
}
