// Rings of links: `next` and `prev` lead forward and back. Each call says which links it writes.
ghost use Rattle.std.specs.Prelude.{◌≡◌, ◌<◌, ◌≤◌, length, slice_index, slice_set, MatchOption};
ghost use Rattle.node_list.specs.Rings.{with_two};

/// Links a number in before another.
pub fn tie_before(next: &mut [usize], prev: &mut [usize], place: usize, new: usize)
    requires lens { length next.old ≡ length prev.old }
    requires place_in { place < length prev.old }
    requires new_in { new < length prev.old }
    requires prev_in { slice_index prev.old place < length prev.old }
    ensures next { next.new ≡ with_two next.old (slice_index prev.old place) new new place }
    ensures prev { prev.new ≡ with_two prev.old new (slice_index prev.old place) place new }
{
    let before = prev[place];
    tie(next, prev, before, new);
    tie(next, prev, new, place);
}

/// Takes a number out of its ring, and links it to itself.
pub fn untie(next: &mut [usize], prev: &mut [usize], node: usize)
    requires lens { length next.old ≡ length prev.old }
    requires node_in { node < length prev.old }
    requires next_in { slice_index next.old node < length prev.old }
    requires prev_in { slice_index prev.old node < length prev.old }
    ensures next { next.new
        ≡ with_two next.old (slice_index prev.old node) (slice_index next.old node) node node }
    ensures prev { prev.new
        ≡ with_two prev.old (slice_index next.old node) (slice_index prev.old node) node node }
{
    let before = prev[node];
    let after = next[node];
    tie(next, prev, before, after);
    tie(next, prev, node, node);
}

/// The node to which a link leads; `None` where it leads to the number of a ring.
pub fn node_at(next: &[usize], place: usize, nodes: usize) -> Option<usize>
    requires { place < length next.now }
    ensures { MatchOption result (nodes ≤ slice_index next.now place)
        (λ node. (node ≡ slice_index next.now place) × (node < nodes)) }
{
    let node = next[place];
    if node < nodes { Some(node) } else { None }
}

/// Links one number to the next.
fn tie(next: &mut [usize], prev: &mut [usize], before: usize, after: usize)
    requires before_in { before < length next.old }
    requires after_in { after < length prev.old }
    ensures next { next.new ≡ slice_set next.old before after }
    ensures prev { prev.new ≡ slice_set prev.old after before }
{
    next[before] = after;
    prev[after] = before;
}
