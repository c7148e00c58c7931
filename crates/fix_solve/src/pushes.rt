// The worklist: nodes are taken from it, pushed along their edges, and targets that changed are put at the end. Nodes are
// taken from the front at first, then short circles are brought to rest (`circles.rt`), and where many visits were made
// nodes are taken by their numbers (`ends.rt`).
ghost use Rattle.std.specs.Prelude.{◌≡◌, ◌≢◌, ℕ, ◌+◌, ◌<◌, ◌≤◌, ◌||◌, true, [], length, slice_index_or, IfNone, IfSome};
ghost use Rattle.node_list.specs.Lists.{NoLongerLists, is_listed, list_at};
ghost use Rattle.fix_solve.specs.Net.{AreOfSize, HoldsFirst, HoldsLeast, most_pushes};
ghost use Rattle.fix_solve.specs.NewsFlows.{AreAllNew, NewsFit, Telling};
ghost use Rattle.fix_solve.specs.OrderWalks.{AreNodes};
ghost use Rattle.fix_solve.specs.Solving.{AllDone, AllDoneBut, HasRoom, HaveNews, CanWait, IsOneList, IsRoomy, Pushed, Working, degree, nodes_left, pushes_left};

use crate::ends::Ends;
use crate::{Flow, Lattice, News, Steps};
use node_list::Links;

/// Leaves the least solution, from the first values.
pub(crate) fn solve_from<F: Flow>(
    values: &mut [F::Value],
    news: &mut [<F::Value as Lattice>::News],
    room: &mut <F::Value as Lattice>::Room,
    waiting: &mut Links,
    ends: &mut Ends,
    order: &[usize],
    flow: &F,
    steps: &mut Steps<F::Ledger>,
)
    requires valid { F.valid flow.now }
    requires first { HoldsFirst (F.net flow.now) values.old }
    requires can_wait { CanWait waiting.old values.old order.now }
    requires have_news { HaveNews F.Value.size F.Value.News.fits values.old news.old }
    requires has_room { HasRoom F.Value.size F.Value.Room.fits values.old room.old }
    ensures len { length values.new ≡ (F.net flow.now).nodes }
    ensures can_wait { CanWait waiting.new values.new order.now }
    ensures have_news { HaveNews F.Value.size F.Value.News.fits values.new news.new }
    ensures has_room { HasRoom F.Value.size F.Value.Room.fits values.new room.new }
    ensures sizes { AreOfSize F.Value.size (F.net flow.now) values.new }
    ensures least { HoldsLeast F.Value.below (F.net flow.now) values.new }
    ensures pushes { steps.new ≤ steps.old + most_pushes (F.net flow.now) }
    ensures counts { steps.old ≤ steps.new }
{
    let nodes = values.len();
    enlist_all(waiting, order, nodes);
    renew_each(news);
    ends.restart();
    drain(values, news, room, waiting, ends, flow, steps);
}

/// Marks the whole of each value as news: nothing of it has been pushed yet.
fn renew_each<N: News>(news: &mut [N])
    ensures long { length news.new ≡ length news.old }
    ensures fit { (nodes : ℕ) (size : ℕ) → NewsFit N.fits nodes size news.old
        → NewsFit N.fits nodes size news.new }
    ensures all { AreAllNew N.is_all news.new }
{
    for node in 0..news.len() {
        news[node].renew();
    }
}

/// Puts each node into the list: first these, from the last on, and then those that are left.
fn enlist_all(waiting: &mut Links, order: &[usize], nodes: usize)
    requires one_list { IsOneList waiting.old }
    requires nodes { waiting.old.nodes ≡ nodes }
    requires in_range { AreNodes nodes order.now }
    ensures one_list { IsOneList waiting.new }
    ensures nodes { waiting.new.nodes ≡ nodes }
    ensures all { (n : ℕ) → n < nodes → is_listed waiting.new.lists n ≡ true }
{
    enlist_each(waiting, order);
    enlist_up(waiting, nodes);
}

/// Puts each of these nodes into the list, from the last on.
fn enlist_each(waiting: &mut Links, nodes: &[usize])
    requires one_list { IsOneList waiting.old }
    requires in_range { AreNodes waiting.old.nodes nodes.now }
    ensures one_list { IsOneList waiting.new }
    ensures nodes { waiting.new.nodes ≡ waiting.old.nodes }
{
    let end = nodes.len();
    for count in 0..end {
        enlist(waiting, nodes[end - 1 - count], true);
    }
}

/// Puts a node at the end of the list if it is wanted and not there.
fn enlist(waiting: &mut Links, node: usize, wanted: bool)
    requires one_list { IsOneList waiting.old }
    requires in_range { node < waiting.old.nodes }
    ensures one_list { IsOneList waiting.new }
    ensures nodes { waiting.new.nodes ≡ waiting.old.nodes }
    ensures others { (n : ℕ) → n ≢ node
        → is_listed waiting.new.lists n ≡ is_listed waiting.old.lists n }
    ensures here { is_listed waiting.new.lists node ≡ (is_listed waiting.old.lists node || wanted) }
{
    if wanted {
        if !waiting.is_listed(node) {
            waiting.push_back(0, node);
        }
    }
}

/// Puts each node into the list, in ascending order.
fn enlist_up(waiting: &mut Links, nodes: usize)
    requires one_list { IsOneList waiting.old }
    requires nodes { waiting.old.nodes ≡ nodes }
    ensures one_list { IsOneList waiting.new }
    ensures nodes { waiting.new.nodes ≡ nodes }
    ensures all { (n : ℕ) → n < nodes → is_listed waiting.new.lists n ≡ true }
{
    for node in 0..nodes {
        enlist(waiting, node, true);
    }
}

/// Visits the listed nodes until the list is empty.
fn drain<F: Flow>(
    values: &mut [F::Value],
    news: &mut [<F::Value as Lattice>::News],
    room: &mut <F::Value as Lattice>::Room,
    waiting: &mut Links,
    ends: &mut Ends,
    flow: &F,
    steps: &mut Steps<F::Ledger>,
)
    requires valid { F.valid flow.now }
    requires one_list { IsOneList waiting.old }
    requires nodes { waiting.old.nodes ≡ (F.net flow.now).nodes }
    requires working { Working F.Value.below (F.net flow.now) values.old
        (is_listed waiting.old.lists) AllDone }
    requires fit { NewsFit F.Value.News.fits (F.net flow.now).nodes (F.net flow.now).size news.old }
    requires room { IsRoomy F.Value.Room.fits (F.net flow.now).nodes (F.net flow.now).size
        room.old }
    requires telling { Telling (F.net flow.now) (F.caught flow.now) values.old news.old }
    ensures one_list { IsOneList waiting.new }
    ensures nodes { waiting.new.nodes ≡ (F.net flow.now).nodes }
    ensures len { length values.new ≡ (F.net flow.now).nodes }
    ensures fit { NewsFit F.Value.News.fits (F.net flow.now).nodes (F.net flow.now).size news.new }
    ensures room { IsRoomy F.Value.Room.fits (F.net flow.now).nodes (F.net flow.now).size
        room.new }
    ensures sizes { AreOfSize F.Value.size (F.net flow.now) values.new }
    ensures least { HoldsLeast F.Value.below (F.net flow.now) values.new }
    ensures pushes { steps.new ≤ steps.old
        + pushes_left (F.net flow.now) F.Value.rank values.old (is_listed waiting.old.lists) }
    ensures counts { steps.old ≤ steps.new }
{
    let nodes = values.len();
    while let Some(node) = take(waiting, ends, nodes) {
        visit(values, news, room, waiting, flow, node, steps);
        ends.note(waiting, flow, node, nodes);
    }
}

/// Takes a node out of the list, and answers `None` exactly where none waits.
fn take(waiting: &mut Links, ends: &mut Ends, nodes: usize) -> Option<usize>
    requires one_list { IsOneList waiting.old }
    requires nodes { waiting.old.nodes ≡ nodes }
    ensures one_list { IsOneList waiting.new }
    ensures nodes { waiting.new.nodes ≡ nodes }
    ensures empty { IfNone result ((list_at waiting.old.lists 0 ≡ [])
        × (waiting.new ≡ waiting.old)) }
    ensures waited { IfSome result (λ node. is_listed waiting.old.lists node ≡ true) }
    ensures in_range { IfSome result (λ node. node < nodes) }
    ensures listed { IfSome result (λ node.
        NoLongerLists node waiting.old.lists waiting.new.lists) }
{
    match chosen(ends, waiting, nodes) {
        Some(node) => {
            waiting.unlink(node);
            Some(node)
        }
        None => {
            let first = waiting.pop_front(0);
            first
        }
    }
}

/// A node that waits, where the order of the list has been left and a circle or the marks have such a one.
fn chosen(ends: &mut Ends, waiting: &Links, nodes: usize) -> Option<usize>
    requires one_list { IsOneList waiting.now }
    requires nodes { waiting.now.nodes ≡ nodes }
    ensures in_range { IfSome result (λ node. node < nodes) }
    ensures waits { IfSome result (λ node. is_listed waiting.now.lists node ≡ true) }
{
    // Where none waits, neither the circles nor the marks are searched.
    if waiting.first(0).is_none() {
        return None;
    }
    match ends.on_circle(waiting, nodes) {
        Some(node) => Some(node),
        None => end_of(ends, waiting, nodes),
    }
}

/// A node that waits, where the order of the list has been left and such a one is marked.
fn end_of(ends: &mut Ends, waiting: &Links, nodes: usize) -> Option<usize>
    requires { waiting.now.nodes ≡ nodes }
    ensures in_range { IfSome result (λ node. node < nodes) }
    ensures waits { IfSome result (λ node. is_listed waiting.now.lists node ≡ true) }
{
    if !ends.are_taken(nodes) {
        return None;
    }
    match ends.next() {
        None => None,
        Some(node) => {
            if node < nodes && waiting.is_listed(node) {
                Some(node)
            } else {
                None
            }
        }
    }
}

/// Pushes along each edge that leaves a node, which was taken from the list, and lists the targets that changed.
fn visit<F: Flow>(
    values: &mut [F::Value],
    news: &mut [<F::Value as Lattice>::News],
    room: &mut <F::Value as Lattice>::Room,
    waiting: &mut Links,
    flow: &F,
    node: usize,
    steps: &mut Steps<F::Ledger>,
)
    requires valid { F.valid flow.now }
    requires in_range { node < (F.net flow.now).nodes }
    requires one_list { IsOneList waiting.old }
    requires nodes { waiting.old.nodes ≡ (F.net flow.now).nodes }
    requires working { Working F.Value.below (F.net flow.now) values.old
        (is_listed waiting.old.lists) (AllDoneBut (F.net flow.now) node) }
    requires fit { NewsFit F.Value.News.fits (F.net flow.now).nodes (F.net flow.now).size news.old }
    requires room { F.Value.Room.fits room.old (F.net flow.now).size }
    requires telling { Telling (F.net flow.now) (F.caught flow.now) values.old news.old }
    ensures one_list { IsOneList waiting.new }
    ensures nodes { waiting.new.nodes ≡ waiting.old.nodes }
    ensures working { Working F.Value.below (F.net flow.now) values.new
        (is_listed waiting.new.lists) AllDone }
    ensures fit { NewsFit F.Value.News.fits (F.net flow.now).nodes (F.net flow.now).size news.new }
    ensures room { F.Value.Room.fits room.new (F.net flow.now).size }
    ensures telling { Telling (F.net flow.now) (F.caught flow.now) values.new news.new }
    ensures pushes { steps.new
        + pushes_left (F.net flow.now) F.Value.rank values.new (is_listed waiting.new.lists)
        ≤ steps.old + degree (F.net flow.now) node
        + pushes_left (F.net flow.now) F.Value.rank values.old (is_listed waiting.old.lists) }
    ensures visits { nodes_left (F.net flow.now) F.Value.rank values.new
        (is_listed waiting.new.lists)
        ≤ nodes_left (F.net flow.now) F.Value.rank values.old (is_listed waiting.old.lists) }
    ensures counts { steps.old ≤ steps.new }
{
    let (start, stop) = flow.out(node);
    for number in start..stop {
        let (source, target) = flow.edge(number);
        let changed = push_along(values, news, room, flow, number, source, target, steps);
        enlist(waiting, target, changed);
    }
    // Along an edge to itself the node may have changed: then it waits again, with all its news.
    if !waiting.is_listed(node) {
        news[node].settle();
    }
}

/// Pushes along one edge, from its source to its target, and answers whether the target changed.
fn push_along<F: Flow>(
    values: &mut [F::Value],
    news: &mut [<F::Value as Lattice>::News],
    room: &mut <F::Value as Lattice>::Room,
    flow: &F,
    number: usize,
    source: usize,
    target: usize,
    steps: &mut Steps<F::Ledger>,
) -> bool
    requires valid { F.valid flow.now }
    requires in_range { number < (F.net flow.now).edges }
    requires source { source ≡ (F.net flow.now).source number }
    requires target { target ≡ (F.net flow.now).target number }
    requires len { length values.old ≡ (F.net flow.now).nodes }
    requires sizes { AreOfSize F.Value.size (F.net flow.now) values.old }
    requires fit { NewsFit F.Value.News.fits (F.net flow.now).nodes (F.net flow.now).size news.old }
    requires room { F.Value.Room.fits room.old (F.net flow.now).size }
    requires telling { Telling (F.net flow.now) (F.caught flow.now) values.old news.old }
    ensures fit { NewsFit F.Value.News.fits (F.net flow.now).nodes (F.net flow.now).size news.new }
    ensures room { F.Value.Room.fits room.new (F.net flow.now).size }
    ensures telling { Telling (F.net flow.now) (F.caught flow.now) values.new news.new }
    ensures pushed { Pushed F.Value.below (F.net flow.now) number values.old values.new result }
    ensures counted { steps.new ≡ steps.old + 1 }
{
    if source == target {
        flow.push_self_news(number, &mut values[target], &mut news[target], room, steps)
    } else if source < target {
        let (low, high) = values.split_at_mut(target);
        let (low_news, high_news) = news.split_at_mut(target);
        flow.push_news(
            number,
            target,
            &low[source],
            &low_news[source],
            &mut high[0],
            &mut high_news[0],
            room,
            steps,
        )
    } else {
        let (low, high) = values.split_at_mut(source);
        let (low_news, high_news) = news.split_at_mut(source);
        flow.push_news(
            number,
            target,
            &high[0],
            &high_news[0],
            &mut low[target],
            &mut low_news[target],
            room,
            steps,
        )
    }
}
