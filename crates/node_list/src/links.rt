// The lists and their calls.
ghost use Rattle.std.specs.Prelude.{◌≡◌, ℕ, ◌<◌, ◌≤◌, false, [], ◌∷◌, length, map, slice_get, nat_lt, IfOk, IfSome, IsTrue, MatchOption, Some};
ghost use Rattle.node_list.specs.Rings.{AreOwnLinks};
ghost use Rattle.node_list.specs.Lists.{AlsoLists, Lists, NoLongerLists, OtherListsStay, empty_lists, list_at, is_listed, node_after, inserted_before, times, with_last, without};

use crate::Memory;
use crate::rings::{node_at, tie_before, untie};
use std::alloc::{AllocError, Global};
use std::marker::Model;

/// A fixed number of lists of node numbers, no number standing in two places. Contracts see it as the number of nodes
/// and the lists.
///
/// Each list is a ring of links through a number of its own, which stands past the nodes; a node that is in no list is
/// linked to itself.
#[derive(Drop)]
pub struct Links {
    nodes: usize,
    lists: usize,
    next: Vec<usize>,
    prev: Vec<usize>,
}

impl Model for Links {
    ghost use Rattle.node_list.specs.Lists.{Lists};
    ghost use Rattle.node_list.specs.Rings.{linked_lists, HoldLinks};

    ghost Value = { Lists };

    ghost view = { λ l. linked_lists l.nodes l.lists l.next.items };

    ghost invariant = { λ l. HoldLinks l.nodes l.lists l.next.items l.prev.items };
}

impl Links {
    /// So many empty lists, for nodes numbered from 0. It fails only with `Memory`.
    pub fn new(alloc: Global, nodes: usize, lists: usize) -> Result<Links, Memory>
        ensures { IfOk result (λ links. links ≡ empty_lists nodes lists) }
    {
        let Some(count) = nodes.checked_add(lists) else {
            return Err(AllocError);
        };
        let mut next = Vec::with_capacity(alloc, count)?;
        for number in 0..count {
            next.push(number)?;
        }
        let prev = Vec::from_slice(alloc, next.as_slice())?;
        Ok(Links {
            nodes,
            lists,
            next,
            prev,
        })
    }

    /// So many lists, each of which has its own number alone, for nodes numbered from 0, of which there are no fewer.
    /// It fails only with `Memory`.
    pub fn one_each(alloc: Global, nodes: usize, lists: usize) -> Result<Links, Memory>
        requires { lists ≤ nodes }
        ensures nodes { IfOk result (λ links. links.nodes ≡ nodes) }
        ensures count { IfOk result (λ links. length links.lists ≡ lists) }
        ensures each { IfOk result (λ links. (s : ℕ) → s < lists → list_at links.lists s ≡ s ∷ []) }
        ensures listed { IfOk result (λ links. (n : ℕ) → is_listed links.lists n ≡ nat_lt n lists) }
    {
        let next = own_links(alloc, nodes, lists)?;
        let prev = Vec::from_slice(alloc, next.as_slice())?;
        Ok(Links {
            nodes,
            lists,
            next,
            prev,
        })
    }

    /// Puts a node that is in no list at the end of a list. It does not allocate.
    pub fn push_back(&mut self, list: usize, node: usize)
        requires list { list < length self.old.lists }
        requires in_range { node < self.old.nodes }
        requires free { is_listed self.old.lists node ≡ false }
        ensures nodes { self.new.nodes ≡ self.old.nodes }
        ensures pushed { self.new.lists ≡ with_last self.old.lists list node }
        ensures listed { AlsoLists node self.old.lists self.new.lists }
    {
        tie_before(&mut self.next, &mut self.prev, self.nodes + list, node);
    }

    /// Takes the first node out of a list and answers it, and answers `None` exactly where the list is empty. It does
    /// not allocate.
    pub fn pop_front(&mut self, list: usize) -> Option<usize>
        requires { list < length self.old.lists }
        ensures nodes { self.new.nodes ≡ self.old.nodes }
        ensures empty { MatchOption result
            ((list_at self.old.lists list ≡ []) × (self.new ≡ self.old))
            (λ node. list_at self.old.lists list ≡ node ∷ list_at self.new.lists list) }
        ensures others { OtherListsStay list self.old.lists self.new.lists }
        ensures in_range { IfSome result (λ node. node < self.old.nodes) }
        ensures listed { IfSome result (λ node. NoLongerLists node self.old.lists self.new.lists) }
    {
        let node = self.next[self.nodes + list];
        if node < self.nodes {
            untie(&mut self.next, &mut self.prev, node);
            Some(node)
        } else {
            None
        }
    }

    /// Takes a node out of its list; the others keep their order. It does not allocate.
    pub fn unlink(&mut self, node: usize)
        requires { IsTrue (is_listed self.old.lists node) }
        ensures nodes { self.new.nodes ≡ self.old.nodes }
        ensures unlinked { self.new.lists ≡ map (without node) self.old.lists }
        ensures listed { NoLongerLists node self.old.lists self.new.lists }
    {
        untie(&mut self.next, &mut self.prev, node);
    }

    /// Puts a node that is in no list before one that is in a list. It does not allocate.
    pub fn insert_before(&mut self, node: usize, new: usize)
        requires node { IsTrue (is_listed self.old.lists node) }
        requires in_range { new < self.old.nodes }
        requires free { is_listed self.old.lists new ≡ false }
        ensures nodes { self.new.nodes ≡ self.old.nodes }
        ensures inserted { self.new.lists ≡ map (inserted_before node new) self.old.lists }
        ensures listed { AlsoLists new self.old.lists self.new.lists }
    {
        tie_before(&mut self.next, &mut self.prev, node, new);
    }

    /// Whether a node is in a list. It does not allocate. Whatever was done before, no node stands twice, and those
    /// that are listed are in range.
    pub fn is_listed(&self, node: usize) -> bool
        requires { node < self.now.nodes }
        ensures listed { result ≡ is_listed self.now.lists node }
        ensures once { (n : ℕ) → times self.now.lists n ≤ 1 }
        ensures in_range { (n : ℕ) → IsTrue (is_listed self.now.lists n) → n < self.now.nodes }
    {
        self.next[node] != node
    }

    /// The first node of a list, and `None` exactly where the list is empty. It does not allocate.
    pub fn first(&self, list: usize) -> Option<usize>
        requires { list < length self.now.lists }
        ensures { result ≡ slice_get (list_at self.now.lists list) 0 }
    {
        let ring = self.nodes + list;
        node_at(&self.next, ring, self.nodes)
    }

    /// For each list that has a first node the number of this node. It does not allocate.
    pub fn firsts(&self) -> &[usize]
        ensures long { length result.now ≡ length self.now.lists }
        ensures each { (list node : ℕ) → slice_get (list_at self.now.lists list) 0 ≡ Some node
            → slice_get result.now list ≡ Some node }
    {
        &self.next[self.nodes..]
    }

    /// The node after one that is in a list, and `None` exactly where that is the last of its list. It does not
    /// allocate.
    pub fn next(&self, node: usize) -> Option<usize>
        requires { IsTrue (is_listed self.now.lists node) }
        ensures { result ≡ node_after self.now.lists node }
    {
        node_at(&self.next, node, self.nodes)
    }
}

/// The links of lists, each of which has its own number alone. They are the same forward and back.
fn own_links(alloc: Global, nodes: usize, lists: usize) -> Result<Vec<usize>, Memory>
    requires { lists ≤ nodes }
    ensures { IfOk result (λ links. AreOwnLinks nodes lists links.items) }
{
    let Some(count) = nodes.checked_add(lists) else {
        return Err(AllocError);
    };
    let mut links = vec![in alloc; 0; count]?;
    for node in lists..nodes {
        links[node] = node;
    }
    for list in 0..lists {
        links[list] = nodes + list;
        links[nodes + list] = list;
    }
    Ok(links)
}
