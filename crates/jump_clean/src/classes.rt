// Classes of nodes whose chains have the same end.
ghost use Rattle.std.specs.Prelude.{◌≡◌, ◌≢◌, ℕ, ◌<◌, [], ◌∷◌, length, slice_set, IfOk, OnOk, ◌⊎◌};
ghost use Rattle.flow_graph.specs.Numbering.{IsIn};
ghost use Rattle.mir_base.specs.Shapes.{AllBelow};
ghost use Rattle.jump_clean.specs.Classes.{class, members_in, members_of, with_more, AreAlone, AreJoined, AreMoved, HaveMembers};

use mir_base::Memory;
use smallvec::SmallVec;
use std::alloc::Global;

/// The members of a class, in a list that has room in itself for the few that most classes come to.
type Members = SmallVec<usize, 4>;

/// The number of the class of each node, and the members of each class.
#[derive(Drop)]
pub(crate) struct Classes {
    pub(crate) of: Vec<usize>,
    pub(crate) members: Vec<Members>,
}

impl Classes {
    /// Each node alone, in the class of its own number.
    pub(crate) fn apart(alloc: Global, nodes: usize) -> Result<Classes, Memory>
        ensures long { IfOk result (λ classes. length classes.of.items ≡ nodes) }
        ensures apart { IfOk result (λ classes. AreAlone nodes classes.of.items) }
        ensures members { IfOk result HaveMembers }
    {
        let mut of = Vec::with_capacity(alloc, nodes)?;
        let mut members = Vec::with_capacity(alloc, nodes)?;
        for n in 0..nodes {
            of.push(n)?;
            members.push(one(alloc, n))?;
        }
        Ok(Classes { of, members })
    }

    /// Joins the classes of two nodes, and answers the members of the one that went into the other: the smaller one, so
    /// that no node moves more often than the logarithm of the number of nodes.
    pub(crate) fn join(&mut self, alloc: Global, a: usize, b: usize) -> Result<Members, Memory>
        requires members { HaveMembers self.old }
        requires a { a < length self.old.of.items }
        requires b { b < length self.old.of.items }
        ensures members { OnOk result (HaveMembers self.new) }
        ensures joined { IfOk result (λ moved.
            AreJoined self.old.of.items self.new.of.items a b moved.items) }
    {
        let first = self.of[a];
        let second = self.of[b];
        if first == second {
            return Ok(SmallVec::new(alloc));
        }
        if self.members[first].len() < self.members[second].len() {
            self.move_all(alloc, first, second)
        } else {
            self.move_all(alloc, second, first)
        }
    }

    /// Moves all members of a class into another one, and answers them.
    fn move_all(&mut self, alloc: Global, from: usize, into: usize) -> Result<Members, Memory>
        requires members { HaveMembers self.old }
        requires from { from < length self.old.of.items }
        requires into { into < length self.old.of.items }
        requires apart { from ≢ into }
        ensures members { OnOk result (HaveMembers self.new) }
        ensures moved { IfOk result (λ moved.
            AreMoved self.old.of.items self.new.of.items from into moved.items) }
    {
        let moved = self.take(alloc, from);
        relabel(&mut self.of, moved.as_slice(), into);
        self.add(into, moved.as_slice())?;
        Ok(moved)
    }

    /// Takes the members of a class away from it.
    fn take(&mut self, alloc: Global, class: usize) -> Members
        requires { class < length self.old.members.items }
        ensures taken { result.items ≡ members_of (members_in self.old) class }
        ensures left { members_in self.new ≡ slice_set (members_in self.old) class [] }
        ensures of { self.new.of.items ≡ self.old.of.items }
    {
        std::mem::replace(&mut self.members[class], SmallVec::new(alloc))
    }

    /// Adds members to a class.
    fn add(&mut self, class: usize, nodes: &[usize]) -> Result<(), Memory>
        requires { class < length self.old.members.items }
        ensures added { OnOk result (
            members_in self.new ≡ with_more (members_in self.old) class nodes.now) }
        ensures of { self.new.of.items ≡ self.old.of.items }
    {
        self.members[class].extend_from_slice(nodes)?;
        Ok(())
    }
}

/// The list of this number alone.
fn one(alloc: Global, n: usize) -> Members
    ensures { result.items ≡ n ∷ [] }
{
    let mut list = SmallVec::new(alloc);
    list.push_reserved(n);
    list
}

/// Puts these nodes into a class.
fn relabel(of: &mut Vec<usize>, nodes: &[usize], into: usize)
    requires { AllBelow (length of.old.items) nodes.now }
    ensures long { length of.new.items ≡ length of.old.items }
    ensures gone { (n : ℕ) → IsIn n nodes.now → class of.new.items n ≡ into }
    ensures others { (n : ℕ) → (class of.new.items n ≡ class of.old.items n) ⊎ IsIn n nodes.now }
{
    for n in nodes {
        of[*n] = into;
    }
}
