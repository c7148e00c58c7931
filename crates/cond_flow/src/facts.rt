// What is known of each variable, as it is kept: in two lists, so that it takes little room and is joined in few steps.
ghost use Rattle.std.specs.Prelude.{◌≡◌, ◌↔◌, ◌≤◌, ℕ, ℤ, [], false, true, length, replicate, slice_index_or, slice_set, IfOk};
ghost use Rattle.cond_flow.specs.FactLists.{decoded_each};
ghost use Rattle.cond_flow.specs.States.{joined_each};
ghost use Rattle.cond_flow.specs.Raising.{IsRaised, KeepsRaised};

use crate::Knowledge;
use crate::code_joins::{join_lists, join_noted, raise_lists};
use crate::news::StateNews;
use mir_base::Memory;
use smallvec::SmallVec;
use std::alloc::Global;
use std::default::MadeWith;
use std::marker::{Model, PhantomData};

/// What is known of one variable as it is kept, by a kind and a number. Neither function allocates.
pub trait Coded: Copy + Drop {
    ghost decoded: { ℕ → ℤ → Self };

    ghost kind_of: { Self → ℕ };

    ghost number_of: { Self → ℤ };

    /// Its kind.
    fn kind(self) -> u8
        ensures { result ≡ kind_of self };

    /// Its number, 0 where the kind says all.
    fn number(self) -> i64
        ensures { result ≡ number_of self };

    /// What a kind and a number stand for.
    fn of_code(kind: u8, number: &i64) -> Self
        ensures { result ≡ decoded kind number.now };

    /// Whether it is seen that a kind stands for the same with any number.
    fn tells_all(kind: u8) -> bool
        ensures { result ≡ true → (n m : ℤ) → decoded kind n ≡ decoded kind m }
    {
        false
    }

    ghost stands: { (x : Self) → decoded (kind_of x) (number_of x) ≡ x };
}

/// What is known of each variable, by the numbers of the variables: nine bytes for each, which are in the value itself
/// where the variables are few. Contracts see it as a list.
#[derive(Drop)]
pub struct Facts<K: Coded> {
    kinds: SmallVec<u8, 8>,
    numbers: SmallVec<i64, 8>,
    of: PhantomData<K>,
}

impl<K: Coded> Model for Facts<K> {
    ghost use Rattle.std.specs.Prelude.{◌≡◌, List, length};
    ghost use Rattle.cond_flow.specs.FactLists.{JoinedCode, StaysCode, decoded_each};

    ghost Value = { List K };

    ghost view = { λ f. decoded_each K.decoded f.kinds.items f.numbers.items };

    ghost invariant = { λ f. length f.numbers.items ≡ length f.kinds.items };
}

impl<K: Coded> Facts<K> {
    /// The same of so many variables. It fails only with `Memory`.
    pub(crate) fn repeated(alloc: Global, count: usize, k: K) -> Result<Facts<K>, Memory>
        ensures { IfOk result (λ facts. facts ≡ replicate count k) }
    {
        let facts = Facts::repeated_code(alloc, count, k.kind(), k.number())?;
        Ok(facts)
    }

    /// The same, by its kind and its number.
    fn repeated_code(alloc: Global, count: usize, kind: u8, number: i64) -> Result<Facts<K>, Memory>
        ensures { IfOk result (λ facts. facts ≡ replicate count (K.decoded kind number)) }
    {
        let mut kinds = empty_list(alloc, count)?;
        kinds.resize(count, kind)?;
        let mut numbers = empty_list(alloc, count)?;
        numbers.resize(count, number)?;
        Ok(Facts {
            kinds,
            numbers,
            of: PhantomData,
        })
    }

    /// These, with what is known of any variable. It fails only with `Memory`.
    pub fn of_list(alloc: Global, list: &[K], otherwise: K) -> Result<Facts<K>, Memory>
        ensures { IfOk result (λ facts. facts ≡ list.now) }
    {
        let mut facts = Facts::repeated(alloc, list.len(), otherwise)?;
        for x in 0..list.len() {
            facts.set(x, list[x]);
        }
        Ok(facts)
    }

    /// A copy. It fails only with `Memory`.
    pub(crate) fn copied(&self, alloc: Global) -> Result<Facts<K>, Memory>
        ensures { IfOk result (λ copy. copy ≡ self.now) }
    {
        let kinds = copied_list(alloc, self.kinds.as_slice())?;
        let numbers = copied_list(alloc, self.numbers.as_slice())?;
        Ok(Facts {
            kinds,
            numbers,
            of: PhantomData,
        })
    }

    /// What is known, as a list. It fails only with `Memory`.
    pub(crate) fn listed(&self, alloc: Global, otherwise: K) -> Result<Vec<K>, Memory>
        ensures { IfOk result (λ list. list.items ≡ self.now) }
    {
        let mut list = Vec::with_capacity(alloc, self.len())?;
        for x in 0..self.len() {
            list.push(self.get(x, otherwise))?;
        }
        Ok(list)
    }

    /// Of how many variables something is known. It does not allocate.
    pub fn len(&self) -> usize
        ensures { result ≡ length self.now }
    {
        self.kinds.as_slice().len()
    }

    /// What is known of a variable, and `otherwise` where there is none of this number. It does not allocate.
    pub fn get(&self, x: usize, otherwise: K) -> K
        ensures { result ≡ slice_index_or self.now x otherwise }
    {
        fact_at(self.kinds.as_slice(), self.numbers.as_slice(), x, otherwise)
    }

    /// Sets what is known of a variable, if there is one of this number. It does not allocate.
    pub fn set(&mut self, x: usize, k: K)
        ensures { self.new ≡ slice_set self.old x k }
    {
        put_code(
            self.kinds.as_mut_slice(),
            self.numbers.as_mut_slice(),
            x,
            k.kind(),
            k.number(),
        );
    }

    /// Sets what is known of all variables. It does not allocate.
    pub(crate) fn fill(&mut self, k: K)
        ensures { self.new ≡ replicate (length self.old) k }
    {
        self.fill_code(k.kind(), k.number());
    }

    /// The same, by its kind and its number.
    fn fill_code(&mut self, kind: u8, number: i64)
        ensures { self.new ≡ replicate (length self.old) (K.decoded kind number) }
    {
        self.kinds.as_mut_slice().fill(kind);
        self.numbers.as_mut_slice().fill(number);
    }

    /// Takes what is known elsewhere in the place of what was known. It does not allocate.
    pub fn refill(&mut self, from: &Facts<K>)
        requires { length self.old ≡ length from.now }
        ensures { self.new ≡ from.now }
    {
        self.kinds
            .as_mut_slice()
            .copy_from_slice(from.kinds.as_slice());
        self.numbers
            .as_mut_slice()
            .copy_from_slice(from.numbers.as_slice());
    }
}

impl<K: Knowledge> Facts<K> {
    /// Turns what is known into what is known where two paths meet, and answers whether it changed. It does not
    /// allocate.
    pub fn join_from(&mut self, other: &Facts<K>) -> bool
        requires { length other.now ≡ length self.old }
        ensures joined { self.new ≡ joined_each K.rules.joined self.old other.now }
        ensures unchanged { (result ≡ false) ↔ (self.new ≡ self.old) }
    {
        join_lists::<K>(
            self.kinds.as_mut_slice(),
            self.numbers.as_mut_slice(),
            other.kinds.as_slice(),
            other.numbers.as_slice(),
        )
    }

    /// As `join_from`, and puts each variable of which more may be known then among the news.
    pub(crate) fn join_noting(&mut self, other: &Facts<K>, news: &mut StateNews) -> bool
        requires { length other.now ≡ length self.old }
        ensures joined { self.new ≡ joined_each K.rules.joined self.old other.now }
        ensures unchanged { (result ≡ false) ↔ (self.new ≡ self.old) }
        ensures keeps { KeepsRaised K.rules news.old self.old news.new self.new }
    {
        join_noted::<K>(
            self.kinds.as_mut_slice(),
            self.numbers.as_mut_slice(),
            other.kinds.as_slice(),
            other.numbers.as_slice(),
            news,
        )
    }

    /// The same for these variables alone.
    pub(crate) fn join_raised(
        &mut self,
        other: &Facts<K>,
        raised: &[usize],
        news: &mut StateNews,
    ) -> bool
        requires { length other.now ≡ length self.old }
        ensures raised { IsRaised K.below K.rules raised.now other.now self.old self.new }
        ensures unchanged { (result ≡ false) ↔ (self.new ≡ self.old) }
        ensures keeps { KeepsRaised K.rules news.old self.old news.new self.new }
    {
        raise_lists::<K>(
            self.kinds.as_mut_slice(),
            self.numbers.as_mut_slice(),
            other.kinds.as_slice(),
            other.numbers.as_slice(),
            raised,
            news,
        )
    }
}

/// An empty list with room for so many items, made at once where they are not in the value itself.
fn empty_list<T: MadeWith<Global> + Copy>(
    alloc: Global,
    size: usize,
) -> Result<SmallVec<T, 8>, Memory>
    ensures items { IfOk result (λ list. list.items ≡ []) }
    ensures capacity { IfOk result (λ list. size ≤ list.capacity) }
{
    if size <= 8 {
        Ok(SmallVec::new(alloc))
    } else {
        let list = Vec::with_capacity(alloc, size)?;
        Ok(SmallVec::from_vec(list))
    }
}

/// A list of these items.
fn copied_list<T: MadeWith<Global> + Copy>(
    alloc: Global,
    items: &[T],
) -> Result<SmallVec<T, 8>, Memory>
    ensures { IfOk result (λ list. list.items ≡ items.now) }
{
    let mut list = empty_list(alloc, items.len())?;
    list.extend_from_slice(items)?;
    Ok(list)
}

/// What is known of a variable, and `otherwise` where there is none of this number.
fn fact_at<K: Coded>(kinds: &[u8], numbers: &[i64], x: usize, otherwise: K) -> K
    requires { length numbers.now ≡ length kinds.now }
    ensures { result ≡ slice_index_or (decoded_each K.decoded kinds.now numbers.now) x otherwise }
{
    if x < kinds.len() {
        K::of_code(kinds[x], &numbers[x])
    } else {
        otherwise
    }
}

/// Sets the kind and the number of a variable, if there is one of this number.
pub(crate) fn put_code(kinds: &mut [u8], numbers: &mut [i64], x: usize, kind: u8, number: i64)
    requires { length numbers.old ≡ length kinds.old }
    ensures kinds { kinds.new ≡ slice_set kinds.old x kind }
    ensures numbers { numbers.new ≡ slice_set numbers.old x number }
{
    if x < kinds.len() {
        kinds[x] = kind;
        numbers[x] = number;
    }
}
