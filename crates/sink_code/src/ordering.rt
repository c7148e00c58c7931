// Insertions in order of their nodes and variables.
ghost use Rattle.std.specs.Prelude.{◌≡◌, IsPermutation, IfOk, OnOk};
ghost use Rattle.sink_code.specs.FoundPuts.{AreOnce, AreSorted, ends_at_site, have_one_site, with_new};

use crate::inserting::PutBefore;
use mir_base::Memory;
use std::alloc::Global;

/// The same insertions in order of their nodes, and those before one node in order of their variables; of those with
/// one node and variable only one stays. It fails only with `Memory`.
pub(crate) fn in_order(alloc: Global, puts: Vec<PutBefore>) -> Result<Vec<PutBefore>, Memory>
    ensures { IfOk result (λ once. AreOnce puts.items once.items) }
{
    let sorted = sorted(puts)?;
    let once = without_repeats(alloc, sorted.as_slice())?;
    Ok(once)
}

/// The same insertions in order of their nodes, and those before one node in order of their variables.
fn sorted(puts: Vec<PutBefore>) -> Result<Vec<PutBefore>, Memory>
    ensures same { IfOk result (λ sorted. IsPermutation puts.items sorted.items) }
    ensures sorted { IfOk result (λ sorted. AreSorted sorted.items) }
{
    let mut puts = puts;
    puts.sort_by_key(|put| (put.node, put.var))?;
    Ok(puts)
}

/// The insertions without those whose node and variable are those of the one before.
fn without_repeats(alloc: Global, puts: &[PutBefore]) -> Result<Vec<PutBefore>, Memory>
    requires { AreSorted puts.now }
    ensures { IfOk result (λ once. AreOnce puts.now once.items) }
{
    let mut once = Vec::with_capacity(alloc, puts.len())?;
    for put in puts {
        push_new(&mut once, put)?;
    }
    Ok(once)
}

/// Puts an insertion at the end, where the last has another node or variable.
fn push_new(once: &mut Vec<PutBefore>, put: &PutBefore) -> Result<(), Memory>
    ensures { OnOk result (once.new.items ≡ with_new once.old.items put.now) }
{
    if ends_at_site(once.as_slice(), put) {
        Ok(())
    } else {
        once.push(*put)?;
        Ok(())
    }
}

/// Whether the last of these insertions has the node and the variable of another.
fn ends_at_site(puts: &[PutBefore], put: &PutBefore) -> bool
    ensures { result ≡ ends_at_site puts.now put.now }
{
    match puts.last() {
        Some(last) => have_one_site(last, put),
        None => false,
    }
}

/// Whether two insertions have one node and one variable.
fn have_one_site(a: &PutBefore, b: &PutBefore) -> bool
    ensures { result ≡ have_one_site a.now b.now }
{
    a.node == b.node && a.var == b.var
}
