//! Lists in order, lists without an item that stands twice, and sets of their items.

ghost use Rattle.std.specs.Prelude.{◌≡◌, IfOk, IsTrue};
ghost use Rattle.std.specs.BTreeMap.{is_at};
ghost use Rattle.dump_rules.specs.DumpShape.{are_distinct_by, are_in_order as in_order};
ghost use Rattle.dumps.specs.Sets.{HasItems};

use std::alloc::{AllocError, Global};
use std::collections::BTreeSet;

/// Whether no item is below the one before it. Goes over them once.
pub fn are_in_order<T: Ord>(items: &[T]) -> bool
    ensures { result ≡ in_order T.cmp items.now }
{
    items.is_sorted()
}

/// Whether no two items are the same. Where each is above the one before it, that tells; else a set of them does. Costs a logarithm for
/// each item at most. Fails only when memory runs out.
pub fn are_distinct<T: Ord + Copy>(alloc: Global, items: &[T]) -> Result<bool, AllocError>
    ensures { IfOk result (λ answer. answer ≡ are_distinct_by (λ one. is_at (T.cmp one)) items.now) }
{
    if is_rising(items) {
        return Ok(true);
    }
    are_new(alloc, items)
}

/// Whether each item is above the one before it.
fn is_rising<T: Ord>(items: &[T]) -> bool
    ensures { IsTrue result → IsTrue (are_distinct_by (λ one. is_at (T.cmp one)) items.now) }
{
    items.is_sorted_by(|one, next| one.cmp(next).is_lt())
}

/// Whether no item is among those before it.
fn are_new<T: Ord + Copy>(alloc: Global, items: &[T]) -> Result<bool, AllocError>
    ensures { IfOk result (λ answer. answer ≡ are_distinct_by (λ one. is_at (T.cmp one)) items.now) }
{
    let mut found = BTreeSet::new(alloc);
    for item in items {
        if !found.insert(*item)? {
            return Ok(false);
        }
    }
    Ok(true)
}

/// The set of the items. Costs a logarithm for each. Fails only when memory runs out.
pub fn set_of<T: Ord + Copy>(alloc: Global, items: &[T]) -> Result<BTreeSet<T>, AllocError>
    ensures { IfOk result (λ set. HasItems T.cmp set items.now) }
{
    let mut set = BTreeSet::new(alloc);
    for item in items {
        set.insert(*item)?;
    }
    Ok(set)
}
