//! Whether grains are distinct, told by numbers that are mixed from their texts.

ghost use Rattle.std.specs.Prelude.{◌≡◌, IfOk, IsTrue, map};
ghost use Rattle.silo_address.specs.Grain.{grain_eq};
ghost use Rattle.dump_rules.specs.DumpShape.{are_distinct_by};
ghost use Rattle.dumps.specs.Mixed.{Rises, grains_lent, mixed};

use crate::LentGrain;
use crate::distinct::are_distinct;
use std::alloc::{AllocError, Global};
use std::hash::{FoldHasher, Hasher};

/// Whether no two of the grains are the same. Mostly numbers tell that are mixed from their texts, each of which is read once, in order;
/// only where two have one number, a set of the grains does. Costs a logarithm for each grain. Fails only when memory runs out.
pub fn are_distinct_grains(alloc: Global, grains: &[&LentGrain]) -> Result<bool, AllocError>
    ensures { IfOk result (λ distinct. distinct ≡ are_distinct_by grain_eq (grains_lent grains.now)) }
{
    if are_told_apart(alloc, grains)? {
        return Ok(true);
    }
    let once = are_distinct(alloc, grains)?;
    Ok(once)
}

/// Whether the grains have numbers of their own. `false` says nothing: two grains may have one number.
fn are_told_apart(alloc: Global, grains: &[&LentGrain]) -> Result<bool, AllocError>
    ensures { IfOk result (λ apart. IsTrue apart → IsTrue (are_distinct_by grain_eq (grains_lent grains.now))) }
{
    let mut numbers = numbers_of(alloc, grains)?;
    numbers.sort_unstable();
    Ok(is_rising(&numbers))
}

/// The numbers of the grains.
fn numbers_of(alloc: Global, grains: &[&LentGrain]) -> Result<Vec<u64>, AllocError>
    ensures { IfOk result (λ numbers. numbers.items ≡ map (λ grain. mixed grain.now) grains.now) }
{
    grains.iter().map(|grain| mixed(grain)).collect(alloc)
}

/// A number mixed from the grain's text.
#[tactic(auto, unfolding(crate::specs::Mixed::mixed))]
fn mixed(grain: &LentGrain) -> u64
    ensures { result ≡ mixed grain.now }
{
    let mut hasher = FoldHasher::default();
    hasher.write(grain.as_bytes());
    hasher.finish()
}

/// Whether each number is above the one before it.
fn is_rising(numbers: &[u64]) -> bool
    ensures { IsTrue result → Rises numbers.now }
{
    numbers.is_sorted_by(|one, next| *one < *next)
}
