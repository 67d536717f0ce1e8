//! A full bucket is cut in two.
ghost use Rattle.std.specs.Prelude.{◌≡◌, ◌<◌, ◌≤◌, length};
ghost use Rattle.grain_table.specs.Buckets.{AreCut, joined};

use super::bucket::Bucket;
use super::search::index_under;
use std::alloc::AllocError;

/// Cuts the bucket for the hash in two, if it is full. Fails only when memory runs out. The entries stay.
pub(super) fn cut_full(
    cuts: &mut Vec<u32>,
    buckets: &mut Vec<Bucket>,
    hash: u32,
) -> Result<(), AllocError>
    requires { AreCut cuts.old.items buckets.old.items }
    ensures entries { joined buckets.new.items ≡ joined buckets.old.items }
    ensures cut { AreCut cuts.new.items buckets.new.items }
{
    let index = index_under(cuts, hash);
    if index < buckets.len() {
        return cut_at(cuts, buckets, index);
    }
    Ok(())
}

// The same, of the bucket at an index.
fn cut_at(cuts: &mut Vec<u32>, buckets: &mut Vec<Bucket>, index: usize) -> Result<(), AllocError>
    requires cut { AreCut cuts.old.items buckets.old.items }
    requires bound { index ≤ length cuts.old.items }
    requires within { index < length buckets.old.items }
    ensures entries { joined buckets.new.items ≡ joined buckets.old.items }
    ensures cut { AreCut cuts.new.items buckets.new.items }
{
    if !buckets[index].is_full() {
        return Ok(());
    }
    let Some(middle) = buckets[index].middle() else {
        return Ok(());
    };
    cuts.reserve(1)?;
    buckets.reserve(1)?;
    let upper = buckets[index].split_off(middle)?;
    cuts.insert(index, middle).unwrap();
    buckets.insert(index + 1, upper).unwrap();
    Ok(())
}
