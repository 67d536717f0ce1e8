//! What is kept of a table in a range, added to a list.
ghost use Rattle.std.specs.List.Sorted.{IsPermutation};
ghost use Rattle.std.specs.Prelude.{◌≡◌, ◌++◌, filter, map, not, IfOk};
ghost use Rattle.directory_rules.specs.Members.{is_dead_in};
ghost use Rattle.directory_rules.specs.Sight.{is_kept};
ghost use Rattle.directory_rules.specs.Table.{entries_of};
ghost use Rattle.hash_ring.specs.declared.Hashing.{Hashing as HashingValue};
ghost use Rattle.ring_range.specs.Range.{holds};
ghost use Rattle.grain_table.specs.Hashed.{AreHashed, entry_under};
ghost use Rattle.grain_table.specs.Stretch.{is_between};

use super::Table;
use crate::alive::is_dead_in;
use crate::hashed_map::HashedMap;
use hash_ring::Hashing;
use membership_view::View;
use ring_range::{CIRCLE, RingRange};
use silo_address::Entry;
use std::alloc::{AllocError, Global};

impl Table {
    /// The list with the entries whose grains are hashed into the range, without those on silos that are Dead in the view; they
    /// come in no order. Looks at no others where they are hashed here in this way. Fails only when memory runs out.
    pub fn list_kept(
        &self,
        alloc: Global,
        entries: Vec<Entry>,
        hashing: Hashing,
        view: &View,
        range: &RingRange,
    ) -> Result<Vec<Entry>, AllocError>
        ensures { IfOk result (λ listed. IsPermutation (entries.items ++ filter (is_kept hashing view.now range.now) (entries_of self.now.entries)) listed.items) }
    {
        if self.hashing.same(&hashing) {
            return self.list_own(entries, view, range);
        }
        let hashed = Table::new(alloc, hashing).with_all(self)?;
        hashed.list_own(entries, view, range)
    }

    // The same, under the hashes that the table has.
    fn list_own(
        &self,
        entries: Vec<Entry>,
        view: &View,
        range: &RingRange,
    ) -> Result<Vec<Entry>, AllocError>
        ensures { IfOk result (λ listed. IsPermutation (entries.items ++ filter (is_kept self.now.hashing view.now range.now) (entries_of self.now.entries)) listed.items) }
    {
        let _hashing = self.hashing;
        list_range(entries, &self.map, view, range)
    }
}

// The list with what stands in a map under hashes of the range, in the order of the map: at most two stretches of it.
fn list_range(
    entries: Vec<Entry>,
    from: &HashedMap,
    view: &View,
    range: &RingRange,
) -> Result<Vec<Entry>, AllocError>
    requires { (hashing : HashingValue) × AreHashed hashing from.now }
    ensures { IfOk result (λ listed. listed.items ≡ entries.items ++ map entry_under (filter (λ e. not (is_dead_in view.now e.1.silo)) (filter (λ e. holds range.now e.0.hash) from.now))) }
{
    range.in_range();
    let start = range.start();
    let end = u64::from(start) + range.size();
    if end <= CIRCLE {
        return list_stretch(entries, from, view, start, end);
    }
    let entries = list_stretch(entries, from, view, 0, end - CIRCLE)?;
    list_stretch(entries, from, view, start, CIRCLE)
}

// The list with what stands in a map under hashes from the first one on and before the end.
fn list_stretch(
    mut entries: Vec<Entry>,
    from: &HashedMap,
    view: &View,
    first: u32,
    end: u64,
) -> Result<Vec<Entry>, AllocError>
    ensures { IfOk result (λ listed. listed.items ≡ entries.items ++ map entry_under (filter (λ e. not (is_dead_in view.now e.1.silo)) (filter (λ e. is_between first end e.0.hash) from.now))) }
{
    'entries: for (key, activation) in from.between(first, end) {
        if is_dead_in(view, &activation.silo) {
            continue;
        }
        entries.push(Entry {
            grain: key.grain,
            activation,
        })?;
    }
    Ok(entries)
}
