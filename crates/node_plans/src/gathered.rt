//! What has come of the snapshots that are awaited, under the starts of their pieces (`docs/RULES.md#transfer`).
ghost use Rattle.std.specs.BTreeMap.{insert_entry, is_at};
ghost use Rattle.std.specs.Map.{lookup};
ghost use Rattle.std.specs.Option.{unwrap_or};
ghost use Rattle.std.specs.Ordering.{nat_cmp};
ghost use Rattle.std.specs.Prelude.{◌≡◌, ◌↔◌, IsTrue, OnErr, OnOk, Ok};
ghost use Rattle.directory_rules.specs.Gatherings.{gathered, new_gathering, with_page};
ghost use Rattle.seal_snapshot.specs.Progress.{progress_of};
ghost use Rattle.seal_snapshot.specs.declared.progress.GatheringProgress.TheVariants.{More};

use ring_range::RingRange;
use seal_snapshot::{Gathering, GatheringError, Page};
use std::alloc::{AllocError, Global};
use std::collections::BTreeMap;

/// The page that is wanted, behind those gathered for its range; the version is that of a gathering that begins by it. It asks that
/// after the page more are wanted, as `Gathering::progress_with` tells. Fails only when memory runs out, and then changes nothing.
pub fn gather_among(
    alloc: Global,
    gatherings: &mut BTreeMap<u32, Gathering>,
    version: u64,
    page: &Page,
) -> Result<(), AllocError>
    requires more { progress_of (gathered (unwrap_or (lookup (is_at (nat_cmp page.now.range.start)) gatherings.old.entries) (new_gathering version page.now.range)) page.now) ≡ Ok More }
    ensures made { OnOk result (gatherings.new.entries ≡ insert_entry nat_cmp gatherings.old.entries page.now.range.start
        (with_page (unwrap_or (lookup (is_at (nat_cmp page.now.range.start)) gatherings.old.entries) (new_gathering version page.now.range)) page.now)) }
    ensures unchanged { OnErr result (gatherings.new.entries ≡ gatherings.old.entries) }
{
    let start = page.range().start();
    if let Some(gathering) = gatherings.get_mut(&start) {
        taken(gathering, page)?;
        return Ok(());
    }
    let mut gathering = Gathering::new(alloc, version, page.range());
    taken(&mut gathering, page)?;
    gatherings.insert(start, gathering)?;
    Ok(())
}

/// Nothing is left of what was gathered for the range; where nothing was, the gathering is of this version. Fails only when memory
/// runs out, and then changes nothing.
pub fn gather_anew_among(
    alloc: Global,
    gatherings: &mut BTreeMap<u32, Gathering>,
    version: u64,
    range: RingRange,
) -> Result<(), AllocError>
    ensures made { OnOk result (gatherings.new.entries ≡ insert_entry nat_cmp gatherings.old.entries range.start
        (new_gathering (unwrap_or (lookup (is_at (nat_cmp range.start)) gatherings.old.entries) (new_gathering version range)).version range)) }
    ensures unchanged { OnErr result (gatherings.new.entries ≡ gatherings.old.entries) }
{
    let version = match gatherings.get(&range.start()) {
        Some(gathering) => gathering.version(),
        None => version,
    };
    gatherings.insert(range.start(), Gathering::new(alloc, version, range))?;
    Ok(())
}

// The page that is wanted, behind those gathered.
fn taken(gathering: &mut Gathering, page: &Page) -> Result<(), AllocError>
    requires more { progress_of (gathered gathering.old page.now) ≡ Ok More }
    ensures made { OnOk result (gathering.new ≡ with_page gathering.old page.now) }
    ensures unchanged { OnErr result (gathering.new ≡ gathering.old) }
{
    match gathering.take(page) {
        Ok(_) => Ok(()),
        Err(GatheringError::OutOfMemory) => Err(AllocError),
        Err(_) => unreachable!(),
    }
}

/// Whether both have equal gatherings under the same starts.
pub fn same_gatherings(one: &BTreeMap<u32, Gathering>, other: &BTreeMap<u32, Gathering>) -> bool
    ensures { IsTrue result ↔ (one.now.entries ≡ other.now.entries) }
{
    let mut others = other.iter();
    for (start, gathering) in one {
        let Some((its_start, its)) = others.next() else {
            return false;
        };
        if start != its_start || !gathering.same(its) {
            return false;
        }
    }
    others.next().is_none()
}
