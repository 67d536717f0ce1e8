//! The changes of transfers: snapshots go from the shelf, pages are gathered, and pieces settle or recover.
ghost use Rattle.std.specs.Prelude.{◌≡◌, OnErr, OnOk, Ok};
ghost use Rattle.directory_rules.specs.Gatherings.{new_gathering, with_page};
ghost use Rattle.directory_rules.specs.Sent.{gathering_of};
ghost use Rattle.directory_rules.specs.Snapshot.{shelf_without};
ghost use Rattle.directory_rules.specs.Transfer.{with_gathering, with_settled};
ghost use Rattle.node_plans.specs.Plans.{GoesOn, recovering_by};
ghost use Rattle.seal_snapshot.specs.Shelf.{IsDigestFor};
ghost use Rattle.grain_partition.specs.Holdings.{HasPiece};

use crate::Node;
use grain_table::Table;
use node_plans::{gather_among, gather_anew_among};
use range_recovery::Recovery;
use ring_range::RingRange;
use seal_snapshot::Page;
use silo_address::SiloAddress;
use std::alloc::AllocError;

impl Node {
    // The silo has its snapshot: it goes from the shelf.
    pub(crate) fn discard(&mut self, version: u64, range: RingRange, to: &SiloAddress)
        ensures { self.new ≡ record self.old { shelf = shelf_without self.old.shelf version range to.now } }
    {
        self.shelf.done(version, &range, to);
    }

    // The digest of the silo's snapshot is kept.
    pub(crate) fn keep_digest(
        &mut self,
        version: u64,
        range: RingRange,
        to: &SiloAddress,
        digest: [u8; 32],
    )
        requires { IsDigestFor version range to.now self.old.shelf digest }
        ensures { self.new ≡ self.old }
    {
        self.shelf.keep_digest(version, &range, to, digest);
    }

    // A page, behind those gathered.
    pub(crate) fn gather(&mut self, page: &Page) -> Result<(), AllocError>
        requires goes_on { GoesOn self.old page.now }
        ensures made { OnOk result (self.new ≡ with_gathering self.old (with_page (gathering_of self.old page.now.range) page.now)) }
        ensures unchanged { OnErr result (self.new ≡ self.old) }
    {
        let version = self.view.version();
        gather_among(self.alloc, &mut self.gatherings, version, page)?;
        Ok(())
    }

    // Nothing is left of what was gathered for the range.
    pub(crate) fn gather_anew(&mut self, range: RingRange) -> Result<(), AllocError>
        ensures made { OnOk result (self.new ≡ with_gathering self.old (new_gathering (gathering_of self.old range).version range)) }
        ensures unchanged { OnErr result (self.new ≡ self.old) }
    {
        let version = self.view.version();
        gather_anew_among(self.alloc, &mut self.gatherings, version, range)?;
        Ok(())
    }

    // The piece has its entries, and nothing is gathered or recovered for it any more.
    pub(crate) fn settle_piece(&mut self, range: RingRange, entries: Table)
        requires there { HasPiece range self.old.holding.pieces }
        ensures { self.new ≡ with_settled self.old range entries.entries }
    {
        drop(self.gatherings.remove(&range.start()));
        drop(self.recoveries.remove(&range.start()));
        self.holding.install(range, entries);
    }

    // The piece recovers from now on, and nothing is gathered for it.
    pub(crate) fn recover(&mut self, recovery: Recovery) -> Result<(), AllocError>
        requires there { HasPiece recovery.range self.old.holding.pieces }
        ensures made { OnOk result (self.new ≡ recovering_by self.old recovery) }
        ensures unchanged { OnErr result (self.new ≡ self.old) }
    {
        let range = recovery.range();
        drop(self.recoveries.insert(range.start(), recovery)?);
        drop(self.gatherings.remove(&range.start()));
        self.holding.wait_for_reports(range);
        Ok(())
    }
}
