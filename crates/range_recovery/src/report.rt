ghost use Rattle.std.specs.Prelude.{◌≡◌, ◌↔◌, IsTrue, IfOk};
ghost use Rattle.directory_rules.specs.Standing.{last_grain};
ghost use Rattle.range_recovery.specs.Progress.{nothing_of};

use ring_range::RingRange;
use silo_address::{Entry, GrainId, SiloAddress};
use std::alloc::{AllocError, Global};
use std::marker::Model;

/// Some of a silo's firm activations that are hashed into a range, as it tells them when it has seen a version: the first of those
/// that stand behind a grain (`docs/RULES.md#recovery`).
#[derive(Drop)]
pub struct Report {
    version: u64,
    range: RingRange,
    silo: SiloAddress,
    after: Option<GrainId>,
    entries: Vec<Entry>,
    last: bool,
}

impl Model for Report {
    ghost use Rattle.directory_rules.specs.State.{Report as ReportValue};

    ghost Value = { ReportValue };

    ghost view = { λ r. record { version = r.version; range = r.range; silo = r.silo; after = r.after; entries = r.entries.items; last = r.last } };
}

impl Report {
    /// What the silo, which has seen this version, tells of the range: entries behind a grain, or from the start of the range on, and
    /// whether no others stand behind them.
    pub fn new(
        version: u64,
        range: RingRange,
        silo: SiloAddress,
        after: Option<GrainId>,
        entries: Vec<Entry>,
        last: bool,
    ) -> Report
        ensures { result ≡ record { version = version; range = range; silo = silo; after = after; entries = entries.items; last = last } }
    {
        Report {
            version,
            range,
            silo,
            after,
            entries,
            last,
        }
    }

    /// The report of a silo that has seen this version and has nothing in the range. It takes no memory.
    pub fn of_nothing(alloc: Global, version: u64, range: RingRange, silo: SiloAddress) -> Report
        ensures { result ≡ nothing_of version range silo }
    {
        Report::new(version, range, silo, None, Vec::new(alloc), true)
    }

    /// The version that the silo had seen.
    pub fn version(&self) -> u64
        ensures { result ≡ self.now.version }
    {
        self.version
    }

    /// The range of the recovery that asked.
    pub fn range(&self) -> RingRange
        ensures { result ≡ self.now.range }
    {
        self.range
    }

    /// Whose report it is.
    pub fn silo(&self) -> SiloAddress
        ensures { result ≡ self.now.silo }
    {
        self.silo
    }

    /// The grain behind which the entries stand; `None` from the start of the range on.
    pub fn after(&self) -> Option<GrainId>
        ensures { result ≡ self.now.after }
    {
        self.after
    }

    /// Whether no others stand behind the entries.
    pub fn is_last(&self) -> bool
        ensures { result ≡ self.now.last }
    {
        self.last
    }

    /// The grain of the last entry; where there are none, the one behind which they would stand.
    pub fn last_grain(&self) -> Option<GrainId>
        ensures { result ≡ last_grain self.now.after self.now.entries }
    {
        match self.entries.last() {
            Some(entry) => Some(entry.grain),
            None => self.after,
        }
    }

    /// The firm activations, as they were told.
    pub fn entries(&self) -> &[Entry]
        ensures { result.now ≡ self.now.entries }
    {
        &self.entries
    }

    /// An equal report. Fails only when memory runs out.
    pub fn copy(&self) -> Result<Report, AllocError>
        ensures { IfOk result (λ report. report ≡ self.now) }
    {
        let entries = self.entries.clone()?;
        Ok(Report {
            version: self.version,
            range: self.range,
            silo: self.silo,
            after: self.after,
            entries,
            last: self.last,
        })
    }

    /// Whether both are of one version, range and silo, behind one grain, with the same entries, and both the last or neither.
    pub fn same(&self, other: &Report) -> bool
        ensures { IsTrue result ↔ (self.now ≡ other.now) }
    {
        other.version == self.version
            && self.range.same(&other.range)
            && self.silo.same(&other.silo)
            && same_grain(self.after, other.after)
            && other.last == self.last
            && same_entries(&self.entries, &other.entries)
    }
}

/// Whether both are the same grain, or none.
pub fn same_grain(one: Option<GrainId>, other: Option<GrainId>) -> bool
    ensures { IsTrue result ↔ (one ≡ other) }
{
    one == other
}

fn same_entries(one: &[Entry], other: &[Entry]) -> bool
    ensures { IsTrue result ↔ (one.now ≡ other.now) }
{
    *one == *other
}
