//! What has been reported for the pieces that recover, under their starts (`docs/RULES.md#recovery`).
ghost use Rattle.std.specs.BTreeMap.{is_at};
ghost use Rattle.std.specs.List.Sorted.{IsStrictlySortedBy};
ghost use Rattle.std.specs.Map.{keys_of, lookup, set_value};
ghost use Rattle.std.specs.Ordering.{nat_cmp};
ghost use Rattle.std.specs.Prelude.{◌≡◌, ◌↔◌, if◌then◌else◌, false, is_ok, IsTrue, IfOk, OnErr, OnOk, None, Ok, Some};
ghost use Rattle.directory_rules.specs.State.{Recovery as RecoveryValue};
ghost use Rattle.directory_rules.specs.Recovery.{recovered, with_report};
ghost use Rattle.range_recovery.specs.Progress.{nothing_of, progress_of};

use range_recovery::{Recovery, RecoveryError, RecoveryProgress, Report};
use ring_range::RingRange;
use silo_address::SiloAddress;
use std::alloc::AllocError;
use std::collections::BTreeMap;

/// The report goes to the recovery of its range, if there is one: whether all have told all now. Fails only when memory runs out, and
/// then changes nothing.
pub fn take_report(
    recoveries: &mut BTreeMap<u32, Recovery>,
    report: &Report,
) -> Result<bool, AllocError>
    ensures complete { IfOk result (λ complete. (recovery : RecoveryValue) → lookup (is_at (nat_cmp report.now.range.start)) recoveries.old.entries ≡ Some recovery →
        IsTrue complete ↔ (progress_of (recovered recovery report.now) ≡ Ok RecoveryProgress.Complete)) }

    // It is taken unless it is refused.
    ensures taken { OnOk result ((recovery : RecoveryValue) → lookup (is_at (nat_cmp report.now.range.start)) recoveries.old.entries ≡ Some recovery →
        recoveries.new.entries ≡ (if is_ok (progress_of (recovered recovery report.now)) then set_value (is_at (nat_cmp report.now.range.start)) recoveries.old.entries (with_report recovery report.now) else recoveries.old.entries)) }

    // Where there is no recovery, nothing comes of it.
    ensures absent { IfOk result (λ complete. lookup (is_at (nat_cmp report.now.range.start)) recoveries.old.entries ≡ None → complete ≡ false) }
    ensures left { OnOk result (lookup (is_at (nat_cmp report.now.range.start)) recoveries.old.entries ≡ None → recoveries.new.entries ≡ recoveries.old.entries) }
    ensures unchanged { OnErr result (recoveries.new.entries ≡ recoveries.old.entries) }
    ensures in_order { IsStrictlySortedBy nat_cmp (keys_of recoveries.old.entries) }
{
    let Some(recovery) = recoveries.get_mut(&report.range().start()) else {
        return Ok(false);
    };
    match recovery.take(report) {
        Ok(RecoveryProgress::Complete) => Ok(true),
        Ok(RecoveryProgress::Continues) => Ok(false),
        Ok(RecoveryProgress::More) => Ok(false),
        Err(RecoveryError::WrongVersion) => Ok(false),
        Err(RecoveryError::Stranger) => Ok(false),
        Err(RecoveryError::Twice) => Ok(false),
        Err(RecoveryError::OutOfTurn) => Ok(false),
        Err(RecoveryError::OutOfMemory) => Err(AllocError),
    }
}

/// The report of a silo that has seen the version and has nothing in the range goes to the recovery of that range, if there is one: whether
/// all have told all now. It takes no memory.
pub fn take_nothing(
    recoveries: &mut BTreeMap<u32, Recovery>,
    version: u64,
    range: RingRange,
    silo: SiloAddress,
) -> bool
    ensures complete { (recovery : RecoveryValue) → lookup (is_at (nat_cmp range.start)) recoveries.old.entries ≡ Some recovery →
        IsTrue result ↔ (progress_of (recovered recovery (nothing_of version range silo)) ≡ Ok RecoveryProgress.Complete) }

    // It is taken unless it is refused.
    ensures taken { (recovery : RecoveryValue) → lookup (is_at (nat_cmp range.start)) recoveries.old.entries ≡ Some recovery →
        recoveries.new.entries ≡ (if is_ok (progress_of (recovered recovery (nothing_of version range silo))) then set_value (is_at (nat_cmp range.start)) recoveries.old.entries (with_report recovery (nothing_of version range silo)) else recoveries.old.entries) }

    // Where there is no recovery, nothing comes of it.
    ensures absent { lookup (is_at (nat_cmp range.start)) recoveries.old.entries ≡ None → result ≡ false }
    ensures left { lookup (is_at (nat_cmp range.start)) recoveries.old.entries ≡ None → recoveries.new.entries ≡ recoveries.old.entries }
    ensures in_order { IsStrictlySortedBy nat_cmp (keys_of recoveries.old.entries) }
{
    let Some(recovery) = recoveries.get_mut(&range.start()) else {
        return false;
    };
    match recovery.take_nothing(version, range, silo) {
        Ok(RecoveryProgress::Complete) => true,
        Ok(RecoveryProgress::Continues) => false,
        Ok(RecoveryProgress::More) => false,
        Err(_) => false,
    }
}

/// Whether both have equal recoveries under the same starts.
pub fn same_recoveries(one: &BTreeMap<u32, Recovery>, other: &BTreeMap<u32, Recovery>) -> bool
    ensures { IsTrue result ↔ (one.now.entries ≡ other.now.entries) }
{
    let mut others = other.iter();
    for (start, recovery) in one {
        let Some((its_start, its)) = others.next() else {
            return false;
        };
        if start != its_start || !recovery.same(its) {
            return false;
        }
    }
    others.next().is_none()
}
