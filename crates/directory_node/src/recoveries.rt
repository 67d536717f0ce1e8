ghost use Rattle.std.specs.BTreeMap.{is_at};
ghost use Rattle.std.specs.Map.{lookup};
ghost use Rattle.std.specs.Ordering.{nat_cmp};
ghost use Rattle.std.specs.Prelude.{◌≡◌, ◌||◌, nat_lt, IsTrue, IfOk, IfErr, OnOk, OnErr, Ok, Some, length, true};
ghost use Rattle.directory_rules.specs.State.{Recovery as RecoveryValue};
ghost use Rattle.directory_rules.specs.Recovery.{recovered};
ghost use Rattle.directory_rules.specs.Standing.{last_grain};
ghost use Rattle.directory_rules.specs.State.{Query_letter};
ghost use Rattle.directory_rules.specs.Table.{lie_in};
ghost use Rattle.directory_rules.specs.Sent.{letter_to, recovery_of};
ghost use Rattle.range_recovery.specs.Progress.{Refuses, progress_of};
ghost use Rattle.directory_rules.specs.Transfer.{answer_to, answering, has_range, is_recovering, is_report_awaited, piece_at, queried, recovered_by, recovers, report_of, reported, with_settled};
ghost use Rattle.directory_letters.specs.LetterModel.{body_of};
ghost use Rattle.node_plans.specs.Plans.{Fits, step_by};

use crate::{Change, Node, Plan};
use directory_letters::{Body, Letter};
use directory_rules::Effect;
use host_activations::{FirmPage, PageAsked};
use node_plans::{are_all_of, is_recovering, lie_in, rise_behind, take_report};
use range_recovery::{RecoveryError, RecoveryProgress, Report};
use ring_range::RingRange;
use silo_address::GrainId;
use std::alloc::{AllocError, Global};

impl Node {
    // A query comes. Nothing changes in it.
    pub(crate) fn plan_query(
        &self,
        alloc: Global,
        letter: &Letter,
        range: RingRange,
        after: Option<GrainId>,
    ) -> Result<Plan, AllocError>
        ensures planned { IfOk result (λ plan. step_by self.now plan ≡ queried self.now letter.now range after) }
        ensures fits { IfOk result (λ plan. Fits plan.change self.now) }
        ensures one { length (queried self.now letter.now range after).letters ≡ 1 }
    {
        if self.view.version() < letter.version() {
            return self.answer(alloc, letter, Body::Behind(range), Effect::Behind);
        }
        if letter.version() < self.view.version() {
            return self.answer(alloc, letter, Body::Ahead(range), Effect::Ahead);
        }
        let report = self.report_of(alloc, range, after)?;
        self.answer(alloc, letter, Body::Report(report), Effect::Report)
    }

    // One letter back to the sender, of the letter's version.
    pub(crate) fn answer(
        &self,
        alloc: Global,
        letter: &Letter,
        body: Body,
        effect: Effect,
    ) -> Result<Plan, AllocError>
        ensures planned { IfOk result (λ plan. step_by self.now plan ≡ answering letter.now self.now (body_of body) effect) }
        ensures fits { IfOk result (λ plan. Fits plan.change self.now) }
    {
        Plan::of_one(
            alloc,
            self.answer_letter(letter, body),
            effect,
            Change::Nothing,
        )
    }

    // A letter back to the sender, of the letter's version.
    pub(crate) fn answer_letter(&self, letter: &Letter, body: Body) -> Letter
        ensures { result ≡ answer_to letter.now self.now (body_of body) }
    {
        Letter::new(self.host.silo(), letter.from(), letter.version(), body)
    }

    // What is firm here in a range, behind a grain: as much as a report tells.
    pub(crate) fn report_of(
        &self,
        alloc: Global,
        range: RingRange,
        after: Option<GrainId>,
    ) -> Result<Report, AllocError>
        ensures { IfOk result (λ report. report ≡ report_of self.now range after) }
    {
        let asked = PageAsked {
            hashing: self.settings.hashing(),
            range,
            after,
            most: self.settings.report_size(),
        };
        let page = self.host.firm_page(alloc, &asked)?;
        Ok(self.report_with(&asked, page))
    }

    // The report that tells the page asked for.
    fn report_with(&self, asked: &PageAsked, page: FirmPage) -> Report
        ensures { result ≡ record { version = self.now.view.version; range = asked.now.range; silo = self.now.host.silo; after = asked.now.after; entries = page.entries.items; last = page.last } }
    {
        let (version, silo) = (self.view.version(), self.host.silo());
        let FirmPage { entries, last } = page;
        Report::new(version, asked.range, silo, asked.after, entries, last)
    }

    // A report comes. Where its silo has more to tell, it is answered by one query.
    pub(crate) fn plan_report(
        &self,
        alloc: Global,
        letter: &Letter,
        report: &Report,
    ) -> Result<Plan, AllocError>
        ensures planned { IfOk result (λ plan. step_by self.now plan ≡ reported self.now letter.now report.now) }
        ensures fits { IfOk result (λ plan. Fits plan.change self.now) }
    {
        if !self.is_report_awaited(letter, report) {
            return Ok(Plan::idle(alloc, Effect::Ignored));
        }
        self.plan_count(alloc, report)
    }

    // How many letters a report makes the node send.
    pub(crate) fn report_answers(&self, letter: &Letter, report: &Report) -> usize
        ensures { result ≡ length (reported self.now letter.now report.now).letters }
    {
        if !self.is_report_awaited(letter, report) {
            return 0;
        }
        match self.progress_with(report) {
            Ok(RecoveryProgress::Continues) => 1,
            Ok(RecoveryProgress::More) => 0,
            Ok(RecoveryProgress::Complete) => 0,
            Err(_) => 0,
        }
    }

    // What would come of a report that counts.
    pub(crate) fn progress_with(&self, report: &Report) -> Result<RecoveryProgress, RecoveryError>
        requires recovers { has_range is_recovering report.now.range (piece_at self.now report.now.range) ≡ true }
        ensures judged { IfOk result (λ progress. progress_of (recovered (recovery_of self.now report.now.range) report.now) ≡ Ok progress) }
        ensures refused { IfErr result (Refuses (recovery_of self.now report.now.range) report.now) }
    {
        let Some(recovery) = self.recoveries.get(&report.range().start()) else {
            unreachable!()
        };
        recovery.progress_with(report)
    }

    // A report that counts comes.
    fn plan_count(&self, alloc: Global, report: &Report) -> Result<Plan, AllocError>
        requires recovers { has_range is_recovering report.now.range (piece_at self.now report.now.range) ≡ true }
        ensures planned { IfOk result (λ plan. step_by self.now plan ≡ recovered_by (recovered (recovery_of self.now report.now.range) report.now) report.now self.now) }
        ensures fits { IfOk result (λ plan. Fits plan.change self.now) }
    {
        let progress = match self.progress_with(report) {
            Ok(progress) => progress,
            Err(_) => return Ok(Plan::idle(alloc, Effect::Ignored)),
        };
        let change = Change::Counts(report.copy()?);
        match progress {
            RecoveryProgress::Continues => {
                Plan::of_one(alloc, self.query_on(report), Effect::More, change)
            }
            RecoveryProgress::More => Ok(Plan::silent(alloc, Effect::More, change)),
            RecoveryProgress::Complete => Ok(Plan::silent(alloc, Effect::Complete, change)),
        }
    }

    // The query for what stands behind a report, to its silo.
    fn query_on(&self, report: &Report) -> Letter
        ensures { result ≡ letter_to report.now.silo self.now (Query_letter report.now.range (last_grain report.now.after report.now.entries)) }
    {
        let (range, after) = (report.range(), report.last_grain());
        self.letter_to(report.silo(), Body::Query { range, after })
    }

    // A report that counts is taken.
    pub(crate) fn count(&mut self, report: &Report) -> Result<(), AllocError>
        requires recovers { has_range is_recovering report.now.range (piece_at self.old report.now.range) ≡ true }
        ensures made { OnOk result (self.new ≡ (recovered_by (recovered (recovery_of self.old report.now.range) report.now) report.now self.old).node) }
        ensures unchanged { OnErr result (self.new ≡ self.old) }
    {
        if take_report(&mut self.recoveries, report)? {
            self.settle_recovered(report.range());
        }
        Ok(())
    }

    // All have reported: the piece has what was gathered.
    pub(crate) fn settle_recovered(&mut self, range: RingRange)
        requires recovers { IsTrue (has_range is_recovering range (piece_at self.old range)) }
        ensures { (recovery : RecoveryValue) → lookup (is_at (nat_cmp range.start)) self.old.recoveries ≡ Some recovery → self.new ≡ with_settled self.old range recovery.gathered }
    {
        if let Some(recovery) = self.recoveries.remove(&range.start()) {
            drop(self.gatherings.remove(&range.start()));
            self.holding.install(range, recovery.into_entries());
        }
    }

    // Whether the report counts: it is the sender's, of the letter's version, and the piece recovers; its entries are the sender's, are
    // hashed into the range, stand behind its grain and one behind the other; and it has one at least, unless it is the last.
    fn is_report_awaited(&self, letter: &Letter, report: &Report) -> bool
        ensures { result ≡ is_report_awaited self.now letter.now report.now }
    {
        report.version() == letter.version()
            && report.silo() == letter.from()
            && self.recovers(letter.version(), report.range())
            && rise_behind(
                self.settings.hashing(),
                report.range(),
                report.after(),
                report.entries(),
            )
            && lie_in(self.settings.hashing(), report.range(), report.entries())
            && are_all_of(letter.from(), report.entries())
            && tells_enough(report)
    }

    // Whether a piece of just that range recovers, at that version.
    pub(crate) fn recovers(&self, version: u64, range: RingRange) -> bool
        ensures { result ≡ recovers self.now version range }
    {
        if version != self.view.version() {
            return false;
        }
        match self.holding.piece_at(range.start()) {
            Some(piece) => piece.range() == range && is_recovering(piece.state()),
            None => false,
        }
    }
}

// Whether the report is the last one, or tells of an activation: one that does neither would be asked for again and again.
fn tells_enough(report: &Report) -> bool
    ensures { result ≡ (report.now.last || nat_lt 0 (length report.now.entries)) }
{
    report.is_last() || !report.entries().is_empty()
}
