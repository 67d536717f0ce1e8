//! Several ranges at once: what a silo answers to a survey of ranges that recover, and what their owner makes of those that are empty.
ghost use Rattle.std.specs.List.{list_any};
ghost use Rattle.std.specs.Prelude.{◌≡◌, ◌++◌, IfOk, None, OnOk, filter, fold, is_some, length, map, not};
ghost use Rattle.directory_rules.specs.State.{Report_letter};
ghost use Rattle.directory_rules.specs.Transfer.{answer_to, empty_effect, empty_letters, emptied, has_nothing, is_taken, is_whole, nothing_makes, report_of, surveyed, tellings, told_nothing};
ghost use Rattle.node_plans.specs.Plans.{Fits, empty_from, step_by};
ghost use Rattle.directory_node.specs.Emptied.{is_complete};

use crate::{Change, Node, Plan};
use directory_letters::{Body, Letter};
use directory_rules::Effect;
use node_plans::{copied_ranges, list_of, take_nothing};
use range_recovery::{RecoveryProgress, Report};
use ring_range::RingRange;
use silo_address::SiloAddress;
use std::alloc::{AllocError, Global};

// A silo that is asked.
impl Node {
    // A survey comes. Nothing changes in it.
    pub(crate) fn plan_survey(
        &self,
        alloc: Global,
        letter: &Letter,
        ranges: &[RingRange],
    ) -> Result<Plan, AllocError>
        ensures planned { IfOk result (λ plan. step_by self.now plan ≡ surveyed self.now letter.now ranges.now) }
        ensures fits { IfOk result (λ plan. Fits plan.change self.now) }
    {
        let Some(first) = ranges.first() else {
            return Ok(Plan::idle(alloc, Effect::Ignored));
        };
        if self.view.version() < letter.version() {
            return self.answer(alloc, letter, Body::Behind(*first), Effect::Behind);
        }
        if letter.version() < self.view.version() {
            return self.answer(alloc, letter, Body::Ahead(*first), Effect::Ahead);
        }
        let letters = self.tellings(alloc, letter, ranges)?;
        Ok(Plan {
            letters,
            effect: Effect::Report,
            change: Change::Nothing,
        })
    }

    // How many letters a survey makes the node send.
    pub(crate) fn survey_answers(&self, letter: &Letter, ranges: &[RingRange]) -> usize
        ensures { result ≡ length (surveyed self.now letter.now ranges.now).letters }
    {
        if ranges.is_empty() {
            return 0;
        }
        if letter.version() != self.view.version() {
            return 1;
        }
        self.telling_count(letter, ranges)
    }

    // One letter of all ranges in which nothing is firm here, if there are any, and a report on each other one.
    fn tellings(
        &self,
        alloc: Global,
        letter: &Letter,
        ranges: &[RingRange],
    ) -> Result<Vec<Letter>, AllocError>
        ensures { IfOk result (λ letters. letters.items ≡ tellings letter.now self.now ranges.now) }
    {
        let others = self.other_ranges(alloc, ranges)?;
        let empty = self.empty_ranges(alloc, ranges)?;
        let mut letters = self.empty_letters(alloc, letter, empty)?;
        self.send_reports(alloc, &mut letters, letter, &others)?;
        Ok(letters)
    }

    // How many letters that makes.
    fn telling_count(&self, letter: &Letter, ranges: &[RingRange]) -> usize
        ensures { result ≡ length (tellings letter.now self.now ranges.now) }
    {
        let reports = self.report_count(ranges);
        if reports < ranges.len() {
            reports + 1
        } else {
            reports
        }
    }

    // In how many of the ranges something is firm here.
    fn report_count(&self, ranges: &[RingRange]) -> usize
        ensures { result ≡ length (filter (λ range. not (has_nothing self.now range)) ranges.now) }
    {
        ranges
            .iter()
            .filter(|range| !self.has_nothing(**range))
            .count()
    }

    // The ranges in which nothing is firm here.
    fn empty_ranges(
        &self,
        alloc: Global,
        ranges: &[RingRange],
    ) -> Result<Vec<RingRange>, AllocError>
        ensures { IfOk result (λ empty. empty.items ≡ filter (has_nothing self.now) ranges.now) }
    {
        ranges
            .iter()
            .filter(|range| self.has_nothing(**range))
            .copied()
            .collect(alloc)
    }

    // The ranges in which something is.
    fn other_ranges(
        &self,
        alloc: Global,
        ranges: &[RingRange],
    ) -> Result<Vec<RingRange>, AllocError>
        ensures { IfOk result (λ others. others.items ≡ filter (λ range. not (has_nothing self.now range)) ranges.now) }
    {
        ranges
            .iter()
            .filter(|range| !self.has_nothing(**range))
            .copied()
            .collect(alloc)
    }

    // Whether nothing is firm here in the range.
    fn has_nothing(&self, range: RingRange) -> bool
        ensures { result ≡ has_nothing self.now range }
    {
        self.host.has_none_firm(self.settings.hashing(), range)
    }

    // One letter of all ranges in which it has nothing, if there are any.
    fn empty_letters(
        &self,
        alloc: Global,
        letter: &Letter,
        ranges: Vec<RingRange>,
    ) -> Result<Vec<Letter>, AllocError>
        ensures { IfOk result (λ letters. letters.items ≡ empty_letters letter.now self.now ranges.items) }
    {
        if ranges.is_empty() {
            return Ok(Vec::new(alloc));
        }
        list_of(alloc, self.answer_letter(letter, Body::Empty(ranges)))
    }

    // A report on each of the ranges, from its start on.
    fn send_reports(
        &self,
        alloc: Global,
        letters: &mut Vec<Letter>,
        letter: &Letter,
        ranges: &[RingRange],
    ) -> Result<(), AllocError>
        ensures { OnOk result (letters.new.items ≡ letters.old.items ++ map (λ range. answer_to letter.now self.now (Report_letter (report_of self.now range None))) ranges.now) }
    {
        for range in ranges {
            let report = self.report_of(alloc, *range, None)?;
            letters.push(self.answer_letter(letter, Body::Report(report)))?;
        }
        Ok(())
    }
}

// The silo that asked.
impl Node {
    // Some ranges are empty: of each that recovers here it is as if its sender had reported so.
    pub(crate) fn plan_empty(
        &self,
        alloc: Global,
        letter: &Letter,
        ranges: &[RingRange],
    ) -> Result<Plan, AllocError>
        ensures planned { IfOk result (λ plan. step_by self.now plan ≡ emptied self.now letter.now ranges.now) }
        ensures fits { IfOk result (λ plan. Fits plan.change self.now) }
    {
        let effect = self.empty_effect(letter, ranges);
        let change = Change::Empties {
            from: letter.from(),
            version: letter.version(),
            ranges: copied_ranges(alloc, ranges)?,
        };
        Ok(Plan::silent(alloc, effect, change))
    }

    // What comes of that: a range settles by it, or one counts it.
    fn empty_effect(&self, letter: &Letter, ranges: &[RingRange]) -> Effect
        ensures { result ≡ empty_effect letter.now self.now ranges.now }
    {
        if self.settles_any(letter, ranges) {
            return Effect::Complete;
        }
        if self.counts_any(letter, ranges) {
            return Effect::More;
        }
        Effect::Ignored
    }

    // Whether one of the ranges settles by it.
    fn settles_any(&self, letter: &Letter, ranges: &[RingRange]) -> bool
        ensures { result ≡ list_any (nothing_makes is_whole letter.now self.now) ranges.now }
    {
        ranges.iter().any(|range| self.settles(letter, *range))
    }

    // Whether it counts for one of the ranges.
    fn counts_any(&self, letter: &Letter, ranges: &[RingRange]) -> bool
        ensures { result ≡ list_any (nothing_makes is_taken letter.now self.now) ranges.now }
    {
        ranges.iter().any(|range| self.counts(letter, *range))
    }

    // Whether the range settles by it.
    fn settles(&self, letter: &Letter, range: RingRange) -> bool
        ensures { result ≡ nothing_makes is_whole letter.now self.now range }
    {
        match self.progress_with_nothing(letter, range) {
            Some(RecoveryProgress::Complete) => true,
            Some(RecoveryProgress::More | RecoveryProgress::Continues) => false,
            None => false,
        }
    }

    // Whether it counts for the range.
    fn counts(&self, letter: &Letter, range: RingRange) -> bool
        ensures { result ≡ nothing_makes is_taken letter.now self.now range }
    {
        self.progress_with_nothing(letter, range).is_some()
    }

    // How far the recovery of the range would be with the report that the letter's sender has nothing there; `None` where that wouldn't
    // count.
    fn progress_with_nothing(&self, letter: &Letter, range: RingRange) -> Option<RecoveryProgress>
        ensures whole { is_complete result ≡ nothing_makes is_whole letter.now self.now range }
        ensures taken { is_some result ≡ nothing_makes is_taken letter.now self.now range }
    {
        if !self.recovers(letter.version(), range) {
            return None;
        }
        let report = Report::of_nothing(self.alloc, letter.version(), range, letter.from());
        match self.progress_with(&report) {
            Ok(progress) => Some(progress),
            Err(_) => None,
        }
    }

    // A silo that has seen the version has nothing in these ranges: one after the other. It takes no memory.
    pub(crate) fn count_empty(&mut self, from: SiloAddress, version: u64, ranges: &[RingRange])
        ensures { self.new ≡ fold (told_nothing (empty_from from version)) self.old ranges.now }
    {
        for range in ranges {
            self.count_nothing(from, version, *range);
        }
    }

    // A silo that has seen the version has nothing in the range, if that recovers here.
    fn count_nothing(&mut self, from: SiloAddress, version: u64, range: RingRange)
        ensures { self.new ≡ told_nothing (empty_from from version) self.old range }
    {
        if !self.recovers(version, range) {
            return;
        }
        if take_nothing(&mut self.recoveries, version, range, from) {
            self.settle_recovered(range);
        }
    }
}
