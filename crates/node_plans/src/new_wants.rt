//! What new pieces want, of which nobody has told anything yet (`docs/RULES.md#recovery`).
ghost use Rattle.std.specs.Prelude.{◌≡◌, ◌++◌, IfOk, OnOk, flat_map, map};
ghost use Rattle.directory_rules.specs.Members.{members_of};
ghost use Rattle.directory_rules.specs.Sent.{asks_by, letter_to, query_letters, recovering_by, recovering_ranges, survey_letters};
ghost use Rattle.directory_rules.specs.State.{Survey_letter};
ghost use Rattle.node_plans.specs.Sender.{asks_of, sending};

use crate::Sender;
use crate::copies::copied_ranges;
use crate::members::members;
use directory_letters::{Body, Letter};
use directory_rules::PieceState;
use grain_partition::Piece;
use ring_range::RingRange;
use std::alloc::{AllocError, Global};
use std::collections::BTreeMap;

// Up to so many ranges are asked for one by one.
const MOST_QUERIED: usize = 2;

impl Sender<'_> {
    // The asks of the pieces that await snapshots, piece by piece.
    pub(crate) fn send_asks(
        &self,
        letters: &mut Vec<Letter>,
        pieces: &BTreeMap<u32, Piece>,
    ) -> Result<(), AllocError>
        ensures { OnOk result (letters.new.items ≡ letters.old.items ++ asks_of (sending self.now) pieces.now.entries) }
    {
        for (_, piece) in pieces {
            self.send_asked(letters, piece)?;
        }
        Ok(())
    }

    // The ask of a piece, where it awaits a snapshot.
    fn send_asked(&self, letters: &mut Vec<Letter>, piece: &Piece) -> Result<(), AllocError>
        ensures { OnOk result (letters.new.items ≡ letters.old.items ++ asks_by piece.now.state (sending self.now) piece.now.range) }
    {
        match piece.state() {
            PieceState::Awaiting(from) => self.send_ask(letters, from, piece.range()),
            PieceState::Settled | PieceState::Recovering => Ok(()),
        }
    }

    // Each silo of the view is asked for ranges: for few by a query each, else by one survey of all, by address.
    pub(crate) fn send_surveys(
        &self,
        alloc: Global,
        letters: &mut Vec<Letter>,
        ranges: &[RingRange],
    ) -> Result<(), AllocError>
        ensures { OnOk result (letters.new.items ≡ letters.old.items ++ survey_letters (sending self.now) ranges.now) }
    {
        if ranges.len() <= MOST_QUERIED {
            return self.send_queries_for(alloc, letters, ranges);
        }
        self.send_survey(alloc, letters, ranges)
    }

    // The queries for ranges, one after the other.
    fn send_queries_for(
        &self,
        alloc: Global,
        letters: &mut Vec<Letter>,
        ranges: &[RingRange],
    ) -> Result<(), AllocError>
        ensures { OnOk result (letters.new.items ≡ letters.old.items ++ flat_map (query_letters (sending self.now)) ranges.now) }
    {
        let mut rest = ranges;
        while let Some((range, behind)) = rest.split_first() {
            self.send_queries(alloc, letters, *range)?;
            rest = behind;
        }
        Ok(())
    }

    // A survey of the ranges to each silo of the view, by address.
    fn send_survey(
        &self,
        alloc: Global,
        letters: &mut Vec<Letter>,
        ranges: &[RingRange],
    ) -> Result<(), AllocError>
        ensures { OnOk result (letters.new.items ≡ letters.old.items ++ map (λ silo. letter_to silo (sending self.now) (Survey_letter ranges.now)) (members_of self.now.view.now)) }
    {
        let silos = members(alloc, self.view)?;
        for silo in &silos {
            let survey = Body::Survey(copied_ranges(alloc, ranges)?);
            letters.push(self.letter_to(*silo, survey))?;
        }
        Ok(())
    }
}

/// The ranges of the pieces that recover, piece by piece.
pub(crate) fn recovering_ranges(
    alloc: Global,
    pieces: &BTreeMap<u32, Piece>,
) -> Result<Vec<RingRange>, AllocError>
    ensures { IfOk result (λ ranges. ranges.items ≡ recovering_ranges pieces.now.entries) }
{
    let mut ranges = Vec::new(alloc);
    for (_, piece) in pieces {
        push_recovering(&mut ranges, piece)?;
    }
    Ok(ranges)
}

// The range of a piece, behind others, where the piece recovers.
fn push_recovering(ranges: &mut Vec<RingRange>, piece: &Piece) -> Result<(), AllocError>
    ensures { OnOk result (ranges.new.items ≡ ranges.old.items ++ recovering_by piece.now.state piece.now.range) }
{
    match piece.state() {
        PieceState::Recovering => {
            ranges.push(piece.range())?;
            Ok(())
        }
        PieceState::Settled | PieceState::Awaiting(_) => Ok(()),
    }
}
