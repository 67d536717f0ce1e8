//! The letters of transfers: how the previous owner hands its snapshot out page by page, and what the new owner makes of each.
ghost use Rattle.std.specs.Prelude.{◌≡◌, ◌++◌, IfOk, OnErr, Ok, length, true};
ghost use Rattle.directory_rules.specs.Gatherings.{gathered};
ghost use Rattle.directory_rules.specs.Sent.{gathering_of};
ghost use Rattle.directory_rules.specs.Table.{rise_by_grain};
ghost use Rattle.directory_rules.specs.Transfer.{answering, asked, awaits, done, gathered_by, is_awaiting_from, is_page_awaited, missing, paged};
ghost use Rattle.node_plans.specs.Plans.{Fits, answer_count, step_by};
ghost use Rattle.directory_rules.specs.State.{Missing_letter, Page_letter};
ghost use Rattle.directory_rules.specs.declared.Effect.TheVariants.{Page as PageEffect};
ghost use Rattle.seal_snapshot.specs.Progress.{progress_of};
ghost use Rattle.seal_snapshot.specs.Shelf.{IsDigestFor};
ghost use Rattle.seal_snapshot.specs.declared.progress.GatheringProgress.TheVariants.{Complete, More};
ghost use Rattle.grain_partition.specs.Holdings.{HasPiece};

use crate::{Change, Node, Plan};
use directory_letters::{Body, Letter};
use directory_rules::{Effect, PieceState};
use grain_table::ShortEntry;
use node_plans::{go_on, lie_in, table_of};
use range_recovery::Recovery;
use ring_range::RingRange;
use seal_snapshot::{Gathering, GatheringError, GatheringProgress, Page, ShelfAnswer};
use silo_address::SiloAddress;
use std::alloc::{AllocError, Global};

// The previous owner.
impl Node {
    // An ask comes. Nothing changes by it that any answer tells.
    pub(crate) fn plan_ask(
        &self,
        alloc: Global,
        letter: &Letter,
        range: RingRange,
        page: u64,
    ) -> Result<Plan, AllocError>
        ensures planned { IfOk result (λ plan. step_by self.now plan ≡ asked self.now letter.now range page) }
        ensures fits { IfOk result (λ plan. Fits plan.change self.now) }
        ensures one { length (asked self.now letter.now range page).letters ≡ 1 }
    {
        let asker = letter.from();
        let (seen, version) = (self.view.version(), letter.version());
        match self
            .shelf
            .answer(alloc, seen, version, &range, &asker, page)?
        {
            ShelfAnswer::Page(page) => self.plan_handed(alloc, letter, range, page),
            ShelfAnswer::Missing => {
                self.answer(alloc, letter, Body::Missing(range), Effect::Missing)
            }
            ShelfAnswer::Behind => self.answer(alloc, letter, Body::Behind(range), Effect::Behind),
        }
    }

    // The page is handed out. The digest of its snapshot is kept, if it isn't yet: it was computed for the page.
    fn plan_handed(
        &self,
        alloc: Global,
        letter: &Letter,
        range: RingRange,
        page: Page,
    ) -> Result<Plan, AllocError>
        requires digest { IsDigestFor letter.now.version range letter.now.from self.now.shelf page.digest }
        ensures planned { IfOk result (λ plan. step_by self.now plan ≡ answering letter.now self.now (Page_letter page) PageEffect) }
        ensures fits { IfOk result (λ plan. Fits plan.change self.now) }
    {
        let (version, to) = (letter.version(), letter.from());
        let digest = page.digest();
        if self.shelf.keeps_digest(version, &range, &to) {
            return self.answer(alloc, letter, Body::Page(page), Effect::Page);
        }
        let handed = self.answer_letter(letter, Body::Page(page));
        let digests = Change::Digests {
            version,
            range,
            to,
            digest,
        };
        Plan::of_one(alloc, handed, Effect::Page, digests)
    }

    // The new owner has its snapshot. That is answered by no letter.
    pub(crate) fn plan_done(&self, alloc: Global, letter: &Letter, range: RingRange) -> Plan
        ensures planned { step_by self.now result ≡ done self.now letter.now range }
        ensures fits { Fits result.change self.now }
    {
        let (version, to) = (letter.version(), letter.from());
        if !self.shelf.has(version, &range, &to) {
            return Plan::idle(alloc, Effect::Ignored);
        }
        Plan::silent(
            alloc,
            Effect::Deleted,
            Change::Discards { version, range, to },
        )
    }
}

// The new owner.
impl Node {
    // A page comes.
    pub(crate) fn plan_page(
        &self,
        alloc: Global,
        letter: &Letter,
        page: &Page,
    ) -> Result<Plan, AllocError>
        ensures planned { IfOk result (λ plan. step_by self.now plan ≡ paged self.now letter.now page.now) }
        ensures fits { IfOk result (λ plan. Fits plan.change self.now) }
        ensures one { OnErr result (length (paged self.now letter.now page.now).letters ≡ 1) }
    {
        match self.gatherings.get(&page.range().start()) {
            Some(gathering) => self.plan_next_page(alloc, letter, page, gathering),
            None => {
                let bare = Gathering::new(alloc, self.view.version(), page.range());
                self.plan_next_page(alloc, letter, page, &bare)
            }
        }
    }

    // A page comes, and this was gathered before it.
    fn plan_next_page(
        &self,
        alloc: Global,
        letter: &Letter,
        page: &Page,
        gathering: &Gathering,
    ) -> Result<Plan, AllocError>
        requires its { gathering.now ≡ gathering_of self.now page.now.range }
        requires rises { rise_by_grain gathering.now.entries ≡ true }
        ensures planned { IfOk result (λ plan. step_by self.now plan ≡ paged self.now letter.now page.now) }
        ensures fits { IfOk result (λ plan. Fits plan.change self.now) }
        ensures one { OnErr result (length (paged self.now letter.now page.now).letters ≡ 1) }
    {
        if !self.is_page_awaited(letter, page, gathering.entries()) {
            return Ok(Plan::idle(alloc, Effect::Ignored));
        }
        match gathering.progress_with(page) {
            Ok(GatheringProgress::More) => self.plan_more(alloc, letter, page),
            Ok(GatheringProgress::Complete) => self.plan_install(alloc, letter, page, gathering),
            Err(GatheringError::WrongDigest) => {
                let anew = Change::GathersAnew(page.range());
                Ok(Plan::silent(alloc, Effect::Refused(701), anew))
            }
            Err(_) => Ok(Plan::idle(alloc, Effect::Ignored)),
        }
    }

    // A page comes, and more are wanted: the next one is asked for.
    fn plan_more(&self, alloc: Global, letter: &Letter, page: &Page) -> Result<Plan, AllocError>
        requires more { progress_of (gathered (gathering_of self.now page.now.range) page.now) ≡ Ok More }
        requires rises { rise_by_grain ((gathering_of self.now page.now.range).entries ++ page.now.entries) ≡ true }
        ensures planned { IfOk result (λ plan. step_by self.now plan ≡ gathered_by (gathered (gathering_of self.now page.now.range) page.now) letter.now page.now.range self.now) }
        ensures fits { IfOk result (λ plan. Fits plan.change self.now) }
        ensures one { length (gathered_by (gathered (gathering_of self.now page.now.range) page.now) letter.now page.now.range self.now).letters ≡ 1 }
    {
        // The next page's number is below this one, so that it is a number.
        let _pages = page.pages();
        let next = Body::Ask {
            range: page.range(),
            page: page.page() + 1,
        };
        let change = Change::Gathers(page.copy()?);
        let ask = self.letter_to(letter.from(), next);
        Plan::of_one(alloc, ask, Effect::Gathering, change)
    }

    // The last page comes: the piece has its entries.
    fn plan_install(
        &self,
        alloc: Global,
        letter: &Letter,
        page: &Page,
        gathering: &Gathering,
    ) -> Result<Plan, AllocError>
        requires its { gathering.now ≡ gathering_of self.now page.now.range }
        requires complete { progress_of (gathered gathering.now page.now) ≡ Ok Complete }
        requires rises { rise_by_grain (gathering.now.entries ++ page.now.entries) ≡ true }
        requires there { HasPiece page.now.range self.now.holding.pieces }
        ensures planned { IfOk result (λ plan. step_by self.now plan ≡ gathered_by (gathered gathering.now page.now) letter.now page.now.range self.now) }
        ensures fits { IfOk result (λ plan. Fits plan.change self.now) }
        ensures one { length (gathered_by (gathered gathering.now page.now) letter.now page.now.range self.now).letters ≡ 1 }
    {
        let range = page.range();
        let entries = table_of(alloc, &self.settings, gathering.entries(), page.entries())?;
        let done = self.answer_letter(letter, Body::Done(range));
        Plan::of_one(
            alloc,
            done,
            Effect::Installed,
            Change::Installs { range, entries },
        )
    }

    // Whether the page counts: it is of the letter's version, it is awaited from the sender, its entries are hashed into the range
    // and go on in the order of the grains.
    fn is_page_awaited(&self, letter: &Letter, page: &Page, gathered: &[ShortEntry]) -> bool
        requires its { gathered.now ≡ (gathering_of self.now page.now.range).entries }
        requires rises { rise_by_grain gathered.now ≡ true }
        ensures { result ≡ is_page_awaited self.now letter.now page.now }
    {
        page.version() == letter.version()
            && self.awaits(letter.version(), page.range(), letter.from())
            && go_on(gathered, page.entries())
            && lie_in(self.settings.hashing(), page.range(), page.entries())
    }

    // Whether the node has seen the version, and there awaits the snapshot of a piece of just that range from the silo.
    fn awaits(&self, version: u64, range: RingRange, from: SiloAddress) -> bool
        ensures { result ≡ awaits self.now version range from }
    {
        if version != self.view.version() {
            return false;
        }
        match self.holding.piece_at(range.start()) {
            Some(piece) => piece.range() == range && is_awaiting_from(from, piece.state()),
            None => false,
        }
    }

    // There is no snapshot: the piece recovers, and all silos are asked.
    pub(crate) fn plan_missing(
        &self,
        alloc: Global,
        letter: &Letter,
        range: RingRange,
    ) -> Result<Plan, AllocError>
        ensures planned { IfOk result (λ plan. step_by self.now plan ≡ missing self.now letter.now range) }
        ensures fits { IfOk result (λ plan. Fits plan.change self.now) }
        ensures members { OnErr result (length (missing self.now letter.now range).letters ≡ answer_count self.now letter.now (Missing_letter range)) }
    {
        if !self.awaits(letter.version(), range, letter.from()) {
            return Ok(Plan::idle(alloc, Effect::Ignored));
        }
        let recovery = Recovery::new(alloc, &self.settings, &self.view, range)?;
        match self.sender().queries(alloc, &recovery) {
            Ok(letters) => Ok(Plan {
                letters,
                effect: Effect::Recovering,
                change: Change::Recovers(recovery),
            }),
            Err(error) => {
                drop(recovery);
                Err(error)
            }
        }
    }
}

// Whether the state awaits the silo's snapshot.
fn is_awaiting_from(silo: SiloAddress, state: PieceState) -> bool
    ensures { result ≡ is_awaiting_from silo state }
{
    match state {
        PieceState::Awaiting(from) => from == silo,
        PieceState::Settled | PieceState::Recovering => false,
    }
}
