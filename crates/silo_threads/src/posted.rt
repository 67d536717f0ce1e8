//! A change of members is posted, and what it left is looked at under the same lock.
ghost use Rattle.std.specs.Prelude.{◌≡◌, ◌+◌, ◌<◌, IfErr, IfOk, OnErr, OnOk, length};
ghost use mathlib.Core.List.{IsPrefix};
ghost use Rattle.directory_rules.specs.EventModel.{event_of};
ghost use Rattle.cluster_journal.specs.Journal.{world_of};
ghost use Rattle.cluster_journal.specs.Posted.{IsReceiptOf};
ghost use Rattle.silo_threads.specs.Followed.{IsToShow};
ghost use Rattle.silo_threads.specs.Replies.{IsRefusalOf};

use crate::publication::newest_behind;
use crate::run::post_to;
use cluster_board::{Board, Charter, Hand};
use cluster_journal::Receipt;
use directory_core::EventRefusal;
use directory_rules::Event;
use hash_ring::Places;
use membership_view::View;
use silo_workers::{Gate, Site};
use std::alloc::{AllocError, Global};
use std::sync::Wait;

/// An event that was accepted: its receipt, and the view and the places that it left, if their ring is to be published, unless memory
/// ran out when they were copied.
#[derive(Drop)]
pub(crate) struct Posted {
    pub(crate) receipt: Receipt,
    pub(crate) newest: Result<Option<(View, Places)>, AllocError>,
}

/// Posts the event, looks at what it left that is to be published behind the ring of that version, and tells all workers that the board
/// has changed.
pub(crate) fn post_change<L: Charter, G: Gate + Drop, R: Wait>(
    rt: &R,
    alloc: Global,
    site: &Site<L, G>,
    hand: &mut Hand<L>,
    event: &Event,
    published: u64,
) -> Result<Posted, EventRefusal>
    requires { 0 < hand.old.share.parts }
    ensures receipt { IfOk result (λ posted. IsReceiptOf L.settings hand.old.seen hand.new.seen (event_of event.now) posted.receipt) }
    ensures last { IfOk result (λ posted. posted.receipt.number ≡ length hand.new.seen) }
    ensures seen { IsPrefix hand.old.seen hand.new.seen }
    ensures left { IfOk result (λ posted. IsToShow (world_of L.settings hand.new.seen) published posted.newest) }
    ensures refused { IfErr result (IsRefusalOf L.settings hand.old.seen hand.new.seen (event_of event.now)) }
    ensures parts { hand.new.share.parts ≡ hand.old.share.parts }
    ensures counted { OnOk result (hand.new.share.amount ≡ hand.old.share.amount + 1) }
    ensures not_counted { OnErr result (hand.new.share.amount ≡ hand.old.share.amount) }
{
    let mut board = site.board.lock(rt);
    let posted = post_and_look(alloc, &mut board, hand, event, published)?;
    drop(board);
    site.bell.notify_all();
    Ok(posted)
}

// Posts the event to the board, and looks at what it left.
fn post_and_look<L: Charter>(
    alloc: Global,
    board: &mut Board<L>,
    hand: &mut Hand<L>,
    event: &Event,
    published: u64,
) -> Result<Posted, EventRefusal>
    requires { 0 < hand.old.share.parts }
    ensures receipt { IfOk result (λ posted. IsReceiptOf L.settings hand.old.seen hand.new.seen (event_of event.now) posted.receipt) }
    ensures last { IfOk result (λ posted. posted.receipt.number ≡ length hand.new.seen) }
    ensures seen { IsPrefix hand.old.seen hand.new.seen }
    ensures left { IfOk result (λ posted. IsToShow (world_of L.settings hand.new.seen) published posted.newest) }
    ensures refused { IfErr result (IsRefusalOf L.settings hand.old.seen hand.new.seen (event_of event.now)) }
    ensures parts { hand.new.share.parts ≡ hand.old.share.parts }
    ensures counted { OnOk result (hand.new.share.amount ≡ hand.old.share.amount + 1) }
    ensures not_counted { OnErr result (hand.new.share.amount ≡ hand.old.share.amount) }
{
    let receipt = post_to(board, hand, event)?;
    let newest = newest_behind(alloc, board, published);
    Ok(Posted { receipt, newest })
}
