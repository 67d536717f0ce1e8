ghost use Rattle.std.specs.Prelude.{◌≡◌};

use crate::Why;
use silo_address::{Entry, GrainId, SiloAddress};

/// What a silo's step did (`docs/RULES.md#effects`).
#[derive(Clone, Copy, PartialEq, Eq)]
pub enum Effect {
    /// See: the version is the next one after the one seen, or the one in which the silo joined.
    Next,
    /// See: versions in between are skipped.
    Skip,
    /// Wake, or a delivered offer: the activation began, and asks to be entered.
    Started(Entry),
    /// Close: the activation asks to be taken out.
    Closing(Entry),
    /// Cancel: the activation is given up, and asks to be taken out.
    Cancelled(Entry),
    /// Offer: the activation asks to be taken out, and was offered to this silo.
    Offered { entry: Entry, to: SiloAddress },
    /// Find: the cache has the grain's entry.
    Cached(Entry),
    /// Find: the grain's owner is asked.
    Finding(GrainId),
    /// Forget: the cache had the grain's entry, and has it no more.
    Forgot(GrainId),
    /// Forget: the cache has no entry of the grain.
    NothingCached(GrainId),
    /// A nudge: what it is to send again was sent.
    Nudged,
    /// A request was answered: the entry is in.
    Registered,
    /// A request was answered: another entry has the grain.
    Taken,
    /// A request was answered: the entry is out.
    Removed,
    /// A request was answered: the entry wasn't there.
    Absent,
    /// A request was answered: the grain's entry.
    Found,
    /// A request was answered: the grain has no entry.
    Nothing,
    /// A request wasn't served, for this reason.
    Retry(Why),
    /// A reply: the asking activation is firm.
    Firm,
    /// A reply: the asking activation went, another one has the grain.
    Yielded,
    /// A reply: the closing activation went.
    Ended,
    /// A reply: the entry found went into the cache.
    Learnt,
    /// A letter that changes nothing but what is outstanding.
    Noted,
    /// A letter that doesn't count.
    Ignored,
    /// An ask was answered by a page.
    Page,
    /// An ask was answered: there is no such page.
    Missing,
    /// An ask, a query or a survey was answered: its version hasn't been seen yet.
    Behind,
    /// A query or a survey was answered: its version has been passed.
    Ahead,
    /// The last page: the piece is settled.
    Installed,
    /// A page, and more are wanted.
    Gathering,
    /// The last page, but the digest isn't that of the entries: the refusal's number.
    Refused(u16),
    /// The previous owner has no snapshot: the piece recovers.
    Recovering,
    /// The snapshot was handed over, and is deleted.
    Deleted,
    /// A query was answered by a report, or a survey by what it asks for.
    Report,
    /// A report, and more are awaited, of its silo or of others.
    More,
    /// The last report: the piece is settled.
    Complete,
}

impl Effect {
    /// The effect itself: it is copied and not cloned.
    pub fn copy(&self) -> Effect
        ensures { result ≡ self.now }
    {
        *self
    }
}
