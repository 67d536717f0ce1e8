ghost use Rattle.std.specs.Prelude.{◌≡◌, ◌↔◌, IsTrue, IfOk};
ghost use Rattle.directory_rules.specs.Letter.{act_kind, kind_of, reply_kind};
ghost use Rattle.directory_letters.specs.LetterModel.{body_of};

use directory_rules::{Act, LetterKind, Reply};
use grain_table::HashedRequest;
use range_recovery::{Report, same_grain};
use ring_range::RingRange;
use seal_snapshot::Page;
use silo_address::{Entry, GrainId, SiloAddress};
use std::alloc::AllocError;
use std::marker::Model;

/// What a letter says (`docs/RULES.md#letters`).
#[derive(Drop)]
pub enum Body {
    /// A silo to the owner of a grain's hash.
    Request(HashedRequest),
    /// The owner back, under the request's number.
    Reply {
        number: u64,
        reply: Reply,
    },
    /// The new owner of a range to the previous one: for the page of that number of its snapshot.
    Ask {
        range: RingRange,
        page: u64,
    },
    /// A page of the snapshot.
    Page(Page),
    /// The asked silo has no such snapshot or page.
    Missing(RingRange),
    /// The new owner has the whole snapshot.
    Done(RingRange),
    /// The new owner of a range to any silo, for what that has firm there behind a grain, or from the start of the range on.
    Query {
        range: RingRange,
        after: Option<GrainId>,
    },
    /// The first of what a silo has firm there.
    Report(Report),
    /// The new owner of ranges to any silo, for what that has firm in each of them, from its start on.
    Survey(Vec<RingRange>),
    /// Those of the ranges in which a silo has nothing firm.
    Empty(Vec<RingRange>),
    /// The asked silo has not seen the version yet.
    Behind(RingRange),
    /// The asked silo has passed the version.
    Ahead(RingRange),
    /// A silo to another one: it may have an activation in the place of this one, which closes.
    Offer(Entry),
}

impl Body {
    /// An equal body. Fails only when memory runs out.
    pub fn copy(&self) -> Result<Body, AllocError>
        ensures { IfOk result (λ body. body_of body ≡ body_of self.now) }
    {
        match self {
            Body::Request(request) => Ok(Body::Request(request.copy())),
            Body::Reply { number, reply } => Ok(Body::Reply {
                number: *number,
                reply: *reply,
            }),
            Body::Ask { range, page } => Ok(Body::Ask {
                range: *range,
                page: *page,
            }),
            Body::Page(page) => Ok(Body::Page(page.copy()?)),
            Body::Missing(range) => Ok(Body::Missing(*range)),
            Body::Done(range) => Ok(Body::Done(*range)),
            Body::Query { range, after } => Ok(Body::Query {
                range: *range,
                after: *after,
            }),
            Body::Report(report) => Ok(Body::Report(report.copy()?)),
            Body::Survey(ranges) => Ok(Body::Survey(ranges.clone()?)),
            Body::Empty(ranges) => Ok(Body::Empty(ranges.clone()?)),
            Body::Behind(range) => Ok(Body::Behind(*range)),
            Body::Ahead(range) => Ok(Body::Ahead(*range)),
            Body::Offer(entry) => Ok(Body::Offer(*entry)),
        }
    }

    /// Whether the two say the same.
    pub fn same(&self, other: &Body) -> bool
        ensures { IsTrue result ↔ (body_of self.now ≡ body_of other.now) }
    {
        match (self, other) {
            (Body::Request(request), Body::Request(its)) => request.same(its),
            (
                Body::Reply { number, reply },
                Body::Reply {
                    number: its,
                    reply: other,
                },
            ) => { number == its && reply.same(other) }
            (
                Body::Ask { range, page },
                Body::Ask {
                    range: its,
                    page: other,
                },
            ) => { page == other && range.same(its) }
            (Body::Page(page), Body::Page(its)) => page.same(its),
            (Body::Missing(range), Body::Missing(its)) => range.same(its),
            (Body::Done(range), Body::Done(its)) => range.same(its),
            (
                Body::Query { range, after },
                Body::Query {
                    range: its,
                    after: other,
                },
            ) => { range.same(its) && same_grain(*after, *other) }
            (Body::Report(report), Body::Report(its)) => report.same(its),
            (Body::Survey(ranges), Body::Survey(its)) => same_ranges(ranges, its),
            (Body::Empty(ranges), Body::Empty(its)) => same_ranges(ranges, its),
            (Body::Behind(range), Body::Behind(its)) => range.same(its),
            (Body::Ahead(range), Body::Ahead(its)) => range.same(its),
            (Body::Offer(entry), Body::Offer(its)) => entry.same(its),
            _ => false,
        }
    }
}

/// A letter from one silo to another. A request, a reply and an offer have the version that their sender had seen, the others
/// that of the transfer or recovery.
#[derive(Drop)]
pub struct Letter {
    from: SiloAddress,
    to: SiloAddress,
    version: u64,
    body: Body,
}

impl Model for Letter {
    ghost use Rattle.directory_rules.specs.State.{Letter};

    ghost Value = { Letter };

    ghost use Rattle.directory_letters.specs.LetterModel.{body_of};

    ghost view = { λ l. record { from = l.from; to = l.to; version = l.version; body = body_of l.body } };
}

impl Letter {
    /// A letter of these parts.
    pub fn new(from: SiloAddress, to: SiloAddress, version: u64, body: Body) -> Letter
        ensures { result ≡ record { from = from; to = to; version = version; body = body_of body } }
    {
        Letter {
            from,
            to,
            version,
            body,
        }
    }

    /// Who sent it.
    pub fn from(&self) -> SiloAddress
        ensures { result ≡ self.now.from }
    {
        self.from
    }

    /// Whom it is for.
    pub fn to(&self) -> SiloAddress
        ensures { result ≡ self.now.to }
    {
        self.to
    }

    /// Its version.
    pub fn version(&self) -> u64
        ensures { result ≡ self.now.version }
    {
        self.version
    }

    /// What it says.
    pub fn body(&self) -> &Body
        ensures { body_of result.now ≡ self.now.body }
    {
        &self.body
    }

    /// Its kind, by what it says.
    pub fn kind(&self) -> LetterKind
        ensures { result ≡ kind_of self.now.body }
    {
        match &self.body {
            Body::Request(request) => act_kind(&request.request().act),
            Body::Reply { reply, .. } => reply_kind(reply),
            Body::Ask { .. } => LetterKind::Ask,
            Body::Page(_) => LetterKind::Page,
            Body::Missing(_) => LetterKind::Missing,
            Body::Done(_) => LetterKind::Done,
            Body::Query { .. } => LetterKind::Query,
            Body::Report(_) => LetterKind::Report,
            Body::Survey(_) => LetterKind::Survey,
            Body::Empty(_) => LetterKind::Empty,
            Body::Behind(_) => LetterKind::Behind,
            Body::Ahead(_) => LetterKind::Ahead,
            Body::Offer(_) => LetterKind::Offer,
        }
    }

    /// An equal letter. Fails only when memory runs out.
    pub fn copy(&self) -> Result<Letter, AllocError>
        ensures { IfOk result (λ letter. letter ≡ self.now) }
    {
        let body = self.body.copy()?;
        Ok(Letter {
            from: self.from,
            to: self.to,
            version: self.version,
            body,
        })
    }

    /// Whether the two are one letter.
    pub fn same(&self, other: &Letter) -> bool
        ensures { IsTrue result ↔ (self.now ≡ other.now) }
    {
        self.from.same(&other.from)
            && self.to.same(&other.to)
            && self.version == other.version
            && self.body.same(&other.body)
    }
}

// Whether both are the same ranges, in the same order.
fn same_ranges(one: &[RingRange], other: &[RingRange]) -> bool
    ensures { IsTrue result ↔ (one.now ≡ other.now) }
{
    *one == *other
}

// The kind of a request's letter.
fn act_kind(act: &Act) -> LetterKind
    ensures { result ≡ act_kind act.now }
{
    match act {
        Act::Register { .. } => LetterKind::Register,
        Act::Deregister { .. } => LetterKind::Deregister,
        Act::Find { .. } => LetterKind::Find,
    }
}

// The kind of a reply's letter.
fn reply_kind(reply: &Reply) -> LetterKind
    ensures { result ≡ reply_kind reply.now }
{
    match reply {
        Reply::Registered(_) => LetterKind::Registered,
        Reply::Taken(_) => LetterKind::Taken,
        Reply::Removed => LetterKind::Removed,
        Reply::Absent => LetterKind::Absent,
        Reply::Found(_) => LetterKind::Found,
        Reply::Nothing => LetterKind::Nothing,
        Reply::Retry(_) => LetterKind::Retry,
    }
}
