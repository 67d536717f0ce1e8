ghost use Rattle.std.specs.Prelude.{◌≡◌, ◌<◌, None, length};
ghost use Rattle.std.specs.Map.{keys_of};
ghost use Rattle.directory_rules.specs.State.{Ask_letter, Offer_letter, Query_letter, Reply_letter};
ghost use Rattle.directory_letters.specs.LetterModel.{body_of};
ghost use Rattle.letter_mail.specs.Kept.{IsNumbered, entry_by, grain_at, letter_by, range_by, request_by, said_by};

use directory_letters::{Body, Letter};
use directory_rules::{Act, Reply, Request, Why};
use grain_names::GrainMap;
use grain_table::HashedRequest;
use ring_range::RingRange;
use silo_address::{ActivationId, Entry, GrainId, SiloAddress};

// What is kept of letters has numbers of 32 bits alone, so that it needs little room; a letter that has a larger one is kept
// whole.

// An entry, its grain by number.
#[derive(Clone, Copy)]
pub(crate) struct Named {
    pub(crate) grain: u32,
    pub(crate) silo: SiloAddress,
    pub(crate) count: u32,
}

// A range that isn't the full circle.
#[derive(Clone, Copy)]
pub(crate) struct Span {
    pub(crate) start: u32,
    pub(crate) size: u32,
}

// What a letter says, its grain by number. A request has the letter's sender and version, and names no previous activation.
#[derive(Clone, Copy)]
pub(crate) enum Says {
    Register {
        number: u32,
        hash: u32,
        entry: Named,
    },
    Deregister {
        number: u32,
        hash: u32,
        entry: Named,
    },
    Find {
        number: u32,
        hash: u32,
        grain: u32,
    },
    Registered {
        number: u32,
        entry: Named,
    },
    Taken {
        number: u32,
        entry: Named,
    },
    Removed {
        number: u32,
    },
    Absent {
        number: u32,
    },
    Found {
        number: u32,
        entry: Named,
    },
    Nothing {
        number: u32,
    },
    View {
        number: u32,
        seen: u32,
    },
    Unsettled {
        number: u32,
    },
    OldNumber {
        number: u32,
        last: u32,
    },
    NotOwner {
        number: u32,
    },
    Ask {
        span: Span,
        page: u32,
    },
    Missing(Span),
    Done(Span),
    // From the start of the range on; one behind a grain is kept whole.
    Query(Span),
    Behind(Span),
    Ahead(Span),
    Offer(Named),
}

// A letter, its grain by number.
#[derive(Clone, Copy)]
pub(crate) struct Brief {
    pub(crate) from: SiloAddress,
    pub(crate) to: SiloAddress,
    pub(crate) version: u32,
    pub(crate) says: Says,
}

// The letter that is kept short.
pub(crate) fn letter_by(grains: &GrainMap<()>, brief: &Brief) -> Letter
    requires numbered { IsNumbered (length (keys_of grains.now)) brief.now.says }
    ensures { result ≡ letter_by (keys_of grains.now) brief.now }
{
    let version = u64::from(brief.version);
    Letter::new(brief.from, brief.to, version, body_by(grains, brief))
}

// What it says. Each arm is one call or has nothing large, since all that arms hold is cleared whichever one is taken.
fn body_by(grains: &GrainMap<()>, brief: &Brief) -> Body
    requires numbered { IsNumbered (length (keys_of grains.now)) brief.now.says }
    ensures { body_of result ≡ said_by (keys_of grains.now) brief.now.from brief.now.version brief.now.says }
{
    match brief.says {
        Says::Register {
            number,
            hash,
            entry,
        } => register(grains, brief, number, hash, entry),
        Says::Deregister {
            number,
            hash,
            entry,
        } => deregister(grains, brief, number, hash, entry),
        Says::Find {
            number,
            hash,
            grain,
        } => find(grains, brief, number, hash, grain),
        Says::Registered { number, entry } => registered(grains, number, entry),
        Says::Taken { number, entry } => taken(grains, number, entry),
        Says::Removed { number } => removed(number),
        Says::Absent { number } => absent(number),
        Says::Found { number, entry } => found(grains, number, entry),
        Says::Nothing { number } => nothing(number),
        Says::View { number, seen } => view(number, seen),
        Says::Unsettled { number } => retry(number, Why::Unsettled),
        Says::OldNumber { number, last } => old_number(number, last),
        Says::NotOwner { number } => retry(number, Why::NotOwner),
        Says::Ask { span, page } => ask(span, page),
        Says::Missing(span) => Body::Missing(range_by(span)),
        Says::Done(span) => Body::Done(range_by(span)),
        Says::Query(span) => query(span),
        Says::Behind(span) => Body::Behind(range_by(span)),
        Says::Ahead(span) => Body::Ahead(range_by(span)),
        Says::Offer(entry) => offer(grains, entry),
    }
}

// A query from the start of the range on.
fn query(span: Span) -> Body
    ensures { body_of result ≡ Query_letter (range_by span) None }
{
    Body::Query {
        range: range_by(span),
        after: None,
    }
}

// A Register of the letter's own sender and version, in nobody's place.
fn register(grains: &GrainMap<()>, brief: &Brief, number: u32, hash: u32, entry: Named) -> Body
    requires numbered { entry.grain < length (keys_of grains.now) }
    ensures { body_of result ≡ request_by brief.now.from brief.now.version number hash (Act.Register (entry_by (keys_of grains.now) entry) None) }
{
    Body::Request(HashedRequest::claimed(Request {
        sender: brief.from,
        version: u64::from(brief.version),
        number: u64::from(number),
        hash,
        act: Act::Register {
            entry: entry_by(grains, entry),
            previous: None,
        },
    }))
}

// A Deregister of the letter's own sender and version.
fn deregister(grains: &GrainMap<()>, brief: &Brief, number: u32, hash: u32, entry: Named) -> Body
    requires numbered { entry.grain < length (keys_of grains.now) }
    ensures { body_of result ≡ request_by brief.now.from brief.now.version number hash (Act.Deregister (entry_by (keys_of grains.now) entry)) }
{
    Body::Request(HashedRequest::claimed(Request {
        sender: brief.from,
        version: u64::from(brief.version),
        number: u64::from(number),
        hash,
        act: Act::Deregister {
            entry: entry_by(grains, entry),
        },
    }))
}

// A Find of the letter's own sender and version.
fn find(grains: &GrainMap<()>, brief: &Brief, number: u32, hash: u32, grain: u32) -> Body
    requires numbered { grain < length (keys_of grains.now) }
    ensures { body_of result ≡ request_by brief.now.from brief.now.version number hash (Act.Find (grain_at (keys_of grains.now) grain)) }
{
    Body::Request(HashedRequest::claimed(Request {
        sender: brief.from,
        version: u64::from(brief.version),
        number: u64::from(number),
        hash,
        act: Act::Find {
            grain: grain_at(grains, grain),
        },
    }))
}

// The reply that an entry was put in.
fn registered(grains: &GrainMap<()>, number: u32, entry: Named) -> Body
    requires numbered { entry.grain < length (keys_of grains.now) }
    ensures { body_of result ≡ Reply_letter number (Reply.Registered (entry_by (keys_of grains.now) entry)) }
{
    Body::Reply {
        number: u64::from(number),
        reply: Reply::Registered(entry_by(grains, entry)),
    }
}

// The reply that another entry has the grain.
fn taken(grains: &GrainMap<()>, number: u32, entry: Named) -> Body
    requires numbered { entry.grain < length (keys_of grains.now) }
    ensures { body_of result ≡ Reply_letter number (Reply.Taken (entry_by (keys_of grains.now) entry)) }
{
    Body::Reply {
        number: u64::from(number),
        reply: Reply::Taken(entry_by(grains, entry)),
    }
}

// The reply that an entry was found.
fn found(grains: &GrainMap<()>, number: u32, entry: Named) -> Body
    requires numbered { entry.grain < length (keys_of grains.now) }
    ensures { body_of result ≡ Reply_letter number (Reply.Found (entry_by (keys_of grains.now) entry)) }
{
    Body::Reply {
        number: u64::from(number),
        reply: Reply::Found(entry_by(grains, entry)),
    }
}

// The reply that an entry was taken out.
fn removed(number: u32) -> Body
    ensures { body_of result ≡ Reply_letter number Reply.Removed }
{
    Body::Reply {
        number: u64::from(number),
        reply: Reply::Removed,
    }
}

// The reply that there was no such entry.
fn absent(number: u32) -> Body
    ensures { body_of result ≡ Reply_letter number Reply.Absent }
{
    Body::Reply {
        number: u64::from(number),
        reply: Reply::Absent,
    }
}

// The reply that the grain has no entry.
fn nothing(number: u32) -> Body
    ensures { body_of result ≡ Reply_letter number Reply.Nothing }
{
    Body::Reply {
        number: u64::from(number),
        reply: Reply::Nothing,
    }
}

// The reply that the asked silo has seen another version.
fn view(number: u32, seen: u32) -> Body
    ensures { body_of result ≡ Reply_letter number (Reply.Retry (Why.View seen)) }
{
    let seen = u64::from(seen);
    retry(number, Why::View { seen })
}

// The reply that the request's number is too old.
fn old_number(number: u32, last: u32) -> Body
    ensures { body_of result ≡ Reply_letter number (Reply.Retry (Why.OldNumber last)) }
{
    let last = u64::from(last);
    retry(number, Why::OldNumber { last })
}

// The reply that a request is to be asked again.
fn retry(number: u32, why: Why) -> Body
    ensures { body_of result ≡ Reply_letter number (Reply.Retry why) }
{
    Body::Reply {
        number: u64::from(number),
        reply: Reply::Retry(why),
    }
}

// An asking for a page.
fn ask(span: Span, page: u32) -> Body
    ensures { body_of result ≡ Ask_letter (range_by span) page }
{
    Body::Ask {
        range: range_by(span),
        page: u64::from(page),
    }
}

// The range of so many hashes.
fn range_by(span: Span) -> RingRange
    ensures { result ≡ range_by span }
{
    match RingRange::new(span.start, u64::from(span.size)) {
        Ok(range) => range,
        Err(_) => unreachable!(),
    }
}

// An offer.
fn offer(grains: &GrainMap<()>, entry: Named) -> Body
    requires numbered { entry.grain < length (keys_of grains.now) }
    ensures { body_of result ≡ Offer_letter (entry_by (keys_of grains.now) entry) }
{
    Body::Offer(entry_by(grains, entry))
}

// The entry whose grain has the number.
fn entry_by(grains: &GrainMap<()>, named: Named) -> Entry
    requires numbered { named.grain < length (keys_of grains.now) }
    ensures { result ≡ entry_by (keys_of grains.now) named }
{
    Entry {
        grain: grain_at(grains, named.grain),
        activation: ActivationId {
            silo: named.silo,
            count: u64::from(named.count),
        },
    }
}

// The grain of that number.
fn grain_at(grains: &GrainMap<()>, number: u32) -> GrainId
    requires numbered { number < length (keys_of grains.now) }
    ensures { result ≡ grain_at (keys_of grains.now) number }
{
    match grains.at(number as usize) {
        Some((grain, _)) => grain,
        None => unreachable!(),
    }
}
