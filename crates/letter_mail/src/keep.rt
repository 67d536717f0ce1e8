ghost use Rattle.std.specs.Prelude.{◌≡◌, ◌<◌, ◌≤◌, ◌^◌, ℕ, List, Some, IfOk, IfSome, MatchOption, length};
ghost use Rattle.std.specs.Map.{keys_of};
ghost use Rattle.directory_letters.specs.LetterModel.{body_of};
ghost use Rattle.letter_mail.specs.KeptLetters.{Grows};
ghost use Rattle.letter_mail.specs.Kept.{IsNumbered, entry_by, grain_at, letter_by, range_by, said_by};
ghost use Rattle.letter_mail.specs.Slots.{IsSlot, posted_in};
ghost use Rattle.directory_rules.specs.State.{Reply_letter, Request_letter};
ghost use Rattle.directory_rules.specs.Mail.{fresh_letter};
ghost use Rattle.silo_address.specs.Grain.{Grain};
ghost use Rattle.silo_address.specs.Silo.{Silo};

use crate::kept::{Brief, Named, Says, Span};
use crate::slots::Slot;
use directory_letters::{Body, Letter};
use directory_rules::{Act, Reply, Request, Why};
use grain_names::GrainMap;
use ring_range::RingRange;
use silo_address::{Entry, GrainId, SiloAddress};
use std::alloc::{AllocError, Global};

// A letter as it is kept, fresh; its grain gets a number where it has none yet.
pub(crate) fn kept(
    alloc: Global,
    grains: &mut GrainMap<()>,
    letter: Letter,
) -> Result<Slot, AllocError>
    ensures grown { Grows (keys_of grains.old) (keys_of grains.new) }
    ensures numbered { IfOk result (λ slot. IsSlot (length (keys_of grains.new)) slot) }
    ensures exact { IfOk result (λ slot. posted_in (keys_of grains.new) slot ≡ Some (fresh_letter letter)) }
{
    let fresh = true;
    match brief(grains, &letter)? {
        Some(brief) => Ok(Slot::Short { fresh, brief }),
        None => {
            let letter = Box::new(alloc, letter)?;
            Ok(Slot::Whole { fresh, letter })
        }
    }
}

// The letter kept short, where it can be.
fn brief(grains: &mut GrainMap<()>, letter: &Letter) -> Result<Option<Brief>, AllocError>
    ensures grown { Grows (keys_of grains.old) (keys_of grains.new) }
    ensures numbered { IfOk result (λ brief. IfSome brief (λ brief. IsNumbered (length (keys_of grains.new)) brief.says)) }
    ensures exact { IfOk result (λ brief. IfSome brief (λ brief. letter_by (keys_of grains.new) brief ≡ letter.now)) }
{
    let from = letter.from();
    let to = letter.to();
    let Some(version) = small(letter.version()) else {
        return Ok(None);
    };
    match says(grains, &from, letter.version(), letter.body())? {
        Some(says) => Ok(Some(Brief {
            from,
            to,
            version,
            says,
        })),
        None => Ok(None),
    }
}

// What a letter of this sender and version says, kept short.
fn says(
    grains: &mut GrainMap<()>,
    from: &SiloAddress,
    version: u64,
    body: &Body,
) -> Result<Option<Says>, AllocError>
    ensures grown { Grows (keys_of grains.old) (keys_of grains.new) }
    ensures numbered { IfOk result (λ says. IfSome says (λ says. IsNumbered (length (keys_of grains.new)) says)) }
    ensures exact { IfOk result (λ says. IfSome says (λ says. said_by (keys_of grains.new) from.now version says ≡ body_of body.now)) }
{
    match body {
        Body::Request(request) => {
            let request = request.request();
            if !request.sender.same(from) || request.version != version {
                return Ok(None);
            }
            asks(grains, request)
        }
        Body::Reply { number, reply } => match small(*number) {
            Some(number) => replies(grains, number, reply),
            None => Ok(None),
        },
        Body::Offer(entry) => match named(grains, entry)? {
            Some(entry) => Ok(Some(Says::Offer(entry))),
            None => Ok(None),
        },
        _ => Ok(tells(body)),
    }
}

// What a letter about a range says, kept short.
fn tells(body: &Body) -> Option<Says>
    ensures numbered { IfSome result (λ says. (count : ℕ) → IsNumbered count says) }
    ensures exact { IfSome result (λ says. (grains : List Grain) (from : Silo) (version : ℕ) → said_by grains from version says ≡ body_of body.now) }
{
    match body {
        Body::Ask { range, page } => {
            let span = span(range)?;
            let page = small(*page)?;
            Some(Says::Ask { span, page })
        }
        Body::Missing(range) => Some(Says::Missing(span(range)?)),
        Body::Done(range) => Some(Says::Done(span(range)?)),
        Body::Query { range, after: None } => Some(Says::Query(span(range)?)),
        Body::Behind(range) => Some(Says::Behind(span(range)?)),
        Body::Ahead(range) => Some(Says::Ahead(span(range)?)),
        _ => None,
    }
}

// What a letter says that has its sender's request of its version, kept short. A Register in the place of a previous activation
// isn't.
fn asks(grains: &mut GrainMap<()>, request: &Request) -> Result<Option<Says>, AllocError>
    ensures grown { Grows (keys_of grains.old) (keys_of grains.new) }
    ensures numbered { IfOk result (λ says. IfSome says (λ says. IsNumbered (length (keys_of grains.new)) says)) }
    ensures exact { IfOk result (λ says. IfSome says (λ says. said_by (keys_of grains.new) request.now.sender request.now.version says ≡ Request_letter request.now)) }
{
    let hash = request.hash;
    let Some(number) = small(request.number) else {
        return Ok(None);
    };
    match &request.act {
        Act::Register {
            previous: Some(_),
            ..
        } => Ok(None),
        Act::Register {
            entry,
            previous: None,
        } => match named(grains, entry)? {
            Some(entry) => Ok(Some(Says::Register {
                number,
                hash,
                entry,
            })),
            None => Ok(None),
        },
        Act::Deregister { entry } => match named(grains, entry)? {
            Some(entry) => Ok(Some(Says::Deregister {
                number,
                hash,
                entry,
            })),
            None => Ok(None),
        },
        Act::Find { grain } => match number_of(grains, grain)? {
            Some(grain) => Ok(Some(Says::Find {
                number,
                hash,
                grain,
            })),
            None => Ok(None),
        },
    }
}

// What a reply's letter says, kept short.
fn replies(
    grains: &mut GrainMap<()>,
    number: u32,
    reply: &Reply,
) -> Result<Option<Says>, AllocError>
    ensures grown { Grows (keys_of grains.old) (keys_of grains.new) }
    ensures numbered { IfOk result (λ says. IfSome says (λ says. IsNumbered (length (keys_of grains.new)) says)) }
    ensures exact { IfOk result (λ says. IfSome says (λ says. (from : Silo) (version : ℕ) → said_by (keys_of grains.new) from version says ≡ Reply_letter number reply.now)) }
{
    match reply {
        Reply::Registered(entry) => match named(grains, entry)? {
            Some(entry) => Ok(Some(Says::Registered { number, entry })),
            None => Ok(None),
        },
        Reply::Taken(entry) => match named(grains, entry)? {
            Some(entry) => Ok(Some(Says::Taken { number, entry })),
            None => Ok(None),
        },
        Reply::Removed => Ok(Some(Says::Removed { number })),
        Reply::Absent => Ok(Some(Says::Absent { number })),
        Reply::Found(entry) => match named(grains, entry)? {
            Some(entry) => Ok(Some(Says::Found { number, entry })),
            None => Ok(None),
        },
        Reply::Nothing => Ok(Some(Says::Nothing { number })),
        Reply::Retry(why) => Ok(retries(number, why)),
    }
}

// What a reply's letter says by which a request has to be made again, kept short.
fn retries(number: u32, why: &Why) -> Option<Says>
    ensures numbered { IfSome result (λ says. (count : ℕ) → IsNumbered count says) }
    ensures exact { IfSome result (λ says. (grains : List Grain) (from : Silo) (version : ℕ) → said_by grains from version says ≡ Reply_letter number (Reply.Retry why.now)) }
{
    match why {
        Why::View { seen } => {
            let seen = small(*seen)?;
            Some(Says::View { number, seen })
        }
        Why::Unsettled => Some(Says::Unsettled { number }),
        Why::OldNumber { last } => {
            let last = small(*last)?;
            Some(Says::OldNumber { number, last })
        }
        Why::NotOwner => Some(Says::NotOwner { number }),
    }
}

// The entry, its grain by number.
fn named(grains: &mut GrainMap<()>, entry: &Entry) -> Result<Option<Named>, AllocError>
    ensures grown { Grows (keys_of grains.old) (keys_of grains.new) }
    ensures numbered { IfOk result (λ named. IfSome named (λ named. named.grain < length (keys_of grains.new))) }
    ensures exact { IfOk result (λ named. IfSome named (λ named. entry_by (keys_of grains.new) named ≡ entry.now)) }
{
    let silo = entry.activation.silo;
    let Some(count) = small(entry.activation.count) else {
        return Ok(None);
    };
    match number_of(grains, &entry.grain)? {
        Some(grain) => Ok(Some(Named { grain, silo, count })),
        None => Ok(None),
    }
}

// The number of a grain, which gets the next one where it has none.
fn number_of(grains: &mut GrainMap<()>, grain: &GrainId) -> Result<Option<u32>, AllocError>
    ensures grown { Grows (keys_of grains.old) (keys_of grains.new) }
    ensures numbered { IfOk result (λ number. IfSome number (λ number. number < length (keys_of grains.new))) }
    ensures exact { IfOk result (λ number. IfSome number (λ number. grain_at (keys_of grains.new) number ≡ grain.now)) }
{
    if let Some((number, _)) = grains.find(grain) {
        return Ok(small(number as u64));
    }
    let number = grains.len();
    grains.put(grain, ())?;
    Ok(small(number as u64))
}

// The range, where it isn't the full circle.
fn span(range: &RingRange) -> Option<Span>
    ensures { IfSome result (λ span. range_by span ≡ range.now) }
{
    let start = range.start();
    let size = small(range.size())?;
    Some(Span { start, size })
}

// The number, where it has 32 bits at most.
fn small(number: u64) -> Option<u32>
    ensures { MatchOption result (2 ^ 32 ≤ number) (λ small. small ≡ number) }
{
    u32::try_from(number).ok()
}
