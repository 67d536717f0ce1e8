//! Dumps read straight from their text, with no tree of JSON values before the lists: the members of each object in any order,
//! each once, with blanks between the tokens or none, and with bytes of texts escaped or not. A refusal from here other than want of
//! memory says only that the text isn't written so: it may tell a dump in which a member stands twice or its name is escaped.

ghost use Rattle.std.specs.Prelude.{◌≡◌, ◌≢◌, ℕ, suc, Option, Some, Err, IfOk, IsErrOf};
ghost use Rattle.json.specs.Lex.{tokens};
ghost use Rattle.serde_json.specs.Data.{Data};
ghost use Rattle.serde_json.specs.Read.{read as read_json};
ghost use Rattle.dump_rules.specs.DumpIn.{dump_in, entry_in, held_in, node_in, piece_in, point_in, row_in};
ghost use Rattle.dump_rules.specs.Values.{list_in, number_in};
ghost use Rattle.dumps.specs.MembersRead.{BeginsObject};
ghost use Rattle.dumps.specs.Straight.{TellItems, Tells};
ghost use Rattle.dumps.specs.declared.error.DumpError.TheVariants.{OutOfMemory};

use crate::member_name::MemberName;
use crate::members::{Member, NoMember, read_members};
use crate::plain_text::PlainText;
use crate::read_text::ReadText;
use crate::{
    Dump, DumpError, ListedEntry, ListedHeld, ListedNode, ListedPiece, ListedPoint, ListedRow,
};
use std::alloc::Global;

/// Reads the dump that the text tells as JSON (`docs/RULES.md#the-dump-and-the-verdict`). Its grains are lent from the text, but for
/// names with escapes, and its lists may still be no dump. An error other than `OutOfMemory`, which comes only when memory runs out,
/// says nothing of the text: it may tell a dump that is written otherwise. No memory is needed where the text doesn't begin with an
/// object.
pub fn read_straight(alloc: Global, text: &str) -> Result<Dump<'_>, DumpError>
    ensures read { IfOk result (λ dump. (value : Data) × (read_json text.now ≡ Some value) × (dump_in value ≡ Some dump)) }
    ensures memory { IsErrOf result OutOfMemory → BeginsObject (tokens text.now) }
{
    let mut reader = PlainText::new(alloc, text);
    let dump = Dump::read_text(alloc, &mut reader)?;
    if !reader.is_over() {
        return Err(DumpError::NotADump);
    }
    Ok(dump)
}

impl<'a> ReadText<'a> for Dump<'a> {
    ghost tells = { λ value dump. dump_in value ≡ Some dump };

    ghost deep = { 7 };

    fn read_text(alloc: Global, reader: &mut PlainText<'a>) -> Result<Dump<'a>, DumpError>
        ensures told { IfOk result (λ dump. Tells dump_in 7 reader.old dump reader.new) }
        ensures memory { IsErrOf result OutOfMemory → BeginsObject reader.old }
    {
        let rows = Member::unread(MemberName::Rows, NoMember);
        let points = Member::unread(MemberName::Points, rows);
        let nodes = Member::unread(MemberName::Nodes, points);
        let hashing = Member::unread(MemberName::Hashing, nodes);
        let mut members = Member::unread(MemberName::Current, hashing);
        read_members(alloc, &mut members, reader)?;
        let (current, others) = members.read()?;
        let (hashing, others) = others.read()?;
        let (nodes, others) = others.read()?;
        let (points, others) = others.read()?;
        let (rows, _) = others.read()?;
        Ok(Dump {
            current,
            hashing,
            nodes,
            points,
            rows,
        })
    }
}

/// What stands in lists, read from the tokens of a text.
pub(crate) trait ReadItem<'a>: Drop {
    ghost reads: { Data → Option Self };

    ghost deep: { ℕ };

    /// What the next value tells.
    fn read_item(alloc: Global, reader: &mut PlainText<'a>) -> Result<Self, DumpError>
        ensures { IfOk result (λ item. Tells reads deep reader.old item reader.new) };
}

impl<'a> ReadItem<'a> for u64 {
    ghost reads = { number_in };

    ghost deep = { 0 };

    fn read_item(_alloc: Global, reader: &mut PlainText<'a>) -> Result<u64, DumpError>
        ensures told { IfOk result (λ number. Tells number_in 0 reader.old number reader.new) }
        ensures needs_no_memory { result ≢ Err OutOfMemory }
    {
        reader.number()
    }
}

impl<'a> ReadItem<'a> for ListedRow {
    ghost reads = { row_in };

    ghost deep = { 2 };

    fn read_item(alloc: Global, reader: &mut PlainText<'a>) -> Result<ListedRow, DumpError> {
        let silo = Member::unread(MemberName::Silo, NoMember);
        let places = Member::unread(MemberName::Places, silo);
        let left = Member::unread(MemberName::Left, places);
        let joined = Member::unread(MemberName::Joined, left);
        let mut members = Member::unread(MemberName::Dead, joined);
        read_members(alloc, &mut members, reader)?;
        let (dead, others) = members.read()?;
        let (joined, others) = others.read()?;
        let (left, others) = others.read()?;
        let (places, others) = others.read()?;
        let (silo, _) = others.read()?;
        Ok(ListedRow {
            dead,
            joined,
            left,
            places,
            silo,
        })
    }
}

impl<'a> ReadItem<'a> for ListedNode<'a> {
    ghost reads = { node_in };

    ghost deep = { 5 };

    fn read_item(alloc: Global, reader: &mut PlainText<'a>) -> Result<ListedNode<'a>, DumpError> {
        let silo = Member::unread(MemberName::Silo, NoMember);
        let seen = Member::unread(MemberName::Seen, silo);
        let ring = Member::unread(MemberName::Ring, seen);
        let pieces = Member::unread(MemberName::Pieces, ring);
        let mut members = Member::unread(MemberName::Held, pieces);
        read_members(alloc, &mut members, reader)?;
        let (held, others) = members.read()?;
        let (pieces, others) = others.read()?;
        let (ring, others) = others.read()?;
        let (seen, others) = others.read()?;
        let (silo, _) = others.read()?;
        Ok(ListedNode {
            held,
            pieces,
            ring,
            seen,
            silo,
        })
    }
}

impl<'a> ReadItem<'a> for ListedPiece<'a> {
    ghost reads = { piece_in };

    ghost deep = { 3 };

    fn read_item(alloc: Global, reader: &mut PlainText<'a>) -> Result<ListedPiece<'a>, DumpError> {
        let state = Member::unread(MemberName::State, NoMember);
        let range = Member::unread(MemberName::Range, state);
        let from = Member::unread(MemberName::From, range);
        let mut members = Member::unread(MemberName::Entries, from);
        read_members(alloc, &mut members, reader)?;
        let (entries, others) = members.read()?;
        let (from, others) = others.read()?;
        let (range, others) = others.read()?;
        let (state, _) = others.read()?;
        Ok(ListedPiece {
            entries,
            from,
            range,
            state,
        })
    }
}

impl<'a> ReadItem<'a> for ListedHeld<'a> {
    ghost reads = { held_in };

    ghost deep = { 1 };

    fn read_item(alloc: Global, reader: &mut PlainText<'a>) -> Result<ListedHeld<'a>, DumpError> {
        let phase = Member::unread(MemberName::Phase, NoMember);
        let grain = Member::unread(MemberName::Grain, phase);
        let mut members = Member::unread(MemberName::Activation, grain);
        read_members(alloc, &mut members, reader)?;
        let (activation, others) = members.read()?;
        let (grain, others) = others.read()?;
        let (phase, _) = others.read()?;
        Ok(ListedHeld {
            activation,
            grain,
            phase,
        })
    }
}

impl<'a> ReadItem<'a> for ListedPoint {
    ghost reads = { point_in };

    ghost deep = { 1 };

    fn read_item(alloc: Global, reader: &mut PlainText<'a>) -> Result<ListedPoint, DumpError> {
        reader.begin_items()?;
        let place = reader.number()?;
        let silo = ReadText::read_text(alloc, reader)?;
        let index = reader.number()?;
        reader.end_items()?;
        Ok(ListedPoint { place, silo, index })
    }
}

impl<'a> ReadItem<'a> for ListedEntry<'a> {
    ghost reads = { entry_in };

    ghost deep = { 1 };

    fn read_item(alloc: Global, reader: &mut PlainText<'a>) -> Result<ListedEntry<'a>, DumpError> {
        reader.begin_items()?;
        let grain = ReadText::read_text(alloc, reader)?;
        let activation = ReadText::read_text(alloc, reader)?;
        reader.end_items()?;
        Ok(ListedEntry { grain, activation })
    }
}

impl<'a, T: ReadItem<'a>> ReadText<'a> for Vec<T> {
    ghost tells = { λ value list. list_in T.reads value ≡ Some list.items };

    ghost deep = { suc T.deep };

    fn read_text(alloc: Global, reader: &mut PlainText<'a>) -> Result<Vec<T>, DumpError> {
        reader.begin_items()?;
        items(alloc, reader)
    }
}

/// The items up to the bracket that closes their list.
fn items<'a, T: ReadItem<'a>>(
    alloc: Global,
    reader: &mut PlainText<'a>,
) -> Result<Vec<T>, DumpError>
    ensures { IfOk result (λ list. TellItems T.reads T.deep reader.old list.items reader.new) }
{
    let mut list = Vec::new(alloc);
    'items: while !reader.take_end_array() {
        let item = T::read_item(alloc, reader)?;
        list.push(item)?;
    }
    Ok(list)
}
