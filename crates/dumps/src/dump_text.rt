//! A dump as the bytes of one JSON object.

ghost use Rattle.std.specs.Prelude.{◌≡◌, ◌++◌, ◌<◌, ◌∷◌, List, ℕ, OnOk, IfOk, map, codes, string_bytes};
ghost use Rattle.std.specs.Fmt.{decimal};
ghost use Rattle.silo_address.specs.SiloText.{silo_text};
ghost use Rattle.ring_range.specs.Text.{range_text};
ghost use Rattle.dump_rules.specs.Dump.{comma, dump_text, entry_json, from_text, held_json, json_list, json_member, node_json, piece_json, point_json, quoted, row_json};

use crate::tokens::{
    push_comma, push_name, push_number, push_number_member, push_quoted, push_text_member,
};
use crate::words::{word_of_hashing, word_of_phase, word_of_state};
use crate::{Dump, ListedEntry, ListedHeld, ListedNode, ListedPiece, ListedPoint, ListedRow};
use ring_range::RingRange;
use silo_address::SiloAddress;
use std::alloc::{AllocError, Global};

/// What stands in a dump as JSON.
trait WriteJson {
    ghost json: { Self → List ℕ };

    /// Writes it behind what stands in the buffer. Fails only when memory runs out.
    fn write_to(&self, alloc: Global, out: &mut Vec<u8>) -> Result<(), AllocError>
        ensures { OnOk result (out.new.items ≡ out.old.items ++ json self.now) };
}

/// The dump's text: one JSON object without spaces, the members of each object in the order of their names
/// (`docs/RULES.md#the-dump-and-the-verdict`). Fails only when memory runs out.
pub fn write_dump(alloc: Global, dump: &Dump) -> Result<Vec<u8>, AllocError>
    ensures { IfOk result (λ text. text.items ≡ dump_text dump.now) }
{
    let mut out = Vec::new(alloc);
    dump.write_to(alloc, &mut out)?;
    Ok(out)
}

/// The text of one silo's node, as it stands in a dump's (`docs/RULES.md#the-dump-and-the-verdict`). Fails only when memory runs out.
pub fn write_node(alloc: Global, node: &ListedNode) -> Result<Vec<u8>, AllocError>
    ensures { IfOk result (λ text. text.items ≡ node_json node.now) }
{
    let mut out = Vec::new(alloc);
    node.write_to(alloc, &mut out)?;
    Ok(out)
}

impl<'a> WriteJson for Dump<'a> {
    ghost json = { dump_text };

    fn write_to(&self, alloc: Global, out: &mut Vec<u8>) -> Result<(), AllocError> {
        push_number_member(out, b'{', b"current", self.current)?;
        push_text_member(out, b',', b"hashing", word_of_hashing(self.hashing))?;
        push_list_member(alloc, out, b',', b"nodes", &self.nodes)?;
        push_number_member(out, b',', b"points", self.points)?;
        push_list_member(alloc, out, b',', b"rows", &self.rows)?;
        out.push(b'}')?;
        Ok(())
    }
}

impl WriteJson for ListedRow {
    ghost json = { row_json };

    fn write_to(&self, alloc: Global, out: &mut Vec<u8>) -> Result<(), AllocError> {
        push_number_member(out, b'{', b"dead", self.dead)?;
        push_number_member(out, b',', b"joined", self.joined)?;
        push_number_member(out, b',', b"left", self.left)?;
        push_list_member(alloc, out, b',', b"places", &self.places)?;
        push_silo_member(alloc, out, b',', &self.silo)?;
        out.push(b'}')?;
        Ok(())
    }
}

impl<'a> WriteJson for ListedNode<'a> {
    ghost json = { node_json };

    fn write_to(&self, alloc: Global, out: &mut Vec<u8>) -> Result<(), AllocError> {
        push_list_member(alloc, out, b'{', b"held", &self.held)?;
        push_list_member(alloc, out, b',', b"pieces", &self.pieces)?;
        push_list_member(alloc, out, b',', b"ring", &self.ring)?;
        push_number_member(out, b',', b"seen", self.seen)?;
        push_silo_member(alloc, out, b',', &self.silo)?;
        out.push(b'}')?;
        Ok(())
    }
}

impl<'a> WriteJson for ListedPiece<'a> {
    ghost json = { piece_json };

    fn write_to(&self, alloc: Global, out: &mut Vec<u8>) -> Result<(), AllocError> {
        push_list_member(alloc, out, b'{', b"entries", &self.entries)?;
        push_from_member(alloc, out, b',', self.from)?;
        push_range_member(alloc, out, b',', self.range)?;
        push_text_member(out, b',', b"state", word_of_state(self.state))?;
        out.push(b'}')?;
        Ok(())
    }
}

impl<'a> WriteJson for ListedHeld<'a> {
    ghost json = { held_json };

    fn write_to(&self, alloc: Global, out: &mut Vec<u8>) -> Result<(), AllocError> {
        let activation = self.activation.text(alloc)?;
        push_text_member(out, b'{', b"activation", activation.as_bytes())?;
        push_text_member(out, b',', b"grain", self.grain.as_bytes())?;
        push_text_member(out, b',', b"phase", word_of_phase(self.phase))?;
        out.push(b'}')?;
        Ok(())
    }
}

impl WriteJson for ListedPoint {
    ghost json = { point_json };

    fn write_to(&self, alloc: Global, out: &mut Vec<u8>) -> Result<(), AllocError> {
        out.push(b'[')?;
        push_number(out, self.place)?;
        out.push(b',')?;
        push_silo(alloc, out, &self.silo)?;
        out.push(b',')?;
        push_number(out, self.index)?;
        out.push(b']')?;
        Ok(())
    }
}

impl<'a> WriteJson for ListedEntry<'a> {
    ghost json = { entry_json };

    fn write_to(&self, alloc: Global, out: &mut Vec<u8>) -> Result<(), AllocError> {
        let activation = self.activation.text(alloc)?;
        out.push(b'[')?;
        push_quoted(out, self.grain.as_bytes())?;
        out.push(b',')?;
        push_quoted(out, activation.as_bytes())?;
        out.push(b']')?;
        Ok(())
    }
}

impl WriteJson for u64 {
    ghost json = { decimal };

    fn write_to(&self, _alloc: Global, out: &mut Vec<u8>) -> Result<(), AllocError> {
        push_number(out, *self)
    }
}

/// A mark, and behind it the silo from which a piece awaits its entries, under its name.
fn push_from_member(
    alloc: Global,
    out: &mut Vec<u8>,
    mark: u8,
    from: Option<SiloAddress>,
) -> Result<(), AllocError>
    ensures { OnOk result (out.new.items ≡ out.old.items ++ mark ∷ json_member (codes "from", quoted (from_text from))) }
{
    let text = text_of_from(alloc, from)?;
    push_text_member(out, mark, b"from", text.as_bytes())
}

/// The silo's text, and the empty text for none.
fn text_of_from(alloc: Global, from: Option<SiloAddress>) -> Result<String, AllocError>
    ensures { IfOk result (λ text. string_bytes text ≡ from_text from) }
{
    match from {
        Some(silo) => silo.text(alloc),
        None => Ok(String::new(alloc)),
    }
}

/// A mark, and behind it a range under its name.
fn push_range_member(
    alloc: Global,
    out: &mut Vec<u8>,
    mark: u8,
    range: RingRange,
) -> Result<(), AllocError>
    ensures { OnOk result (out.new.items ≡ out.old.items ++ mark ∷ json_member (codes "range", quoted (range_text range))) }
{
    let text = range.text(alloc)?;
    push_text_member(out, mark, b"range", text.as_bytes())
}

/// A mark, and behind it a silo under its name.
fn push_silo_member(
    alloc: Global,
    out: &mut Vec<u8>,
    mark: u8,
    silo: &SiloAddress,
) -> Result<(), AllocError>
    ensures { OnOk result (out.new.items ≡ out.old.items ++ mark ∷ json_member (codes "silo", quoted (silo_text silo.now))) }
{
    push_name(out, mark, b"silo")?;
    push_silo(alloc, out, silo)
}

/// A silo in quotation marks.
fn push_silo(alloc: Global, out: &mut Vec<u8>, silo: &SiloAddress) -> Result<(), AllocError>
    ensures { OnOk result (out.new.items ≡ out.old.items ++ quoted (silo_text silo.now)) }
{
    let text = silo.text(alloc)?;
    push_quoted(out, text.as_bytes())
}

/// A mark, and behind it a list under its name.
fn push_list_member<T: WriteJson>(
    alloc: Global,
    out: &mut Vec<u8>,
    mark: u8,
    name: &[u8],
    items: &[T],
) -> Result<(), AllocError>
    ensures { OnOk result (out.new.items ≡ out.old.items ++ mark ∷ json_member (name.now, json_list (map T.json items.now))) }
{
    push_name(out, mark, name)?;
    push_list(alloc, out, items)
}

/// A list, commas between its items.
fn push_list<T: WriteJson>(alloc: Global, out: &mut Vec<u8>, items: &[T]) -> Result<(), AllocError>
    ensures { OnOk result (out.new.items ≡ out.old.items ++ json_list (map T.json items.now)) }
{
    out.push(b'[')?;
    for (index, item) in items.iter().enumerate() {
        push_item(alloc, out, index, item)?;
    }
    out.push(b']')?;
    Ok(())
}

/// The item of a list at that index, and a comma before each but the first.
fn push_item<T: WriteJson>(
    alloc: Global,
    out: &mut Vec<u8>,
    index: usize,
    item: &T,
) -> Result<(), AllocError>
    ensures first { index ≡ 0 → OnOk result (out.new.items ≡ out.old.items ++ T.json item.now) }
    ensures later { 0 < index → OnOk result (out.new.items ≡ out.old.items ++ comma ∷ T.json item.now) }
{
    push_comma(out, index)?;
    item.write_to(alloc, out)
}
