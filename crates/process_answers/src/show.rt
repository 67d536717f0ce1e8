//! What `show` prints of the silo.

#![tactic(auto, using(crate::proofs::Written::line_by_line))]

ghost use Rattle.std.specs.Prelude.{◌≡◌, ◌++◌, [], ◌∷◌, OnOk, Some, codes, map};
ghost use Rattle.std.specs.Fmt.{decimal};
ghost use Rattle.silo_address.specs.SiloText.{silo_text};
ghost use Rattle.ring_range.specs.Text.{range_text};
ghost use Rattle.texts.specs.Printed.{text_of_lines};
ghost use Rattle.texts.specs.Words.{sentence};
ghost use Rattle.silo_rules.specs.SiloValue.{own_status};
ghost use Rattle.script_rules.specs.Show.{held_line, seen_words};
ghost use Rattle.script_lines.specs.Printed.{printed};
ghost use Rattle.script_lines.specs.Spaced.{spaced, BeginsWith};
ghost use Rattle.process_rules.specs.Show.{own_word, piece_line, show_lines, state_words};

use directory_rules::{Held, PieceState};
use directory_silo::Silo;
use grain_partition::{Holding, Piece};
use host_activations::Host;
use membership_view::Status;
use script_lines::{
    end_line, push_named, push_range, push_silo, push_word, status_word, write_held, write_version,
};
use silo_address::{GrainId, SiloAddress};
use std::alloc::{AllocError, Global};

/// Writes the last version told, the silo, its activations in the order in which they began, and its pieces by start.
#[tactic(auto, using(crate::proofs::Written::line_by_line), unfolding(process_rules::specs::Show::show_lines))]
pub(crate) fn write_show(alloc: Global, silo: &Silo, out: &mut Vec<u8>) -> Result<(), AllocError>
    ensures written { OnOk result (out.new.items ≡ out.old.items ++ text_of_lines (show_lines silo.now)) }
    ensures kept { BeginsWith out.old.items out.new.items }
{
    write_version(out, silo.views().current())?;
    write_own(out, silo)?;
    write_activations(alloc, silo.node().host(), out)?;
    write_pieces(silo.node().holding(), out)?;
    Ok(())
}

// The line of the silo itself.
fn write_own(out: &mut Vec<u8>, silo: &Silo) -> Result<(), AllocError>
    ensures written { OnOk result (out.new.items ≡ out.old.items ++ printed (sentence (codes "silo" ∷ silo_text silo.now.node.host.silo ∷ own_word (own_status silo.now) ∷ seen_words (Some silo.now.node)))) }
    ensures kept { BeginsWith out.old.items out.new.items }
{
    let start = out.len();
    let written = push_own(out, silo);
    end_line(out, start, written)
}

#[tactic(auto, using(script_lines::proofs::WrittenPieces::word_by_word))]
fn push_own(out: &mut Vec<u8>, silo: &Silo) -> Result<(), AllocError>
    ensures written { OnOk result (out.new.items ≡ out.old.items ++ spaced (codes "silo" ∷ silo_text silo.now.node.host.silo ∷ own_word (own_status silo.now) ∷ seen_words (Some silo.now.node))) }
    ensures kept { BeginsWith out.old.items out.new.items }
{
    push_word(out, b"silo")?;
    push_silo(out, &silo.address())?;
    push_word(out, own_word(silo.status()))?;
    push_named(out, b"seen", silo.node().view().version())?;
    push_named(out, b"held", silo.node().host().held_count() as u64)?;
    Ok(())
}

// What the silo is by the last change that it was told.
fn own_word(status: Option<Status>) -> &'static [u8]
    ensures { result.now ≡ own_word status }
{
    match status {
        Some(status) => status_word(status),
        None => b"unknown",
    }
}

// The activations that the host holds, in the order in which they began.
fn write_activations(alloc: Global, host: &Host, out: &mut Vec<u8>) -> Result<(), AllocError>
    ensures written { OnOk result (out.new.items ≡ out.old.items ++ text_of_lines (map (λ e. held_line host.now.silo e.0 e.1) host.now.held)) }
    ensures kept { BeginsWith out.old.items out.new.items }
{
    let activations = host.activations(alloc)?;
    write_each_held(out, &host.silo(), &activations)?;
    Ok(())
}

fn write_each_held(
    out: &mut Vec<u8>,
    silo: &SiloAddress,
    activations: &[(GrainId, Held)],
) -> Result<(), AllocError>
    ensures written { OnOk result (out.new.items ≡ out.old.items ++ text_of_lines (map (λ e. held_line silo.now e.0 e.1) activations.now)) }
    ensures kept { BeginsWith out.old.items out.new.items }
{
    for row in activations {
        write_held(out, silo, &row.0, &row.1)?;
    }
    Ok(())
}

// The pieces, by start.
fn write_pieces(holding: &Holding, out: &mut Vec<u8>) -> Result<(), AllocError>
    ensures written { OnOk result (out.new.items ≡ out.old.items ++ text_of_lines (map (λ e. piece_line e.1) holding.now.pieces)) }
    ensures kept { BeginsWith out.old.items out.new.items }
{
    for (_, piece) in holding.pieces() {
        write_piece(out, piece)?;
    }
    Ok(())
}

fn write_piece(out: &mut Vec<u8>, piece: &Piece) -> Result<(), AllocError>
    ensures written { OnOk result (out.new.items ≡ out.old.items ++ printed (piece_line piece.now)) }
    ensures kept { BeginsWith out.old.items out.new.items }
{
    let start = out.len();
    let written = push_piece(out, piece);
    end_line(out, start, written)
}

#[tactic(auto, using(script_lines::proofs::WrittenPieces::word_by_word))]
fn push_piece(out: &mut Vec<u8>, piece: &Piece) -> Result<(), AllocError>
    ensures written { OnOk result (out.new.items ≡ out.old.items ++ spaced (codes "range" ∷ range_text piece.now.range ∷ state_words piece.now.state piece.now.entries)) }
    ensures kept { BeginsWith out.old.items out.new.items }
{
    push_word(out, b"range")?;
    push_range(out, &piece.range())?;
    push_state(out, piece)?;
    Ok(())
}

// The state; a piece that serves tells how many entries it has.
#[tactic(auto, using(script_lines::proofs::WrittenPieces::word_by_word))]
fn push_state(out: &mut Vec<u8>, piece: &Piece) -> Result<(), AllocError>
    ensures written { OnOk result (out.new.items ≡ out.old.items ++ spaced (state_words piece.now.state piece.now.entries)) }
    ensures kept { BeginsWith out.old.items out.new.items }
{
    match piece.state() {
        PieceState::Settled => push_settled(out, piece.entries().len()),
        PieceState::Awaiting(from) => push_awaiting(out, &from),
        PieceState::Recovering => push_word(out, b"recovering"),
    }
}

#[tactic(auto, using(script_lines::proofs::WrittenPieces::word_by_word))]
fn push_settled(out: &mut Vec<u8>, entries: usize) -> Result<(), AllocError>
    ensures written { OnOk result (out.new.items ≡ out.old.items ++ spaced (codes "settled" ∷ codes "entries" ∷ decimal entries ∷ [])) }
    ensures kept { BeginsWith out.old.items out.new.items }
{
    push_word(out, b"settled")?;
    push_named(out, b"entries", entries as u64)?;
    Ok(())
}

#[tactic(auto, using(script_lines::proofs::WrittenPieces::word_by_word))]
fn push_awaiting(out: &mut Vec<u8>, from: &SiloAddress) -> Result<(), AllocError>
    ensures written { OnOk result (out.new.items ≡ out.old.items ++ spaced (codes "awaiting" ∷ silo_text from.now ∷ [])) }
    ensures kept { BeginsWith out.old.items out.new.items }
{
    push_word(out, b"awaiting")?;
    push_silo(out, from)?;
    Ok(())
}
