//! The data that sections passed on, and the data that links delivered.
ghost use Rattle.std.specs.Prelude.{◌≡◌, Some, map, option_map, IfOk};
ghost use Rattle.couple_chain.specs.Line.{piece_for};
ghost use Rattle.couple_chain.specs.Logged.{logged};
ghost use Rattle.chain_world.specs.Staged.{told_piece, piece_in, pieces_in};

use crate::line::Piece;
use crate::offering::read;
use couple_chain::Passed;
use sccp_base::{List, Octets, OutOfMemory, Reference};
use sccp_message::Message;
use std::alloc::Global;

/// A piece of data in memory of its own.
fn piece(alloc: Global, more: bool, payload: &Octets) -> Result<Piece, OutOfMemory>
    ensures { IfOk result (λ p. told_piece p ≡ record { more = more; payload = payload.now }) }
{
    let payload = payload.try_clone(alloc)?;
    Ok(Piece { more, payload })
}

/// What the section with an own reference passed on.
pub(crate) fn passed_by(
    alloc: Global,
    passed: &[Passed],
    own: Reference,
) -> Result<List<Piece>, OutOfMemory>
    ensures { IfOk result (λ pieces. map told_piece pieces ≡ logged own passed.now) }
{
    let mut pieces = List::new(alloc);
    for entry in passed {
        if entry.own == own {
            pieces.push(piece(alloc, entry.more, &entry.payload)?)?;
        }
    }
    Ok(pieces)
}

/// What a message carries, if it is a DT1 with this destination reference.
fn piece_for(alloc: Global, message: &Message, dlr: Reference) -> Result<Option<Piece>, OutOfMemory>
    ensures { IfOk result (λ p. option_map told_piece p ≡ piece_for (Some dlr) message.now) }
{
    match message {
        Message::Dt1 {
            dlr: reference,
            more,
            payload,
        } => {
            if dlr == *reference {
                Ok(Some(piece(alloc, *more, payload)?))
            } else {
                Ok(None)
            }
        }
        _ => Ok(None),
    }
}

/// What a message given by its octets carries, if it is a DT1 with this destination reference.
fn piece_read(alloc: Global, octets: &[u8], dlr: Reference) -> Result<Option<Piece>, OutOfMemory>
    ensures { IfOk result (λ p. option_map told_piece p ≡ piece_in (Some dlr) octets.now) }
{
    match read(alloc, octets)? {
        Some(message) => {
            let piece = piece_for(alloc, &message, dlr);
            drop(message);
            piece
        }
        None => Ok(None),
    }
}

/// What those DT1 of a list of messages carry that have this destination reference.
pub(crate) fn pieces_of(
    alloc: Global,
    octets: &[Octets],
    dlr: Reference,
) -> Result<List<Piece>, OutOfMemory>
    ensures { IfOk result (λ pieces. map told_piece pieces ≡ pieces_in (Some dlr) octets.now) }
{
    let mut pieces = List::new(alloc);
    for one in octets {
        if let Some(piece) = piece_read(alloc, one.as_slice(), dlr)? {
            pieces.push(piece)?;
        }
    }
    Ok(pieces)
}
