//! Files that the list of calls makes, for contents too long to lie beside it.
use std::alloc::AllocError;
use std::rt::Files;
use std::{fs, io};

/// What a line does with the file that is made.
pub(crate) fn make<R: Files>(rt: &R, made: &mut Vec<u8>, line: &str) -> io::Result<()> {
    if let Some(pieces) = line.strip_prefix("+ ") {
        append(made, pieces)?;
    }
    if let Some(name) = line.strip_prefix("! ") {
        fs::write(rt, name, made.as_slice())?;
        made.clear();
    }
    Ok(())
}

/// Puts a piece at the end, as often as the number before it says.
fn append(made: &mut Vec<u8>, pieces: &str) -> Result<(), AllocError> {
    let Some((count, piece)) = pieces.split_once(' ') else {
        return Ok(());
    };
    match count.parse::<u32>() {
        Ok(count) => repeat(made, piece, count),
        Err(_) => Ok(()),
    }
}

/// Puts a piece at the end this number of times.
fn repeat(made: &mut Vec<u8>, piece: &str, count: u32) -> Result<(), AllocError> {
    for number in 0..count {
        put(made, piece, number)?;
    }
    Ok(())
}

/// Puts a piece with this number at the end.
fn put(made: &mut Vec<u8>, piece: &str, number: u32) -> Result<(), AllocError> {
    for octet in piece.as_bytes() {
        put_octet(made, *octet, number)?;
    }
    Ok(())
}

/// Puts at the end what an octet of a piece with this number means.
fn put_octet(made: &mut Vec<u8>, octet: u8, number: u32) -> Result<(), AllocError> {
    match octet {
        b'%' => {
            made.push(last_digit(number / 10))?;
            made.push(last_digit(number))?;
        }
        b'|' => made.push(b'\n')?,
        b'^' => made.push(b'\r')?,
        _ => made.push(octet)?,
    }
    Ok(())
}

fn last_digit(number: u32) -> u8 {
    b'0' + (number % 10) as u8
}
