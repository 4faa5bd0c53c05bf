//! Traces, fed in pieces.
ghost use Rattle.std.specs.Prelude.{◌<◌};

use std::alloc::{AllocError, Global};
use std::test::Fail;
use trace_text::{Line, LineFault, LineKind, Numbered, Reader};

/// Five lines: messages of a relay that loses two points, one after the other.
const TRACE: &[u8] = b"msg a 1-0-1 0900030E120B1206001204947101000021044301080802AABB\n\
pause a 2-0-1\r\n\
msg a 4103 00ff\n\
\n\
fence";

/// Whether a line has this number, and is a message of this number of octets from this point at the relay a.
fn is_msg(got: &Numbered, number: u32, point: u16, count: usize) -> bool {
    match &got.line {
        Line::Msg {
            node,
            origin,
            octets,
        } => {
            got.number == number
                && node.as_slice() == b"a".as_slice()
                && origin.value() == point
                && octets.as_slice().len() == count
        }
        _ => false,
    }
}

/// Whether a line has this number, and is the pause of this point at the relay a.
fn is_pause(got: &Numbered, number: u32, point: u16) -> bool {
    match &got.line {
        Line::Pause(node, to) => {
            got.number == number && node.as_slice() == b"a".as_slice() && to.value() == point
        }
        _ => false,
    }
}

/// Whether these are the lines of the trace.
fn are_all(lines: &[Numbered]) -> bool {
    match lines {
        [first, second, third, fourth, fifth] => {
            is_msg(first, 1, 2049, 25)
                && is_pause(second, 2, 4097)
                && is_msg(third, 3, 4103, 2)
                && fourth.number == 4
                && matches!(&fourth.line, Line::Skip)
                && fifth.number == 5
                && matches!(&fifth.line, Line::Fence)
        }
        _ => false,
    }
}

/// Appends what a reader gives of the text, in pieces of a length, and then of its end, whose fault it answers.
fn read_into(
    reader: &mut Reader,
    lines: &mut Vec<Numbered>,
    text: &[u8],
    piece: usize,
) -> Result<Option<LineFault>, Fail>
    requires { 0 < piece }
{
    for part in text.chunks(piece) {
        lines.append(&mut reader.feed(part)?.lines.into_vec())?;
    }
    let end = reader.finish()?;
    lines.append(&mut end.lines.into_vec())?;
    Ok(end.fault)
}

/// Whether the trace is read so.
fn is_read(alloc: Global, piece: usize) -> Result<bool, Fail>
    requires { 0 < piece }
{
    let mut reader = Reader::new(alloc);
    let mut lines = Vec::new(alloc);
    let fault = read_into(&mut reader, &mut lines, TRACE, piece);
    let same = are_all(&lines);
    drop(lines);
    drop(reader);
    Ok(fault?.is_none() && same)
}

#[test]
fn any_cutting_gives_the_same_lines(rt: HostRuntime) -> Result<(), Fail> {
    for piece in [1, 2, 7, 1000] {
        assert!(rt; is_read(rt.alloc(), piece)?);
    }
    Ok(())
}

/// What a reader is handed.
#[derive(Clone, Copy)]
enum Turn {
    /// A piece, which is this text repeated as often as the number says.
    Feeds(&'static str, usize),
    Ends,
}

/// What a reader is handed, and how many lines it gives, with the fault after them.
type Step = (Turn, usize, Option<LineFault>);

/// A text repeated.
fn repeated(alloc: Global, text: &str, count: usize) -> Result<Vec<u8>, AllocError> {
    let mut octets = Vec::new(alloc);
    for _ in 0..count {
        octets.extend_from_slice(text.as_bytes())?;
    }
    Ok(octets)
}

/// How many lines a piece gives, and the fault after them.
fn fed(reader: &mut Reader, piece: &[u8]) -> Result<(usize, Option<LineFault>), Fail> {
    let told = reader.feed(piece)?;
    Ok((told.lines.as_slice().len(), told.fault))
}

/// How many lines the end gives, and the fault after them.
fn finished(reader: &mut Reader) -> Result<(usize, Option<LineFault>), Fail> {
    let told = reader.finish()?;
    Ok((told.lines.as_slice().len(), told.fault))
}

/// The same of a turn.
fn told(
    alloc: Global,
    reader: &mut Reader,
    turn: &Turn,
) -> Result<(usize, Option<LineFault>), Fail> {
    match turn {
        Turn::Feeds(text, count) => {
            let piece = repeated(alloc, text, *count)?;
            fed(reader, &piece)
        }
        Turn::Ends => finished(reader),
    }
}

/// The place of the first step with another result.
fn first_other(alloc: Global, reader: &mut Reader, steps: &[Step]) -> Result<Option<usize>, Fail> {
    for (place, (turn, count, fault)) in steps.iter().enumerate() {
        if told(alloc, reader, turn)? != (*count, *fault) {
            return Ok(Some(place));
        }
    }
    Ok(None)
}

/// The same of a new reader.
fn other_step(alloc: Global, steps: &[Step]) -> Result<Option<usize>, Fail> {
    let mut reader = Reader::new(alloc);
    let place = first_other(alloc, &mut reader, steps);
    drop(reader);
    place
}

const NOT_A_LINE: Option<LineFault> = Some(LineFault {
    number: 3,
    kind: LineKind::NotALine,
});

const TOO_LONG: Option<LineFault> = Some(LineFault {
    number: 2,
    kind: LineKind::TooLong,
});

const TOO_MANY: Option<LineFault> = Some(LineFault {
    number: 1_000_001,
    kind: LineKind::TooMany,
});

const FAULT: [Step; 4] = [
    (Turn::Feeds("fence\nfence\nwhat", 1), 2, None),
    (Turn::Feeds("\nfence\n", 1), 0, NOT_A_LINE),
    (Turn::Feeds("fence\n", 1), 0, NOT_A_LINE),
    (Turn::Ends, 0, NOT_A_LINE),
];

const LONG: [Step; 5] = [
    (Turn::Feeds("#", 8192), 0, None),
    (Turn::Feeds("\n", 1), 1, None),
    (Turn::Feeds("#", 8192), 0, None),
    (Turn::Feeds("\r", 1), 0, TOO_LONG),
    (Turn::Ends, 0, TOO_LONG),
];

const MANY: [Step; 3] = [
    (Turn::Feeds("\n", 1_000_000), 1_000_000, None),
    (Turn::Feeds("", 1), 0, None),
    (Turn::Feeds("f", 1), 0, TOO_MANY),
];

const END: [Step; 4] = [
    (Turn::Feeds("fence", 1), 0, None),
    (Turn::Ends, 1, None),
    (Turn::Feeds("fence\n", 1), 0, None),
    (Turn::Ends, 0, None),
];

/// A fault holds from its line feed on, a limit at its octet, and nothing follows the end.
#[test]
fn readers_are_handed_pieces(rt: HostRuntime) -> Result<(), Fail> {
    let alloc = rt.alloc();
    assert_eq!(rt; other_step(alloc, &FAULT)?, None);
    assert_eq!(rt; other_step(alloc, &LONG)?, None);
    assert_eq!(rt; other_step(alloc, &MANY)?, None);
    assert_eq!(rt; other_step(alloc, &END)?, None);
    Ok(())
}
