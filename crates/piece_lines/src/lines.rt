ghost use Rattle.std.specs.Prelude.{◌≡◌, ◌≤◌, ◌++◌, length, take, OnErr};
ghost use Rattle.mc_fields.specs.Field.{field_bytes, str};
ghost use Rattle.mc_fields.specs.Puts.{Appends};
ghost use Rattle.piece_lines.specs.Rules.{passes};
ghost use Rattle.piece_lines.specs.PieceLines.{input_lines, lines_from};
ghost use Rattle.piece_lines.specs.Answers.{Tells};

use crate::line::line;
use crate::rule::PieceRule;
use mc_fields::append_both;
use mc_records::MOST_PIECES;
use std::alloc::AllocError;

/// An input is not read.
#[derive(Clone, Copy, Debug, PartialEq, Eq)]
pub enum PieceLinesFault {
    /// The first line, from 1, that breaks the form or what the command asks; 0 for an empty input; 257
    /// where 256 lines are right and more bytes follow.
    Line(u16),
    /// Memory was refused.
    NoMemory,
}

/// Reads an input of 1 to 256 piece lines, each of a piece that is as the command asks, and appends their
/// elements, one behind the other: what `PieceList::read` takes. It answers how many there are. After an
/// `Err` the bytes are as before.
///
/// A front of more than 83,712 bytes tells what the whole input does: `fronts_tell_the_input`. So of a longer
/// input 131,072 bytes are enough.
pub fn read_piece_lines(
    bytes: &[u8],
    rule: &PieceRule,
    out: &mut Vec<u8>,
) -> Result<u16, PieceLinesFault>
    ensures tells { Tells (input_lines (passes rule.now) bytes.now) out.old.items out.new.items result }
    ensures err { OnErr result (out.new.items ≡ out.old.items) }
{
    if bytes.is_empty() {
        return Err(PieceLinesFault::Line(0));
    }
    let old = out.len();
    match append_lines(bytes, rule, out) {
        Ok(count) => Ok(count),
        Err(fault) => {
            out.truncate(old);
            Err(fault)
        }
    }
}

/// Appends the elements of the lines. After an `Err` some may stand behind the bytes from before.
fn append_lines(bytes: &[u8], rule: &PieceRule, out: &mut Vec<u8>) -> Result<u16, PieceLinesFault>
    ensures tells { Tells (lines_from (passes rule.now) MOST_PIECES 1 bytes.now) out.old.items out.new.items
        result }
    ensures err { OnErr result (take (length out.old.items) out.new.items ≡ out.old.items) }
{
    let mut rest = bytes;
    for before in 0..MOST_PIECES {
        if rest.is_empty() {
            return Ok(before);
        }
        let (piece, more) = match line(rest, rule) {
            Ok(read) => read,
            Err(_) => return Err(PieceLinesFault::Line(before + 1)),
        };
        if append_piece(out, piece.0, &piece.1).is_err() {
            return Err(PieceLinesFault::NoMemory);
        }
        rest = more;
    }
    if rest.is_empty() {
        Ok(MOST_PIECES)
    } else {
        Err(PieceLinesFault::Line(MOST_PIECES + 1))
    }
}

/// Appends the element of a text and its secret. Where memory is refused, a part of it may stand behind
/// the bytes from before.
fn append_piece(out: &mut Vec<u8>, text: &[u8], secret: &[u8; 16]) -> Result<(), AllocError>
    requires { length text.now ≤ 293 }
    ensures { Appends out.old.items out.new.items (field_bytes (str text.now) ++ secret.now) result }
{
    append_both(out, &(text.len() as u16).to_be_bytes(), text)?;
    append_both(out, secret, &[])
}
