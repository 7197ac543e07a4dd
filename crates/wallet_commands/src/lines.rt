//! The lines that a wallet's commands say.

ghost use Rattle.std.specs.Prelude.{◌≡◌, ◌++◌, ◌+◌, ◌≤◌, [], flat_map, codes, IfOk, OnOk, vec_len, vec_capacity};
ghost use Rattle.wallet_book.specs.Holdings.{state_of};
ghost use Rattle.wallet_commands.specs.Lines.{got_line, renewed_words, renewed_line, taken_line, state_word, piece_line};

use itoa::Buffer;
use mc_base::NoMemory;
use said_lines::{READY, put, put_number};
use scrip_form::{Name, Piece, digits_of_id};
use std::alloc::Global;
use wallet_book::{Holding, State};

/// An empty line with room for one that is put together later, without memory.
pub(crate) fn line_room(alloc: Global) -> Result<Vec<u8>, NoMemory>
    ensures items { IfOk result (λ line. line.items ≡ []) }
    ensures room { IfOk result (λ line. vec_len line + READY ≤ vec_capacity line) }
{
    let mut line = Vec::new(alloc);
    line.reserve(READY)?;
    Ok(line)
}

/// Puts the line of a piece that was bought or drawn into an empty line with room. It takes no memory.
pub(crate) fn put_got(line: &mut Vec<u8>, piece: &Piece)
    requires room { vec_len line.old + READY ≤ vec_capacity line.old }
    ensures { line.new.items ≡ line.old.items ++ got_line piece.now }
{
    put(line, b"got ");
    put(line, piece.vendor().bytes());
    put(line, b" ");
    put_number(line, piece.value().get());
    put(line, b"\n");
}

/// Puts the line of a renewal at a vendor into an empty line with room: the value and the end of the change that came,
/// or 0 and 0 where none did. It takes no memory.
pub(crate) fn put_renewed(line: &mut Vec<u8>, vendor: &Name, change: Option<Piece>)
    requires room { vec_len line.old + READY ≤ vec_capacity line.old }
    ensures { line.new.items ≡ line.old.items ++ renewed_line vendor.now change }
{
    match change {
        Some(piece) => put_renewal(line, vendor, piece.value().get(), piece.expires()),
        None => put_renewal(line, vendor, 0, 0),
    }
}

fn put_renewal(line: &mut Vec<u8>, vendor: &Name, value: u64, end: u64)
    requires room { vec_len line.old + READY ≤ vec_capacity line.old }
    ensures { line.new.items ≡ line.old.items ++ renewed_words vendor.now value end }
{
    put(line, b"renewed ");
    put(line, vendor.bytes());
    put(line, b" ");
    put_number(line, value);
    put(line, b" ");
    put_number(line, end);
    put(line, b"\n");
}

/// Puts the line of so many pieces that were taken into an empty line with room. It takes no memory.
pub(crate) fn put_taken(line: &mut Vec<u8>, count: u16)
    requires room { vec_len line.old + READY ≤ vec_capacity line.old }
    ensures { line.new.items ≡ line.old.items ++ taken_line count }
{
    put(line, b"taken ");
    put_number(line, u64::from(count));
    put(line, b"\n");
}

/// A line for each piece, in their order.
pub(crate) fn holding_lines(alloc: Global, holdings: &[Holding]) -> Result<Vec<u8>, NoMemory>
    ensures { IfOk result
        (λ lines. lines.items ≡ flat_map (λ x. piece_line (state_of x.state) x.piece) holdings.now) }
{
    let mut lines = Vec::new(alloc);
    for x in holdings {
        append_piece(&mut lines, x)?;
    }
    Ok(lines)
}

/// Appends the line of a piece. After an `Err` there may be a part of it.
fn append_piece(lines: &mut Vec<u8>, x: &Holding) -> Result<(), NoMemory>
    ensures { OnOk result
        (lines.new.items ≡ lines.old.items ++ piece_line (state_of x.now.state) x.now.piece) }
{
    let mut digits = Buffer::new();
    append_word(lines, word_of(x.state))?;
    append_word(lines, x.piece.vendor().bytes())?;
    append_word(lines, digits.format(x.piece.value().get()).as_bytes())?;
    append_word(lines, &digits_of_id(x.piece.id()))?;
    lines.extend_from_slice(digits.format(x.piece.expires()).as_bytes())?;
    lines.extend_from_slice(b"\n")?;
    Ok(())
}

/// Appends a word and a space. After an `Err` the line may have a part of it.
fn append_word(line: &mut Vec<u8>, word: &[u8]) -> Result<(), NoMemory>
    ensures { OnOk result (line.new.items ≡ line.old.items ++ word.now ++ codes " ") }
{
    line.extend_from_slice(word)?;
    line.extend_from_slice(b" ")?;
    Ok(())
}

fn word_of(state: State) -> &'static [u8]
    ensures { result.now ≡ state_word (state_of state) }
{
    match state {
        State::Held => b"held",
        State::Pending => b"pending",
        State::Disputed => b"disputed",
        State::Used => b"used",
        State::Dead => b"dead",
    }
}
