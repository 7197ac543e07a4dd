//! What is told of a line of the input that a command refused.

use crate::texts::{before_space, word};
use command_table::number_from;
use mc_records::MOST_PIECES;
use mc_site::Passed;
use piece_lines::{PieceRule, read_secret};
use scrip_form::{Name, Piece, read_scrip};

/// The front of the line of a refusal for a line of the input.
const BAD_INPUT: &[u8] = b"refused 53 BadInput ";

/// Tells what is wrong with the line of the input that the command with these words refused, where it did.
pub fn tell_bad_line(rt: &impl Eprint, words: &[String], passed: &Passed) {
    let Some(number) = refused_line(passed.said()) else {
        return;
    };
    let input = passed.received();
    let fault = match word(words, 1) {
        "licence" => licence_input_fault(input, number),
        "settle" => statement_input_fault(input, number),
        _ => pieces_input_fault(input, number, &rule_of(words)),
    };
    let _ = eprintln!(rt; "millicent: line {number}: {fault}");
}

/// The number of the line that what was said refuses.
fn refused_line(said: &[u8]) -> Option<u64> {
    let rest = said.strip_prefix(BAD_INPUT)?;
    number_from(0, 65_535, rest.strip_suffix(b"\n".as_slice())?)
}

/// What the command with these words asks of each piece of its input.
fn rule_of(words: &[String]) -> PieceRule {
    match Name::new(word(words, 3).as_bytes()) {
        Some(vendor) => PieceRule::StockOf(vendor),
        None => PieceRule::Any,
    }
}

/// What is wrong with the line of this number of an input of piece lines.
fn pieces_input_fault(input: &[u8], number: u64, rule: &PieceRule) -> &'static str {
    if number == 0 {
        return "no line came";
    }
    if number > u64::from(MOST_PIECES) {
        return "more than 256 lines came";
    }
    let line = line_at(input, number);
    match plain_fault(line) {
        Some(fault) => fault,
        None => piece_line_fault(line, rule),
    }
}

/// What is wrong with the line of this number of an input that is one licence line.
fn licence_input_fault(input: &[u8], number: u64) -> &'static str {
    if number == 0 {
        return "no line came";
    }
    if number > 1 {
        return "more than one line came";
    }
    let line = line_at(input, number);
    match plain_fault(line) {
        Some(fault) => fault,
        None => licence_line_fault(line),
    }
}

/// What is wrong with the line of this number of an input that is one statement.
fn statement_input_fault(input: &[u8], number: u64) -> &'static str {
    if number == 0 {
        return "no line came";
    }
    if number > 1 {
        return "more than one line came";
    }
    match plain_fault(line_at(input, number)) {
        Some(fault) => fault,
        None => "it is not a statement, as vendor statement says it",
    }
}

/// The line of this number, from 1, with its line end.
fn line_at(input: &[u8], number: u64) -> &[u8] {
    let mut left = number;
    for line in input.split_inclusive(|b| *b == b'\n') {
        if left <= 1 {
            return line;
        }
        left -= 1;
    }
    b""
}

/// What is wrong with a line of any kind.
fn plain_fault(line: &[u8]) -> Option<&'static str> {
    if line.contains(&b'\r') {
        return Some("a carriage return stands in it");
    }
    if !line.ends_with(b"\n") {
        return Some("it has no line end");
    }
    if line.len() == 1 {
        return Some("it is empty");
    }
    None
}

fn piece_line_fault(line: &[u8], rule: &PieceRule) -> &'static str {
    let text = before_space(line);
    let Ok(scrip) = read_scrip(text) else {
        return "it does not begin with the text of a piece and a space";
    };
    let behind = line.strip_prefix(text).unwrap_or(b"");
    if read_secret(behind).is_err() {
        return "what stands behind the piece is not its secret, 32 digits of hex in small letters";
    }
    match rule {
        PieceRule::StockOf(vendor) => stock_fault(&scrip.piece(), vendor),
        PieceRule::Any => "it is no piece line",
    }
}

/// Why a piece can't be stock of this vendor.
fn stock_fault(piece: &Piece, vendor: &Name) -> &'static str {
    let (issuer, _, _) = piece.id().parts();
    if piece.vendor().bytes() != vendor.bytes() {
        "the piece is of another vendor"
    } else if issuer != 0 {
        "the piece is an issuer's, not of the vendor's own making"
    } else {
        "the piece is not as its vendor minted it"
    }
}

fn licence_line_fault(line: &[u8]) -> &'static str {
    if !line.starts_with(b"licence ") {
        return "it does not begin with the word licence and a space";
    }
    let mut spaces: u64 = 0;
    for byte in line {
        if *byte == b' ' {
            spaces = spaces.saturating_add(1);
        }
    }
    if spaces != 6 {
        return "it has not seven words with one space between each two";
    }
    "one of its words is out of form or range"
}
