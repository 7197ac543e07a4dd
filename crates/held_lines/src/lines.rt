//! The lines of the pieces of a wallet that another may sell.

ghost use Rattle.std.specs.Prelude.{◌≡◌, ◌++◌, length, map, OnOk, IfOk};
ghost use Rattle.ledger_model.specs.Histories.{History};
ghost use Rattle.ledger_model.specs.Pieces.{is_first_hand};
ghost use Rattle.wallet_model.specs.Holdings as model;
ghost use Rattle.wallet_book.specs.Holdings.{AreSpelled, holding_of};
ghost use Rattle.held_lines.specs.Lines.{is_held, is_resold, resold, line, lines};
ghost use Rattle.held_lines.specs.Resold.{Appends, LeavesBytes, resold_for};

use house_state::put_piece_line;
use mc_base::{Moment, NoMemory};
use mc_requests::Refusal;
use scrip_form::{Name, Piece};
use std::alloc::Global;
use wallet_book::{Holding, State};

/// The most lines that are given.
pub const MOST: u16 = 256;

/// Why no lines are given.
#[derive(Clone, Copy, Drop)]
pub enum LinesFault {
    /// 62 `NoFunds` with 0: there is no such piece.
    Refused(Refusal),
    /// Memory was refused.
    NoMemory,
}

/// Appends the lines of the first 256 pieces of a vendor, in the order in which they came, that are held, not expired at a
/// time, and as they were first handed out: under their own identity as that of the customer, and without props. Answers
/// how many they are. `Err` leaves the bytes as they were; it is 62 `NoFunds` with 0 exactly where there is no such piece.
///
/// Spending such pieces from the wallet as well is the operator's own fault: nothing is written, and they stay held.
pub fn append_held(
    alloc: Global,
    holdings: &[Holding],
    time: Moment,
    vendor: &Name,
    out: &mut Vec<u8>,
) -> Result<u16, LinesFault>
    requires { AreSpelled holdings.now }
    ensures exact { (h : History) → model.holdings h ≡ map holding_of holdings.now
        → Appends (resold_for h time vendor.now) out.old.items out.new.items result }
    ensures bytes { LeavesBytes out.old.items out.new.items result }
{
    let mut text = Vec::new(alloc);
    let count = match put_lines(holdings, time, vendor, &mut text) {
        Ok(count) => count,
        Err(NoMemory) => return Err(LinesFault::NoMemory),
    };
    if count == 0 {
        return Err(LinesFault::Refused(Refusal::NoFunds(0)));
    }
    match out.extend_from_slice(&text) {
        Ok(()) => Ok(count),
        Err(_) => Err(LinesFault::NoMemory),
    }
}

/// Appends the lines, and answers how many they are. After an `Err` there may be some of them.
fn put_lines(
    holdings: &[Holding],
    time: Moment,
    vendor: &Name,
    text: &mut Vec<u8>,
) -> Result<u16, NoMemory>
    ensures lines { OnOk result (text.new.items ≡ text.old.items ++ lines (resold time vendor.now holdings.now)) }
    ensures count { IfOk result (λ count. count ≡ length (resold time vendor.now holdings.now)) }
{
    let mut count = 0;
    for x in holdings {
        if count < MOST && is_resold(x, time, vendor) {
            append_line(text, x)?;
            count += 1;
        }
    }
    Ok(count)
}

/// Whether a piece may be sold on.
fn is_resold(x: &Holding, time: Moment, vendor: &Name) -> bool
    ensures { result ≡ is_resold time vendor.now x.now }
{
    is_held(x.state)
        && time.seconds() < x.piece.expires()
        && x.piece.vendor().bytes() == vendor.bytes()
        && is_first_hand(&x.piece)
}

fn is_held(state: State) -> bool
    ensures { result ≡ is_held state }
{
    match state {
        State::Held => true,
        _ => false,
    }
}

/// Whether a piece is as it was first handed out.
fn is_first_hand(piece: &Piece) -> bool
    ensures { result ≡ is_first_hand piece.now }
{
    piece.cust() == piece.id() && piece.props().bytes().is_empty()
}

/// Appends the line of a piece. After an `Err` there may be a part of it.
fn append_line(text: &mut Vec<u8>, x: &Holding) -> Result<(), NoMemory>
    ensures { OnOk result (text.new.items ≡ text.old.items ++ line x.now) }
{
    let mut room = [0; 512];
    let end = put_piece_line(&mut room, &x.piece, &x.cert, &x.secret);
    text.extend_from_slice(&room[..end])?;
    Ok(())
}
