//! The states of pieces.

ghost use Rattle.std.specs.Prelude.{◌≡◌, ◌<◌, length, option_map};
ghost use Rattle.wallet_model.specs.Holdings as model;
ghost use Rattle.wallet_book.specs.Holdings.{state_of};
ghost use Rattle.slow_wallet.specs.Slow.{moved_at};

use crate::requests::slow_pays_with;
use mc_records::Record;
use slow_ledger::Prefix;
use wallet_book::{State, refused_state};

/// The state that the entry of a number brings the piece of a text to, where it is one on this piece.
fn moved(h: &Prefix<'_>, n: usize, text: &[u8]) -> Option<State>
    requires { n < length h.now }
    ensures { option_map state_of result ≡ moved_at h.now n text.now }
{
    let before = h.first(n);
    match h.record(n) {
        Record::Pend {
            scrip: Some(scrip),
            ..
        } => if scrip == text {
            Some(State::Pending)
        } else {
            None
        },
        Record::Done { number, .. } => if slow_pays_with(&before, number, text) {
            Some(State::Used)
        } else {
            None
        },
        Record::Refused {
            number,
            refusal,
            ..
        } => if slow_pays_with(&before, number, text) {
            Some(refused_state(refusal))
        } else {
            None
        },
        _ => None,
    }
}

/// The state of the piece of a text.
pub fn slow_state(h: &Prefix<'_>, text: &[u8]) -> State
    ensures { state_of result ≡ model.state_in h.now text.now }
{
    let mut state = State::Held;
    for n in 0..h.len() {
        state = moved(h, n, text).unwrap_or(state);
    }
    state
}

/// Whether a piece can be spent.
pub(crate) fn is_held(state: State) -> bool
    ensures { result ≡ model.is_held (state_of state) }
{
    match state {
        State::Held => true,
        _ => false,
    }
}
