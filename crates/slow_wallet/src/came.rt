//! The pieces that came, one entry after the other.

ghost use Rattle.std.specs.Prelude.{◌≡◌, ◌<◌, ◌++◌, length, slice_get, IfSome, option_map, option_to_list};
ghost use Rattle.std.specs.List.{list_any};
ghost use Rattle.mc_records.specs.PieceViews.{pieces_of};
ghost use Rattle.mc_requests.specs.Requests.{seen};
ghost use Rattle.mc_records.specs.Views.{held_of};
ghost use Rattle.wallet_model.specs.Holdings as model;
ghost use Rattle.wallet_model.specs.Holdings.{pieces_came};
ghost use Rattle.slow_wallet.specs.Slow.{are_alike, brought_at};

use crate::requests::slow_pending;
use crate::states::{is_held, slow_state};
use mc_records::{PieceList, Record};
use slow_ledger::Prefix;
use wallet_core::are_one_piece;

/// By what texts are compared.
#[derive(Clone, Copy, Drop)]
pub(crate) enum Likeness {
    /// As they stand.
    Text,
    /// By the vendor and the identity of their pieces.
    Piece,
}

/// Whether two texts are alike.
pub(crate) fn alike(by: Likeness, a: &[u8], b: &[u8]) -> bool
    ensures { result ≡ are_alike by a.now b.now }
{
    match by {
        Likeness::Text => a == b,
        Likeness::Piece => are_one_piece(a, b),
    }
}

/// The secret of the request of a number.
fn secret_of(h: &Prefix<'_>, number: u64) -> [u8; 16]
    ensures { result ≡ model.secret_at h.now number }
{
    match slow_pending(h, number) {
        Some(p) => p.secret,
        None => [0; 16],
    }
}

/// How many pieces the entry of a number brings.
pub(crate) fn count_brought(h: &Prefix<'_>, n: usize) -> u16
    requires { n < length h.now }
    ensures { result ≡ length (brought_at h.now n) }
{
    match h.record(n) {
        Record::Got { pieces, .. } => pieces.count(),
        Record::Done { change, got, .. } => u16::from(change.is_some()) + u16::from(got.is_some()),
        _ => 0,
    }
}

/// The change of a settlement, and then the piece in its contents: the one of number `k`.
fn settled<'a>(
    before: &Prefix<'_>,
    number: u64,
    change: Option<&'a [u8]>,
    got: Option<(&'a [u8], [u8; 16])>,
    k: u16,
) -> Option<(&'a [u8], [u8; 16])>
    ensures { option_map held_of result ≡ slice_get (option_to_list (option_map (model.change_held before.now number) (seen change.entry))
        ++ option_to_list (option_map held_of got.entry)) k }
{
    match change {
        Some(text) => if k == 0 {
            Some((text, secret_of(before, number)))
        } else if k == 1 {
            got
        } else {
            None
        },
        None => if k == 0 { got } else { None },
    }
}

/// The piece of number `k`, from 0, among those that the entry of a number brings: its text and its secret.
pub(crate) fn brought<'a>(h: &'a Prefix<'_>, n: usize, k: u16) -> Option<(&'a [u8], [u8; 16])>
    requires { n < length h.now }
    ensures { option_map held_of result ≡ slice_get (brought_at h.now n) k }
{
    let before = h.first(n);
    match h.record(n) {
        Record::Got { pieces, .. } => listed(&pieces, k),
        Record::Done {
            number,
            change,
            got,
            ..
        } => settled(&before, number, change, got, k),
        _ => None,
    }
}

/// The piece of this number of a list.
pub(crate) fn listed<'a>(pieces: &PieceList<'a>, k: u16) -> Option<(&'a [u8], [u8; 16])>
    ensures { option_map held_of result ≡ slice_get (pieces_of pieces.now) k }
{
    let Some(piece) = pieces.get(k) else {
        return None;
    };
    let secret = piece.1;
    Some((piece.0.text(), secret))
}

/// Whether the piece of number `k` among those that the entry of a number brings is alike.
fn alike_at(h: &Prefix<'_>, n: usize, k: u16, by: Likeness, text: &[u8]) -> bool
    requires { n < length h.now }
    ensures { IfSome (slice_get (brought_at h.now n) k) (λ p. result ≡ are_alike by p.text text.now) }
{
    match brought(h, n, k) {
        Some((piece, _)) => alike(by, piece, text),
        None => false,
    }
}

/// Whether a piece that the entry of a number brings is alike.
fn brings_alike(h: &Prefix<'_>, n: usize, by: Likeness, text: &[u8]) -> bool
    requires { n < length h.now }
    ensures { result ≡ list_any (λ p. are_alike by p.text text.now) (brought_at h.now n) }
{
    for k in 0..count_brought(h, n) {
        if alike_at(h, n, k, by, text) {
            return true;
        }
    }
    false
}

/// Whether a piece that came is alike.
pub(crate) fn slow_came(h: &Prefix<'_>, by: Likeness, text: &[u8]) -> bool
    ensures { result ≡ list_any (λ p. are_alike by p.text text.now) (pieces_came h.now) }
{
    for n in 0..h.len() {
        if brings_alike(h, n, by, text) {
            return true;
        }
    }
    false
}

/// Whether a piece with this text is held.
pub(crate) fn slow_has_held(h: &Prefix<'_>, text: &[u8]) -> bool
    ensures { result ≡ model.has_held h.now text.now }
{
    slow_came(h, Likeness::Text, text) && is_held(slow_state(h, text))
}
