//! Whether a reply settles a request.

ghost use Rattle.std.specs.Prelude.{◌≡◌, ◌==◌, ◌&&◌, ◌++◌, ℕ, List, false, bytes_eq, option_map, option_and_then, unwrap_or};
ghost use Rattle.scrip_certs.specs.Digests as digests;
ghost use Rattle.scrip_certs.specs.Hashing.{Hashes};
ghost use Rattle.mc_requests.specs.Errands.{errand_of};
ghost use Rattle.mc_requests.specs.Replies as texts;
ghost use Rattle.mc_requests.specs.Requests.{seen};
ghost use Rattle.ledger_model.specs.Pieces as pieces;
ghost use Rattle.wallet_model.specs.Received.{line_read};
ghost use Rattle.wallet_model.specs.Settling as model;
ghost use Rattle.reply_reader.specs.Seen.{received_of};
ghost use Rattle.wallet_core.specs.Came.{IsCame, ReadsLine};
ghost use Rattle.wallet_core.specs.Requests.{pending_view, request_view};

use crate::came::Came;
use crate::contents::piece_of;
use crate::prices::{is_dash, is_paid_by, price_of};
use crate::request::{RequestRef, WalletRequest, lent};
use itoa::Buffer;
use mc_requests::{Errand, Refusal, read_errand};
use millicent_http::or_dash;
use reply_reader::ReplyRef;
use scrip_certs::{Hasher, add_request, hex_of};
use scrip_form::Piece;

/// Whether a reply settles a request: None where it does, else 65 `BadReply` where its values are not those that
/// the request may get, or 66 `Unproved` where it is not signed under the request's secret. It takes no memory.
pub fn check_reply(p: &WalletRequest, r: &ReplyRef<'_>) -> Option<Refusal>
    ensures { result ≡ model.check_of (pending_view p.now) (received_of r.now) }
{
    check_came(p, &Came::of(p.ask, r))
}

/// Whether a reply that was read settles a request.
#[tactic(auto, unfolding(wallet_model::specs::Settling::check_of))]
pub(crate) fn check_came(p: &WalletRequest, came: &Came<'_>) -> Option<Refusal>
    requires { IsCame p.now.ask came.now }
    ensures { result ≡ model.check_of (pending_view p.now) (received_of came.now.reply) }
{
    let p = lent(p);
    if came.reply.status == 200 && !fits(&p, came) {
        return Some(Refusal::BadReply);
    }
    if !is_proved(&p, &came.reply) {
        return Some(Refusal::Unproved);
    }
    None
}

// ---- the values of a 200

/// Whether the values of a 200 are those that a request may get: a price that its piece pays, with the change that is
/// left, and the piece that it asks for. It takes no memory.
pub fn fits_request(p: &RequestRef<'_>, r: &ReplyRef<'_>) -> bool
    ensures { result ≡ model.fits_request (request_view p.now) (received_of r.now) }
{
    fits(p, &Came::of(p.ask, r))
}

/// Whether the values of a 200 that was read are those that a request may get.
fn fits(p: &RequestRef<'_>, came: &Came<'_>) -> bool
    requires { IsCame p.now.ask came.now }
    ensures { result ≡ model.fits_request (request_view p.now) (received_of came.now.reply) }
{
    match price_of(&came.reply) {
        Some(price) => {
            is_paid_by(piece_of_scrip(p.scrip), price, came) && brings_asked(p, price, came)
        }
        None => false,
    }
}

/// The piece of a scrip text, where there is one.
fn piece_of_scrip(scrip: Option<&[u8]>) -> Option<Piece>
    ensures { result ≡ option_and_then pieces.piece_of (seen scrip.entry) }
{
    match scrip {
        Some(text) => piece_of(text),
        None => None,
    }
}

/// Whether a 200 brings what was asked.
fn brings_asked(p: &RequestRef<'_>, price: u64, came: &Came<'_>) -> bool
    requires { IsCame p.now.ask came.now }
    ensures { result ≡ model.brings_asked (request_view p.now) p.now.ask price (received_of came.now.reply) }
{
    match p.ask {
        0 => true,
        1 => brings_bought(p.target, came),
        _ => brings_drawn(p, price, came),
    }
}

fn brings_bought(target: &[u8], came: &Came<'_>) -> bool
    requires { ReadsLine came.now }
    ensures { result ≡ model.brings_bought (errand_of target.now) came.now.reply.contents.now }
{
    match read_errand(target) {
        Some(Errand::Buy { vendor, amount }) => is_piece_of(vendor, amount, came),
        _ => false,
    }
}

fn brings_drawn(p: &RequestRef<'_>, price: u64, came: &Came<'_>) -> bool
    requires { ReadsLine came.now }
    ensures { result
        ≡ model.brings_drawn p.now.peer.now (errand_of p.now.target.now) price came.now.reply.change.now came.now.reply.contents.now }
{
    match read_errand(p.target) {
        Some(Errand::Draw { amount, .. }) => is_dash(came.reply.change)
            && (price == amount && is_piece_of(p.peer, amount, came)),
        _ => false,
    }
}

/// Whether contents are one piece line, of a piece of a vendor with a value.
fn is_piece_of(vendor: &[u8], value: u64, came: &Came<'_>) -> bool
    requires { ReadsLine came.now }
    ensures { result ≡ model.is_piece_of vendor.now value came.now.reply.contents.now }
{
    is_of(vendor, value, came.got_piece())
}

/// Whether a piece is of a vendor with a value.
fn is_of(vendor: &[u8], value: u64, piece: Option<Piece>) -> bool
    ensures { result ≡ unwrap_or (option_map (λ p. bytes_eq p.vendor vendor.now && p.value == value) piece) false }
{
    match piece {
        Some(p) => p.vendor().bytes() == vendor && p.value().get() == value,
        None => false,
    }
}

// ---- the signature

/// Whether a reply is signed under the request's secret.
fn is_proved(p: &RequestRef<'_>, r: &ReplyRef<'_>) -> bool
    ensures { result ≡ model.is_proved (request_view p.now) (received_of r.now) }
{
    r.sign == hex_of(&signature(p, r)).as_slice()
}

/// The signature of a reply under the request's secret. Its reply text is hashed part by part, so that it needs
/// no room.
#[tactic(auto, unfolding(scrip_certs::specs::Digests::reply_signature))]
fn signature(p: &RequestRef<'_>, r: &ReplyRef<'_>) -> [u8; 16]
    ensures { result ≡ digests.reply_signature (texts.or_dash (seen p.now.scrip)) p.now.target.now (line_read (received_of r.now))
        r.now.contents.now p.now.secret }
{
    let scrip = or_dash(p.scrip);
    let mut hasher = Hasher::of_text(scrip);
    add_request(&mut hasher, scrip, p.target);
    add_head(&mut hasher, r);
    hasher.update(r.contents);
    hasher.update(b"\n");
    hasher.update(&p.secret);
    hasher.finalize()
}

/// Adds the reply text up to and with its line feed.
fn add_head(hasher: &mut Hasher, r: &ReplyRef<'_>)
    ensures { (version : ℕ) (m : List ℕ) → Hashes hasher.old version m
        → Hashes hasher.new version (m ++ line_read (received_of r.now)) }
{
    hasher.update(Buffer::new().format(r.status).as_bytes());
    hasher.update(b" ");
    hasher.update(or_dash(r.refusal));
    hasher.update(b" ");
    hasher.update(r.price);
    hasher.update(b" ");
    hasher.update(r.change);
    hasher.update(b"\n");
}
