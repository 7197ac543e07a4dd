//! Replies that are signed under a secret: that of a customer, or the key of an account.

ghost use Rattle.std.specs.Prelude.{◌≡◌, ◌≤◌, [], codes, length, option_map, option_and_then, unwrap_or, Some, IfSome};
ghost use Rattle.scrip_certs.specs.Digests.{reply_signature};
ghost use Rattle.mc_requests.specs.Requests.{seen};
ghost use Rattle.mc_requests.specs.Replies.{reply_head, reply_text};
ghost use Rattle.ledger_model.specs.Histories.{History};
ghost use Rattle.ledger_model.specs.Replies as ledger;
ghost use Rattle.millicent_http.specs.ReplyHeads.{IsReplyHead, reply_of};
ghost use Rattle.house_state.specs.HouseState.{own_scrip};
ghost use Rattle.house_state.specs.Views.{contents_of};
ghost use Rattle.house_state.specs.Replying.{AreContents, IsOfSite};
ghost use Rattle.house_state.specs.Representation.{StateRepresents};

use crate::reply::{SigningRoom, refusal_head};
use house_state::{Body, HouseState, Presented, terms_of};
use kept_replies::KeptEntry;
use link_turns::Reply;
use mc_base::Moment;
use mc_requests::{Refusal, Request};
use millicent_http::{ReplyHead, write_reply_text};
use scrip_certs::sign_reply;

/// The first reply to a request, from what is kept of its entry and what the entry brought. The text of the
/// change is made for it, in `text`.
pub(crate) fn taken_reply<'a>(
    state: &HouseState,
    q: &Request<'_>,
    entry: &KeptEntry,
    body: &Body<'a>,
    text: &mut [u8; 512],
    room: &'a mut SigningRoom,
) -> Reply<'a>
    requires { AreContents body.now }
    ensures { result ≡ ledger.taken_reply (Some entry.now.secret) (unwrap_or (seen q.now.scrip) (codes "-")) q.now.target.now (contents_of body.now)
        (ledger.taken_values entry.now.moment (contents_of body.now) entry.now.price (option_map (own_scrip state.now) entry.now.change)) }
{
    match &entry.change {
        Some(piece) => {
            let len = state.write_own(piece, text);
            give(q, entry, body, Some(&text[..len]), room)
        }
        None => give(q, entry, body, None, room),
    }
}

/// The first reply, with this change.
fn give<'a>(
    q: &Request<'_>,
    entry: &KeptEntry,
    body: &Body<'a>,
    change: Option<&[u8]>,
    room: &'a mut SigningRoom,
) -> Reply<'a>
    requires contents { AreContents body.now }
    requires change { IfSome change (λ text. length text.now ≤ 293) }
    ensures { result ≡ ledger.taken_reply (Some entry.now.secret) (unwrap_or (seen q.now.scrip) (codes "-")) q.now.target.now (contents_of body.now)
        (ledger.taken_values entry.now.moment (contents_of body.now) entry.now.price (seen change.entry)) }
{
    let mut head = ReplyHead {
        status: 200,
        date: entry.moment,
        kind: Some(body.kind),
        length: body.bytes.len() as u32,
        refusal: None,
        price: Some(entry.price),
        change,
        sign: None,
    };
    head.sign = Some(sign(q, &head, body.bytes, &entry.secret, &mut room.text));
    Reply::of(&head, body.bytes, &mut room.page)
}

/// The reply to a refusal, signed under this secret.
pub(crate) fn signed_refusal<'a>(
    time: Moment,
    q: &Request<'_>,
    refusal: &Refusal,
    price: Option<u64>,
    secret: &[u8; 16],
    room: &'a mut SigningRoom,
) -> Reply<'a>
    requires { IsOfSite refusal.now }
    ensures { result ≡ reply_head (ledger.signed (Some secret.now) (unwrap_or (seen q.now.scrip) (codes "-")) q.now.target.now [] (ledger.refused_values time refusal.now price)) }
{
    let mut head = refusal_head(time, refusal, price);
    head.sign = Some(sign(q, &head, b"", secret, &mut room.text));
    Reply::of(&head, b"", &mut room.page)
}

/// The signature of a reply to a request, with `-` for a scrip text that is not there. `text` is for the text
/// that is signed.
fn sign(
    q: &Request<'_>,
    head: &ReplyHead<'_>,
    contents: &[u8],
    secret: &[u8; 16],
    text: &mut [u8; 1024],
) -> [u8; 16]
    requires { IsReplyHead head.now }
    ensures { result ≡ reply_signature (unwrap_or (seen q.now.scrip) (codes "-")) q.now.target.now (reply_text (reply_of head.now)) contents.now secret.now }
{
    let len = write_reply_text(head, text);
    sign_reply(
        q.scrip.unwrap_or(b"-"),
        q.target,
        &text[..len],
        contents,
        secret,
    )
}

/// The secret of the customer of a request's piece. None where the request has no scrip text, or there
/// are no terms of the customer's issuer.
pub(crate) fn customer_of(state: &HouseState, q: &Presented<'_>) -> Option<[u8; 16]>
    ensures { (h : History) → StateRepresents state.now h
        → result ≡ option_and_then (ledger.secret_for h) q.now.scrip }
{
    let Ok(scrip) = q.scrip() else {
        return None;
    };
    let cust = scrip.piece().cust();
    let (issuer, _, _) = cust.parts();
    let own = terms_of(state.terms(), issuer)?;
    Some(state.secret_of(own, cust))
}
