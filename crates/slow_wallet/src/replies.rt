//! Replies to a wallet: whether one settles a request, and the entry by which it does.

ghost use Rattle.std.specs.Prelude.{◌≡◌, [], IfOk, option_map};
ghost use Rattle.mc_records.specs.Views.{held_of};
ghost use Rattle.piece_lines.specs.declared.rule.PieceRule.TheVariants as rules;
ghost use Rattle.piece_lines.specs.Rules.{passes};
ghost use Rattle.piece_lines.specs.PieceLines.{input_lines};
ghost use Rattle.piece_lines.specs.Answers.{AreAppended};
ghost use Rattle.wallet_model.specs.Received.{line_read};
ghost use Rattle.wallet_model.specs.Settling as model;
ghost use Rattle.reply_reader.specs.Seen.{received_of};
ghost use Rattle.wallet_core.specs.Requests.{request_view};

use itoa::Buffer;
use mc_base::NoMemory;
use mc_fields::append_both;
use mc_records::PieceList;
use mc_requests::Refusal;
use millicent_http::or_dash;
use piece_lines::{PieceLinesFault, PieceRule, read_piece_lines};
use reply_reader::ReplyRef;
use scrip_certs::{hex_of, sign_reply};
use std::alloc::Global;
use wallet_core::{RequestRef, fits_request};

// ---- the piece in the contents

/// The piece of the only element that some bytes are, whose line the contents are: its text, in the contents, and
/// its secret.
fn sole<'a>(elements: &[u8], count: u16, contents: &'a [u8]) -> Option<(&'a [u8], [u8; 16])>
    requires { AreAppended (input_lines (passes rules.Any) contents.now) [] elements.now count }
    ensures { option_map held_of result ≡ model.one_line contents.now }
{
    if count != 1 {
        return None;
    }
    let Some(list) = PieceList::read(elements) else {
        return None;
    };
    let Some(piece) = list.get(0) else {
        return None;
    };
    let secret = piece.1;
    let length = piece.0.text().len();
    Some((&contents[..length], secret))
}

/// The piece whose line the contents are.
pub(crate) fn one_line<'a>(
    alloc: Global,
    contents: &'a [u8],
) -> Result<Option<(&'a [u8], [u8; 16])>, NoMemory>
    ensures { IfOk result (λ o. option_map held_of o ≡ model.one_line contents.now) }
{
    let mut elements = Vec::new(alloc);
    match read_piece_lines(contents, &PieceRule::Any, &mut elements) {
        Ok(count) => Ok(sole(&elements, count, contents)),
        Err(PieceLinesFault::Line(_)) => Ok(None),
        Err(PieceLinesFault::NoMemory) => Err(NoMemory),
    }
}

// ---- the check

/// The reply text up to and with its line feed.
fn line(alloc: Global, r: &ReplyRef<'_>) -> Result<Vec<u8>, NoMemory>
    ensures { IfOk result (λ v. v.items ≡ line_read (received_of r.now)) }
{
    let mut out = Vec::new(alloc);
    append_both(&mut out, Buffer::new().format(r.status).as_bytes(), b" ")?;
    append_both(&mut out, or_dash(r.refusal), b" ")?;
    append_both(&mut out, r.price, b" ")?;
    append_both(&mut out, r.change, b"\n")?;
    Ok(out)
}

/// Whether a reply is signed under the request's secret.
fn is_proved(alloc: Global, p: &RequestRef<'_>, r: &ReplyRef<'_>) -> Result<bool, NoMemory>
    ensures { IfOk result (λ b. b ≡ model.is_proved (request_view p.now) (received_of r.now)) }
{
    let head = line(alloc, r)?;
    let sign = sign_reply(or_dash(p.scrip), p.target, &head, r.contents, &p.secret);
    Ok(r.sign == hex_of(&sign).as_slice())
}

/// Whether a reply settles a request, by the definitions: None where it does, else 65 BadReply or 66
/// Unproved. Want of memory is free.
#[tactic(auto, unfolding(wallet_model::specs::Settling::check_of))]
pub fn slow_check(
    alloc: Global,
    p: &RequestRef<'_>,
    r: &ReplyRef<'_>,
) -> Result<Option<Refusal>, NoMemory>
    ensures { IfOk result (λ o. o ≡ model.check_of (request_view p.now) (received_of r.now)) }
{
    if r.status == 200 && !fits_request(p, r) {
        return Ok(Some(Refusal::BadReply));
    }
    if !is_proved(alloc, p, r)? {
        return Ok(Some(Refusal::Unproved));
    }
    Ok(None)
}
