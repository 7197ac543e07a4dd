ghost use Rattle.std.specs.Prelude.{◌≡◌, ◌+◌, ◌≤◌, ◌++◌, length, take, decimal, IfSome, option_map};
ghost use Rattle.mc_requests.specs.Refusals.{refusal_text};
ghost use Rattle.mc_requests.specs.Requests.{seen};
ghost use Rattle.mc_requests.specs.Replies as replies;
ghost use Rattle.millicent_http.specs.ReplyHeads.{IsReplyHead, reply_of, refusal_of};

use crate::reply::{ReplyHead, or_dash};
use mc_fields::{put, put_number};
use mc_requests::{Refusal, put_refusal_text};

/// Writes the reply text, which a reply's signature is made of, at the front of the buffer, up to
/// and with its line feed, and answers how many bytes that are. The contents follow it.
pub fn write_reply_text(r: &ReplyHead<'_>, out: &mut [u8; 1024]) -> usize
    requires { IsReplyHead r.now }
    ensures within { result ≤ 1024 }
    ensures text { take result out.new ≡ replies.reply_text (reply_of r.now) }
{
    let at = put_number(out, 0, u64::from(r.status));
    let at = put(out, at, b" ");
    let at = put_refusal_or_dash(out, at, r.refusal);
    let at = put(out, at, b" ");
    let at = put_number_or_dash(out, at, r.price);
    let at = put(out, at, b" ");
    let at = put_change_or_dash(out, at, r.change);
    put(out, at, b"\n")
}

fn put_refusal_or_dash(out: &mut [u8], at: usize, refusal: Option<&Refusal>) -> usize
    requires { at + 128 ≤ length out.old }
    ensures short { result ≤ at + 128 }
    ensures put { take result out.new ≡ take at out.old ++ replies.or_dash (option_map refusal_text (refusal_of refusal.entry)) }
{
    match refusal {
        None => put(out, at, b"-"),
        Some(refusal) => put_refusal_text(out, at, refusal),
    }
}

fn put_number_or_dash(out: &mut [u8], at: usize, number: Option<u64>) -> usize
    requires { at + 20 ≤ length out.old }
    ensures short { result ≤ at + 20 }
    ensures put { take result out.new ≡ take at out.old ++ replies.or_dash (option_map decimal number) }
{
    match number {
        None => put(out, at, b"-"),
        Some(n) => put_number(out, at, n),
    }
}

fn put_change_or_dash(out: &mut [u8], at: usize, change: Option<&[u8]>) -> usize
    requires room { at + 293 ≤ length out.old }
    requires scrip { IfSome change (λ text. length text.now ≤ 293) }
    ensures short { result ≤ at + 293 }
    ensures put { take result out.new ≡ take at out.old ++ replies.or_dash (seen change.entry) }
{
    put(out, at, or_dash(change))
}
