//! One turn of serving a link by a proxy.

ghost use Rattle.std.specs.Prelude.{◌≡◌, ◌≤◌, ◌<◌, ◌+◌, ℕ, IsTrue, IfOk};
ghost use Rattle.scrip_form.specs.Texts.{IsTarget};
ghost use Rattle.ledger_model.specs.Histories.{History};
ghost use Rattle.millicent_http.specs.declared.reader.TheConstants.{MAX_ITEMS};
ghost use Rattle.millicent_http.specs.declared.item.After.TheVariants.{Close};
ghost use Rattle.mc_requests.specs.Requests.{asked_of};
ghost use Rattle.millicent_http.specs.HeadRefusals.{as_refusal};
ghost use Rattle.wallet_core.specs.Wallet.{WalletStands};
ghost use Rattle.link_turns.specs.declared.turn.Turn.TheVariants.{GoOn};
ghost use Rattle.link_turns.specs.Sending.{KeptCounts, PartCauses};
ghost use Rattle.wallet_proxy.specs.declared.allowance.Allowance.{Allowance as AllowanceView};
ghost use Rattle.mc_outside.specs.LinkView.{LinkView};
ghost use Rattle.wallet_proxy.specs.Proxy as model;
ghost use Rattle.wallet_proxy.specs.Links.{AnswersRequest, RefusesHead, TurnsProxy, bounds_of, now, state_at};

use crate::allowance::Allowance;
use crate::paying::pay;
use crate::told::refuse;
use link_turns::{Page, Turn};
use mc_outside::{Link, Outside};
use mc_requests::{Refusal, Request};
use millicent_http::{After, HeadOut, HeadReader, HeadRefusal};
use reply_reader::ReplyReader;
use scrip_form::Target;
use scrip_journal::Halted;
use wallet_core::{Wallet, raise_by_clock};

/// Answers the next item of the standing link.
pub(crate) fn take_turn<O: Outside, U: Link>(
    mut wallet: Wallet<O>,
    up: &mut U,
    allowance: &Allowance,
    paid: &mut u64,
    heads: &mut HeadReader,
    replies: &mut ReplyReader,
    page: &mut Page,
) -> Result<(Wallet<O>, Turn), Halted<O>>
    requires stands { IsTrue (O.link wallet.journal.disk).stands }
    ensures moved { U.link_moved up.old up.new }
    ensures causes { PartCauses O.link O.disk wallet.journal.disk (λ r. r.0.journal.disk) result }
    ensures limits { IfOk result (λ r. r.0.book.limits ≡ wallet.book.limits) }
    ensures standing { IfOk result (λ r. r.1 ≡ GoOn → IsTrue (O.link r.0.journal.disk).stands) }
    ensures given { IfOk result (λ r. r.1 ≡ GoOn → (heads.new.given ≡ heads.old.given + 1)
        × (heads.old.given < MAX_ITEMS)) }
    ensures turned { (h : History) → WalletStands O.disk wallet h → paid.old ≤ allowance.now.budget
        → TurnsProxy O.link O.disk (bounds_of allowance.now wallet.book.limits) wallet.journal.disk
        (state_at h (now wallet paid.old (U.link up.old))) paid.new (U.link up.new) heads.old heads.new result }
{
    match heads.take(&mut wallet) {
        HeadOut::Head(q, after) => {
            answer_request(wallet, up, &q, allowance, paid, after, replies, page)
        }
        HeadOut::Refused(head, after) => Ok(answer_refused(wallet, head, after, page)),
        HeadOut::End => Ok((wallet, Turn::End)),
        HeadOut::Fault => Ok((wallet, Turn::NotReceived)),
    }
}

/// Answers a request at a reading of the clock.
fn answer_request<O: Outside, U: Link>(
    mut wallet: Wallet<O>,
    up: &mut U,
    q: &Request<'_>,
    allowance: &Allowance,
    paid: &mut u64,
    after: After,
    replies: &mut ReplyReader,
    page: &mut Page,
) -> Result<(Wallet<O>, Turn), Halted<O>>
    requires stands { IsTrue (O.link wallet.journal.disk).stands }
    requires target { IsTarget q.now.target.now }
    ensures moved { U.link_moved up.old up.new }
    ensures causes { PartCauses O.link O.disk wallet.journal.disk (λ r. r.0.journal.disk) result }
    ensures limits { IfOk result (λ r. r.0.book.limits ≡ wallet.book.limits) }
    ensures standing { IfOk result (λ r. r.1 ≡ GoOn → IsTrue (O.link r.0.journal.disk).stands) }
    ensures open { IfOk result (λ r. r.1 ≡ GoOn → after ≡ Close → ⊥) }
    ensures answered { (h : History) → WalletStands O.disk wallet h → paid.old ≤ allowance.now.budget
        → AnswersRequest O.link O.disk (bounds_of allowance.now wallet.book.limits) (asked_of q.now) after wallet.journal.disk
        (state_at h (now wallet paid.old (U.link up.old))) paid.new (U.link up.new) result }
{
    let _reading = raise_by_clock(&mut wallet);
    if !is_plain(q) {
        return Ok(refuse(wallet, &Refusal::NotPlain, after, page));
    }
    match Target::new(q.target) {
        Some(target) => { pay(wallet, up, &target, allowance, paid, after, replies, page) }
        // A request asks for a target.
        None => unreachable!(),
    }
}

/// Whether a request has no field of this protocol.
fn is_plain(q: &Request<'_>) -> bool
    ensures { result ≡ model.is_plain (asked_of q.now) }
{
    q.scrip.is_none() && q.sign.is_none()
}

/// Answers a head that is refused, at a reading of the clock.
fn answer_refused<O: Outside>(
    mut wallet: Wallet<O>,
    head: HeadRefusal,
    after: After,
    page: &mut Page,
) -> (Wallet<O>, Turn)
    requires stands { IsTrue (O.link wallet.journal.disk).stands }
    ensures counts { KeptCounts O.link O.disk wallet.journal.disk result.0.journal.disk }
    ensures limits { result.0.book.limits ≡ wallet.book.limits }
    ensures standing { result.1 ≡ GoOn → IsTrue (O.link result.0.journal.disk).stands }
    ensures open { result.1 ≡ GoOn → after ≡ Close → ⊥ }
    ensures answered { (h : History) (a : AllowanceView) (paid : ℕ) (up : LinkView) → WalletStands O.disk wallet h → paid ≤ a.budget
        → RefusesHead O.link O.disk (bounds_of a wallet.book.limits) (as_refusal head) after wallet.journal.disk
        (state_at h (now wallet paid up)) paid up result }
{
    let _reading = raise_by_clock(&mut wallet);
    refuse(wallet, &Refusal::from(head), after, page)
}
