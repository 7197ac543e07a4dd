//! Paying for a target.

ghost use Rattle.std.specs.Prelude.{◌≡◌, ◌≤◌, ◌+◌, ℕ, Some, unwrap_or, option_map, slice_get, IsTrue, IfOk, nat_le, Ok, Err, if◌then◌else◌};
ghost use Rattle.mc_base.specs.declared.amount.TheConstants.Amount.{MOST};
ghost use Rattle.mc_requests.specs.declared.refusal.Refusal.TheVariants.{OverBudget};
ghost use Rattle.millicent_http.specs.declared.item.After.TheVariants.{Close};
ghost use Rattle.ledger_model.specs.Histories.{History};
ghost use Rattle.wallet_model.specs.Requests.{Pending, kept_get};
ghost use Rattle.wallet_model.specs.Asks.{chosen, Offered};
ghost use Rattle.wallet_book.specs.Choosing.{Chooses};
ghost use Rattle.wallet_book.specs.Kept.{kept_in};
ghost use Rattle.wallet_core.specs.Wallet.{WalletStands};
ghost use Rattle.link_turns.specs.declared.turn.Turn.TheVariants.{GoOn};
ghost use Rattle.link_turns.specs.Sending.{PartCauses};
ghost use Rattle.wallet_proxy.specs.Proxy.{anew, payment_by, within_budget, PaysBy, DoubtsBy, Tries, TryInDoubt, CanPay};
ghost use Rattle.wallet_proxy.specs.Payments.{IsWay};
ghost use Rattle.wallet_proxy.specs.Links.{Answers, bounds_of, now, state_at};

use crate::allowance::Allowance;
use crate::settling::settle;
use crate::told::{refuse, tell_disk_fault};
use crate::upstream::{lost, send_request};
use link_turns::{Page, Turn};
use mc_outside::{Disk, Link, Outside};
use mc_requests::Refusal;
use millicent_http::After;
use reply_reader::ReplyReader;
use scrip_form::Target;
use scrip_journal::Halted;
use wallet_book::Holding;
use wallet_core::{Wallet, WalletOut};

/// How a target is paid for.
#[derive(Clone, Copy)]
pub(crate) enum Way {
    /// The request of this number, which is kept, is tried again.
    Again(u64),
    /// A new one is made, with the piece of this place.
    Anew(usize),
}

/// Pays for a target, and tells what it brought: tries the kept get of it, or one that is made with the piece that is
/// chosen.
pub(crate) fn pay<O: Outside, U: Link>(
    wallet: Wallet<O>,
    up: &mut U,
    target: &Target,
    allowance: &Allowance,
    paid: &mut u64,
    after: After,
    reader: &mut ReplyReader,
    page: &mut Page,
) -> Result<(Wallet<O>, Turn), Halted<O>>
    requires stands { IsTrue (O.link wallet.journal.disk).stands }
    ensures moved { U.link_moved up.old up.new }
    ensures causes { PartCauses O.link O.disk wallet.journal.disk (λ r. r.0.journal.disk) result }
    ensures limits { IfOk result (λ r. r.0.book.limits ≡ wallet.book.limits) }
    ensures standing { IfOk result (λ r. r.1 ≡ GoOn → IsTrue (O.link r.0.journal.disk).stands) }
    ensures open { IfOk result (λ r. r.1 ≡ GoOn → after ≡ Close → ⊥) }
    ensures paid { (h : History) → WalletStands O.disk wallet h → paid.old ≤ allowance.now.budget
        → Answers O.link O.disk allowance.now.budget
        (PaysBy (bounds_of allowance.now wallet.book.limits) (state_at h (now wallet paid.old (U.link up.old))) target.now
        (within_budget allowance.now.budget paid.old (payment_by (kept_get h allowance.now.vendor target.now) (chosen h wallet.book.time allowance.now.vendor allowance.now.limit))))
        (DoubtsBy (bounds_of allowance.now wallet.book.limits) (state_at h (now wallet paid.old (U.link up.old))) target.now
        (within_budget allowance.now.budget paid.old (payment_by (kept_get h allowance.now.vendor target.now) (chosen h wallet.book.time allowance.now.vendor allowance.now.limit))))
        after wallet.journal.disk (state_at h (now wallet paid.old (U.link up.old))) paid.new (U.link up.new) result }
{
    let _most = allowance.budget.get();
    match find_way(&wallet, target, allowance, *paid) {
        Ok(Way::Again(number)) => { try_get(wallet, up, number, paid, after, reader, page) }
        Ok(Way::Anew(place)) => {
            ask(
                wallet, up, place, target, allowance, paid, after, reader, page,
            )
        }
        Err(refusal) => Ok(refuse(wallet, &refusal, after, page)),
    }
}

/// How a target is paid for, within what may still be paid. `Err` is 62 `NoFunds` or 79 `OverBudget`.
fn find_way<D: Disk>(
    wallet: &Wallet<D>,
    target: &Target,
    allowance: &Allowance,
    paid: u64,
) -> Result<Way, Refusal>
    ensures { (h : History) → WalletStands D.disk wallet.now h
        → IsWay h (within_budget allowance.now.budget paid (payment_by (kept_get h allowance.now.vendor target.now) (chosen h wallet.now.book.time allowance.now.vendor allowance.now.limit))) result }
{
    let budget = allowance.budget.get();
    match wallet.find_get(&allowance.vendor, target) {
        Some((number, place)) => {
            let value = value_at(wallet.holdings(), place);
            within(Way::Again(number), paid, value, budget)
        }
        None => match wallet.choose(&allowance.vendor, allowance.limit) {
            Ok(place) => {
                let worth = value_at(wallet.holdings(), place);
                within(Way::Anew(place), paid, worth, budget)
            }
            Err(refusal) => Err(refusal),
        },
    }
}

/// A way, where a sum stays within a budget with the value of the piece that pays. `Err` is 79 `OverBudget`.
fn within(way: Way, paid: u64, value: u64, budget: u64) -> Result<Way, Refusal>
    ensures { result ≡ if nat_le (paid + value) budget then Ok way else Err (OverBudget paid) }
{
    if is_within(paid, value, budget) {
        Ok(way)
    } else {
        Err(Refusal::OverBudget(paid))
    }
}

/// The value of the piece of a place, 0 where there is none.
fn value_at(holdings: &[Holding], place: usize) -> u64
    ensures { result ≡ unwrap_or (option_map (λ x. x.piece.value) (slice_get holdings.now place)) 0 }
{
    match holdings.get(place) {
        Some(holding) => holding.piece.value().get(),
        None => 0,
    }
}

/// Whether a sum stays within a budget with a value more.
fn is_within(paid: u64, value: u64, budget: u64) -> bool
    ensures { result ≡ nat_le (paid + value) budget }
{
    u128::from(paid) + u128::from(value) <= u128::from(budget)
}

/// Enters a new get of a target with the piece of a place, which was chosen, and tries it.
fn ask<O: Outside, U: Link>(
    wallet: Wallet<O>,
    up: &mut U,
    place: usize,
    target: &Target,
    allowance: &Allowance,
    paid: &mut u64,
    after: After,
    reader: &mut ReplyReader,
    page: &mut Page,
) -> Result<(Wallet<O>, Turn), Halted<O>>
    requires stands { IsTrue (O.link wallet.journal.disk).stands }
    requires chosen { (h : History) → WalletStands O.disk wallet h
        → (limit : ℕ) × Chooses (chosen h wallet.book.time allowance.now.vendor limit) (Ok place) }
    ensures moved { U.link_moved up.old up.new }
    ensures causes { PartCauses O.link O.disk wallet.journal.disk (λ r. r.0.journal.disk) result }
    ensures limits { IfOk result (λ r. r.0.book.limits ≡ wallet.book.limits) }
    ensures standing { IfOk result (λ r. r.1 ≡ GoOn → IsTrue (O.link r.0.journal.disk).stands) }
    ensures open { IfOk result (λ r. r.1 ≡ GoOn → after ≡ Close → ⊥) }
    ensures asked { (h : History) (o : Offered) → WalletStands O.disk wallet h
        → chosen h wallet.book.time allowance.now.vendor allowance.now.limit ≡ Ok o → place ≡ o.place
        → paid.old + o.piece.value ≤ allowance.now.budget → allowance.now.budget ≤ MOST
        → Answers O.link O.disk allowance.now.budget
        (PaysBy (bounds_of allowance.now wallet.book.limits) (state_at h (now wallet paid.old (U.link up.old))) target.now (Ok (anew o)))
        (DoubtsBy (bounds_of allowance.now wallet.book.limits) (state_at h (now wallet paid.old (U.link up.old))) target.now (Ok (anew o)))
        after wallet.journal.disk (state_at h (now wallet paid.old (U.link up.old))) paid.new (U.link up.new) result }
{
    let time = wallet.time();
    match wallet.pend_chosen(place, &allowance.vendor, target) {
        WalletOut::Done(wallet, number) => {
            try_get(wallet, up, number, paid, after, reader, page)
        }
        WalletOut::Refused(wallet, refusal) => Ok(refuse(wallet, &refusal, after, page)),
        WalletOut::NoMemory(wallet) => Ok(refuse(wallet, &Refusal::NoMemory, after, page)),
        WalletOut::Halted(mut halted) => {
            let _told = tell_disk_fault(&mut halted, time, page);
            Err(halted)
        }
    }
}

/// Tries a kept get on the next link to the vendor, and tells what it brought. That link is ended then.
fn try_get<O: Outside, U: Link>(
    wallet: Wallet<O>,
    up: &mut U,
    number: u64,
    paid: &mut u64,
    after: After,
    reader: &mut ReplyReader,
    page: &mut Page,
) -> Result<(Wallet<O>, Turn), Halted<O>>
    requires stands { IsTrue (O.link wallet.journal.disk).stands }
    ensures moved { U.link_moved up.old up.new }
    ensures causes { PartCauses O.link O.disk wallet.journal.disk (λ r. r.0.journal.disk) result }
    ensures limits { IfOk result (λ r. r.0.book.limits ≡ wallet.book.limits) }
    ensures standing { IfOk result (λ r. r.1 ≡ GoOn → IsTrue (O.link r.0.journal.disk).stands) }
    ensures open { IfOk result (λ r. r.1 ≡ GoOn → after ≡ Close → ⊥) }
    ensures tried { (h : History) (p : Pending) (budget : ℕ) → WalletStands O.disk wallet h
        → kept_in h number ≡ Some p → CanPay budget paid.old p
        → Answers O.link O.disk budget
        (Tries wallet.book.limits (state_at h (now wallet paid.old (U.link up.old))) number p)
        (TryInDoubt (state_at h (now wallet paid.old (U.link up.old))) number p)
        after wallet.journal.disk (state_at h (now wallet paid.old (U.link up.old))) paid.new (U.link up.new) result }
{
    let mut room = [0; 2048];
    let request = match wallet.request_bytes(number, &mut room) {
        Some(len) if len <= room.len() => &room[..len],
        // A request that is kept has its bytes.
        _ => return Ok(refuse(wallet, &Refusal::Nothing, after, page)),
    };
    if let Err(refusal) = send_request(up, request) {
        up.end_link();
        return Ok(refuse(wallet, &refusal, after, page));
    }
    match reader.take(up) {
        Ok(reply) => {
            up.end_link();
            settle(wallet, number, &reply, paid, after, page)
        }
        Err(fault) => {
            up.end_link();
            Ok(refuse(wallet, &lost(fault), after, page))
        }
    }
}
