//! Serving links by a proxy.

ghost use Rattle.std.specs.Prelude.{◌≡◌, ◌≤◌, IsTrue, IfOk};
ghost use Rattle.ledger_model.specs.Histories.{History};
ghost use Rattle.millicent_http.specs.Held.{nothing_held};
ghost use Rattle.wallet_core.specs.Wallet.{WalletStands};
ghost use Rattle.link_turns.specs.Sending.{PartCauses};
ghost use Rattle.wallet_proxy.specs.Links.{ServesLinks, ServedEnough, LeftAlone, HaveCauses, EndsTurns, ServesLink, bounds_of, now, state_at};

use crate::allowance::Allowance;
use crate::turn::take_turn;
use link_turns::{Page, Turn};
use mc_base::Amount;
use mc_outside::{Link, Outside};
use millicent_http::HeadReader;
use reply_reader::ReplyReader;
use scrip_form::Name;
use scrip_journal::Halted;
use std::alloc::Global;
use wallet_core::Wallet;

/// How serving links by a proxy ended. Each but the last hands the wallet back.
pub enum ProxyOut<O> {
    /// So many links were served: as many as were asked for, or all that came; and so much was paid.
    Done(Wallet<O>, u32, u64),
    /// The next link could not be taken.
    Link(Wallet<O>),
    /// Memory was refused, before the first link.
    NoMemory(Wallet<O>),
    /// The disk failed while an entry was written. It is in doubt, and its request was told so; no more is
    /// served.
    Halted(Halted<O>),
}

/// Serves so many links, one after another, or all that come: each plain request that comes on them is paid for, over the
/// next link of `up`, with a piece of the wallet that is worth at least the limit, as long as what is paid stays within
/// the budget. What it brings is told as it came, without a type.
///
/// A request that brought nothing stays kept, and is tried again when its target is asked for again. What is told as paid
/// for has its Done entry on the disk before its reply begins, wherever a crash falls. `NoMemory` comes before the first
/// link alone, `Link` only where `next_link` failed, and `Halted` only where the disk failed.
pub fn proxy_links<O: Outside, U: Link>(
    alloc: Global,
    mut wallet: Wallet<O>,
    up: &mut U,
    vendor: &Name,
    limit: Amount,
    budget: Amount,
    links: u32,
) -> ProxyOut<O>
    ensures moved { U.link_moved up.old up.new }
    ensures causes { HaveCauses O.link O.disk wallet.journal.disk result }
    ensures enough { ServedEnough O.link links result }
    ensures alone { LeftAlone (U.link up.old) (U.link up.new) result }
    ensures served { (h : History) → WalletStands O.disk wallet h
        → ServesLinks O.link O.disk (record { vendor = vendor.now; limit = limit; budget = budget; limits = wallet.book.limits }) links wallet.journal.disk
        (state_at h (now wallet 0 (U.link up.old))) (U.link up.new) result }
{
    let Ok(mut heads) = HeadReader::new(alloc) else {
        return ProxyOut::NoMemory(wallet);
    };
    let Ok(mut replies) = ReplyReader::new(alloc) else {
        return ProxyOut::NoMemory(wallet);
    };
    let mut page = Page::new();
    let allowance = Allowance {
        vendor: *vendor,
        limit,
        budget,
    };
    let mut paid = 0;
    let mut served = 0;
    'links: while served < links {
        match wallet.next_link() {
            Ok(true) => {
                match serve_link(
                    wallet,
                    up,
                    &allowance,
                    &mut paid,
                    &mut heads,
                    &mut replies,
                    &mut page,
                ) {
                    Ok(after) => wallet = after,
                    Err(halted) => return ProxyOut::Halted(halted),
                }
            }
            Ok(false) => return ProxyOut::Done(wallet, served, paid),
            Err(_) => return ProxyOut::Link(wallet),
        }
        served += 1;
    }
    ProxyOut::Done(wallet, served, paid)
}

/// Serves the standing link and ends it: answers each item, up to one that ends the link, to the link's
/// end, or to a fault of the link.
fn serve_link<O: Outside, U: Link>(
    wallet: Wallet<O>,
    up: &mut U,
    allowance: &Allowance,
    paid: &mut u64,
    heads: &mut HeadReader,
    replies: &mut ReplyReader,
    page: &mut Page,
) -> Result<Wallet<O>, Halted<O>>
    requires stands { IsTrue (O.link wallet.journal.disk).stands }
    ensures moved { U.link_moved up.old up.new }
    ensures causes { PartCauses O.link O.disk wallet.journal.disk (λ x. x.journal.disk) result }
    ensures limits { IfOk result (λ x. x.book.limits ≡ wallet.book.limits) }
    ensures served { (h : History) → WalletStands O.disk wallet h → paid.old ≤ allowance.now.budget
        → ServesLink O.link O.disk (bounds_of allowance.now wallet.book.limits) wallet.journal.disk
        (state_at h (now wallet paid.old (U.link up.old))) paid.new (U.link up.new) result }
{
    heads.restart();
    match serve_turns(wallet, up, allowance, paid, heads, replies, page) {
        Ok((mut wallet, _turn)) => {
            wallet.end_link();
            Ok(wallet)
        }
        Err(mut halted) => {
            halted.end_link();
            Err(halted)
        }
    }
}

/// Takes turns until one ends the link.
fn serve_turns<O: Outside, U: Link>(
    mut wallet: Wallet<O>,
    up: &mut U,
    allowance: &Allowance,
    paid: &mut u64,
    heads: &mut HeadReader,
    replies: &mut ReplyReader,
    page: &mut Page,
) -> Result<(Wallet<O>, Turn), Halted<O>>
    requires stands { IsTrue (O.link wallet.journal.disk).stands }
    requires empty { heads.old ≡ nothing_held }
    ensures moved { U.link_moved up.old up.new }
    ensures causes { PartCauses O.link O.disk wallet.journal.disk (λ r. r.0.journal.disk) result }
    ensures limits { IfOk result (λ r. r.0.book.limits ≡ wallet.book.limits) }
    ensures ended { (h : History) → WalletStands O.disk wallet h → paid.old ≤ allowance.now.budget
        → EndsTurns O.link O.disk (bounds_of allowance.now wallet.book.limits) wallet.journal.disk
        (state_at h (now wallet paid.old (U.link up.old))) paid.new (U.link up.new) result }
{
    'turns: loop {
        match take_turn(wallet, up, allowance, paid, heads, replies, page) {
            Ok((after, turn)) => match turn {
                Turn::GoOn => wallet = after,
                turn => return Ok((after, turn)),
            },
            Err(halted) => return Err(halted),
        }
    }
}
