//! Serving links by the wallet of a book.

ghost use Rattle.std.specs.Prelude.{◌≡◌, List, ℕ, Some};
ghost use Rattle.mc_requests.specs.declared.limits.TheConstants.Limits.{FULL};
ghost use Rattle.command_status.specs.Statuses.{number_of};
ghost use Rattle.wallet_proxy.specs.Links.{proxied_outside};
ghost use Rattle.wallet_proxy.specs.Proxying.{proxied_status, ProxiesBook, ProxyCauses};

use crate::{ProxyOut, proxy_links};
use command_status::{Status, not_opened};
use mc_base::Amount;
use mc_outside::{Link, Outside};
use mc_requests::Limits;
use scrip_form::Name;
use std::alloc::Global;
use wallet_core::open_wallet;

/// Opens the book on the outside's disk as that of a wallet, and serves so many links, or all that come: each plain request
/// on them is paid for, over the next link of `up`, with a piece of the vendor that is worth at least the limit, as long as
/// what is paid stays within the budget. Hands the outside back, and tells how it ended.
pub fn serve_wallet<O: Outside, U: Link>(
    alloc: Global,
    vendor: &Name,
    limit: Amount,
    budget: Amount,
    links: u32,
    out: O,
    up: &mut U,
) -> (O, Status)
    ensures words { number_of result.1 ≡ 2 → ⊥ }
    ensures moved { U.link_moved up.old up.new }
    ensures causes { ProxyCauses O.link O.disk links out (U.link up.old) result.1 (U.link up.new) result.0 }
    ensures proxied { (x : List ℕ) → (O.disk out).contents ≡ Some x
        → ProxiesBook O.link O.disk (record { vendor = vendor.now; limit = limit; budget = budget; limits = FULL }) links x out
        (U.link up.old) result.1 (U.link up.new) result.0 }
{
    match open_wallet(alloc, out, Limits::FULL) {
        Ok(wallet) => ended(proxy_links(alloc, wallet, up, vendor, limit, budget, links)),
        Err(fault) => not_opened(fault),
    }
}

/// The outside of a wallet that served, and how it ended.
fn ended<O: Outside>(served: ProxyOut<O>) -> (O, Status)
    ensures out { result.0 ≡ proxied_outside served }
    ensures status { result.1 ≡ proxied_status served }
    ensures words { number_of result.1 ≡ 2 → ⊥ }
{
    match served {
        ProxyOut::Done(wallet, links, paid) => (wallet.close(), Status::Proxied(links, paid)),
        ProxyOut::Link(wallet) => (wallet.close(), Status::LinkFault),
        ProxyOut::NoMemory(wallet) => (wallet.close(), Status::NoMemory),
        ProxyOut::Halted(halted) => (halted.close(), Status::DiskFault),
    }
}
