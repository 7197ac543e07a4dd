ghost use Rattle.std.specs.Prelude.{◌≡◌, ◌↔◌, ℕ, List, map, string_bytes};
ghost use Rattle.mc_outside.specs.Bytes.{Rose};
ghost use Rattle.mc_words.specs.Commands.{AreOfNoRow};
ghost use Rattle.command_status.specs.Statuses.{number_of};
ghost use Rattle.wallet_words.specs.declared.proxying.Proxying.{Proxying as Proxied};
ghost use Rattle.wallet_words.specs.Proxying.{AreProxyWords, AreNoProxyWords};
ghost use Rattle.wallet_core.specs.OnDisk.{HasWallet};
ghost use Rattle.mc_top.specs.Programs.{Ends, IsDoneOrShort};
ghost use Rattle.mc_top.specs.Proxying.{Proxies, RunsProxy, RefusesWords};

use crate::program::end;
use command_status::Status;
use mc_outside::{Link, Outside};
use std::alloc::Global;
use wallet_proxy::serve_wallet;
use wallet_words::{Proxying, proxying_of};

/// The program for the words `wallet proxy BOOK VENDOR LIMIT BUDGET LISTEN CONNECT LINKS`, those after its name, which `run`
/// does not carry out: a wallet that pays for what a browser asks. The browser's links are those of `out`, and those of
/// `up` go to the vendor.
///
/// Each plain request is paid for with a piece of VENDOR that is worth LIMIT at least, over a link of `up` of its own, as long
/// as what is paid stays within BUDGET; what it brings is told without a type. After LINKS links, or all that come, it says
/// `proxied LINKS PAID`: how many they were, and what was paid.
///
/// 0: it is done. 2: the words are other ones; nothing was touched but what is said. 3, 4 and 5 as of `run`; memory that is
/// refused later is a reply with refusal 90, and the link goes on. 6: `next_link` of `out` failed, or saying the
/// line. 7: the book is of another kind (52). A vendor that fails is told to the browser, with 63 to 66 or 81, and ends
/// nothing. Where the disk stands for a lawful wallet and no call of `out` failed it answers 0, or 5 before the first link.
pub fn run_proxy<O: Outside, U: Link>(
    alloc: Global,
    words: &[String],
    out: O,
    up: &mut U,
) -> (u8, O)
    ensures moved { U.link_moved up.old up.new }
    ensures words { result.0 ≡ 2 → AreNoProxyWords (map string_bytes words.now) }
    ensures no_words { AreNoProxyWords (map string_bytes words.now)
        → RefusesWords O.link O.disk out (U.link up.old) result.0 (U.link up.new) result.1 }
    ensures proxied { (p : Proxied) → AreProxyWords (map string_bytes words.now) p
        → RunsProxy O.link O.disk p out (U.link up.old) result.0 (U.link up.new) result.1 }
    ensures complete { (p : Proxied) → AreProxyWords (map string_bytes words.now) p
        → HasWallet (O.disk out)
        → (Rose (O.disk out).faults (O.disk result.1).faults → ⊥)
        → (Rose (O.link out).faults (O.link result.1).faults → ⊥)
        → IsDoneOrShort result.0 }
{
    match proxying_of(alloc, words) {
        Ok(Some(proxying)) => {
            let (out, status) = proxy(alloc, &proxying, out, up);
            answer(out, status)
        }
        Ok(None) => answer(out, Status::BadWords),
        Err(_) => answer(out, Status::NoMemory),
    }
}

/// Serves links by the wallet of a book, and tells how it ended.
fn proxy<O: Outside, U: Link>(
    alloc: Global,
    proxying: &Proxying<'_>,
    out: O,
    up: &mut U,
) -> (O, Status)
    ensures words { number_of result.1 ≡ 2 → ⊥ }
    ensures moved { U.link_moved up.old up.new }
    ensures proxied { Proxies O.link O.disk proxying.now out (U.link up.old) result.1 (U.link up.new) result.0 }
{
    serve_wallet(
        alloc,
        proxying.vendor(),
        proxying.limit(),
        proxying.budget(),
        proxying.links(),
        out,
        up,
    )
}

/// How the program ends with a status, whose line is said.
pub(crate) fn answer<O: Outside>(out: O, status: Status) -> (u8, O)
    ensures ends { Ends O.link O.disk status out result.1 result.0 }
    ensures number { (result.0 ≡ 2) ↔ (number_of status ≡ 2) }
{
    let (out, number) = end(out, status);
    (number, out)
}

/// The words of a wallet that pays for what a browser asks are of no command that `run` carries out.
pub fn proxy_words_are_of_no_row()
    ensures { (words : List (List ℕ)) (p : Proxied) → AreProxyWords words p → AreOfNoRow words }
{}
