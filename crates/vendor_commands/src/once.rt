//! A shop that serves one link, and has no book.

ghost use Rattle.std.specs.Prelude.{◌≡◌, ◌≤◌, [], OnOk};
ghost use Rattle.site_words.specs.Words as words;
ghost use Rattle.vendor_commands.specs.Course.{EndsOnce};
ghost use Rattle.vendor_commands.specs.Opening.{IsOpen, opening};
ghost use Rattle.vendor_commands.specs.Session.{IsSession};

use crate::shop::open_shop;
use house_core::Bench;
use house_serving::{BenchEnd, reply_to_link, serve_bench_by};
use mc_base::{Moment, NoMemory};
use mc_outside::Link;
use millicent_http::Clock;
use site_words::Shop;
use std::alloc::Global;
use vendor_core::Shelf;

/// Opens the shop, takes one link, where one comes, and serves it. The clock stands at 0.
pub fn serve_once<K: Link>(alloc: Global, shop: &Shop<'_>, k: &mut K) -> Result<(), BenchEnd>
    ensures moved { K.link_moved k.old k.new }
    ensures ended { EndsOnce result shop.now (K.link k.old) (K.link k.new) }
    ensures grown { (K.link k.old).faults ≤ (K.link k.new).faults }
{
    let mut bench = match open_shop(alloc, shop) {
        Ok(bench) => bench,
        Err(NoMemory) => return Err(BenchEnd::NoMemory),
    };
    serve_link(&mut bench, k)
}

/// Takes one link, where one comes, and serves it by this house.
fn serve_link<K: Link>(bench: &mut Bench<Shelf>, k: &mut K) -> Result<(), BenchEnd>
    requires { (shop : words.Shop) × IsOpen bench.old (opening shop) }
    ensures moved { K.link_moved k.old k.new }
    ensures ended { (shop : words.Shop) → IsOpen bench.old (opening shop)
        → EndsOnce result shop (K.link k.old) (K.link k.new) }
    ensures grown { (K.link k.old).faults ≤ (K.link k.new).faults }
{
    match serve_bench_by(bench, k, 1, &Clock::At(Moment::clamped(0))) {
        Ok(_) => Ok(()),
        Err(end) => Err(end),
    }
}

/// Appends the replies of the shop to a whole link. An `Err` leaves a part of them.
pub fn reply_to_all(
    alloc: Global,
    shop: &Shop<'_>,
    link: &[u8],
    out: &mut Vec<u8>,
) -> Result<(), NoMemory>
    requires { out.old.items ≡ [] }
    ensures { OnOk result (IsSession shop.now link.now out.new.items) }
{
    let mut bench = open_shop(alloc, shop)?;
    reply_to_link(&mut bench, link, Moment::clamped(0), out)
}
