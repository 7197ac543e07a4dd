//! Replies to a link whose bytes are all there.

ghost use Rattle.std.specs.Prelude.{◌≡◌, ◌++◌, [], ℕ, List, OnOk, OnErr};
ghost use Rattle.millicent_http.specs.Takes.{item_of};
ghost use Rattle.millicent_http.specs.Steps.{BySteps, IsSession, sent_of};
ghost use Rattle.house_core.specs.Bench.{Refines, limits_of};
ghost use Rattle.house_core.specs.Session.{Step};

use house_core::{Bench, ReplyRoom};
use house_state::{Presented, Trade};
use mc_base::{Moment, NoMemory};
use millicent_http::{ItemRef, MAX_ITEMS, next_item};

/// Appends the replies to a link whose bytes are all there, by a clock that stands at a moment: those
/// that [`serve_bench_by`](crate::serve_bench_by) sends on it. After an `Err` there are none.
pub fn reply_to_link<T: Trade>(
    bench: &mut Bench<T>,
    link: &[u8],
    moment: Moment,
    out: &mut Vec<u8>,
) -> Result<(), NoMemory>
    requires { out.old.items ≡ [] }
    ensures limits { limits_of bench.new ≡ limits_of bench.old }
    ensures err { OnErr result (out.new.items ≡ out.old.items) }
    ensures replied { OnOk result (Refines T.trade (BySteps (λ steps s. (out.new.items ≡ sent_of steps) × IsSession (Step (limits_of bench.old)) moment link.now s steps)) bench.old bench.new) }
{
    match append_replies(bench, link, moment, out) {
        Ok(()) => Ok(()),
        Err(NoMemory) => {
            out.clear();
            Err(NoMemory)
        }
    }
}

/// Appends them item by item. After an `Err` some may stand behind the bytes from before.
fn append_replies<T: Trade>(
    bench: &mut Bench<T>,
    link: &[u8],
    moment: Moment,
    out: &mut Vec<u8>,
) -> Result<(), NoMemory>
    requires { out.old.items ≡ [] }
    ensures limits { limits_of bench.new ≡ limits_of bench.old }
    ensures replied { OnOk result (Refines T.trade (BySteps (λ steps s. (out.new.items ≡ sent_of steps) × IsSession (Step (limits_of bench.old)) moment link.now s steps)) bench.old bench.new) }
{
    let mut room = ReplyRoom::new();
    let mut rest = link;
    for _ in 0..MAX_ITEMS {
        let Some((item, tail)) = next_item(rest) else {
            return Ok(());
        };
        reply_to(bench, moment, &item, &mut room, out)?;
        if item.closes() {
            return Ok(());
        }
        rest = tail;
    }
    Ok(())
}

/// Appends the reply to one item at a moment.
fn reply_to<T: Trade>(
    bench: &mut Bench<T>,
    moment: Moment,
    item: &ItemRef<'_>,
    room: &mut ReplyRoom,
    out: &mut Vec<u8>,
) -> Result<(), NoMemory>
    ensures limits { limits_of bench.new ≡ limits_of bench.old }
    ensures stepped { OnOk result (Refines T.trade (λ s t. (reply : List ℕ)
        × Step (limits_of bench.old) s moment (item_of item.now) reply t
        × (out.new.items ≡ out.old.items ++ reply)) bench.old bench.new) }
{
    match item {
        ItemRef::Request(q, _) => {
            let q = Presented::of(*q);
            let said = bench.answer(moment, &q);
            bench.reply(&q, &said, room).append_to(out)
        }
        ItemRef::Refused(head, _) => bench.refuse_head(moment, *head, room).append_to(out),
    }
}
