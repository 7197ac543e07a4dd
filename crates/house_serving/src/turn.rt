//! One turn of serving a link.

ghost use Rattle.std.specs.Prelude.{◌≡◌, Bool, ℕ, List, [], ◌∷◌, IsTrue};
ghost use Rattle.millicent_http.specs.HeadRefusals.{as_refusal};
ghost use Rattle.millicent_http.specs.Items.{request, refused};
ghost use Rattle.millicent_http.specs.Courses.{AreRead, with_readings};
ghost use Rattle.link_turns.specs.Turns.{Sent, AnsweredItem, Turned};
ghost use Rattle.house_core.specs.Bench.{limits_of, windows_of};
ghost use Rattle.house_state.specs.LiveWindows.{AreUsed};
ghost use Rattle.house_core.specs.Tallies.{ToldStep};
ghost use Rattle.house_serving.specs.Counting.{Counts, IsOne};

use house_core::{Bench, ReplyRoom};
use house_state::{Presented, Trade};
use link_turns::{Reply, Turn, turn_of};
use mc_base::Moment;
use mc_outside::Link;
use millicent_http::{After, Clock, HeadOut, HeadReader, HeadRefusal};

/// Answers the next item of the standing link.
pub(crate) fn serve_next<K: Link, T: Trade>(
    bench: &mut Bench<T>,
    reader: &mut HeadReader,
    k: &mut K,
    clock: &Clock,
    room: &mut ReplyRoom,
) -> Turn
    requires stands { IsTrue (K.link k.old).stands }
    ensures moved { K.link_moved k.old k.new }
    ensures limits { limits_of bench.new ≡ limits_of bench.old }
    ensures used { AreUsed (windows_of bench.old) → AreUsed (windows_of bench.new) }
    ensures turned { Counts T.trade (λ steps s. Turned (ToldStep (limits_of bench.old)) clock.now result steps s reader.old (K.link k.old) reader.new (K.link k.new)) bench.old bench.new }
{
    match reader.take(k) {
        HeadOut::Head(q, after) => serve_request(bench, &Presented::of(q), after, k, clock, room),
        HeadOut::Refused(head, after) => serve_refused(bench, head, after, k, clock, room),
        HeadOut::End => Turn::End,
        HeadOut::Fault => Turn::NotReceived,
    }
}

/// Answers a request.
fn serve_request<K: Link, T: Trade>(
    bench: &mut Bench<T>,
    q: &Presented<'_>,
    after: After,
    k: &mut K,
    clock: &Clock,
    room: &mut ReplyRoom,
) -> Turn
    requires stands { IsTrue (K.link k.old).stands }
    ensures moved { K.link_moved k.old k.new }
    ensures limits { limits_of bench.new ≡ limits_of bench.old }
    ensures used { AreUsed (windows_of bench.old) → AreUsed (windows_of bench.new) }
    ensures answered { Counts T.trade (IsOne (λ step s. (closes : Bool)
        → AnsweredItem (ToldStep (limits_of bench.old)) clock.now (request q.now closes) after result step s (K.link k.old) (K.link k.new))) bench.old bench.new }
{
    let reading = read_clock(k, clock);
    let said = bench.answer(reading, q);
    send(&bench.reply(q, &said, room), after, k)
}

/// Answers a head that is refused.
fn serve_refused<K: Link, T: Trade>(
    bench: &mut Bench<T>,
    head: HeadRefusal,
    after: After,
    k: &mut K,
    clock: &Clock,
    room: &mut ReplyRoom,
) -> Turn
    requires stands { IsTrue (K.link k.old).stands }
    ensures moved { K.link_moved k.old k.new }
    ensures limits { limits_of bench.new ≡ limits_of bench.old }
    ensures used { AreUsed (windows_of bench.old) → AreUsed (windows_of bench.new) }
    ensures answered { Counts T.trade (IsOne (λ step s. (closes : Bool)
        → AnsweredItem (ToldStep (limits_of bench.old)) clock.now (refused (as_refusal head) closes) after result step s (K.link k.old) (K.link k.new))) bench.old bench.new }
{
    let reading = read_clock(k, clock);
    send(&bench.refuse_head(reading, head, room), after, k)
}

/// The reading of the clock.
fn read_clock<K: Link>(k: &mut K, clock: &Clock) -> Moment
    ensures moved { K.link_moved k.old k.new }
    ensures rest { K.link k.new ≡ with_readings (K.link k.new).readings (K.link k.old) }
    ensures read { AreRead clock.now (result ∷ []) (K.link k.old).readings (K.link k.new).readings }
{
    match clock {
        Clock::OfLinks => k.now(),
        Clock::At(moment) => *moment,
    }
}

/// Sends a reply; after it the link goes on or is ended.
fn send<K: Link>(reply: &Reply<'_>, after: After, k: &mut K) -> Turn
    requires { IsTrue (K.link k.old).stands }
    ensures moved { K.link_moved k.old k.new }
    ensures sent { (part : List ℕ)
        × Sent after reply.now result part (K.link k.old) (K.link k.new) }
{
    turn_of(reply.send(k), after)
}
