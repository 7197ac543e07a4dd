//! The replies of a round, which are sent when its entries stand.

ghost use Rattle.std.specs.Prelude.{◌≡◌, ◌<◌, List, length, IsTrue, true, false};
ghost use Rattle.link_turns.specs.declared.turn.Turn.{Turn};
ghost use Rattle.link_turns.specs.declared.turn.Turn.TheVariants.{GoOn};
ghost use Rattle.scrip_journal.specs.Batches.{BatchRests};
ghost use Rattle.house_together.specs.Replying.{SendsDue, RepliesDue, RepliesRound, AreDue};

use link_slots::{Sides, Slots};
use link_turns::{Turn, turn_of};
use mc_outside::Link;
use millicent_http::{After, send_all};
use scrip_journal::Batch;

/// Sends a reply on the link of a slot, which stands.
pub fn send_due<O: Sides>(batch: &mut Batch<O>, slot: usize, reply: &[u8], after: After) -> Turn
    requires slot { slot < (O.slots batch.old.disk).count }
    requires stands { IsTrue ((O.slots batch.old.disk).slot slot).stands }
    ensures rests { BatchRests batch.old batch.new }
    ensures sent { SendsDue O.slots O.disk slot reply.now after batch.old.disk batch.new.disk result }
{
    batch.turn_to(slot);
    turn_of(send_all(batch, reply), after)
}

/// Where a reply of a round lies in the outbox, on which slot's link it is due, and what is to become of that link.
#[derive(Clone, Copy, Debug, PartialEq, Eq)]
pub struct Due {
    pub slot: usize,
    pub from: usize,
    pub to: usize,
    pub after: After,
}

/// Sends a reply on the link of a slot, which stands, and ends the link where the item or a fault ends it.
pub fn reply_due<O: Sides>(batch: &mut Batch<O>, slot: usize, reply: &[u8], after: After) -> Turn
    requires slot { slot < (O.slots batch.old.disk).count }
    requires stands { IsTrue ((O.slots batch.old.disk).slot slot).stands }
    ensures rests { BatchRests batch.old batch.new }
    ensures replied { RepliesDue O.slots O.disk slot reply.now after batch.old.disk batch.new.disk result }
{
    let turn = send_due(batch, slot, reply, after);
    if ends_link(turn) {
        batch.end_link();
    }
    turn
}

/// Whether a turn ends its link.
fn ends_link(turn: Turn) -> bool
    ensures goes_on { result ≡ false → turn ≡ GoOn }
    ensures ends { result ≡ true → turn ≡ GoOn → ⊥ }
{
    match turn {
        Turn::GoOn => false,
        Turn::Last => true,
        Turn::End => true,
        Turn::NotReceived => true,
        Turn::NotSent => true,
    }
}

/// Sends the replies of a round, in the order in which its items were answered.
pub fn send_round<O: Sides>(batch: &mut Batch<O>, out: &[u8], dues: &[Due])
    requires due { AreDue (O.slots batch.old.disk) (length out.now) dues.now }
    ensures rests { BatchRests batch.old batch.new }
    ensures replied { (turns : List Turn) × RepliesRound O.slots O.disk out.now dues.now turns batch.old.disk batch.new.disk }
{
    for due in dues {
        let _turn = reply_due(batch, due.slot, &out[due.from..due.to], due.after);
    }
}
