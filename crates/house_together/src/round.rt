//! The end of a round: what it gathered is committed, and then its replies are sent.

ghost use Rattle.std.specs.Prelude.{length, IfOk, OnErr};
ghost use Rattle.mc_outside.specs.Bytes.{Rose};
ghost use Rattle.mc_outside.specs.DiskView.{Ran};
ghost use Rattle.ledger_model.specs.Histories.{History};
ghost use Rattle.scrip_journal.specs.Batches.{IsBatch, AllOrNone, batch_disk};
ghost use Rattle.house_together.specs.Replying.{AreDue, FinishesRound};

use crate::replies::{Due, send_round};
use link_slots::Sides;
use scrip_journal::{Batch, Halted};

/// Commits what a round gathered, and then sends its replies, which lie in the outbox. At an `Err` the disk failed, all of the
/// round's entries are in doubt together, and nothing of its replies was sent.
pub fn finish_round<O: Sides>(
    batch: Batch<O>,
    out: &[u8],
    dues: &[Due],
) -> Result<Batch<O>, Halted<O>>
    requires due { AreDue (O.slots batch.disk) (length out.now) dues.now }
    ensures finished { IfOk result (λ b. (h es : History) → IsBatch O.disk batch h es
        → FinishesRound O.slots O.disk out.now dues.now batch.disk h es b) }
    ensures halted { OnErr result ((h es : History) → IsBatch O.disk batch h es
        → Ran (O.disk batch.disk) (O.disk (batch_disk result)) (AllOrNone h es (O.disk batch.disk).aside)) }
    ensures fault { OnErr result (Rose (O.disk batch.disk).faults (O.disk (batch_disk result)).faults) }
{
    match batch.commit() {
        Ok((committed, _receipts)) => {
            let mut batch = committed;
            send_round(&mut batch, out, dues);
            Ok(batch)
        }
        Err(halted) => Err(halted),
    }
}
