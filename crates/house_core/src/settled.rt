//! What says that a request was accepted.

ghost use Rattle.std.specs.Prelude.{◌≡◌};

use kept_replies::KeptNumber;
use scrip_journal::Receipt;
use spent_windows::Fresh;
use std::marker::Model;

/// What says that a request was accepted, and that its entry is on the disk behind an open gate. It is
/// not let go by itself: it has to be spent, by sending its reply, or by [`drop_settled`] where no reply
/// can be sent. Only `House::respond` makes one, which `House::accept` calls, from a [`Receipt`] and, where
/// a piece was accepted, from the proof that the windows were asked for its identity. Contracts see it as the record
/// `SettledView`.
pub struct Settled {
    pub(crate) receipt: Receipt,
    /// The number under which the house keeps the entry's reply.
    pub(crate) number: KeptNumber,
    pub(crate) fresh: Option<Fresh>,
}

impl Model for Settled {
    ghost use Rattle.house_core.specs.SettledView.{SettledView};

    ghost Value = { SettledView };

    ghost view = { λ s. record { receipt = s.receipt; number = s.number; fresh = s.fresh } };
}

impl Settled {
    /// The number of the entry, from 0.
    pub fn number(&self) -> u64
        ensures { result ≡ self.now.number }
    {
        self.number.number()
    }
}

/// Lets it go without sending a reply. The entry stands; a request that comes again gets its reply.
pub fn drop_settled(s: Settled) {
    let Settled {
        receipt: _,
        number: _,
        fresh: _,
    } = s;
}
