//! Reading the clock for a wallet.

ghost use Rattle.std.specs.Prelude.{◌≡◌, ◌∷◌, [], max};
ghost use Rattle.ledger_model.specs.Histories.{History};
ghost use Rattle.millicent_http.specs.declared.clock.Clock.TheVariants.{OfLinks};
ghost use Rattle.millicent_http.specs.Courses.{AreRead, with_readings};
ghost use Rattle.wallet_core.specs.Wallet.{WalletStands};

use crate::wallet::Wallet;
use mc_base::Moment;
use mc_outside::{Link, Outside};

/// Raises the time of a wallet to the reading of the clock, which is read once, and answers the reading. It takes no
/// memory.
pub fn raise_by_clock<O: Outside>(wallet: &mut Wallet<O>) -> Moment
    ensures moved { O.link_moved wallet.old.journal.disk wallet.new.journal.disk }
    ensures stands { (h : History) → WalletStands O.disk wallet.old h
        → WalletStands O.disk wallet.new h }
    ensures time { wallet.new.book.time ≡ max wallet.old.book.time result }
    ensures limits { wallet.new.book.limits ≡ wallet.old.book.limits }
    ensures rest { O.link wallet.new.journal.disk
        ≡ with_readings (O.link wallet.new.journal.disk).readings (O.link wallet.old.journal.disk) }
    ensures read { AreRead OfLinks (result ∷ [])
        (O.link wallet.old.journal.disk).readings (O.link wallet.new.journal.disk).readings }
{
    let reading = wallet.now();
    let _time = wallet.raise(reading);
    reading
}
