//! The piece that is due for renewal.

ghost use Rattle.std.specs.Prelude.{◌≡◌, List, ℕ, IfSome, option_map};
ghost use Rattle.ledger_model.specs.Histories.{History};
ghost use Rattle.wallet_model.specs.Asks.{due};
ghost use Rattle.wallet_core.specs.Asks.{PaysAt};
ghost use Rattle.wallet_core.specs.declared.ask.Ask.TheVariants.{Get};
ghost use Rattle.wallet_core.specs.Wallet.{WalletStands};

use crate::wallet::Wallet;
use mc_base::Moment;
use mc_outside::Disk;
use scrip_form::Name;

/// The place among the holdings of the piece of a vendor that is due for renewal: of those that are held, are not
/// expired and end at a moment at the latest the one that ends first, and of two that end together the first. None
/// exactly where there is none. It takes no memory.
///
/// Whatever the disk tells, a get of this vendor may be asked of [`Wallet::pend_with`] with the piece of this place.
pub fn renew_place<D: Disk>(wallet: &Wallet<D>, vendor: &Name, before: Moment) -> Option<usize>
    ensures due { (h : History) → WalletStands D.disk wallet.now h
        → result ≡ option_map (λ o. o.place) (due h wallet.now.book.time vendor.now before) }
    ensures pays { IfSome result (λ place. (target : List ℕ) (limit : ℕ)
        → PaysAt wallet.now.book place (Get vendor.now target limit)) }
{
    wallet.book.first_due(vendor, before)
}
