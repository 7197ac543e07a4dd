//! A wallet passes the calls of Link on to its disk, where that is an Outside.

use crate::wallet::Wallet;
use mc_base::Moment;
use mc_outside::{Link, LinkFault, Outside};

impl<O: Outside> Link for Wallet<O> {
    ghost use Rattle.wallet_core.specs.Rests.{WalletRests, wallet_rests_none, wallet_rests_then};

    ghost link = { λ j. O.link j.journal.disk };

    ghost link_moved = { λ j k. O.link_moved j.journal.disk k.journal.disk × WalletRests j k };

    ghost is_link = { λ a. O.is_link a.journal.disk };

    ghost link_stays = { λ a. (O.link_stays a.journal.disk, wallet_rests_none a) };

    ghost link_goes_on = { λ a b c m n. (O.link_goes_on a.journal.disk b.journal.disk c.journal.disk m.0 n.0, wallet_rests_then a b c m.1 n.1) };

    ghost link_goes = { λ a b m. O.link_goes a.journal.disk b.journal.disk m.0 };

    fn next_link(&mut self) -> Result<bool, LinkFault> {
        self.journal.next_link()
    }

    fn recv(&mut self, buf: &mut [u8]) -> Result<usize, LinkFault> {
        self.journal.recv(buf)
    }

    fn send(&mut self, bytes: &[u8]) -> Result<usize, LinkFault> {
        self.journal.send(bytes)
    }

    fn end_link(&mut self) {
        self.journal.end_link()
    }

    fn say(&mut self, bytes: &[u8]) -> Result<(), LinkFault> {
        self.journal.say(bytes)
    }

    fn now(&mut self) -> Moment {
        self.journal.now()
    }
}
