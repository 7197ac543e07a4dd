//! A journal passes the calls of Link on to its disk, where that is an Outside.

ghost use Rattle.std.specs.Prelude.{IsTrue};
ghost use Rattle.mc_outside.specs.LinkView.{IsWhose};

use crate::batch::Batch;
use crate::journal::{Halted, Journal};
use link_slots::Slots;
use mc_base::Moment;
use mc_outside::{Doors, Link, LinkFault, Outside};

impl<O: Outside> Link for Journal<O> {
    ghost use Rattle.scrip_journal.specs.Rests.{RestsAs, rests_none, rests_then};

    ghost link = { λ j. O.link j.disk };

    ghost link_moved = { λ j k. O.link_moved j.disk k.disk × RestsAs j k };

    ghost is_link = { λ a. O.is_link a.disk };

    ghost link_stays = { λ a. (O.link_stays a.disk, rests_none a) };

    ghost link_goes_on = { λ a b c m n. (O.link_goes_on a.disk b.disk c.disk m.0 n.0, rests_then a b c m.1 n.1) };

    ghost link_goes = { λ a b m. O.link_goes a.disk b.disk m.0 };

    fn next_link(&mut self) -> Result<bool, LinkFault> {
        self.disk.next_link()
    }

    fn recv(&mut self, buf: &mut [u8]) -> Result<usize, LinkFault> {
        self.disk.recv(buf)
    }

    fn send(&mut self, bytes: &[u8]) -> Result<usize, LinkFault> {
        self.disk.send(bytes)
    }

    fn end_link(&mut self) {
        self.disk.end_link()
    }

    fn say(&mut self, bytes: &[u8]) -> Result<(), LinkFault> {
        self.disk.say(bytes)
    }

    fn now(&mut self) -> Moment {
        self.disk.now()
    }
}

impl<O: Doors> Journal<O> {
    /// Whether the standing link came through the operator's door.
    pub fn is_operators(&self) -> bool
        requires { IsTrue (O.link self.now.disk).stands }
        ensures { IsWhose (O.link self.now.disk) result }
    {
        self.disk.is_operators()
    }
}

impl<O: Link> Link for Batch<O> {
    ghost use Rattle.scrip_journal.specs.Batches.{BatchRests, batch_rests_none, batch_rests_then};

    ghost link = { λ b. O.link b.disk };

    ghost link_moved = { λ b c. O.link_moved b.disk c.disk × BatchRests b c };

    ghost is_link = { λ b. O.is_link b.disk };

    ghost link_stays = { λ b. (O.link_stays b.disk, batch_rests_none b) };

    ghost link_goes_on = { λ a b c m n. (O.link_goes_on a.disk b.disk c.disk m.0 n.0, batch_rests_then a b c m.1 n.1) };

    ghost link_goes = { λ a b m. O.link_goes a.disk b.disk m.0 };

    fn next_link(&mut self) -> Result<bool, LinkFault> {
        self.disk.next_link()
    }

    fn recv(&mut self, buf: &mut [u8]) -> Result<usize, LinkFault> {
        self.disk.recv(buf)
    }

    fn send(&mut self, bytes: &[u8]) -> Result<usize, LinkFault> {
        self.disk.send(bytes)
    }

    fn end_link(&mut self) {
        self.disk.end_link()
    }

    fn say(&mut self, bytes: &[u8]) -> Result<(), LinkFault> {
        self.disk.say(bytes)
    }

    fn now(&mut self) -> Moment {
        self.disk.now()
    }
}

impl<O: Outside> Link for Halted<O> {
    ghost link = { λ d. O.link d };

    ghost link_moved = { λ d e. O.link_moved d e };

    ghost is_link = { λ a. O.is_link a };

    ghost link_stays = { λ a. O.link_stays a };

    ghost link_goes_on = { λ a b c m n. O.link_goes_on a b c m n };

    ghost link_goes = { λ a b m. O.link_goes a b m };

    fn next_link(&mut self) -> Result<bool, LinkFault> {
        self.disk.next_link()
    }

    fn recv(&mut self, buf: &mut [u8]) -> Result<usize, LinkFault> {
        self.disk.recv(buf)
    }

    fn send(&mut self, bytes: &[u8]) -> Result<usize, LinkFault> {
        self.disk.send(bytes)
    }

    fn end_link(&mut self) {
        self.disk.end_link()
    }

    fn say(&mut self, bytes: &[u8]) -> Result<(), LinkFault> {
        self.disk.say(bytes)
    }

    fn now(&mut self) -> Moment {
        self.disk.now()
    }
}

impl<O: Slots> Slots for Batch<O> {
    ghost use Rattle.scrip_journal.specs.Batches.{BatchRests, batch_rests_none, batch_rests_then};

    ghost slots = { λ b. O.slots b.disk };

    ghost turned = { λ b c. O.turned b.disk c.disk × BatchRests b c };

    ghost here = { λ a. O.here a.disk };

    ghost alike = { λ a p q. O.alike a.disk p q };

    ghost works_here = { λ a b m. O.works_here a.disk b.disk m.0 };

    ghost turns_stay = { λ a b m. O.turns_stay a.disk b.disk m.0 };

    ghost turned_none = { λ a. (O.turned_none a.disk, batch_rests_none a) };

    ghost turned_then = { λ a b c m n. (O.turned_then a.disk b.disk c.disk m.0 n.0, batch_rests_then a b c m.1 n.1) };

    fn count(&self) -> usize {
        self.disk.count()
    }

    fn turn_to(&mut self, slot: usize) {
        self.disk.turn_to(slot)
    }

    fn turn(&mut self, wait: bool, more: bool) -> Option<usize> {
        self.disk.turn(wait, more)
    }
}
