ghost use Rattle.std.specs.Prelude.{◌≡◌, List, Some};
ghost use Rattle.mc_outside.specs.DiskView.{LinkKeeps};
ghost use Rattle.mc_outside.specs.LinkView.{Session, all_sent};

use crate::{Disk, Link};

/// A disk and links as one value, with what ties the two: no call of the one changes the other, and
/// the bytes sent on all links are those that the crash pairs of the disk speak of.
pub trait Outside: Disk + Link {
    /// Where calls of Link alone were made, the disk stays, and the crash pairs grow by the images
    /// of now, each with a prefix of what was sent.
    ghost link_keeps: { (a b : Self) → Self.link_moved a b → LinkKeeps (Self.disk a) (Self.disk b) };

    /// Where calls of Disk alone were made, all meanings of Link stay.
    ghost disk_keeps: { (a b : Self) → Self.disk_moved a b → Self.link b ≡ Self.link a };

    /// The bytes sent so far are those of all links, in order.
    ghost sent_aside: { (a : Self) (ss : List Session) → (Self.link a).sessions ≡ Some ss → (Self.disk a).aside ≡ all_sent ss };
}
