//! Serving a book, and a run of a house.

ghost use Rattle.world_laws.specs.Runs.{ServingIsARun, HaltingIsARun, PayingIsARun, TryingIsARun};

use mc_outside::Outside;

/// What serving the book of a site does to it (`ServesLinksOf`, as `run` says of both kinds of site): from each world where
/// a house has the history of the book it is a new run and one schedule, in which nobody else moves; the disk encodes what the
/// house has then, and each crash meanwhile leaves what such a run leaves, or what one before could.
pub fn serving_is_a_run<O: Outside>()
    ensures serving { ServingIsARun O.link O.disk }
    ensures halting { HaltingIsARun O.link O.disk }
{}

/// What getting, buying, drawing and trying again leave of a wallet's book, as those commands say of a book that was opened: what
/// events of this wallet leave it with.
pub fn paying_is_a_run<O: Outside>()
    ensures paying { PayingIsARun O.link O.disk }
    ensures trying { TryingIsARun O.link O.disk }
{}
