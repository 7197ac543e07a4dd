//! A wallet's commands, and asking, asking again and taking replies.

ghost use Rattle.world_laws.specs.Requests.{PayingIsPlayed, TryingIsPlayed};

use mc_outside::Outside;

/// What getting, buying, drawing and trying again send, and what they make of a wallet's book, as those commands say of it (`PaysBy`,
/// `RetriesBy`): from each world where the wallet has the book's history, the request that is entered is an Ask at the
/// clock's reading, and the one that is sent again an Again. On one link the bytes of that request are sent and nothing
/// else, or a first part of them where the link failed, or none where there was no link. What comes on it is a reply
/// that settles the request, and then its entry is the Return of these bytes, whoever sent them, and the status tells of
/// it; or the entry is in doubt (4), memory was refused (5), what is said first could not be (6), or the journal has no
/// room (33). Else the request stays kept, and the status says why. Nothing else is added. What can be asked has the form
/// that the commands' words have.
pub fn paying_is_asking_and_taking<O: Outside>()
    ensures paying { PayingIsPlayed O.link O.disk }
    ensures trying { TryingIsPlayed O.link O.disk }
{}
