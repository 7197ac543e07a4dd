//! A retry, and the link of the site at the other end of its wire.

ghost use Rattle.world_laws.specs.Wires.{RetriesSettle};

use mc_outside::Outside;

/// One retry over a wire that works settles its request. After every schedule: a wallet's kept request is the oldest one of its
/// peer, and that site has its entry and still keeps the reply. One link that the wallet uses for it, as its commands say
/// (`UsedAs`), and one that the site serves, are the ends of one wire: what each was sent the other received. No call of the
/// links failed. Then the settlement by that entry's first reply, a 200, was added; or it is in doubt (4), or not there, since the
/// wallet's journal has no room (33) or memory was refused (5).
pub fn a_retry_settles<O: Outside>()
    ensures retries { RetriesSettle O.disk }
{}
