//! Laws over schedules, each on a function that does nothing.

ghost use Rattle.std.specs.Prelude.{List, ◌++◌};
ghost use Rattle.mc_requests.specs.declared.limits.Limits.{Limits as Bounds};
ghost use Rattle.world_model.specs.Worlds.{World, Event, Plays, AbsentDoesNothing};
ghost use Rattle.world_model.specs.Signings.{AreMade, NamesDiffer, PayApart};
ghost use Rattle.world_model.specs.Agreement.{IsSetup, DoneIsAccepted, AcceptedOnce, DoneOnce, DoneIsDrawn, PiecesOnce, AcceptedIsAsked, DrawnIsAsked, RepeatSettles};
ghost use Rattle.world_model.specs.Conservation.{AreLawful, AllBalanced, ExpiryMoves, TimeMovesAlone};

/// Whatever the events of a schedule: each house's history is lawful, in the ranges of its entries and small enough for a
/// journal, and accepts no identity twice, its time is not below its history's, and each wallet's book is lawful,
/// likewise in range and small. Each choice of one broker and vendors of which all
/// was handed out is balanced, and where recorded time grows, what leaves outstanding by that enters lapsed; where an
/// entry only moves time, all sums and all pieces stay as they were. What names a house that is not there changes nothing.
pub fn books_stay_lawful()
    ensures lawful { (limits : Bounds) (w v : World) (events : List Event) → IsSetup limits w
        → Plays limits w events v → AreLawful limits v }
    ensures balanced { (limits : Bounds) (w v : World) (events : List Event) → IsSetup limits w
        → Plays limits w events v → AllBalanced v }
    ensures expiry { ExpiryMoves }
    ensures alone { TimeMovesAlone }
    ensures absent { AbsentDoesNothing }
{}

/// Two schedules are one where the second begins with what the first leaves; and each first part of a schedule is one.
pub fn schedules_go_on()
    ensures joined { (limits : Bounds) (w x v : World) (events more : List Event) → Plays limits w events x
        → Plays limits x more v → Plays limits w (events ++ more) v }
    ensures cut { (limits : Bounds) (w v : World) (events more : List Event) → Plays limits w (events ++ more) v
        → (x : World) × Plays limits w events x × Plays limits x more v }
{}

/// After every schedule with sound signatures: each Done entry that the events added for a piece is one Accept
/// entry of a house with the scrip text, the target and the price, and it has the change of that entry, unless
/// a piece of its vendor and identity was there before. No two Done entries share one. No piece stands twice in
/// a wallet, by vendor and identity. And each Accept entry of a piece that stands in a wallet with its customer's
/// secret is for a request of that wallet; likewise each Draw entry under a key under which that wallet alone signs draws.
pub fn wallets_and_houses_agree()
    ensures done { (limits : Bounds) (w v : World) (events : List Event) → IsSetup limits w
        → Plays limits w events v → AreMade limits w events v → DoneIsAccepted w v }
    ensures accepted { (limits : Bounds) (w v : World) (events : List Event) → IsSetup limits w
        → Plays limits w events v → NamesDiffer v → AcceptedOnce v }
    ensures once { (limits : Bounds) (w v : World) (events : List Event) → IsSetup limits w
        → Plays limits w events v → AreMade limits w events v → NamesDiffer v → PayApart v → DoneOnce w v }
    ensures drawn { (limits : Bounds) (w v : World) (events : List Event) → IsSetup limits w
        → Plays limits w events v → AreMade limits w events v → DoneIsDrawn w v }
    ensures pieces { (limits : Bounds) (w v : World) (events : List Event) → IsSetup limits w
        → Plays limits w events v → PiecesOnce v }
    ensures asked { (limits : Bounds) (w v : World) (events : List Event) → IsSetup limits w
        → Plays limits w events v → AcceptedIsAsked w v }
    ensures ordered { (limits : Bounds) (w v : World) (events : List Event) → IsSetup limits w
        → Plays limits w events v → DrawnIsAsked w v }
    ensures repeats { (limits : Bounds) (w v : World) (events : List Event) → IsSetup limits w
        → Plays limits w events v → RepeatSettles limits v }
{}
