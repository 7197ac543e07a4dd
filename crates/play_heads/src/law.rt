ghost use Rattle.play_heads.specs.Playing.{AreHeadsOfPlay};

/// Links that go on as they began received the heads of their play in order, read their clock in order, and
/// never failed.
pub fn heads_told_are_of_their_play()
    ensures { AreHeadsOfPlay }
{}
