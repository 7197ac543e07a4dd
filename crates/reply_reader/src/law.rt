ghost use Rattle.std.specs.Prelude.{◌≡◌, ◌++◌, ◌^◌, ◌<◌, ℕ, List, length, decimal};
ghost use Rattle.mc_requests.specs.Replies.{Reply, reply_head};
ghost use Rattle.millicent_http.specs.Received.{Received};
ghost use Rattle.reply_reader.specs.Replies.{IsReply, IsBad, Needs, IsShort};
ghost use Rattle.reply_reader.specs.Written.{IsWord, IsSiteReply, received_back};

/// Bytes begin one reply at the most. Those that begin with a reply are not bad, nor less than a reply,
/// and bad ones are not less than a reply. ([`read_reply`](crate::read_reply) answers which they are, so
/// that they are exactly one of the three.)
pub fn one_reply()
    ensures same { (bytes : List ℕ) (r q : Received) → IsReply bytes r → IsReply bytes q → r ≡ q }
    ensures not_bad { (bytes : List ℕ) (r : Received) → IsReply bytes r → IsBad bytes → ⊥ }
    ensures not_short { (bytes : List ℕ) (r : Received) → IsReply bytes r → IsShort bytes → ⊥ }
    ensures bad_not_short { (bytes : List ℕ) → IsBad bytes → IsShort bytes → ⊥ }
{}

/// Whatever follows a reply, or bytes that are none, it stays so. Bytes that are less than a reply stay
/// so while they are fewer than it needs.
pub fn replies_stay()
    ensures whole { (bytes more : List ℕ) (r : Received) → IsReply bytes r → IsReply (bytes ++ more) r }
    ensures bad { (bytes more : List ℕ) → IsBad bytes → IsBad (bytes ++ more) }
    ensures short { (bytes more : List ℕ) (needed : ℕ) → Needs bytes needed
        → length (bytes ++ more) < needed → IsShort (bytes ++ more) }
{}

/// What a site writes of a reply is read back as the reply's values, whatever follows.
pub fn a_site_reply_reads_back()
    ensures { (r : Reply) (contents more : List ℕ) → IsSiteReply r contents
        → IsReply (reply_head r ++ (contents ++ more)) (received_back r contents) }
{}

/// A number is a word, so that what a refusal keeps are words where it keeps numbers.
pub fn numbers_are_words()
    ensures { (n : ℕ) → n < 2 ^ 64 → IsWord (decimal n) }
{}
