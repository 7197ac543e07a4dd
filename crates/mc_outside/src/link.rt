ghost use Rattle.std.specs.Prelude.{◌≡◌, ◌⊎◌, ◌≤◌, ◌<◌, ◌++◌, [], ◌∷◌, List, ℕ, length, take, IfOk, OnOk, OnErr, option_map, IsTrue, false, if◌then◌else◌};
ghost use Rattle.mc_outside.specs.Bytes.{Told, AddsPart, HasCause};
ghost use Rattle.mc_outside.specs.LinkView.{LinkView, IsLink, LinkGoes, Failed, next_taken, none_left, after_recv, after_send, after_eof};

use mc_base::Moment;
use std::error::Error;
use std::fmt;

/// A call of [`Link`] failed, and the count of the link's faults rose in that call.
#[derive(Clone, Copy, Debug, PartialEq, Eq)]
pub struct LinkFault;

impl fmt::Display for LinkFault {
    ghost use Rattle.std.specs.Prelude.{Some, codes};

    ghost output = { λ _. Some (codes "link fault") };

    fn fmt<W: fmt::Write>(&self, f: &mut fmt::Formatter<W>) -> fmt::Result {
        f.write_str("link fault")
    }
}

impl Error for LinkFault {}

/// Links that come one after another, what is said to the operator, and the clock.
///
/// A link stands from a `next_link` that answered true up to the next call of `next_link` or
/// `end_link`, whatever that answers. Every `Link` tells whether one stands, whether the standing
/// link was read to its end, whether `next_link` has answered false, and how often its calls
/// failed, a count below 2^64 that never falls. What the links received and sent, what was said
/// and what the clock gave is told or not told.
pub trait Link {
    /// What the links mean now.
    ghost link: { Self → LinkView };

    /// Calls of Link alone lead from the one to the other.
    ghost link_moved: { Self → Self → Type 0 };

    /// Ends the standing link and waits for the next: true where it stands, false where no more
    /// come. After a false it never answers true again. At an `Err` no link stands.
    fn next_link(&mut self) -> Result<bool, LinkFault>
        ensures moved { link_moved self.old self.new }
        ensures cause { HasCause (link self.old).faults (link self.new).faults result }
        ensures over { IfOk result (λ more. IsTrue more → (link self.old).over ≡ false) }
        ensures taken { IfOk result (λ more. link self.new ≡ (if more then next_taken (link self.old) else none_left (link self.old))) }
        ensures failed { OnErr result (link self.new ≡ record (link self.old) { stands = false; faults = (link self.new).faults }) };

    /// Receives the next bytes of the standing link, at most as many as `buf` has room for, and
    /// answers how many. 0 for a `buf` that isn't empty says that the link was read to its end;
    /// from then on each answer is 0. At an `Err` no byte was received. Behind the bytes received, and
    /// at an `Err`, what `buf` holds is unspecified.
    fn recv(&mut self, buf: &mut [u8]) -> Result<usize, LinkFault>
        requires { IsTrue (link self.old).stands }
        ensures moved { link_moved self.old self.new }
        ensures cause { HasCause (link self.old).faults (link self.new).faults result }
        ensures room { IfOk result (λ n. n ≤ length buf.old) }
        ensures heard { IfOk result (λ n. 0 < n ⊎ (length buf.old ≡ 0) → link self.new ≡ after_recv (take n buf.new) (link self.old)) }
        ensures end { IfOk result (λ n. n ≡ 0 → 0 < length buf.old → link self.new ≡ after_eof (link self.old)) }
        ensures stays_at_end { IfOk result (λ n. IsTrue (link self.old).at_end → n ≡ 0) }
        ensures failed { OnErr result (Failed (link self.old) (link self.new)) };

    /// Sends a prefix of the bytes on the standing link, at least one byte where there is
    /// one, and answers how many. At an `Err` no byte was sent.
    fn send(&mut self, bytes: &[u8]) -> Result<usize, LinkFault>
        requires { IsTrue (link self.old).stands }
        ensures moved { link_moved self.old self.new }
        ensures cause { HasCause (link self.old).faults (link self.new).faults result }
        ensures room { IfOk result (λ n. n ≤ length bytes.now) }
        ensures some { IfOk result (λ n. 0 < length bytes.now → 0 < n) }
        ensures sent { IfOk result (λ n. link self.new
            ≡ after_send (take n bytes.now) (link self.old)) }
        ensures failed { OnErr result (Failed (link self.old) (link self.new)) };

    /// Ends the standing link, where one stands.
    fn end_link(&mut self)
        ensures moved { link_moved self.old self.new }
        ensures ended { link self.new ≡ record (link self.old) { stands = false } };

    /// Prints all bytes. At an `Err` some first part of them may have been printed.
    fn say(&mut self, bytes: &[u8]) -> Result<(), LinkFault>
        ensures moved { link_moved self.old self.new }
        ensures cause { HasCause (link self.old).faults (link self.new).faults result }
        ensures said { OnOk result (link self.new ≡ record (link self.old) { said = option_map (λ s. s ++ bytes.now) (link self.old).said }) }
        ensures failed { OnErr result (link self.new ≡ record (link self.old) { faults = (link self.new).faults; said = (link self.new).said }) }
        ensures failed_said { OnErr result (Told (AddsPart bytes.now) (link self.old).said (link self.new).said) };

    /// The clock's reading.
    fn now(&mut self) -> Moment
        ensures moved { link_moved self.old self.new }
        ensures rest { link self.new ≡ record (link self.old) { readings = (link self.new).readings } }
        // Readings that are told after the call were told before it, and this one is the last of them.
        ensures read { (rs : List ℕ) → (link self.new).readings ≡ Some rs
            → (qs : List ℕ) × ((link self.old).readings ≡ Some qs) × (rs ≡ qs ++ result ∷ []) };

    /// What holds of the links at each moment.
    ghost is_link: { (a : Self) → IsLink (link a) };

    /// No call at all keeps the relation, and so do calls that follow one another.
    ghost link_stays: { (a : Self) → link_moved a a };

    ghost link_goes_on: { (a b c : Self) → link_moved a b → link_moved b c → link_moved a c };

    /// What calls of Link alone keep: the count of faults never falls, and the end stays the end.
    ghost link_goes: { (a b : Self) → link_moved a b → LinkGoes (link a) (link b) };
}
