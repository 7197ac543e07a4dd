//! Sending a request on the next link.

ghost use Rattle.std.specs.Prelude.{◌≡◌, IsTrue, OnOk, IfErr};
ghost use Rattle.mc_outside.specs.LinkView.{next_taken, after_send};
ghost use Rattle.wallet_commands.specs.Payments.{NotSent};

use mc_outside::{Link, LinkFault};
use millicent_http::send_all;

/// Why a request was not sent whole.
#[derive(Clone, Copy, Debug, PartialEq, Eq)]
pub(crate) enum SendFault {
    /// No link came.
    NoLink,
    /// A call of the links failed.
    Link,
}

/// Sends a request whole on the next link, which stands then.
pub(crate) fn send_request<K: Link>(k: &mut K, request: &[u8]) -> Result<(), SendFault>
    ensures moved { K.link_moved k.old k.new }
    ensures stands { OnOk result (IsTrue (K.link k.new).stands) }
    ensures sent { OnOk result (K.link k.new ≡ after_send request.now (next_taken (K.link k.old))) }
    ensures fault { IfErr result (λ fault. NotSent fault request.now (K.link k.old) (K.link k.new)) }
{
    match k.next_link() {
        Ok(true) => (),
        Ok(false) => return Err(SendFault::NoLink),
        Err(LinkFault) => return Err(SendFault::Link),
    }
    match send_all(k, request) {
        Ok(()) => Ok(()),
        Err(LinkFault) => Err(SendFault::Link),
    }
}
