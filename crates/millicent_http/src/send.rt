ghost use Rattle.std.specs.Prelude.{◌≡◌, ◌<◌, ℕ, length, take, OnOk, OnErr, IsTrue};
ghost use Rattle.mc_outside.specs.LinkView.{after_send, Failed};

use mc_outside::{Link, LinkFault};

/// Sends all bytes on the standing link. At an `Err` a prefix of them was sent, and not the
/// whole.
pub fn send_all<K: Link>(k: &mut K, bytes: &[u8]) -> Result<(), LinkFault>
    requires { IsTrue (K.link k.old).stands }
    ensures moved { K.link_moved k.old k.new }
    ensures sent { OnOk result (K.link k.new ≡ after_send bytes.now (K.link k.old)) }
    ensures fault { OnErr result ((n : ℕ) × (n < length bytes.now)
        × Failed (after_send (take n bytes.now) (K.link k.old)) (K.link k.new)) }
{
    let mut sent = 0;
    while sent < bytes.len() {
        sent += k.send(&bytes[sent..])?;
    }
    Ok(())
}
