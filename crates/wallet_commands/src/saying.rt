//! What is said of a reply, and saying it.

ghost use Rattle.std.specs.Prelude.{◌≡◌, OnOk, OnErr, Some};
ghost use Rattle.reply_reader.specs.Seen.{received_of};
ghost use Rattle.wallet_model.specs.Requests.{Pending};
ghost use Rattle.wallet_commands.specs.Saying.{contents_said, said_as, IsSaid, IsSaidInPart};

use mc_outside::{Link, LinkFault};
use reply_reader::ReplyRef;
use scrip_form::Name;

/// What a command says of the reply that settles its request.
#[derive(Clone, Copy, Drop)]
pub enum Saying {
    /// The contents that a get brings, before it is settled; of a buy or a draw the piece.
    Contents,
    /// The change of a renewal at this vendor, and none of its contents.
    Renewal(Name),
}

/// What is said of a reply before it settles a request of this kind.
pub(crate) fn said_first<'r>(saying: &Saying, kind: Option<u8>, reply: &ReplyRef<'r>) -> &'r [u8]
    ensures { (p : Pending) → kind ≡ Some p.ask
        → result.now ≡ said_as saying.now p (received_of reply.now) }
{
    match saying {
        Saying::Contents => contents_of(kind, reply),
        Saying::Renewal(_) => &[],
    }
}

/// The contents that a get brings, and of any other request nothing.
fn contents_of<'r>(kind: Option<u8>, reply: &ReplyRef<'r>) -> &'r [u8]
    ensures { (p : Pending) → kind ≡ Some p.ask
        → result.now ≡ contents_said p (received_of reply.now) }
{
    if kind == Some(0) && reply.status == 200 {
        reply.contents
    } else {
        &[]
    }
}

/// Says bytes, where there are some.
pub(crate) fn say_all<K: Link>(k: &mut K, bytes: &[u8]) -> Result<(), LinkFault>
    ensures moved { K.link_moved k.old k.new }
    ensures said { OnOk result (IsSaid bytes.now (K.link k.old) (K.link k.new)) }
    ensures failed { OnErr result (IsSaidInPart bytes.now (K.link k.old) (K.link k.new)) }
{
    if bytes.is_empty() {
        return Ok(());
    }
    k.say(bytes)
}
