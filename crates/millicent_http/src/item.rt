ghost use Rattle.std.specs.Prelude.{◌≡◌, ◌↔◌, ◌⊎◌, true};
ghost use Rattle.millicent_http.specs.Items.{closes};
ghost use Rattle.millicent_http.specs.Takes.{item_of};

use mc_requests::{Refusal, Request};

/// Why a head is refused.
#[derive(Clone, Copy, Debug, PartialEq, Eq)]
pub enum HeadRefusal {
    /// 10: The bytes up to the first empty line are no head of a request.
    BadHead,
    /// 11: A head of more than 8,192 bytes, the line ends before it included.
    HeadTooLarge,
    /// 12: No Host field where there must be one, more than one, or one that is no host.
    NoHost,
    /// 13: The head says that a body follows.
    BodyRefused,
    /// 14: The target is no target of this protocol.
    BadTarget,
    /// 15: The method is not GET.
    BadMethod,
    /// 16: A Millicent field stands there twice.
    RepeatedField,
}

impl From<HeadRefusal> for Refusal {
    ghost use Rattle.std.specs.Prelude.{◌≡◌};
    ghost use Rattle.millicent_http.specs.HeadRefusals.{as_refusal};

    ghost from_gives = { λ head refusal. refusal ≡ as_refusal head };

    fn from(head: HeadRefusal) -> Refusal {
        match head {
            HeadRefusal::BadHead => Refusal::BadHead,
            HeadRefusal::HeadTooLarge => Refusal::HeadTooLarge,
            HeadRefusal::NoHost => Refusal::NoHost,
            HeadRefusal::BodyRefused => Refusal::BodyRefused,
            HeadRefusal::BadTarget => Refusal::BadTarget,
            HeadRefusal::BadMethod => Refusal::BadMethod,
            HeadRefusal::RepeatedField => Refusal::RepeatedField,
        }
    }
}

/// What becomes of the link after the reply.
#[derive(Clone, Copy, Debug, PartialEq, Eq)]
pub enum After {
    /// The next head may follow.
    GoOn,
    /// The link is to be ended.
    Close,
}

impl After {
    pub(crate) fn of(closes: bool, last: bool) -> After
        ensures { (result ≡ After.Close) ↔ ((closes ≡ true) ⊎ (last ≡ true)) }
    {
        if closes || last {
            After::Close
        } else {
            After::GoOn
        }
    }
}

/// What a reader of heads found on the link.
#[derive(Drop)]
pub enum HeadOut<'a> {
    /// A request.
    Head(Request<'a>, After),
    /// A head that is refused.
    Refused(HeadRefusal, After),
    /// The link was read to its end, and the bytes held end no item.
    End,
    /// The link failed. The bytes held stay, so that a later call goes on with them.
    Fault,
}

/// An item on a link, and whether the link ends after the reply to it.
#[derive(Drop)]
pub enum ItemRef<'a> {
    /// A request.
    Request(Request<'a>, bool),
    /// A head that is refused.
    Refused(HeadRefusal, bool),
}

impl ItemRef<'_> {
    /// Whether the link ends after the reply to it.
    pub fn closes(&self) -> bool
        ensures { result ≡ closes (item_of self.now) }
    {
        match self {
            ItemRef::Request(_, closes) | ItemRef::Refused(_, closes) => *closes,
        }
    }
}
