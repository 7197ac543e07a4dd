//! Room for replies, and the head of a refusal.

ghost use Rattle.std.specs.Prelude.{◌≡◌};
ghost use Rattle.ledger_model.specs.Replies.{refused_values};
ghost use Rattle.millicent_http.specs.ReplyHeads.{IsReplyHead, reply_of};
ghost use Rattle.house_state.specs.Replying.{IsOfSite};

use link_turns::Page;
use mc_base::Moment;
use mc_requests::Refusal;
use millicent_http::ReplyHead;

/// Room in which replies are made, one after another. Whoever serves keeps one, and hands it down. What it
/// has after a call is free.
#[derive(Drop)]
pub struct ReplyRoom {
    pub(crate) signing: SigningRoom,
    /// For the text of the change.
    pub(crate) change: [u8; 512],
    /// For contents that are made for the reply.
    pub(crate) contents: [u8; 512],
}

/// Room for a reply that is signed.
#[derive(Drop)]
pub(crate) struct SigningRoom {
    /// For the text that is signed.
    pub(crate) text: [u8; 1024],
    pub(crate) page: Page,
}

impl ReplyRoom {
    /// Room for replies.
    pub fn new() -> ReplyRoom {
        ReplyRoom {
            signing: SigningRoom {
                text: [0; 1024],
                page: Page::new(),
            },
            change: [0; 512],
            contents: [0; 512],
        }
    }
}

/// The reply to a refusal, which is signed where there is a signature.
pub(crate) fn refusal_head(time: Moment, refusal: &Refusal, price: Option<u64>) -> ReplyHead<'_>
    requires { IsOfSite refusal.now }
    ensures values { reply_of result ≡ refused_values time refusal.now price }
    ensures head { IsReplyHead result }
{
    ReplyHead {
        status: refusal.status(),
        date: time,
        kind: None,
        length: 0,
        refusal: Some(refusal),
        price,
        change: None,
        sign: None,
    }
}
