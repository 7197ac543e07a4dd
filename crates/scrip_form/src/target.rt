ghost use Rattle.std.specs.Prelude.{◌≡◌, ◌↔◌, IsSome, IfSome};
ghost use Rattle.scrip_form.specs.Texts.{IsTarget};

use crate::small_text::SmallText;
use mc_fields::{TextRule, is_text};
use std::marker::Model;

/// What a request asks for: 1 to 512 bytes from hex 21 to hex 7e, the first a `/`. Contracts see it
/// as its bytes.
#[derive(Clone, Copy)]
pub struct Target {
    text: SmallText<512>,
}

impl Model for Target {
    ghost use Rattle.std.specs.Prelude.{ℕ, List};
    ghost use Rattle.scrip_form.specs.Texts.{IsTarget};

    ghost Value = { List ℕ };

    ghost view = { λ t. t.text };

    ghost invariant = { λ t. IsTarget t.text };

    ghost inverse = { λ bytes. record { text = bytes } };
}

impl Target {
    /// The target of these bytes; None exactly where they are no target.
    pub fn new(bytes: &[u8]) -> Option<Target>
        ensures valid { IsSome result ↔ IsTarget bytes.now }
        ensures value { IfSome result (λ t. t ≡ bytes.now) }
    {
        if is_text::<TargetRule>(bytes) {
            Some(Target {
                text: SmallText::of(bytes),
            })
        } else {
            None
        }
    }

    /// The bytes of the target.
    pub fn bytes(&self) -> &[u8]
        ensures value { result.now ≡ self.now }
        ensures target { IsTarget self.now }
    {
        self.text.bytes()
    }
}

/// How targets are spelled.
pub struct TargetRule;

impl TextRule for TargetRule {
    ghost use Rattle.scrip_form.specs.Texts.{is_slash, is_visible, slash_is_visible};

    ghost first = { is_slash };

    ghost other = { is_visible };

    ghost least = { 1 };

    ghost most = { 512 };

    fn may_follow(len: usize, byte: u8) -> bool {
        len < 512
            && if len == 0 {
                byte == b'/'
            } else {
                matches!(byte, 0x21..=0x7e)
            }
    }

    fn may_end(len: usize) -> bool {
        len >= 1
    }

    ghost begins_fit = { slash_is_visible };
}
