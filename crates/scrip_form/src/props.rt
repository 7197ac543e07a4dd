ghost use Rattle.std.specs.Prelude.{◌≡◌, ◌↔◌, IsSome, IfSome};
ghost use Rattle.scrip_form.specs.Texts.{IsProps};

use crate::name::is_letter_or_digit;
use crate::small_text::SmallText;
use mc_fields::{TextRule, is_text};
use std::marker::Model;

/// The properties of a piece, which its change keeps: 0 to 128 bytes of `a` to `z`, `0` to `9`,
/// `=`, `,`, `.` and `-`. Contracts see them as their bytes.
#[derive(Clone, Copy)]
pub struct Props {
    text: SmallText<128>,
}

impl Model for Props {
    ghost use Rattle.std.specs.Prelude.{ℕ, List};
    ghost use Rattle.scrip_form.specs.Texts.{IsProps};

    ghost Value = { List ℕ };

    ghost view = { λ p. p.text };

    ghost invariant = { λ p. IsProps p.text };

    ghost inverse = { λ bytes. record { text = bytes } };
}

impl Props {
    /// The properties of these bytes; None exactly where they are none.
    pub fn new(bytes: &[u8]) -> Option<Props>
        ensures valid { IsSome result ↔ IsProps bytes.now }
        ensures value { IfSome result (λ p. p ≡ bytes.now) }
    {
        if is_text::<PropsRule>(bytes) {
            Some(Props::of(bytes))
        } else {
            None
        }
    }

    pub(crate) fn of(bytes: &[u8]) -> Props
        requires { IsProps bytes.now }
        ensures { result ≡ bytes.now }
    {
        Props {
            text: SmallText::of(bytes),
        }
    }

    /// The bytes of the properties.
    pub fn bytes(&self) -> &[u8]
        ensures value { result.now ≡ self.now }
        ensures props { IsProps self.now }
    {
        self.text.bytes()
    }
}

/// How properties are spelled.
pub struct PropsRule;

impl TextRule for PropsRule {
    ghost use Rattle.scrip_form.specs.Texts.{is_props_byte};

    ghost first = { is_props_byte };

    ghost other = { is_props_byte };

    ghost least = { 0 };

    ghost most = { 128 };

    fn may_follow(len: usize, byte: u8) -> bool {
        len < 128 && (is_letter_or_digit(byte) || matches!(byte, b'=' | b',' | b'.' | b'-'))
    }

    fn may_end(_: usize) -> bool {
        true
    }

    ghost begins_fit = { λ c h. h };
}
