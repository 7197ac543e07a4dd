ghost use Rattle.std.specs.Prelude.{◌≡◌, ◌↔◌, false, IsSome, IfSome, IfOk};
ghost use Rattle.mc_fields.specs.Gives.{Gives};
ghost use Rattle.scrip_form.specs.Texts as texts;
ghost use Rattle.scrip_form.specs.Texts.{IsName};
ghost use Rattle.scrip_form.specs.Reading.{name_until};

use crate::small_text::SmallText;
use mc_fields::{Stuck, TextRule, is_text, read_text};
use std::marker::Model;

/// The name of a vendor, a broker, a wallet or an account, or a reference: 1 to 63 bytes of `a` to
/// `z`, `0` to `9`, `-` and `.`, the first a letter or a digit. Contracts see it as its bytes.
#[derive(Clone, Copy)]
pub struct Name {
    text: SmallText<63>,
}

impl Model for Name {
    ghost use Rattle.std.specs.Prelude.{ℕ, List};
    ghost use Rattle.scrip_form.specs.Texts.{IsName};

    ghost Value = { List ℕ };

    ghost view = { λ n. n.text };

    ghost invariant = { λ n. IsName n.text };

    ghost inverse = { λ bytes. record { text = bytes } };
}

impl Name {
    /// The name of these bytes; None exactly where they are no name.
    pub fn new(bytes: &[u8]) -> Option<Name>
        ensures valid { IsSome result ↔ IsName bytes.now }
        ensures value { IfSome result (λ n. n ≡ bytes.now) }
    {
        if is_text::<NameRule>(bytes) {
            Some(Name::of(bytes))
        } else {
            None
        }
    }

    pub(crate) fn of(bytes: &[u8]) -> Name
        requires { IsName bytes.now }
        ensures { result ≡ bytes.now }
    {
        Name {
            text: SmallText::of(bytes),
        }
    }

    /// The bytes of the name.
    pub fn bytes(&self) -> &[u8]
        ensures value { result.now ≡ self.now }
        ensures name { IsName self.now }
    {
        self.text.bytes()
    }
}

/// How names are spelled.
pub struct NameRule;

impl TextRule for NameRule {
    ghost use Rattle.std.specs.Prelude.{ℕ, Bool};
    ghost use Rattle.scrip_form.specs.Texts.{is_letter_or_digit, is_name_byte, letter_is_name_byte};

    ghost first = { is_letter_or_digit };

    ghost other = { is_name_byte };

    ghost least = { 1 };

    ghost most = { 63 };

    fn may_follow(len: usize, byte: u8) -> bool {
        len < 63 && (is_letter_or_digit(byte) || len > 0 && matches!(byte, b'-' | b'.'))
    }

    fn may_end(len: usize) -> bool {
        len >= 1
    }

    ghost begins_fit = { letter_is_name_byte };
}

/// A letter from `a` to `z` or a digit.
pub(crate) fn is_letter_or_digit(byte: u8) -> bool
    ensures { result ≡ texts.is_letter_or_digit byte }
{
    matches!(byte, b'a'..=b'z' | b'0'..=b'9')
}

/// A name up to the byte that stops it, and the bytes behind that one.
pub fn read_name(stop: u8, bytes: &[u8]) -> Result<(&[u8], &[u8]), Stuck>
    requires { texts.is_name_byte stop ≡ false }
    ensures gives { Gives (λ x. (x.0.now, x.1.now)) result (name_until stop bytes.now) }
    ensures name { IfOk result (λ x. IsName x.0.now) }
{
    read_text::<NameRule>(stop, bytes)
}
