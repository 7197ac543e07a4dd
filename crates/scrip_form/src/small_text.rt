ghost use Rattle.std.specs.Prelude.{◌≡◌, ◌≤◌, length};
ghost use Rattle.scrip_form.specs.Padded.{padded};

use std::marker::Model;

/// A short text that is kept in place and copied, with zeros behind it. Contracts see it as the
/// list of its bytes.
#[derive(Clone, Copy)]
pub(crate) struct SmallText<const N: usize> {
    len: usize,
    bytes: [u8; N],
}

impl<const N: usize> Model for SmallText<N> {
    ghost use Rattle.std.specs.Prelude.{ℕ, List, length, take};
    ghost use Rattle.scrip_form.specs.Padded.{IsPadded, padded, inverse_of_padded};

    ghost Value = { List ℕ };

    ghost view = { λ t. take t.len t.bytes };

    ghost invariant = { λ t. IsPadded 0 N t.len t.bytes };

    ghost inverse = { λ bytes. record { len = length bytes; bytes = padded 0 N bytes } };

    ghost inverse_ok = { λ t h. inverse_of_padded (λ len bytes. record { len = len; bytes = bytes }) 0 N t.len t.bytes h };
}

impl<const N: usize> SmallText<N> {
    #[tactic(auto, using(crate::proofs::PaddedLemmas::padded_lemmas))]
    pub(crate) fn of(bytes: &[u8]) -> SmallText<N>
        requires { length bytes.now ≤ N }
        ensures { result ≡ bytes.now }
    {
        SmallText {
            len: bytes.len(),
            bytes: with_zeros(bytes),
        }
    }

    pub(crate) fn bytes(&self) -> &[u8]
        ensures { result.now ≡ self.now }
    {
        &self.bytes[..self.len]
    }
}

/// The bytes, with zeros behind them up to the length of the array.
pub fn with_zeros<const N: usize>(bytes: &[u8]) -> [u8; N]
    requires { length bytes.now ≤ N }
    ensures { result ≡ padded 0 N bytes.now }
{
    let mut array = [0; N];
    array[..bytes.len()].copy_from_slice(bytes);
    array
}
