ghost use Rattle.std.specs.Prelude.{◌≡◌, ◌↔◌, ◌<◌, ◌≤◌, ℕ, length, replicate, IsSome, IfSome};
ghost use Rattle.scrip_form.specs.Padded.{padded};

use std::marker::Model;

/// The secrets of an issuer, of one kind: 1 to 16 of them, of 16 bytes each, numbered from 0.
/// Contracts see them as the list of the secrets.
#[derive(Clone, Copy)]
pub struct Secrets {
    len: usize,
    list: [[u8; 16]; 16],
}

impl Model for Secrets {
    ghost use Rattle.std.specs.Prelude.{ℕ, List, length, take, replicate, ◌<◌};
    ghost use Rattle.scrip_form.specs.Padded.{IsPadded, padded, inverse_of_padded};

    ghost Value = { List (List ℕ) };

    ghost view = { λ s. take s.len s.list };

    ghost invariant = { λ s. (0 < s.len) × IsPadded (replicate 16 0) 16 s.len s.list };

    ghost inverse = { λ t. record { len = length t; list = padded (replicate 16 0) 16 t } };

    ghost inverse_ok = { λ s h. inverse_of_padded (λ len list. record { len = len; list = list }) (replicate 16 0) 16 s.len s.list h.1 };
}

impl Secrets {
    /// These secrets; None exactly where the list has none or more than 16.
    #[tactic(auto, using(crate::proofs::PaddedLemmas::padded_lemmas))]
    pub fn new(list: &[[u8; 16]]) -> Option<Secrets>
        ensures valid { IsSome result ↔ ((0 < length list.now) × (length list.now ≤ 16)) }
        ensures value { IfSome result (λ s. s ≡ list.now) }
    {
        if list.is_empty() || list.len() > 16 {
            return None;
        }
        Some(Secrets {
            len: list.len(),
            list: with_no_secrets(list),
        })
    }

    /// The list that the secrets were made of.
    pub fn list(&self) -> &[[u8; 16]]
        ensures value { result.now ≡ self.now }
        ensures some { 0 < length self.now }
        ensures few { length self.now ≤ 16 }
    {
        &self.list[..self.len]
    }
}

/// The secrets, with zeros behind them.
fn with_no_secrets<const N: usize>(list: &[[u8; 16]]) -> [[u8; 16]; N]
    requires { length list.now ≤ N }
    ensures { result ≡ padded (replicate 16 0) N list.now }
{
    let mut array = [[0; 16]; N];
    array[..list.len()].copy_from_slice(list);
    array
}
