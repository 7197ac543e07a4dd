ghost use Rattle.std.specs.Prelude.{◌≡◌, ℕ, List, IfSome, IsNone};
ghost use Rattle.command_table.specs.Parameters.{name_of};
ghost use Rattle.command_table.specs.Ranges.{IsSecretList};
ghost use Rattle.command_table.specs.Values.{IsFound};
ghost use Rattle.command_table.specs.declared.parameter.Shape.TheVariants.{One};
ghost use Rattle.command_table.specs.declared.parameter.Sort.TheVariants as sorts;

use command_table::{Parameter, secrets_in};
use command_words::Found;
use scrip_form::Secrets;
use std::marker::Model;

/// The secrets of an issuer, as a word spells them. Contracts see them as the list of the secrets.
#[derive(Clone, Copy)]
pub struct SecretList {
    list: Secrets,
}

impl Model for SecretList {
    ghost use Rattle.std.specs.Prelude.{ℕ, List};
    ghost use Rattle.command_table.specs.Ranges.{IsSecretList};

    ghost Value = { List (List ℕ) };

    ghost view = { λ s. s.list };

    ghost invariant = { λ s. IsSecretList s.list };

    ghost inverse = { λ list. record { list = list } };
}

impl SecretList {
    /// The secrets.
    pub fn get(self) -> Secrets
        ensures value { result ≡ self }
        ensures range { IsSecretList self }
    {
        self.list
    }
}

/// The secrets that a word spells; None exactly where it spells none.
pub(crate) fn secret_list_in(found: &Found<'_>, parameter: Parameter) -> Option<SecretList>
    ensures some { IfSome result (IsFound found.now (name_of parameter) (One sorts.Secrets)) }
    ensures none { IsNone result → (value : List (List ℕ))
        → IsFound found.now (name_of parameter) (One sorts.Secrets) value → ⊥ }
{
    Some(SecretList {
        list: secrets_in(found, parameter)?,
    })
}
