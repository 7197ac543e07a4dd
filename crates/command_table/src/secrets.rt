ghost use Rattle.std.specs.Prelude.{◌≡◌, ℕ, List, map, string_bytes, IfSome, IsNone, IsTrue, ◌↔◌};
ghost use Rattle.hex.specs.Hex.{encode_lower};
ghost use Rattle.scrip_form.specs.Scrip.{IsCert};
ghost use Rattle.command_table.specs.Ranges.{IsSecretList, joined};
ghost use Rattle.std.specs.List.{list_any};
ghost use Rattle.command_table.specs.Parameters.{is_secret};
ghost use Rattle.command_table.specs.Secrets.{ReadSecrets};

use crate::parameter::Parameter;
use crate::table::named;
use mc_fields::read_hex;
use scrip_form::Secrets;

/// The secrets that a word spells, each as 32 lower-case hex digits, with a comma between each two;
/// None exactly where it spells none or more than 16.
pub fn secrets_of(word: &[u8]) -> Option<Secrets>
    ensures range { IfSome result IsSecretList }
    ensures spelled { IfSome result (λ secrets. word.now ≡ joined secrets) }
    ensures none { IsNone result → (secrets : List (List ℕ)) → IsSecretList secrets
        → word.now ≡ joined secrets → ⊥ }
{
    let mut list = [[0; 16]; 16];
    let mut rest = word;
    for i in 0..16 {
        let Ok(found) = read_hex(rest) else {
            return None;
        };
        let (secret, behind) = found;
        list[i] = secret;
        let Some((next, more)) = behind.split_first() else {
            return Secrets::new(&list[..=i]);
        };
        if *next != b',' {
            return None;
        }
        rest = more;
    }
    None
}

/// The secret that a word spells as 32 lower-case hex digits; None exactly where it spells none.
pub(crate) fn secret_of(word: &[u8]) -> Option<[u8; 16]>
    ensures range { IfSome result IsCert }
    ensures spelled { IfSome result (λ secret. word.now ≡ encode_lower secret) }
    ensures none { IsNone result → (secret : List ℕ) → IsCert secret
        → word.now ≡ encode_lower secret → ⊥ }
{
    let Ok(found) = read_hex(word) else {
        return None;
    };
    let (secret, behind) = found;
    if !behind.is_empty() {
        return None;
    }
    Some(secret)
}

/// Whether the words begin as those of a command that reads secrets.
pub fn reads_secrets(words: &[String]) -> bool
    ensures { IsTrue result ↔ ReadSecrets (map string_bytes words.now) }
{
    match named(words) {
        Some(name) => have_secrets(name.form().parameters),
        None => false,
    }
}

/// Whether one of the parameters has words that are secrets.
fn have_secrets(parameters: &[Parameter]) -> bool
    ensures { result ≡ list_any is_secret parameters.now }
{
    parameters.iter().any(|parameter| parameter.is_secret())
}
