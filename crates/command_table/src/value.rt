ghost use Rattle.std.specs.Prelude.{◌≡◌, ◌≤◌, ℕ, List, Option, Some, length, IfSome, IsNone, option_map, decimal};
ghost use Rattle.std.specs.List.{list_all};
ghost use Rattle.hex.specs.Hex.{encode_lower};
ghost use Rattle.scrip_form.specs.Texts.{IsName, IsTarget};
ghost use Rattle.scrip_form.specs.Scrip.{IsCert};
ghost use Rattle.command_words.specs.Arguments.{value_of};
ghost use Rattle.command_table.specs.Ranges.{IsConnect, IsListen, IsPathOrAddress, IsSecretList, IsSocket, IsWithin, is_path_or_address, joined};

use crate::address::{is_connect, is_listen, is_socket};
use crate::secrets::{secret_of, secrets_of};
use command_words::Found;
use mc_fields::number_of;
use mc_records::MOST_CONTENTS;
use scrip_form::{Name, Secrets, Target};

/// The greatest number that a word may spell.
pub const MOST_NUMBER: u64 = 1 << 60;

/// The most bytes of a word that names a book, or a place to listen at or to connect to.
const MOST_PLACE: usize = 255;

/// The word of a book; None exactly where there is none.
pub(crate) fn spelled_place<'a>(found: &Found<'a>, name: &str) -> Option<&'a [u8]>
    ensures some { IfSome result
        (λ p. IsPathOrAddress p.now × (value_of found.now name.now ≡ Some p.now)) }
    ensures none { IsNone result → (p : List ℕ) → IsPathOrAddress p
        → value_of found.now name.now ≡ Some p → ⊥ }
{
    let word = found.value_of(name)?;
    if !is_place(word) {
        return None;
    }
    Some(word.as_bytes())
}

/// The word of a place to listen at, likewise.
pub(crate) fn spelled_listen<'a>(found: &Found<'a>, name: &str) -> Option<&'a [u8]>
    ensures some { IfSome result
        (λ p. IsListen p.now × (value_of found.now name.now ≡ Some p.now)) }
    ensures none { IsNone result → (p : List ℕ) → IsListen p
        → value_of found.now name.now ≡ Some p → ⊥ }
{
    let word = found.value_of(name)?;
    if !is_listen(word) {
        return None;
    }
    Some(word.as_bytes())
}

/// The word of a place to connect to, likewise.
pub(crate) fn spelled_connect<'a>(found: &Found<'a>, name: &str) -> Option<&'a [u8]>
    ensures some { IfSome result
        (λ p. IsConnect p.now × (value_of found.now name.now ≡ Some p.now)) }
    ensures none { IsNone result → (p : List ℕ) → IsConnect p
        → value_of found.now name.now ≡ Some p → ⊥ }
{
    let word = found.value_of(name)?;
    if !is_connect(word) {
        return None;
    }
    Some(word.as_bytes())
}

/// The place of a Unix socket that the value of an option is, where the option is there; None exactly where it is none.
pub(crate) fn spelled_socket<'a>(found: &Found<'a>, name: &str) -> Option<Option<&'a [u8]>>
    ensures some { IfSome result (λ o. IfSome o (λ p. IsSocket p.now)
        × (value_of found.now name.now ≡ option_map (λ p. p.now) o)) }
    ensures none { IsNone result → (o : Option (List ℕ)) → IfSome o IsSocket
        → value_of found.now name.now ≡ o → ⊥ }
{
    match found.value_of(name) {
        None => Some(None),
        Some(word) if is_socket(word) => Some(Some(word.as_bytes())),
        Some(_) => None,
    }
}

/// Whether the word has as many bytes as one that names a book or a place.
pub(crate) fn is_place(word: &str) -> bool
    ensures { result ≡ is_path_or_address word.now }
{
    0 < word.len() && word.len() <= MOST_PLACE
}

/// Whether each of the words may.
pub(crate) fn are_places(words: &[&str]) -> bool
    ensures { result ≡ list_all (λ word. is_path_or_address word.now) words.now }
{
    words.iter().all(|word| is_place(word))
}

/// The name that a word spells, likewise.
pub(crate) fn spelled_name(found: &Found<'_>, name: &str) -> Option<Name>
    ensures some { IfSome result (λ n. IsName n × (value_of found.now name.now ≡ Some n)) }
    ensures none { IsNone result → (n : List ℕ) → IsName n
        → value_of found.now name.now ≡ Some n → ⊥ }
{
    Name::new(found.value_of(name)?.as_bytes())
}

/// The target that a word spells, likewise.
pub(crate) fn spelled_target(found: &Found<'_>, name: &str) -> Option<Target>
    ensures some { IfSome result (λ t. IsTarget t × (value_of found.now name.now ≡ Some t)) }
    ensures none { IsNone result → (t : List ℕ) → IsTarget t
        → value_of found.now name.now ≡ Some t → ⊥ }
{
    Target::new(found.value_of(name)?.as_bytes())
}

/// The secret that a word spells, likewise.
pub(crate) fn spelled_secret(found: &Found<'_>, name: &str) -> Option<[u8; 16]>
    ensures some { IfSome result
        (λ s. IsCert s × (value_of found.now name.now ≡ Some (encode_lower s))) }
    ensures none { IsNone result → (s : List ℕ) → IsCert s
        → value_of found.now name.now ≡ Some (encode_lower s) → ⊥ }
{
    secret_of(found.value_of(name)?.as_bytes())
}

/// The secrets that a word spells, likewise.
pub(crate) fn spelled_secrets(found: &Found<'_>, name: &str) -> Option<Secrets>
    ensures some { IfSome result
        (λ s. IsSecretList s × (value_of found.now name.now ≡ Some (joined s))) }
    ensures none { IsNone result → (s : List (List ℕ)) → IsSecretList s
        → value_of found.now name.now ≡ Some (joined s) → ⊥ }
{
    secrets_of(found.value_of(name)?.as_bytes())
}

/// The contents that a word is, likewise.
pub(crate) fn spelled_contents<'a>(found: &Found<'a>, name: &str) -> Option<&'a [u8]>
    ensures some { IfSome result
        (λ c. (length c.now ≤ MOST_CONTENTS) × (value_of found.now name.now ≡ Some c.now)) }
    ensures none { IsNone result → (c : List ℕ) → length c ≤ MOST_CONTENTS
        → value_of found.now name.now ≡ Some c → ⊥ }
{
    let contents = found.value_of(name)?.as_bytes();
    if contents.len() > MOST_CONTENTS {
        return None;
    }
    Some(contents)
}

/// The number from `least` to `most` that a word spells, likewise.
pub(crate) fn spelled_number(found: &Found<'_>, name: &str, least: u64, most: u64) -> Option<u64>
    requires { most ≤ MOST_NUMBER }
    ensures some { IfSome result
        (λ n. IsWithin least most n × (value_of found.now name.now ≡ Some (decimal n))) }
    ensures none { IsNone result → (n : ℕ) → IsWithin least most n
        → value_of found.now name.now ≡ Some (decimal n) → ⊥ }
{
    number_from(least, most, found.value_of(name)?.as_bytes())
}

/// The number from `least` to `most` that the value of an option spells, where the option is there; None
/// exactly where it spells none.
pub(crate) fn spelled_option(
    found: &Found<'_>,
    name: &str,
    least: u64,
    most: u64,
) -> Option<Option<u64>>
    requires { most ≤ MOST_NUMBER }
    ensures some { IfSome result (λ o. IfSome o (IsWithin least most)
        × (value_of found.now name.now ≡ option_map decimal o)) }
    ensures none { IsNone result → (o : Option ℕ) → IfSome o (IsWithin least most)
        → value_of found.now name.now ≡ option_map decimal o → ⊥ }
{
    match found.value_of(name) {
        None => Some(None),
        Some(word) => Some(Some(number_from(least, most, word.as_bytes())?)),
    }
}

/// The number from `least` to `most` that the bytes spell whole, in decimal and without a leading zero;
/// None exactly where they spell none.
pub fn number_from(least: u64, most: u64, bytes: &[u8]) -> Option<u64>
    requires { most ≤ MOST_NUMBER }
    ensures some { IfSome result (λ n. IsWithin least most n × (bytes.now ≡ decimal n)) }
    ensures none { IsNone result → (n : ℕ) → IsWithin least most n → bytes.now ≡ decimal n → ⊥ }
{
    let n = number_or_zero(most, bytes)?;
    if n < least { None } else { Some(n) }
}

/// The number from 0 to `most` that the bytes spell, likewise.
fn number_or_zero(most: u64, bytes: &[u8]) -> Option<u64>
    requires { most ≤ MOST_NUMBER }
    ensures number { IfSome result (λ n. (n ≤ most) × (bytes.now ≡ decimal n)) }
    ensures none { IsNone result → (n : ℕ) → n ≤ most → bytes.now ≡ decimal n → ⊥ }
{
    if bytes == b"0".as_slice() {
        return Some(0);
    }
    number_of(most, bytes)
}
