ghost use Rattle.std.specs.Prelude.{◌≡◌, ℕ, List, IfSome, IsNone};
ghost use Rattle.scrip_form.specs.Issuing.{Issuing};
ghost use Rattle.mc_fields.specs.Texts.{IsNumber};
ghost use Rattle.command_table.specs.Ranges.{AreTerms};
ghost use Rattle.licence_lines.specs.Fields.{SpellTerms, fields_text, licence_fields};
ghost use Rattle.licence_lines.specs.Views.{fields};
ghost use Rattle.licence_lines.specs.Licences.{IsTold, LicenceFits};

use crate::fields::{Words, words_of};
use command_table::{number_from, secrets_of};
use mc_fields::cut;
use scrip_form::{Name, Terms};

/// The greatest number of an issuer.
const MOST_ISSUER: u64 = 255;

/// Reads an input that is one licence line: the vendor, and the terms of an issuer from 1 to 255. `Err` is the line
/// at which the input breaks: 0 for an empty input, 1 where it begins with no licence line, 2 where more bytes
/// follow.
pub fn read_licence_line(bytes: &[u8]) -> Result<(Name, Terms), u16>
    ensures { IsTold bytes.now result }
{
    if bytes.is_empty() {
        return Err(0);
    }
    let Some((line, rest)) = cut(b'\n', bytes) else {
        return Err(1);
    };
    let Some(licence) = licence_of(line) else {
        return Err(1);
    };
    if !rest.is_empty() {
        return Err(2);
    }
    Ok(licence)
}

/// The licence that a line spells, without its LF; None exactly where it spells none.
fn licence_of(line: &[u8]) -> Option<(Name, Terms)>
    ensures some { IfSome result
        (λ x. LicenceFits x.0 x.1 × (line.now ≡ fields_text (licence_fields x.0 x.1))) }
    ensures none { IsNone result → (vendor : List ℕ) (terms : Issuing) → LicenceFits vendor terms
        → line.now ≡ fields_text (licence_fields vendor terms) → ⊥ }
{
    let words = words_of(line)?;
    let vendor = Name::new(words.vendor)?;
    let terms = terms_of(&words)?;
    Some((vendor, terms))
}

/// The terms of an issuer above 0 that words spell; None exactly where they spell none.
fn terms_of(words: &Words<'_>) -> Option<Terms>
    ensures some { IfSome result
        (λ t. IsNumber MOST_ISSUER t.issuer × AreTerms t × SpellTerms (fields words.now) t) }
    ensures none { IsNone result → (t : Issuing) → IsNumber MOST_ISSUER t.issuer → AreTerms t
        → SpellTerms (fields words.now) t → ⊥ }
{
    let most = u64::from(Terms::MOST_SECONDS);
    let issuer = number_from(1, MOST_ISSUER, words.issuer)?;
    let period = number_from(1, most, words.period)?;
    let life = number_from(0, most, words.life)?;
    let scrip = secrets_of(words.scrip)?;
    let customer = secrets_of(words.customer)?;
    Terms::new(issuer as u8, period as u32, life as u32, scrip, customer)
}
