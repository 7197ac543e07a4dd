ghost use Rattle.std.specs.Prelude.{◌≡◌, option_map};
ghost use Rattle.licence_lines.specs.Fields.{six_words, fields_of};
ghost use Rattle.licence_lines.specs.Views.{fields};

use mc_fields::cut;

/// The words of a licence line behind its first, as they stand.
#[derive(Drop)]
pub(crate) struct Words<'a> {
    pub(crate) vendor: &'a [u8],
    pub(crate) issuer: &'a [u8],
    pub(crate) period: &'a [u8],
    pub(crate) life: &'a [u8],
    pub(crate) scrip: &'a [u8],
    pub(crate) customer: &'a [u8],
}

/// The words of a line that begins with `licence`; None exactly where it has not so many.
pub(crate) fn words_of(line: &[u8]) -> Option<Words<'_>>
    ensures { option_map fields result ≡ fields_of line.now }
{
    let (word, rest) = cut(b' ', line)?;
    if word != b"licence".as_slice() {
        return None;
    }
    six_words(rest)
}

/// Six words with a space between each two.
fn six_words(line: &[u8]) -> Option<Words<'_>>
    ensures { option_map fields result ≡ six_words line.now }
{
    let (vendor, rest) = cut(b' ', line)?;
    let (issuer, rest) = cut(b' ', rest)?;
    let (period, rest) = cut(b' ', rest)?;
    let (life, rest) = cut(b' ', rest)?;
    let (scrip, customer) = cut(b' ', rest)?;
    Some(Words {
        vendor,
        issuer,
        period,
        life,
        scrip,
        customer,
    })
}
