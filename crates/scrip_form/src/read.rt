ghost use Rattle.std.specs.Prelude.{◌≡◌, ◌↔◌, IfOk, IfErr, IsOk, MatchResult, Ok, Err};
ghost use Rattle.mc_fields.specs.Gives.{Gives};
ghost use Rattle.scrip_form.specs.Reading.{id_at, is_scrip, scrip_at, scrip_of};
ghost use Rattle.scrip_form.specs.Scrip.{IsPiece, IsTextOf, IsScripText, IsFaultPlace};
ghost use Rattle.scrip_form.specs.PieceOf.{piece_of};

use crate::id::Id;
use crate::name::{Name, read_name};
use crate::piece::Piece;
use crate::props::{Props, PropsRule};
use crate::scrip_ref::ScripRef;
use mc_base::Amount;
use mc_fields::{Stuck, read_hex, read_literal, read_number, read_text};

/// The bytes are no scrip text.
#[derive(Clone, Copy, Debug, PartialEq, Eq)]
pub struct FormFault {
    /// The length of the longest prefix of the bytes that is a prefix of some scrip text.
    pub place: usize,
}

/// The piece and the certificate that the bytes are the text of; Ok exactly where they are a scrip
/// text.
pub fn read_scrip(bytes: &[u8]) -> Result<ScripRef<'_>, FormFault>
    ensures found { IfOk result (λ s. (s.text ≡ bytes.now) × IsTextOf bytes.now s.piece s.cert) }
    ensures exact { IsOk result ↔ IsScripText bytes.now }
    ensures fault { IfErr result (λ f. IsFaultPlace bytes.now f.place) }
    ensures same { MatchResult result (λ s. scrip_of bytes.now ≡ Ok (s.piece, s.cert)) (λ f. scrip_of bytes.now ≡ Err f.place) }
{
    let fields = match read_fields(bytes) {
        Ok(fields) => fields,
        Err(stuck) => return Err(FormFault {
            place: bytes.len() - stuck.left,
        }),
    };
    if !fields.rest.is_empty() {
        return Err(FormFault {
            place: bytes.len() - fields.rest.len(),
        });
    }
    Ok(ScripRef::of(bytes, fields.piece(), fields.cert))
}

/// Whether the bytes are a scrip text, where its piece is not wanted.
#[tactic(auto, unfolding(crate::specs::Reading::is_scrip, crate::specs::Reading::scrip_of))]
pub fn is_scrip(bytes: &[u8]) -> bool
    ensures { result ≡ is_scrip bytes.now }
{
    match read_fields(bytes) {
        Ok(fields) => fields.rest.is_empty(),
        Err(_) => false,
    }
}

/// What was read of a text.
#[derive(Clone, Copy)]
struct Fields<'a> {
    version: u64,
    vendor: &'a [u8],
    value: u64,
    id: u64,
    cust: u64,
    expires: u64,
    props: &'a [u8],
    cert: [u8; 16],
    /// The bytes after it.
    rest: &'a [u8],
}

impl Fields<'_> {
    fn piece(&self) -> Piece
        requires { IsPiece (piece_of self.now) }
        ensures { result ≡ piece_of self.now }
    {
        let value = Amount::new(self.value).unwrap();
        Piece::of(
            self.version as u8,
            Name::of(self.vendor),
            value,
            Id::of_number(self.id),
            Id::of_number(self.cust),
            self.expires,
            Props::of(self.props),
        )
    }
}

/// The fields from the front of the bytes.
#[tactic(auto, unfolding(crate::specs::Reading::scrip_at))]
fn read_fields(bytes: &[u8]) -> Result<Fields<'_>, Stuck>
    ensures { Gives (λ f. ((piece_of f, f.cert), f.rest.now)) result (scrip_at bytes.now) }
{
    let rest = read_literal(b"MS", bytes)?;
    let (version, rest) = read_number(u64::from(Piece::LATEST_VERSION), b'|', rest)?;
    let (vendor, rest) = read_name(b'|', rest)?;
    let (value, rest) = read_number(Amount::MOST, b'|', rest)?;
    let (id, rest) = read_id(rest)?;
    let (cust, rest) = read_id(rest)?;
    let (expires, rest) = read_number(Piece::LAST_END, b'|', rest)?;
    let (props, rest) = read_text::<PropsRule>(b'|', rest)?;
    let (cert, rest) = read_hex::<16>(rest)?;
    Ok(Fields {
        version,
        vendor,
        value,
        id,
        cust,
        expires,
        props,
        cert,
        rest,
    })
}

/// The number of an identity, as 16 digits, and a `|`.
#[tactic(auto, unfolding(crate::specs::Reading::id_at))]
fn read_id(bytes: &[u8]) -> Result<(u64, &[u8]), Stuck>
    ensures { Gives (λ x. (x.0, x.1.now)) result (id_at bytes.now) }
{
    let (digits, rest) = read_hex::<8>(bytes)?;
    let rest = read_literal(b"|", rest)?;
    Ok((u64::from_be_bytes(digits), rest))
}
