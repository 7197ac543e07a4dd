ghost use Rattle.std.specs.Prelude.{◌≡◌, ◌<◌, ◌≤◌, length, take};
ghost use Rattle.scrip_form.specs.Issuing as issuing;
ghost use Rattle.scrip_form.specs.Scrip.{scrip_body, scrip_text};
ghost use Rattle.scrip_certs.specs.Digests as digests;

use crate::hasher::Hasher;
use crate::hex_text::hex_of;
use mc_fields::put;
use scrip_form::{Id, Piece, Terms, write_body};

/// The certificate of a piece: the digest of the body of its scrip text and of the scrip secret that
/// its identity selects, in the version of the body.
#[tactic(auto, unfolding(crate::specs::Digests::certificate))]
pub fn certificate(terms: &Terms, body: &[u8], id: Id) -> [u8; 16]
    ensures { result ≡ digests.certificate terms.now body.now id }
{
    let mut hasher = Hasher::of_text(body);
    hasher.update(body);
    hasher.update(&selected(terms.scrip(), id));
    hasher.finalize()
}

/// The certificate that a piece has under these terms.
pub fn certificate_of(terms: &Terms, piece: &Piece) -> [u8; 16]
    ensures { result ≡ digests.certificate terms.now (scrip_body piece.now) piece.now.id }
{
    let mut body = [0; 512];
    let len = write_body(piece, &mut body);
    certificate(terms, &body[..len], piece.id())
}

/// Writes the scrip text of a piece with the certificate that it has under these terms to the front of `out`, and
/// answers its length, which is at most 293.
pub fn write_certified(terms: &Terms, piece: &Piece, out: &mut [u8; 512]) -> usize
    ensures short { result ≤ 293 }
    ensures text { take result out.new
        ≡ scrip_text piece.now (digests.certificate terms.now (scrip_body piece.now) piece.now.id) }
{
    let body = write_body(piece, out);
    let cert = certificate(terms, &out[..body], piece.id());
    put(out, body, &hex_of(&cert))
}

/// The secret of a customer, which he is handed beside his first piece: the digest of the eight bytes
/// of his identity and of the customer secret that it selects in the terms of that identity's issuer, in
/// the version of the identity's series.
#[tactic(auto, unfolding(crate::specs::Digests::customer_secret))]
pub fn customer_secret(terms: &Terms, cust: Id, version: u8) -> [u8; 16]
    ensures { result ≡ digests.customer_secret terms.now cust version }
{
    let mut hasher = Hasher::of_version(version);
    hasher.update(&cust.number().to_be_bytes());
    hasher.update(&selected(terms.customer(), cust));
    hasher.finalize()
}

/// The secret that an identity selects: the one numbered by its epoch, modulo their count.
fn selected(secrets: &[[u8; 16]], id: Id) -> [u8; 16]
    requires { 0 < length secrets.now }
    ensures { result ≡ issuing.selected secrets.now id }
{
    let (_, epoch, _) = id.parts();
    secrets[epoch as usize % secrets.len()]
}
