ghost use Rattle.std.specs.Prelude.{◌≡◌, ◌+◌, ◌-◌, ◌≤◌, ◌++◌, length, take};
ghost use Rattle.hex.specs.Hex.{encode_lower};
ghost use Rattle.scrip_form.specs.Scrip.{IsTextOf, scrip_body, barred, id_digits};

use crate::id::Id;
use crate::piece::Piece;
use itoa::Buffer;
use mc_fields::put;

/// Writes the text of the piece and the certificate to the front of `out`, and answers its length,
/// which is at most 293. The last 32 bytes of the text are the certificate, and those before them the
/// body.
pub fn write_scrip(p: &Piece, cert: &[u8; 16], out: &mut [u8; 512]) -> usize
    ensures short { result ≤ 293 }
    ensures long { 32 ≤ result }
    ensures text { IsTextOf (take result out.new) p.now cert.now }
    ensures body { take (result - 32) out.new ≡ scrip_body p.now }
{
    let _vendor = p.vendor();
    let body = write_body(p, out);
    put(out, body, &digits_of_cert(cert))
}

/// Writes the body of the text of the piece, which is the text before its certificate, to the front of `out`, and
/// answers its length, which is at most 261.
pub fn write_body(p: &Piece, out: &mut [u8; 512]) -> usize
    ensures short { result ≤ 261 }
    ensures body { take result out.new ≡ scrip_body p.now }
{
    let (vendor, props) = (p.vendor(), p.props());
    let (mut version, mut value, mut expires) = (Buffer::new(), Buffer::new(), Buffer::new());
    let at = put(out, 0, b"MS");
    let at = put_field(out, at, version.format(u64::from(p.version())).as_bytes());
    let at = put_field(out, at, vendor.bytes());
    let at = put_field(out, at, value.format(p.value().get()).as_bytes());
    let at = put_field(out, at, &digits_of_id(p.id()));
    let at = put_field(out, at, &digits_of_id(p.cust()));
    let at = put_field(out, at, expires.format(p.expires()).as_bytes());
    put_field(out, at, props.bytes())
}

/// Writes a field and its `|`.
fn put_field(out: &mut [u8; 512], at: usize, field: &[u8]) -> usize
    requires { at + length field.now + 1 ≤ 512 }
    ensures end { result ≡ at + length field.now + 1 }
    ensures written { take result out.new ≡ take at out.old ++ barred field.now }
{
    let at = put(out, at, field);
    put(out, at, b"|")
}

/// The 16 lower-case hex digits of an identity, as a scrip text and lines tell it.
pub fn digits_of_id(id: Id) -> [u8; 16]
    ensures { result ≡ id_digits id }
{
    let mut digits = [0; 16];
    hex::encode_to_slice(id.number().to_be_bytes(), &mut digits).unwrap();
    digits
}

fn digits_of_cert(cert: &[u8; 16]) -> [u8; 32]
    ensures { result ≡ encode_lower cert.now }
{
    let mut digits = [0; 32];
    hex::encode_to_slice(cert, &mut digits).unwrap();
    digits
}
