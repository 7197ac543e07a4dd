ghost use Rattle.std.specs.Prelude.{◌≡◌, ◌↔◌, IsSome, IfSome, IsTrue};
ghost use Rattle.hex.specs.Hex.{encode_lower};
ghost use Rattle.scrip_certs.specs.LowerHex.{IsLowerHex};

/// The digest as 32 lower-case hex digits, as texts have it.
pub fn hex_of(d: &[u8; 16]) -> [u8; 32]
    ensures { result ≡ encode_lower d.now }
{
    let mut digits = [0; 32];
    hex::encode_to_slice(d, &mut digits).unwrap();
    digits
}

/// The digest that a text spells; None exactly where the text is not 32 lower-case hex digits.
pub fn of_hex(t: &[u8]) -> Option<[u8; 16]>
    ensures found { IsSome result ↔ IsLowerHex 32 t.now }
    ensures value { IfSome result (λ d. encode_lower d ≡ t.now) }
{
    if !is_lower_hex(t) {
        return None;
    }
    let mut digest = [0; 16];
    hex::decode_to_slice(t, &mut digest).unwrap();
    Some(digest)
}

fn is_lower_hex(t: &[u8]) -> bool
    ensures { IsTrue result ↔ IsLowerHex 32 t.now }
{
    t.len() == 32
        && t.iter()
            .all(|byte| matches!(byte, b'0'..=b'9' | b'a'..=b'f'))
}
