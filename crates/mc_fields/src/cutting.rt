ghost use Rattle.std.specs.Prelude.{◌≡◌, option_map};
ghost use Rattle.mc_fields.specs.Cuts.{cut};

/// What stands before the first such byte, and what behind it; None exactly where there is none.
pub fn cut(stop: u8, bytes: &[u8]) -> Option<(&[u8], &[u8])>
    ensures { option_map (λ x. (x.0.now, x.1.now)) result ≡ cut stop bytes.now }
{
    for (place, byte) in bytes.iter().enumerate() {
        if *byte == stop {
            return Some((&bytes[..place], &bytes[place + 1..]));
        }
    }
    None
}
