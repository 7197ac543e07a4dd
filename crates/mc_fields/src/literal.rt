ghost use Rattle.mc_fields.specs.Reading.{literal_at};
ghost use Rattle.mc_fields.specs.Gives.{Gives};

use crate::stuck::Stuck;

/// The bytes after these very bytes.
pub fn read_literal<'a>(text: &[u8], bytes: &'a [u8]) -> Result<&'a [u8], Stuck>
    ensures { Gives (λ rest. (tt, rest.now)) result (literal_at text.now bytes.now) }
{
    let mut rest = bytes;
    for wanted in text {
        let Some((byte, tail)) = rest.split_first() else {
            return Err(Stuck { left: 0 });
        };
        if byte != wanted {
            return Err(Stuck { left: rest.len() });
        }
        rest = tail;
    }
    Ok(rest)
}
