//! Readers of the parts of a line, from the front of the bytes.

ghost use Rattle.std.specs.Prelude.{◌≤◌, length, IfOk};
ghost use Rattle.mc_fields.specs.Gives.{Gives};
ghost use Rattle.scrip_form.specs.Reading.{scrip_at};
ghost use Rattle.mc_records.specs.Views.{held_of};
ghost use Rattle.piece_lines.specs.Rules.{passes};
ghost use Rattle.piece_lines.specs.PieceLines.{secret_at, line_at};

use crate::rule::PieceRule;
use mc_fields::{Stuck, read_hex, read_literal};
use scrip_form::{ScripRef, read_scrip};

/// The scrip text at the front, and the bytes behind it. No scrip text begins another, so that it ends
/// where the bytes stop being the front of one.
fn scrip(bytes: &[u8]) -> Result<(ScripRef<'_>, &[u8]), Stuck>
    ensures { Gives (λ x. ((x.0.piece, x.0.cert), x.1.now)) result (scrip_at bytes.now) }
{
    let place = match read_scrip(bytes) {
        Ok(scrip) => return Ok((scrip, &bytes[bytes.len()..])),
        Err(fault) => fault.place,
    };
    let (text, rest) = bytes.split_at(place);
    match read_scrip(text) {
        Ok(scrip) => Ok((scrip, rest)),
        Err(_) => Err(Stuck { left: rest.len() }),
    }
}

/// Reads the space, the 32 digits of a secret and the LF that stand behind the text of a piece line, from the front
/// of some bytes. Answers the secret and the bytes behind it; `Err` tells how many were left where they break. It
/// takes no memory.
#[tactic(auto, unfolding(crate::specs::PieceLines::secret_at))]
pub fn read_secret(bytes: &[u8]) -> Result<([u8; 16], &[u8]), Stuck>
    ensures { Gives (λ x. (x.0, x.1.now)) result (secret_at bytes.now) }
{
    let rest = read_literal(b" ", bytes)?;
    let (secret, rest) = read_hex::<16>(rest)?;
    let rest = read_literal(b"\n", rest)?;
    Ok((secret, rest))
}

/// The line at the front: its text and its secret, and the bytes behind it.
#[tactic(auto, unfolding(crate::specs::PieceLines::line_at))]
pub(crate) fn line<'a>(
    bytes: &'a [u8],
    rule: &PieceRule,
) -> Result<((&'a [u8], [u8; 16]), &'a [u8]), Stuck>
    ensures gives { Gives (λ x. (held_of x.0, x.1.now)) result (line_at (passes rule.now) bytes.now) }
    ensures short { IfOk result (λ x. length x.0.0.now ≤ 293) }
{
    let (scrip, rest) = scrip(bytes)?;
    let text = scrip.text();
    let (secret, rest) = read_secret(rest)?;
    if !rule.passes(&scrip.piece()) {
        return Err(Stuck { left: bytes.len() });
    }
    Ok(((text, secret), rest))
}
