//! What a client reads of an answer.

ghost use Rattle.std.specs.Prelude.{◌≡◌, ℕ, List, IfSome, IsSome, IsNone, IsTrue, option_map, decimal};
ghost use Rattle.door_wire.specs.Wire.{IsAnswer, answer_parts, is_doors};

use crate::told::is_spelled;
use mc_fields::cut;

/// The answer to a command: the number of the status that it ended with, and the line that is said of it.
#[derive(Clone, Copy, Drop)]
pub struct Answer<'a> {
    pub status: u8,
    pub line: &'a [u8],
}

/// Reads an answer that came whole; None exactly where the bytes are none.
pub fn read_answer(bytes: &[u8]) -> Option<Answer<'_>>
    ensures some { IfSome result (λ a. IsAnswer bytes.now a.status a.line.now) }
    ensures exact { (number : ℕ) (line : List ℕ) → IsAnswer bytes.now number line
        → IfSome result (λ a. (a.status ≡ number) × (a.line.now ≡ line)) × IsSome result }
{
    let (number, line) = answer_parts(bytes)?;
    let status = status_in(number)?;
    Some(Answer { status, line })
}

/// The number and the line of an answer, where its length is told as it is.
fn answer_parts(bytes: &[u8]) -> Option<(&[u8], &[u8])>
    ensures { option_map (λ x. (x.0.now, x.1.now)) result ≡ answer_parts bytes.now }
{
    let (head, line) = cut(b'\n', bytes)?;
    let (number, len) = cut(b' ', head)?;
    if is_spelled(line.len(), len) {
        Some((number, line))
    } else {
        None
    }
}

/// The status that a door answers whose number is spelled so.
fn status_in(number: &[u8]) -> Option<u8>
    ensures some { IfSome result (λ n. IsTrue (is_doors n) × (number.now ≡ decimal n)) }
    ensures none { IsNone result → (n : ℕ) → IsTrue (is_doors n) → number.now ≡ decimal n → ⊥ }
{
    let status = number.first()?.wrapping_sub(b'0');
    if is_doors(status) && is_spelled(usize::from(status), number) {
        Some(status)
    } else {
        None
    }
}

/// Whether a door answers with this status.
fn is_doors(status: u8) -> bool
    ensures { result ≡ is_doors status }
{
    matches!(status, 0 | 2 | 4 | 5 | 7)
}
