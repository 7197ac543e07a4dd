ghost use Rattle.std.specs.Prelude.{◌≡◌, ℕ, Bool, true, nat_le, ◌↔◌, IsTrue, IfOk};
ghost use Rattle.mc_fields.specs.Reading as reading;
ghost use Rattle.mc_fields.specs.Reading.{text_at};
ghost use Rattle.mc_fields.specs.Texts.{IsText};
ghost use Rattle.mc_fields.specs.Gives.{Gives};

use crate::stuck::Stuck;

/// What the texts of one kind are like: which byte may stand first, which bytes may follow, and how
/// many there may be. A rule is a type without values, and is passed as a type parameter.
pub trait TextRule {
    /// Whether a byte may stand first.
    ghost first: { ℕ → Bool };

    /// Whether a byte may stand anywhere.
    ghost other: { ℕ → Bool };

    /// The fewest bytes of a text.
    ghost least: { ℕ };

    /// The most bytes of a text.
    ghost most: { ℕ };

    /// Whether a text that has so many bytes may go on with this one.
    fn may_follow(len: usize, byte: u8) -> bool
        ensures { result ≡ reading.may_follow first other most len byte };

    /// Whether a text may end after so many bytes.
    fn may_end(len: usize) -> bool
        ensures { result ≡ nat_le least len };

    ghost begins_fit: { (c : ℕ) → first c ≡ true → other c ≡ true };
}

/// Whether the bytes are such a text, whole.
pub fn is_text<T: TextRule>(bytes: &[u8]) -> bool
    ensures { IsTrue result ↔ IsText T.first T.other T.least T.most bytes.now }
{
    for (len, byte) in bytes.iter().enumerate() {
        if !T::may_follow(len, *byte) {
            return false;
        }
    }
    T::may_end(bytes.len())
}

/// A text up to the byte that stops it, and the bytes behind that one.
pub fn read_text<T: TextRule>(stop: u8, bytes: &[u8]) -> Result<(&[u8], &[u8]), Stuck>
    ensures gives { Gives (λ x. (x.0.now, x.1.now)) result (text_at T.first T.other T.least T.most stop bytes.now) }
    ensures text { IfOk result (λ x. IsText T.first T.other T.least T.most x.0.now) }
{
    for (len, byte) in bytes.iter().enumerate() {
        if !T::may_follow(len, *byte) {
            return if *byte == stop && T::may_end(len) {
                Ok((&bytes[..len], &bytes[len + 1..]))
            } else {
                Err(Stuck {
                    left: bytes.len() - len,
                })
            };
        }
    }
    Err(Stuck { left: 0 })
}
