//! Where an operator's command ends.

ghost use Rattle.std.specs.Prelude.{◌≡◌, ℕ, ◌≤◌, List, ◌++◌, IfSome, IsNone, decimal};
ghost use Rattle.mc_door.specs.Framing.{HasCommand, IsPart, TellsInput};
ghost use Rattle.mc_door.specs.declared.framing.Whole.TheVariants.{At, Part, Never};

use mc_fields::{cut, number_of};

/// The most bytes of a command's first line, with its end.
const MOST_LINE: usize = 8_192;

/// The most bytes of a command's input: one more than an input may have, so that a longer one is told.
const MOST_INPUT: u64 = 131_073;

/// The most bytes of a command.
pub(crate) const MOST_TOLD: usize = 139_265;

/// Whether bytes begin with a command that is whole.
#[derive(Clone, Copy, Debug, PartialEq, Eq)]
pub enum Whole {
    /// They do not yet.
    Part,
    /// The first so many of them are one.
    At(usize),
    /// They can't, whatever comes behind them.
    Never,
}

/// Whether the bytes begin with a command that is whole: a first line, which is the decimal of a length of at most
/// 131,073, a space, and words, and has at most 8,192 bytes with its end; and behind it so many bytes.
pub fn whole_command(bytes: &[u8]) -> Whole
    ensures at { (n : ℕ) → result ≡ At n → HasCommand bytes.now n }
    ensures part { result ≡ Part → IsPart bytes.now }
    ensures never { result ≡ Never → (more : List ℕ) (n : ℕ) → HasCommand (bytes.now ++ more) n → ⊥ }
{
    let front = &bytes[..bytes.len().min(MOST_LINE)];
    let Some((head, _)) = cut(b'\n', front) else {
        return if bytes.len() < MOST_LINE {
            Whole::Part
        } else {
            Whole::Never
        };
    };
    let Some(input) = input_told(head) else {
        return Whole::Never;
    };
    let end = head.len() + 1 + input;
    if end <= bytes.len() {
        Whole::At(end)
    } else {
        Whole::Part
    }
}

/// How many bytes the input has, as the first line of a command tells it; None exactly where it tells no such number.
fn input_told(head: &[u8]) -> Option<usize>
    ensures some { IfSome result (λ n. TellsInput head.now n) }
    ensures none { IsNone result → (n : ℕ) → TellsInput head.now n → ⊥ }
{
    let (number, _) = cut(b' ', head)?;
    number_or_zero(number)
}

/// The number from 0 to the most bytes of an input that the bytes spell whole, in decimal and without a leading zero.
fn number_or_zero(bytes: &[u8]) -> Option<usize>
    ensures number { IfSome result (λ n. (n ≤ 131073) × (bytes.now ≡ decimal n)) }
    ensures none { IsNone result → (n : ℕ) → n ≤ 131073 → bytes.now ≡ decimal n → ⊥ }
{
    if bytes == b"0".as_slice() {
        return Some(0);
    }
    Some(number_of(MOST_INPUT, bytes)? as usize)
}
