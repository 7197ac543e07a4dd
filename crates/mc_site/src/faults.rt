ghost use Rattle.std.specs.Prelude.{◌≡◌, ◌+◌, ◌-◌, ◌≤◌, ◌^◌, min, Ok, IfOk};
ghost use Rattle.mc_outside.specs.Bytes.{HasCause};

use std::io;

/// What a call of the system answered, with `fault` in place of what it says of its error, which is kept; an
/// error raises the count.
pub(crate) fn counted<T: Drop, F: Drop>(
    count: &mut u64,
    last: &mut Option<io::Error>,
    answer: io::Result<T>,
    fault: F,
) -> Result<T, F>
    ensures cause { HasCause count.old count.new result }
    ensures answer { IfOk result (λ x. answer ≡ Ok x) }
    ensures grows { count.old ≤ count.new }
{
    match answer {
        Ok(x) => Ok(x),
        Err(e) => {
            raise(count);
            *last = Some(e);
            Err(fault)
        }
    }
}

/// One more fault, up to the greatest count.
fn raise(count: &mut u64)
    ensures raised { count.new ≡ min (count.old + 1) (2 ^ 64 - 1) }
    ensures grows { count.old ≤ count.new }
{
    let before = *count;
    *count = before.saturating_add(1);
}
