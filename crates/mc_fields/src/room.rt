ghost use Rattle.std.specs.Prelude.{◌≤◌, ◌++◌, length, flat_map};
ghost use Rattle.mc_fields.specs.Puts.{Puts};

/// Writes the bytes at a place of the buffer, and answers the place behind them; None exactly where
/// they would reach past its end. What stands before the place and behind the bytes stays.
pub fn put_if_room(out: &mut [u8], at: usize, bytes: &[u8]) -> Option<usize>
    requires { at ≤ length out.old }
    ensures { Puts out.old out.new at bytes.now result }
{
    if out.len() - at < bytes.len() {
        return None;
    }
    let end = at + bytes.len();
    out[at..end].copy_from_slice(bytes);
    Some(end)
}

/// Writes two runs of bytes, the second behind the first, as `put_if_room` does. None may leave the
/// first written.
pub fn put_both_if_room(out: &mut [u8], at: usize, first: &[u8], second: &[u8]) -> Option<usize>
    requires { at ≤ length out.old }
    ensures { Puts out.old out.new at (first.now ++ second.now) result }
{
    let at = put_if_room(out, at, first)?;
    put_if_room(out, at, second)
}

/// Writes the arrays one behind the other, as `put_if_room` does. None may leave some written.
pub fn put_each_if_room<const N: usize>(
    out: &mut [u8],
    at: usize,
    list: &[[u8; N]],
) -> Option<usize>
    requires { at ≤ length out.old }
    ensures { Puts out.old out.new at (flat_map (λ s. s) list.now) result }
{
    let mut end = at;
    for bytes in list {
        end = put_if_room(out, end, bytes)?;
    }
    Some(end)
}
