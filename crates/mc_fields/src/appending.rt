ghost use Rattle.std.specs.Prelude.{◌++◌, flat_map};
ghost use Rattle.mc_fields.specs.Puts.{Appends};

use std::alloc::AllocError;

/// Appends two runs of bytes, the second behind the first. Where memory is refused, the first may
/// stand behind the bytes from before.
pub fn append_both(out: &mut Vec<u8>, first: &[u8], second: &[u8]) -> Result<(), AllocError>
    ensures { Appends out.old.items out.new.items (first.now ++ second.now) result }
{
    out.extend_from_slice(first)?;
    out.extend_from_slice(second)
}

/// Appends the arrays one behind the other. Where memory is refused, some may stand behind the bytes
/// from before.
pub fn append_each<const N: usize>(out: &mut Vec<u8>, list: &[[u8; N]]) -> Result<(), AllocError>
    ensures { Appends out.old.items out.new.items (flat_map (λ s. s) list.now) result }
{
    for bytes in list {
        out.extend_from_slice(bytes)?;
    }
    Ok(())
}
