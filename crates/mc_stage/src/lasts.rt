ghost use Rattle.std.specs.Prelude.{◌≡◌, ◌++◌, ◌-◌, length, take, map, OnOk, OnErr};
ghost use Rattle.mc_stage.specs.Lists.{at_last};

use mc_base::NoMemory;

/// Adds bytes to the last list, where there is one.
pub(crate) fn add_to_last(lists: &mut Vec<Vec<u8>>, bytes: &[u8]) -> Result<(), NoMemory>
    ensures ok { OnOk result (map (λ v. v.items) lists.new.items ≡ at_last (λ x. x ++ bytes.now) (map (λ v. v.items) lists.old.items)) }
    ensures err { OnErr result (map (λ v. v.items) lists.new.items ≡ map (λ v. v.items) lists.old.items) }
{
    if let Some(last) = lists.last_mut() {
        last.extend_from_slice(bytes)?;
    }
    Ok(())
}

/// Drops bytes from the end of the last list, where there is one.
pub(crate) fn drop_from_last(lists: &mut Vec<Vec<u8>>, count: usize)
    ensures { map (λ v. v.items) lists.new.items ≡ at_last (λ x. take (length x - count) x) (map (λ v. v.items) lists.old.items) }
{
    if let Some(last) = lists.last_mut() {
        last.truncate(last.len().saturating_sub(count));
    }
}
