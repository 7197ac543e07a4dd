//! Entries to payloads at the end of a vector.

ghost use Rattle.std.specs.Prelude.{◌≡◌, ◌++◌, ◌<◌, ◌^◌, length, flat_map, All, OnOk, OnErr};
ghost use Rattle.mc_fields.specs.Field.{spelled};
ghost use Rattle.mc_fields.specs.Puts.{Appends};
ghost use Rattle.mc_records.specs.Entry.{Fits, payload, secrets_fields};
ghost use Rattle.mc_records.specs.Views.{entry};
ghost use Rattle.mc_records.specs.Cells.{IsShort, AreShort, cell_bytes, group_bytes};

use crate::cells::{Cell, Group, table};
use crate::record::Record;
use mc_base::NoMemory;
use mc_fields::{append_both, append_each};
use std::alloc::AllocError;

/// Appends the payload of an entry. Where memory is refused, the bytes are as before.
pub fn write_record(r: &Record<'_>, out: &mut Vec<u8>) -> Result<(), NoMemory>
    requires { Fits (entry r.now) }
    ensures ok { OnOk result (out.new.items ≡ out.old.items ++ payload (entry r.now)) }
    ensures err { OnErr result (out.new.items ≡ out.old.items) }
{
    let old = out.len();
    match append_groups(out, &table(r)) {
        Ok(()) => Ok(()),
        Err(_) => {
            out.truncate(old);
            Err(NoMemory)
        }
    }
}

fn append_groups(out: &mut Vec<u8>, groups: &[Group<'_>]) -> Result<(), AllocError>
    requires { All AreShort groups.now }
    ensures { Appends out.old.items out.new.items (flat_map group_bytes groups.now) result }
{
    for group in groups {
        append_group(out, group)?;
    }
    Ok(())
}

fn append_group(out: &mut Vec<u8>, group: &Group<'_>) -> Result<(), AllocError>
    requires { AreShort group.now }
    ensures { Appends out.old.items out.new.items (group_bytes group.now) result }
{
    append_cell(out, &group.0)?;
    append_cell(out, &group.1)?;
    append_cell(out, &group.2)
}

fn append_cell(out: &mut Vec<u8>, cell: &Cell<'_>) -> Result<(), AllocError>
    requires { IsShort cell.now }
    ensures { Appends out.old.items out.new.items (cell_bytes cell.now) result }
{
    match cell {
        Cell::Nothing => Ok(()),
        Cell::Byte(n) => append_both(out, &n.to_be_bytes(), &[]),
        Cell::Half(n) => append_both(out, &n.to_be_bytes(), &[]),
        Cell::Word(n) => append_both(out, &n.to_be_bytes(), &[]),
        Cell::Long(n) => append_both(out, &n.to_be_bytes(), &[]),
        Cell::Flag(b) => append_both(out, &[u8::from(*b)], &[]),
        Cell::Str(text) => append_both(out, &(text.len() as u16).to_be_bytes(), text),
        Cell::Plain(bytes) => append_both(out, bytes, &[]),
        Cell::Contents(bytes) => append_both(out, &(bytes.len() as u32).to_be_bytes(), bytes),
        Cell::Secrets(secrets) => append_secrets(out, secrets),
        Cell::Pieces(pieces) => append_both(out, &pieces.count().to_be_bytes(), pieces.bytes()),
    }
}

fn append_secrets(out: &mut Vec<u8>, secrets: &[[u8; 16]]) -> Result<(), AllocError>
    requires { length secrets.now < 2 ^ 8 }
    ensures { Appends out.old.items out.new.items (spelled (secrets_fields secrets.now)) result }
{
    append_both(out, &[secrets.len() as u8], &[])?;
    append_each(out, secrets)
}
