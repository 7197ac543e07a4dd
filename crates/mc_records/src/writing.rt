//! Entries to payloads at the front of a buffer.

ghost use Rattle.std.specs.Prelude.{◌≤◌, ◌<◌, ◌^◌, length, flat_map, All};
ghost use Rattle.mc_fields.specs.Field.{spelled};
ghost use Rattle.mc_fields.specs.Puts.{Puts};
ghost use Rattle.mc_records.specs.Entry.{Fits, payload, secrets_fields};
ghost use Rattle.mc_records.specs.Views.{entry};
ghost use Rattle.mc_records.specs.Cells.{IsShort, AreShort, cell_bytes, group_bytes};

use crate::cells::{Cell, Group, table};
use crate::record::Record;
use mc_fields::{put_both_if_room, put_each_if_room, put_if_room};

/// Writes the payload of an entry at the front of the buffer, and answers its length; None exactly
/// where it is longer than the buffer. What stands behind the payload stays; after a None any bytes may
/// stand in the buffer. It takes no memory.
pub fn put_record(r: &Record<'_>, out: &mut [u8]) -> Option<usize>
    requires { Fits (entry r.now) }
    ensures { Puts out.old out.new 0 (payload (entry r.now)) result }
{
    put_groups(out, &table(r))
}

fn put_groups(out: &mut [u8], groups: &[Group<'_>]) -> Option<usize>
    requires { All AreShort groups.now }
    ensures { Puts out.old out.new 0 (flat_map group_bytes groups.now) result }
{
    let mut at = 0;
    for group in groups {
        at = put_group(out, at, group)?;
    }
    Some(at)
}

fn put_group(out: &mut [u8], at: usize, group: &Group<'_>) -> Option<usize>
    requires at { at ≤ length out.old }
    requires short { AreShort group.now }
    ensures { Puts out.old out.new at (group_bytes group.now) result }
{
    let at = put_cell(out, at, &group.0)?;
    let at = put_cell(out, at, &group.1)?;
    put_cell(out, at, &group.2)
}

fn put_cell(out: &mut [u8], at: usize, cell: &Cell<'_>) -> Option<usize>
    requires at { at ≤ length out.old }
    requires short { IsShort cell.now }
    ensures { Puts out.old out.new at (cell_bytes cell.now) result }
{
    match cell {
        Cell::Nothing => Some(at),
        Cell::Byte(n) => put_if_room(out, at, &n.to_be_bytes()),
        Cell::Half(n) => put_if_room(out, at, &n.to_be_bytes()),
        Cell::Word(n) => put_if_room(out, at, &n.to_be_bytes()),
        Cell::Long(n) => put_if_room(out, at, &n.to_be_bytes()),
        Cell::Flag(b) => put_if_room(out, at, &[u8::from(*b)]),
        Cell::Str(text) => put_both_if_room(out, at, &(text.len() as u16).to_be_bytes(), text),
        Cell::Plain(bytes) => put_if_room(out, at, bytes),
        Cell::Contents(bytes) => {
            put_both_if_room(out, at, &(bytes.len() as u32).to_be_bytes(), bytes)
        }
        Cell::Secrets(secrets) => put_secrets(out, at, secrets),
        Cell::Pieces(pieces) => {
            put_both_if_room(out, at, &pieces.count().to_be_bytes(), pieces.bytes())
        }
    }
}

fn put_secrets(out: &mut [u8], at: usize, secrets: &[[u8; 16]]) -> Option<usize>
    requires at { at ≤ length out.old }
    requires few { length secrets.now < 2 ^ 8 }
    ensures { Puts out.old out.new at (spelled (secrets_fields secrets.now)) result }
{
    let at = put_if_room(out, at, &[secrets.len() as u8])?;
    put_each_if_room(out, at, secrets)
}
