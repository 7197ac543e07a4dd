//! The length of an entry's payload, by the table of its fields.

ghost use Rattle.std.specs.Prelude.{◌≡◌, ◌+◌, ◌<◌, ◌≤◌, ◌^◌, length, flat_map, IfOk, IfErr};
ghost use Rattle.mc_fields.specs.Field.{spelled};
ghost use Rattle.mc_records.specs.Entry.{Fits, payload, secrets_fields};
ghost use Rattle.mc_records.specs.Sizes.{tail_bytes, framed_size};
ghost use Rattle.mc_records.specs.Views.{entry};
ghost use Rattle.mc_records.specs.Cells.{cell_bytes, group_bytes};

use crate::cells::{Cell, Group, table};
use crate::record::Record;
use mc_requests::Refusal;

/// The bytes of a journal of no entries: the header and the first gate.
pub const EMPTY_JOURNAL: u64 = 9;

/// What an entry adds to a journal beside its payload and its tail: the four bytes of the payload's length,
/// and the gate behind it.
pub const FRAME: u64 = 5;

/// The lengths of payloads are below this.
pub const PAYLOAD_BOUND: u64 = 131_066;

/// The bytes of the tail of the next entry, where a Switch stands and where none does: its chain, or none.
pub fn tail_len(switched: bool) -> u64
    ensures value { result ≡ tail_bytes switched }
    ensures short { result ≤ 32 }
{
    if switched { 32 } else { 0 }
}

/// How many bytes a journal of so many has with one entry more, whose payload has so many, where a Switch stands and
/// where none does; refused with 33 JournalFull where that would pass a limit.
pub fn grown_size(size: u64, payload: u64, switched: bool, limit: u64) -> Result<u64, Refusal>
    ensures fits { IfOk result (λ n. (n ≡ size + framed_size payload (tail_bytes switched)) × (n ≤ limit)) }
    ensures full { IfErr result (λ f. (f ≡ Refusal.JournalFull size payload)
        × (limit < size + framed_size payload (tail_bytes switched))) }
{
    let entry = u128::from(payload) + u128::from(tail_len(switched)) + u128::from(FRAME);
    let grown = u128::from(size) + entry;
    if grown <= u128::from(limit) {
        Ok(grown as u64)
    } else {
        Err(Refusal::JournalFull(size, payload))
    }
}

impl Record<'_> {
    /// The length of the entry's payload in bytes, below 131,066. It takes no memory.
    pub fn payload_len(&self) -> u64
        requires { Fits (entry self.now) }
        ensures { result ≡ length (payload (entry self.now)) }
    {
        groups_len(&table(self))
    }
}

fn groups_len(groups: &[Group<'_>]) -> u64
    requires { length (flat_map group_bytes groups.now) < 2 ^ 32 }
    ensures { result ≡ length (flat_map group_bytes groups.now) }
{
    let mut len = 0;
    for group in groups {
        len += group_len(group);
    }
    len
}

fn group_len(group: &Group<'_>) -> u64
    requires { length (group_bytes group.now) < 2 ^ 32 }
    ensures { result ≡ length (group_bytes group.now) }
{
    cell_len(&group.0) + cell_len(&group.1) + cell_len(&group.2)
}

fn cell_len(cell: &Cell<'_>) -> u64
    requires { length (cell_bytes cell.now) < 2 ^ 32 }
    ensures { result ≡ length (cell_bytes cell.now) }
{
    match cell {
        Cell::Nothing => 0,
        Cell::Byte(_) | Cell::Flag(_) => 1,
        Cell::Half(_) => 2,
        Cell::Word(_) => 4,
        Cell::Long(_) => 8,
        Cell::Str(text) => 2 + text.len() as u64,
        Cell::Plain(bytes) => bytes.len() as u64,
        Cell::Contents(bytes) => 4 + bytes.len() as u64,
        Cell::Secrets(secrets) => secrets_len(secrets),
        Cell::Pieces(pieces) => 2 + pieces.bytes().len() as u64,
    }
}

/// Secrets of 16 bytes, behind their count of one byte.
fn secrets_len(secrets: &[[u8; 16]]) -> u64
    requires { length (spelled (secrets_fields secrets.now)) < 2 ^ 32 }
    ensures { result ≡ length (spelled (secrets_fields secrets.now)) }
{
    1 + 16 * secrets.len() as u64
}
