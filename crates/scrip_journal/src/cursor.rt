ghost use Rattle.std.specs.Prelude.{◌≡◌, ◌+◌, ◌-◌, ◌≤◌, ◌<◌, ◌++◌, ◌∷◌, ◌||◌, [], length, take, IfOk};
ghost use Rattle.std.specs.Int.{w32, to_be_bytes};
ghost use Rattle.mc_records.specs.Entry.{Fits, payload};
ghost use Rattle.mc_records.specs.Sizes.{tail_by, tail_bytes};
ghost use Rattle.mc_records.specs.Views.{entry};
ghost use Rattle.scrip_journal.specs.States.{chain_with, known_chain};
ghost use Rattle.mc_records.specs.declared.ranges.TheConstants.{CHAIN_BYTES};
ghost use Rattle.mc_records.specs.declared.sizes.TheConstants.{FRAME, PAYLOAD_BOUND};

use crate::chain::{chain_with, known_chain};
use mc_base::NoMemory;
use mc_records::{CHAIN_BYTES, FRAME, Record, payloads_are_short, put_record, tail_len};
use std::alloc::Global;

/// The place of the first gate: behind the header.
pub const FIRST_GATE: u64 = 8;

/// The size of the buffer of a journal: an entry of the greatest size has room in it, with its chain and its
/// gate.
pub(crate) const BUFFER: usize = 131_104;

/// Where the gate stands behind the last entry, how many entries stand before it, how many bytes the
/// journal may have, whether a Switch is among the entries, their chain, where it is known, and the buffer through
/// which the journal is read and written.
#[derive(Drop)]
pub(crate) struct Cursor {
    pub(crate) gate: u64,
    pub(crate) entries: u64,
    pub(crate) limit: u64,
    pub(crate) switched: bool,
    pub(crate) chain: Option<[u8; 32]>,
    pub(crate) buf: Vec<u8>,
}

/// Whether a Switch stands with one entry more.
pub(crate) fn stands_with(switched: bool, switches: bool) -> bool
    ensures { result ≡ (switched || switches) }
{
    switched || switches
}

/// The buffer of a journal.
pub(crate) fn new_buffer(alloc: Global) -> Result<Vec<u8>, NoMemory>
    ensures { IfOk result (λ v. length v.items ≡ BUFFER) }
{
    Ok(vec![in alloc; 0; BUFFER]?)
}

/// Writes the block of an entry at the front of the buffer: the length of its payload, the payload, its chain
/// where a Switch stands, and a closed gate. Answers how many bytes that are, and the chain of the entries up to
/// and with this one, where that of those before is known.
pub(crate) fn put_block(
    buf: &mut Vec<u8>,
    r: &Record<'_>,
    switched: bool,
    before: Option<[u8; 32]>,
) -> (usize, Option<[u8; 32]>)
    requires buffer { length buf.old.items ≡ BUFFER }
    requires fits { Fits (entry r.now) }
    ensures buffer { length buf.new.items ≡ BUFFER }
    ensures chain { result.1 ≡ chain_with before (payload (entry r.now)) }
    ensures size { result.0 ≡ length (payload (entry r.now)) + tail_bytes switched + FRAME }
    ensures within { result.0 ≤ BUFFER }
    ensures block { take result.0 buf.new.items
        ≡ to_be_bytes w32 (length (payload (entry r.now))) ++ (payload (entry r.now) ++ (tail_by switched (known_chain result.1) ++ 0 ∷ [])) }
{
    payloads_are_short();
    write_block(buf, r, switched, before)
}

/// Opens the gate at a place of the buffer, where the entries before end, and writes the block of an entry behind it.
/// Answers how many bytes the block has, and the chain of the entries up to and with this one, where that of those before
/// is known.
pub(crate) fn put_block_at(
    buf: &mut Vec<u8>,
    at: usize,
    r: &Record<'_>,
    switched: bool,
    before: Option<[u8; 32]>,
) -> (usize, Option<[u8; 32]>)
    requires room { at + 1 + (length (payload (entry r.now)) + tail_bytes switched + FRAME) ≤ length buf.old.items }
    requires fits { Fits (entry r.now) }
    ensures buffer { length buf.new.items ≡ length buf.old.items }
    ensures chain { result.1 ≡ chain_with before (payload (entry r.now)) }
    ensures size { result.0 ≡ length (payload (entry r.now)) + tail_bytes switched + FRAME }
    ensures block { take (at + 1 + result.0) buf.new.items
        ≡ take at buf.old.items ++ (1 ∷ (to_be_bytes w32 (length (payload (entry r.now))) ++ (payload (entry r.now) ++ (tail_by switched (known_chain result.1) ++ 0 ∷ [])))) }
{
    write_block_at(buf, at, r, switched, before)
}

/// Opens a gate, and writes the block of an entry behind it.
fn write_block_at(
    out: &mut [u8],
    at: usize,
    r: &Record<'_>,
    switched: bool,
    before: Option<[u8; 32]>,
) -> (usize, Option<[u8; 32]>)
    requires room { at + 1 + (length (payload (entry r.now)) + tail_bytes switched + FRAME) ≤ length out.old }
    requires fits { Fits (entry r.now) }
    ensures len { length out.new ≡ length out.old }
    ensures chain { result.1 ≡ chain_with before (payload (entry r.now)) }
    ensures size { result.0 ≡ length (payload (entry r.now)) + tail_bytes switched + FRAME }
    ensures block { take (at + 1 + result.0) out.new
        ≡ take at out.old ++ (1 ∷ (to_be_bytes w32 (length (payload (entry r.now))) ++ (payload (entry r.now) ++ (tail_by switched (known_chain result.1) ++ 0 ∷ [])))) }
{
    put_at(out, at, &[1]);
    let (_, rest) = out.split_at_mut(at + 1);
    write_block(rest, r, switched, before)
}

/// Writes the block of an entry at the front.
fn write_block(
    out: &mut [u8],
    r: &Record<'_>,
    switched: bool,
    before: Option<[u8; 32]>,
) -> (usize, Option<[u8; 32]>)
    requires room { length (payload (entry r.now)) + tail_bytes switched + FRAME ≤ length out.old }
    requires fits { Fits (entry r.now) }
    ensures len { length out.new ≡ length out.old }
    ensures chain { result.1 ≡ chain_with before (payload (entry r.now)) }
    ensures size { result.0 ≡ length (payload (entry r.now)) + tail_bytes switched + FRAME }
    ensures within { result.0 ≤ length out.old }
    ensures block { take result.0 out.new
        ≡ to_be_bytes w32 (length (payload (entry r.now))) ++ (payload (entry r.now) ++ (tail_by switched (known_chain result.1) ++ 0 ∷ [])) }
{
    let (head, rest) = out.split_at_mut(4);
    let bytes = put_payload(rest, r);
    let chain = chain_with(before, &rest[..bytes]);
    put_tail(rest, bytes, switched, &known_chain(chain));
    head.copy_from_slice(&(bytes as u32).to_be_bytes());
    (bytes + (tail_len(switched) + FRAME) as usize, chain)
}

/// Writes the payload of an entry at the front. Answers its length.
fn put_payload(out: &mut [u8], r: &Record<'_>) -> usize
    requires room { length (payload (entry r.now)) ≤ length out.old }
    requires fits { Fits (entry r.now) }
    ensures len { length out.new ≡ length out.old }
    ensures size { result ≡ length (payload (entry r.now)) }
    ensures short { result < PAYLOAD_BOUND }
    ensures payload { take result out.new ≡ payload (entry r.now) }
{
    payloads_are_short();
    put_record(r, out).unwrap_or(0)
}

/// Writes a chain where a Switch stands, and a closed gate, behind so many bytes.
fn put_tail(out: &mut [u8], at: usize, switched: bool, chain: &[u8; 32])
    requires room { at + tail_bytes switched + 1 ≤ length out.old }
    ensures len { length out.new ≡ length out.old }
    ensures written { take (at + tail_bytes switched + 1) out.new ≡ take at out.old ++ (tail_by switched chain.now ++ 0 ∷ []) }
{
    if switched {
        put_chain(out, at, chain);
    } else {
        put_at(out, at, &[0]);
    }
}

/// Writes a chain and a closed gate behind so many bytes.
fn put_chain(out: &mut [u8], at: usize, chain: &[u8])
    requires long { length chain.now ≡ CHAIN_BYTES }
    requires room { at + 33 ≤ length out.old }
    ensures len { length out.new ≡ length out.old }
    ensures written { take (at + 33) out.new ≡ take at out.old ++ (chain.now ++ 0 ∷ []) }
{
    put_at(out, at, chain);
    put_at(out, at + CHAIN_BYTES, &[0]);
}

/// Writes bytes behind so many.
fn put_at(out: &mut [u8], at: usize, bytes: &[u8])
    requires room { at + length bytes.now ≤ length out.old }
    ensures len { length out.new ≡ length out.old }
    ensures written { take (at + length bytes.now) out.new ≡ take at out.old ++ bytes.now }
{
    let end = at + bytes.len();
    out[at..end].copy_from_slice(bytes);
}
