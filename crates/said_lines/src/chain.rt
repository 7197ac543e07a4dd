//! The line of the chain of a book.

ghost use Rattle.std.specs.Prelude.{◌≡◌, ◌++◌, ◌≤◌, ◌+◌, IfOk, vec_len, vec_capacity};
ghost use Rattle.said_lines.specs.Lines.{chain_end, chain_words};

use crate::line::{READY, begin, put, put_number};
use mc_base::NoMemory;
use scrip_form::Name;
use std::alloc::Global;

/// The line of the chain of a book of this site, up to the count of its entries.
pub fn begin_chain(alloc: Global, site: &Name) -> Result<Vec<u8>, NoMemory>
    ensures { IfOk result (λ line. line.items ≡ chain_words site.now) }
{
    begin(alloc, b"chain ", site, b" ")
}

/// Ends it, which has room for that, by the count of the entries and their chain. It takes no memory.
pub fn end_chain(line: &mut Vec<u8>, entries: u64, chain: &[u8; 32])
    requires { vec_len line.old + READY ≤ vec_capacity line.old }
    ensures { line.new.items ≡ line.old.items ++ chain_end entries chain.now }
{
    let mut digits = [0; 64];
    hex::encode_to_slice(chain, &mut digits).unwrap();
    put_number(line, entries);
    put(line, b" ");
    put(line, &digits);
    put(line, b"\n");
}
