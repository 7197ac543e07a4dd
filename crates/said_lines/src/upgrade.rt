//! The line of an issuer that was moved to the second version of scrip.

ghost use Rattle.std.specs.Prelude.{◌≡◌, ◌++◌, ◌≤◌, ◌+◌, IfOk, vec_len, vec_capacity};
ghost use Rattle.said_lines.specs.Lines.{upgrade_line};

use crate::line::{READY, lay_bare, put, put_number, ready};
use mc_base::NoMemory;
use scrip_form::Name;
use std::alloc::Global;

/// The line of an issuer of a vendor that is moved from an epoch on.
pub fn upgrade_line(
    alloc: Global,
    vendor: &Name,
    issuer: u8,
    from: u32,
) -> Result<Vec<u8>, NoMemory>
    ensures { IfOk result (λ line. line.items ≡ upgrade_line vendor.now issuer from) }
{
    let mut line = ready(Vec::new(alloc))?;
    lay_bare(&mut line);
    put_upgrade(&mut line, vendor, issuer, from);
    Ok(line)
}

/// Appends that line, for which there is room. It takes no memory.
pub fn put_upgrade(line: &mut Vec<u8>, vendor: &Name, issuer: u8, from: u32)
    requires { vec_len line.old + READY ≤ vec_capacity line.old }
    ensures { line.new.items ≡ line.old.items ++ upgrade_line vendor.now issuer from }
{
    put(line, b"upgrade ");
    put(line, vendor.bytes());
    put(line, b" ");
    put_number(line, u64::from(issuer));
    put(line, b" ");
    put_number(line, u64::from(from));
    put(line, b"\n");
}
