//! A tree of books as lines of text.

ghost use Rattle.std.specs.Prelude.{◌≡◌, ◌++◌, IfOk, OnOk, OnErr};
ghost use Rattle.relay_core.specs.Text.{broker_line, broker_lines, tree_text};

use crate::tree::{BrokerSums, Tree};
use audit_report::{append_name, append_number, append_vendors};
use mc_base::NoMemory;
use std::alloc::Global;

/// Appends the lines of a tree: one for each broker, one for each vendor, what was sold on, and that the books are
/// balanced. Numbers are units, in decimal. After an `Err` the bytes are as before.
pub fn tree_text(alloc: Global, tree: &Tree, out: &mut Vec<u8>) -> Result<(), NoMemory>
    ensures ok { OnOk result (out.new.items ≡ out.old.items ++ tree_text tree.now) }
    ensures err { OnErr result (out.new.items ≡ out.old.items) }
{
    let lines = tree_lines(alloc, tree)?;
    out.extend_from_slice(&lines)?;
    Ok(())
}

/// The lines of a tree.
fn tree_lines(alloc: Global, tree: &Tree) -> Result<Vec<u8>, NoMemory>
    ensures { IfOk result (λ lines. lines.items ≡ tree_text tree.now) }
{
    let mut lines = Vec::new(alloc);
    append_brokers(&mut lines, tree.brokers.slice())?;
    append_vendors(&mut lines, tree.vendors.slice())?;
    append_number(&mut lines, b"relayed ", tree.relayed)?;
    lines.extend_from_slice(b"\n")?;
    lines.extend_from_slice(b"balanced\n")?;
    Ok(lines)
}

/// Appends the line of each broker. After an `Err` there may be a part of them.
fn append_brokers(lines: &mut Vec<u8>, brokers: &[BrokerSums]) -> Result<(), NoMemory>
    ensures { OnOk result (lines.new.items ≡ lines.old.items ++ broker_lines brokers.now) }
{
    for broker in brokers {
        append_broker(lines, broker)?;
    }
    Ok(())
}

/// Appends the line of a broker, likewise.
fn append_broker(lines: &mut Vec<u8>, broker: &BrokerSums) -> Result<(), NoMemory>
    ensures { OnOk result (lines.new.items ≡ lines.old.items ++ broker_line broker.now) }
{
    append_name(lines, b"broker ", &broker.name)?;
    append_number(lines, b" paid-in ", broker.paid_in)?;
    append_number(lines, b" paid-out ", broker.paid_out)?;
    append_number(lines, b" accounts ", broker.accounts)?;
    append_number(lines, b" fees ", broker.fees)?;
    append_number(lines, b" outstanding ", broker.outstanding)?;
    append_number(lines, b" lapsed ", broker.lapsed)?;
    lines.extend_from_slice(b"\n")?;
    Ok(())
}
