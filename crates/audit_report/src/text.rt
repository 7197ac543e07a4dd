//! A report as lines of text.

ghost use Rattle.std.specs.Prelude.{◌≡◌, ◌++◌, IfOk, OnOk, OnErr, decimal};
ghost use Rattle.audit_report.specs.Text.{broker_line, number_line, vendor_line, vendor_lines, report_text};

use audit_model::{Report, VendorSums};
use itoa::Buffer;
use mc_base::NoMemory;
use scrip_form::Name;
use std::alloc::Global;

/// Appends the lines of a report: its broker and the broker's sums, a line for each vendor, and that the books
/// are balanced. Numbers are units, in decimal. After an `Err` the bytes are as before.
pub fn report_text(alloc: Global, report: &Report, out: &mut Vec<u8>) -> Result<(), NoMemory>
    ensures ok { OnOk result (out.new.items ≡ out.old.items ++ report_text report.now) }
    ensures err { OnErr result (out.new.items ≡ out.old.items) }
{
    let lines = report_lines(alloc, report)?;
    out.extend_from_slice(&lines)?;
    Ok(())
}

/// The lines of a report.
fn report_lines(alloc: Global, report: &Report) -> Result<Vec<u8>, NoMemory>
    ensures { IfOk result (λ lines. lines.items ≡ report_text report.now) }
{
    let sums = &report.sums;
    let mut lines = Vec::new(alloc);
    append_broker(&mut lines, &report.broker)?;
    append_line(&mut lines, b"paid-in", sums.paid_in)?;
    append_line(&mut lines, b"paid-out", sums.paid_out)?;
    append_line(&mut lines, b"accounts", sums.accounts)?;
    append_line(&mut lines, b"fees", sums.fees)?;
    append_line(&mut lines, b"outstanding", sums.outstanding)?;
    append_line(&mut lines, b"lapsed", sums.lapsed)?;
    append_vendors(&mut lines, sums.vendors.slice())?;
    lines.extend_from_slice(b"balanced\n")?;
    Ok(lines)
}

/// Appends the line of the broker. After an `Err` there may be a part of it.
fn append_broker(lines: &mut Vec<u8>, broker: &Name) -> Result<(), NoMemory>
    ensures { OnOk result (lines.new.items ≡ lines.old.items ++ broker_line broker.now) }
{
    append_name(lines, b"broker ", broker)?;
    lines.extend_from_slice(b"\n")?;
    Ok(())
}

/// Appends the line of each vendor. After an `Err` there may be a part of them.
pub fn append_vendors(lines: &mut Vec<u8>, vendors: &[VendorSums]) -> Result<(), NoMemory>
    ensures { OnOk result (lines.new.items ≡ lines.old.items ++ vendor_lines vendors.now) }
{
    for vendor in vendors {
        append_vendor(lines, vendor)?;
    }
    Ok(())
}

/// Appends the line of a vendor, likewise.
fn append_vendor(lines: &mut Vec<u8>, vendor: &VendorSums) -> Result<(), NoMemory>
    ensures { OnOk result (lines.new.items ≡ lines.old.items ++ vendor_line vendor.now) }
{
    append_name(lines, b"vendor ", &vendor.name)?;
    append_number(lines, b" takings ", vendor.takings)?;
    append_number(lines, b" outstanding ", vendor.outstanding)?;
    append_number(lines, b" lapsed ", vendor.lapsed)?;
    lines.extend_from_slice(b"\n")?;
    Ok(())
}

/// Appends a line of a word and a number, likewise.
fn append_line(lines: &mut Vec<u8>, word: &[u8], number: u128) -> Result<(), NoMemory>
    ensures { OnOk result (lines.new.items ≡ lines.old.items ++ number_line word.now number) }
{
    lines.extend_from_slice(word)?;
    append_number(lines, b" ", number)?;
    lines.extend_from_slice(b"\n")?;
    Ok(())
}

/// Appends a text and a name, likewise.
pub fn append_name(lines: &mut Vec<u8>, text: &[u8], name: &Name) -> Result<(), NoMemory>
    ensures { OnOk result (lines.new.items ≡ lines.old.items ++ text.now ++ name.now) }
{
    lines.extend_from_slice(text)?;
    lines.extend_from_slice(name.bytes())?;
    Ok(())
}

/// Appends a text and a number in decimal, likewise.
pub fn append_number(lines: &mut Vec<u8>, text: &[u8], number: u128) -> Result<(), NoMemory>
    ensures { OnOk result (lines.new.items ≡ lines.old.items ++ text.now ++ decimal number) }
{
    let mut digits = Buffer::new();
    lines.extend_from_slice(text)?;
    lines.extend_from_slice(digits.format(number).as_bytes())?;
    Ok(())
}
