//! A report as JSON.

ghost use Rattle.std.specs.Prelude.{◌≡◌, ◌++◌, IfOk, OnOk, OnErr, map, decimal, string_bytes};
ghost use Rattle.serde_json.specs.View.{view};
ghost use Rattle.serde_json.specs.Written.{compact_text};
ghost use Rattle.audit_report.specs.Json.{report_data, vendor_data, report_json};

use audit_model::{Report, VendorSums};
use itoa::Buffer;
use mc_base::NoMemory;
use scrip_form::Name;
use serde_json::{Value, json};
use std::alloc::{AllocError, Global};

/// Appends a report as one line of JSON: an object whose members stand in the order of their names, sums as
/// texts of decimal digits in units, `vendors` as an array of objects in the order of the vendors' names. After an
/// `Err` the bytes are as before.
pub fn report_json(alloc: Global, report: &Report, out: &mut Vec<u8>) -> Result<(), NoMemory>
    ensures ok { OnOk result (out.new.items ≡ out.old.items ++ report_json report.now) }
    ensures err { OnErr result (out.new.items ≡ out.old.items) }
{
    let mut line = report_line(alloc, report)?;
    line.push_str("\n")?;
    out.extend_from_slice(line.as_bytes())?;
    Ok(())
}

/// The text of a report, without its line end.
#[tactic(auto, using(crate::proofs::JsonLemmas::no_float))]
fn report_line(alloc: Global, report: &Report) -> Result<String, AllocError>
    ensures { IfOk result (λ s. string_bytes s ≡ compact_text (report_data report.now)) }
{
    let value = report_value(alloc, report)?;
    value.to_string(alloc)
}

/// A report as a value of JSON.
fn report_value(alloc: Global, report: &Report) -> Result<Value, AllocError>
    ensures { IfOk result (λ v. view v ≡ report_data report.now) }
{
    let sums = &report.sums;
    let vendors = vendor_values(alloc, sums.vendors.slice())?;
    json!(in alloc; {
        "broker": name_text(&report.broker),
        "paid_in": decimal_text(&mut Buffer::new(), sums.paid_in),
        "paid_out": decimal_text(&mut Buffer::new(), sums.paid_out),
        "accounts": decimal_text(&mut Buffer::new(), sums.accounts),
        "fees": decimal_text(&mut Buffer::new(), sums.fees),
        "outstanding": decimal_text(&mut Buffer::new(), sums.outstanding),
        "lapsed": decimal_text(&mut Buffer::new(), sums.lapsed),
        "vendors": Value::Array(vendors)
    })
}

/// The sums of vendors as values of JSON.
fn vendor_values(alloc: Global, vendors: &[VendorSums]) -> Result<Vec<Value>, AllocError>
    ensures { IfOk result (λ values. map view values.items ≡ map vendor_data vendors.now) }
{
    let mut values = Vec::new(alloc);
    for vendor in vendors {
        values.push(vendor_value(alloc, vendor)?)?;
    }
    Ok(values)
}

/// The sums of a vendor as a value of JSON.
fn vendor_value(alloc: Global, vendor: &VendorSums) -> Result<Value, AllocError>
    ensures { IfOk result (λ v. view v ≡ vendor_data vendor.now) }
{
    json!(in alloc; {
        "name": name_text(&vendor.name),
        "takings": decimal_text(&mut Buffer::new(), vendor.takings),
        "outstanding": decimal_text(&mut Buffer::new(), vendor.outstanding),
        "lapsed": decimal_text(&mut Buffer::new(), vendor.lapsed)
    })
}

/// A name as a text: each of its bytes is ASCII.
fn name_text(name: &Name) -> &str
    ensures { result.now ≡ name.now }
{
    match str::from_utf8(name.bytes()) {
        Ok(text) => text,
        Err(_) => unreachable!(),
    }
}

/// The decimal digits of a number.
fn decimal_text(digits: &mut Buffer, number: u128) -> &str
    ensures { result.now ≡ decimal number }
{
    digits.format(number)
}
