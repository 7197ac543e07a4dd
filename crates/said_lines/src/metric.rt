//! Metrics in Prometheus' text form.

ghost use Rattle.std.specs.Prelude.{◌≡◌, ◌++◌, OnOk, decimal, if◌then◌else◌};
ghost use Rattle.said_lines.specs.Lines.{comment, metric, site_metrics};

use itoa::Buffer;
use mc_base::NoMemory;
use scrip_form::Name;

/// Appends a metric of a site: what it counts, its type, and its number. After an `Err` there may be a part of it.
pub fn append_metric(
    lines: &mut Vec<u8>,
    site: &Name,
    name: &[u8],
    kind: &[u8],
    help: &[u8],
    number: u128,
) -> Result<(), NoMemory>
    ensures { OnOk result (lines.new.items
        ≡ lines.old.items ++ metric site.now name.now kind.now help.now number) }
{
    append_comment(lines, b"# HELP ", name, help)?;
    append_comment(lines, b"# TYPE ", name, kind)?;
    lines.extend_from_slice(name)?;
    lines.extend_from_slice(b"{site=\"")?;
    lines.extend_from_slice(site.bytes())?;
    append_number(lines, b"\"} ", number)?;
    lines.extend_from_slice(b"\n")?;
    Ok(())
}

/// Appends the metrics of a site's book, whatever the trade: how many entries it has, how many bytes, and whether each
/// entry ends with a chain. After an `Err` there may be a part of them.
pub fn append_site(
    lines: &mut Vec<u8>,
    site: &Name,
    entries: u64,
    bytes: u64,
    switched: bool,
) -> Result<(), NoMemory>
    ensures { OnOk result (lines.new.items
        ≡ lines.old.items ++ site_metrics site.now entries bytes switched) }
{
    append_metric(
        lines,
        site,
        b"millicent_entries_total",
        b"counter",
        b"Entries in the book.",
        u128::from(entries),
    )?;
    append_metric(
        lines,
        site,
        b"millicent_book_bytes",
        b"gauge",
        b"Bytes of the book.",
        u128::from(bytes),
    )?;
    append_metric(
        lines,
        site,
        b"millicent_book_switched",
        b"gauge",
        b"Whether each entry ends with a chain of all before it: 1, else 0.",
        one_where(switched),
    )?;
    Ok(())
}

/// 1 where this is so, else 0.
fn one_where(is_so: bool) -> u128
    ensures { result ≡ (if is_so then 1 else 0) }
{
    match is_so {
        true => 1,
        false => 0,
    }
}

/// Appends a comment on a metric, likewise.
fn append_comment(
    lines: &mut Vec<u8>,
    words: &[u8],
    name: &[u8],
    text: &[u8],
) -> Result<(), NoMemory>
    ensures { OnOk result (lines.new.items ≡ lines.old.items ++ comment words.now name.now text.now) }
{
    lines.extend_from_slice(words)?;
    lines.extend_from_slice(name)?;
    lines.extend_from_slice(b" ")?;
    lines.extend_from_slice(text)?;
    lines.extend_from_slice(b"\n")?;
    Ok(())
}

/// Appends a text and a number in decimal, likewise.
pub fn append_number(lines: &mut Vec<u8>, text: &[u8], number: u128) -> Result<(), NoMemory>
    ensures { OnOk result (lines.new.items ≡ lines.old.items ++ text.now ++ decimal number) }
{
    let mut digits = Buffer::new();
    lines.extend_from_slice(text)?;
    lines.extend_from_slice(digits.format(number).as_bytes())?;
    Ok(())
}
