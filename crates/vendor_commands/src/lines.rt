//! The lines that are said of what a vendor's operator has done, and of a play.

ghost use Rattle.std.specs.Prelude.{◌≡◌, ◌++◌, OnOk, IfOk, codes, decimal};
ghost use Rattle.command_table.specs.Ranges.{joined};
ghost use Rattle.licence_lines.specs.Licences.{licence_line};
ghost use Rattle.vendor_commands.specs.Operations.{goods_line};
ghost use Rattle.vendor_commands.specs.Play.{play_line, play_lines};

use house_core::Tally;
use mc_base::{Amount, NoMemory};
use said_lines::append_number;
use scrip_certs::hex_of;
use scrip_form::{Name, Target, Terms};
use std::alloc::Global;

/// The line of goods that were put on sale at a price.
pub(crate) fn goods_line(alloc: Global, target: &Target, price: Amount) -> Result<Vec<u8>, NoMemory>
    ensures { IfOk result (λ line. line.items ≡ goods_line target.now price) }
{
    let mut line = Vec::new(alloc);
    line.extend_from_slice(b"goods ")?;
    line.extend_from_slice(target.bytes())?;
    append_number(&mut line, b" ", u128::from(price.get()))?;
    line.extend_from_slice(b"\n")?;
    Ok(line)
}

/// The line of a licence of a vendor's: its issuer, whose scrip the vendor takes, and all its terms.
pub(crate) fn licence_line(alloc: Global, vendor: &Name, terms: &Terms) -> Result<Vec<u8>, NoMemory>
    ensures { IfOk result (λ line. line.items ≡ licence_line vendor.now terms.now) }
{
    let mut line = Vec::new(alloc);
    line.extend_from_slice(b"licence ")?;
    line.extend_from_slice(vendor.bytes())?;
    append_number(&mut line, b" ", u128::from(terms.issuer()))?;
    append_number(&mut line, b" ", u128::from(terms.period()))?;
    append_number(&mut line, b" ", u128::from(terms.life()))?;
    append_secrets(&mut line, terms.scrip())?;
    append_secrets(&mut line, terms.customer())?;
    line.extend_from_slice(b"\n")?;
    Ok(line)
}

/// The lines of a play of so many heads, of what was counted, and of how many windows there are.
pub(crate) fn play_lines(
    alloc: Global,
    count: u32,
    tally: &Tally,
    windows: usize,
) -> Result<Vec<u8>, NoMemory>
    ensures { IfOk result (λ lines. lines.items ≡ play_lines count tally.now windows) }
{
    let mut lines = Vec::new(alloc);
    append_line(&mut lines, b"played", u128::from(count))?;
    append_line(&mut lines, b"accepted", u128::from(tally.taken))?;
    append_line(&mut lines, b"again", u128::from(tally.again))?;
    append_line(&mut lines, b"refused 26", u128::from(tally.expired))?;
    append_line(&mut lines, b"refused 27", u128::from(tally.spent))?;
    append_line(&mut lines, b"refused 31", u128::from(tally.little))?;
    append_line(&mut lines, b"takings", tally.takings)?;
    append_line(&mut lines, b"change", tally.change)?;
    append_line(&mut lines, b"windows", windows as u128)?;
    Ok(lines)
}

/// Appends a line of words and a number. After an `Err` there may be a part of it.
fn append_line(lines: &mut Vec<u8>, words: &[u8], number: u128) -> Result<(), NoMemory>
    ensures { OnOk result (lines.new.items ≡ lines.old.items ++ play_line words.now number) }
{
    lines.extend_from_slice(words)?;
    append_number(lines, b" ", number)?;
    lines.extend_from_slice(b"\n")?;
    Ok(())
}

/// Appends a space and some secrets, with a comma between each two. After an `Err` the line may have a part of them.
fn append_secrets(line: &mut Vec<u8>, secrets: &[[u8; 16]]) -> Result<(), NoMemory>
    ensures { OnOk result (line.new.items ≡ line.old.items ++ codes " " ++ joined secrets.now) }
{
    line.push(b' ')?;
    for (i, secret) in secrets.iter().enumerate() {
        if i > 0 {
            line.push(b',')?;
        }
        line.extend_from_slice(&hex_of(secret))?;
    }
    Ok(())
}
