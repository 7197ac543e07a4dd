//! The lines that are said of what a broker's operator has done.

ghost use Rattle.std.specs.Prelude.{◌≡◌, ◌++◌, ◌≤◌, ◌+◌, IfOk, IfSome, vec_len, vec_capacity};
ghost use Rattle.said_lines.specs.Lines.{with_number};
ghost use Rattle.broker_commands.specs.Operations.{account_line, balance_words, stock_words, taken_line};

use mc_base::NoMemory;
use said_lines::{READY, begin, end_line, put, put_number};
use scrip_form::Name;
use std::alloc::Global;

/// The line of an account that is opened.
pub(crate) fn account_line(alloc: Global, name: &Name) -> Result<Vec<u8>, NoMemory>
    ensures { IfOk result (λ line. line.items ≡ account_line name.now) }
{
    begin(alloc, b"account ", name, b"\n")
}

/// The line of a balance, up to the balance.
pub(crate) fn balance_words(alloc: Global, name: &Name) -> Result<Vec<u8>, NoMemory>
    ensures { IfOk result (λ line. line.items ≡ balance_words name.now) }
{
    begin(alloc, b"balance ", name, b" ")
}

/// The line of stock, up to the count of its pieces.
pub(crate) fn stock_words(alloc: Global, vendor: &Name) -> Result<Vec<u8>, NoMemory>
    ensures { IfOk result (λ line. line.items ≡ stock_words vendor.now) }
{
    begin(alloc, b"stock ", vendor, b" ")
}

/// Appends the line of a licence that is taken, for which there is room. It takes no memory.
pub(crate) fn put_taken(line: &mut Vec<u8>, vendor: &Name, issuer: u8)
    requires { vec_len line.old + READY ≤ vec_capacity line.old }
    ensures { line.new.items ≡ line.old.items ++ taken_line vendor.now issuer }
{
    put(line, b"licence ");
    put(line, vendor.bytes());
    put(line, b" ");
    put_number(line, u64::from(issuer));
    put(line, b"\n");
}

/// Ends a line, which has room for it, by a number that was answered, if one was. It takes no memory.
pub(crate) fn end_by(line: &mut Vec<u8>, answer: Option<u64>)
    requires { vec_len line.old + READY ≤ vec_capacity line.old }
    ensures { IfSome answer (λ n. line.new.items ≡ with_number line.old.items n) }
{
    match answer {
        Some(number) => end_line(line, number),
        None => (),
    }
}
