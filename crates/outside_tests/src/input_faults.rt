//! What is told on standard error of a line of the input that a command refused.

use crate::told::Told;
use diagnostics::tell_bad_line;
use mc_outside::Link;
use mc_site::{Book, Site, Streams};
use std::alloc::Global;
use std::fs::File;
use std::test::Fail;

const MINTED: &str =
    "MS1|news.example|100|0000000000000001|0000000000000001|12288||0123456789abcdef0123456789abcdef 00112233445566778899aabbccddeeff\n";

const ISSUED: &str =
    "MS1|news.example|100|0100000000000001|0100000000000001|12288||0123456789abcdef0123456789abcdef 00112233445566778899aabbccddeeff\n";

const CHANGE: &str =
    "MS1|news.example|100|0000000000000001|0000000000000002|12288||0123456789abcdef0123456789abcdef 00112233445566778899aabbccddeeff\n";

/// What is told of the only line of an input for a vendor's stock, which was refused.
fn told_of(rt: &HostRuntime, vendor: &str, line: &str) -> Result<String, Fail> {
    let alloc = rt.alloc();
    let source = Streams::new(line.as_bytes(), Vec::new(alloc), None::<&HostRuntime>);
    let book: Book<File> = Book::none();
    let mut site = Site::new(book, source, Vec::new(alloc), rt);
    site.keep(alloc);
    refuse(&mut site);
    let words = words_of(alloc, vendor)?;
    let told = Told::new(alloc);
    if let Some(passed) = site.passed() {
        tell_bad_line(&told, &words, passed);
    }
    Ok(told.text())
}

/// Takes the line, and says that it is refused.
fn refuse<L: Link>(site: &mut L) {
    if let Ok(true) = site.next_link() {
        let _ = site.recv(&mut [0; 256]);
    }
    let _ = site.say(b"refused 53 BadInput 1\n");
}

/// The words of the command that takes a stock of this vendor.
fn words_of(alloc: Global, vendor: &str) -> Result<Vec<String>, Fail> {
    let mut words = Vec::new(alloc);
    for word in ["broker", "stock", "bank.book", vendor] {
        words.push(String::from_str(alloc, word)?)?;
    }
    Ok(words)
}

#[test]
fn each_line_of_a_stock_has_its_fault(rt: HostRuntime) -> Result<(), Fail> {
    let rows = [
        ("MS1|a\r\n", "a carriage return stands in it\n"),
        ("MS1|a", "it has no line end\n"),
        ("\n", "it is empty\n"),
        (
            "MS1|a b\n",
            "it does not begin with the text of a piece and a space\n",
        ),
        (
            ISSUED,
            "the piece is an issuer's, not of the vendor's own making\n",
        ),
        (CHANGE, "the piece is not as its vendor minted it\n"),
    ];
    for (line, fault) in &rows {
        let told = told_of(&rt, "news.example", line)?;
        assert_eq!(rt; told.strip_prefix("millicent: line 1: "), Some(*fault));
    }
    let told = told_of(&rt, "shop", MINTED)?;
    assert_eq!(rt;
        told.as_str(),
        "millicent: line 1: the piece is of another vendor\n"
    );
    Ok(())
}
