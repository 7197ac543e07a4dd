//! What is told on standard error of words that are of no command.

use crate::told::Told;
use diagnostics::tell_usage;
use std::alloc::Global;
use std::test::Fail;

/// What is told of these words.
fn told_of(alloc: Global, words: &[&str]) -> Result<String, Fail> {
    let mut copies = Vec::new(alloc);
    for word in words {
        copies.push(String::from_str(alloc, *word)?)?;
    }
    let told = Told::new(alloc);
    tell_usage(&told, alloc, &copies);
    Ok(told.text())
}

#[test]
fn a_word_of_no_value_is_told_with_the_values(rt: HostRuntime) -> Result<(), Fail> {
    let price = told_of(
        rt.alloc(),
        &["vendor", "price", "news.book", "/news/1", "0"],
    )?;
    assert_eq!(rt;
        price.as_str(),
        "millicent: 0: wrong word\n\
         millicent: PRICE is a number from 1 to 1099511627776\n\
         usage: millicent vendor price BOOK TARGET PRICE\n\
         see millicent --help\n"
    );
    let kind = told_of(
        rt.alloc(),
        &[
            "vendor",
            "goods",
            "news.book",
            "/news/1",
            "25",
            "--kind",
            "3",
        ],
    )?;
    assert_eq!(rt;
        kind.as_str(),
        "millicent: 3: wrong word\n\
         millicent: --kind is 0 (bytes), 1 (text) or 2 (HTML)\n\
         usage: millicent vendor goods BOOK TARGET PRICE [--kind K]\n\
         see millicent --help\n"
    );
    let more = told_of(rt.alloc(), &["wallet", "list", "a.book", "b.book"])?;
    assert_eq!(rt;
        more.as_str(),
        "millicent: b.book: wrong word\n\
         usage: millicent wallet list BOOK\n\
         see millicent --help\n"
    );
    Ok(())
}

#[test]
fn a_missing_word_and_a_missing_port_are_told(rt: HostRuntime) -> Result<(), Fail> {
    let port = told_of(
        rt.alloc(),
        &["wallet", "retry", "a.book", "bank", "127.0.0.1"],
    )?;
    assert_eq!(rt;
        port.as_str(),
        "millicent: 127.0.0.1: wrong word\n\
         millicent: CONNECT is a host or address, a colon and a port, as 127.0.0.1:8081\n\
         usage: millicent wallet retry BOOK PEER CONNECT\n\
         see millicent --help\n"
    );
    let missing = told_of(rt.alloc(), &["wallet", "retry", "a.book", "bank"])?;
    assert_eq!(rt;
        missing.as_str(),
        "millicent: CONNECT is missing: where the site is reached\n\
         millicent: CONNECT is a host or address, a colon and a port, as 127.0.0.1:8081\n\
         usage: millicent wallet retry BOOK PEER CONNECT\n\
         see millicent --help\n"
    );
    let role = told_of(rt.alloc(), &["audit", "list"])?;
    assert_eq!(rt;
        role.as_str(),
        "millicent: list: wrong word\n\
         usage: millicent audit report|chain|tree ..\n\
         see millicent --help\n"
    );
    Ok(())
}
