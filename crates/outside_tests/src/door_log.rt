//! What is told on standard error of a command at a door.

use crate::told::Told;
use diagnostics::DoorLog;
use std::alloc::Global;
use std::test::Fail;

const KEY: &str = "beefbeefbeefbeefbeefbeefbeefbeef";

/// What is told of a link of the operator's on which these came, one after another, and these were sent.
fn told_of(alloc: Global, parts: &[&str], answers: &[&str]) -> String {
    let told = Told::new(alloc);
    let mut log = DoorLog::new();
    log.begin();
    for part in parts {
        log.hear(part.as_bytes());
    }
    for answer in answers {
        log.answer(answer.as_bytes());
    }
    log.end(&told);
    log.end(&told);
    told.text()
}

#[test]
fn a_command_is_told_by_two_words_and_its_status(rt: HostRuntime) -> Result<(), Fail> {
    let alloc = rt.alloc();
    let price = told_of(
        alloc,
        &["0 vendor price - /news/1 30\n"],
        &["0 17\n", "goods /news/1 30\n"],
    );
    assert_eq!(rt; price.as_str(), "door: vendor price: 0\n");
    let parts = told_of(
        alloc,
        &["14 vendor go", "ods - /news/2 5\nGo"],
        &["7 25\nrefused"],
    );
    assert_eq!(rt; parts.as_str(), "door: vendor goods: 7\n");
    let short = told_of(alloc, &["0 broker balance\n"], &["2 10\nbad words\n"]);
    assert_eq!(rt; short.as_str(), "door: broker balance: 2\n");
    let lost = told_of(alloc, &["0 vendor chain -\n"], &[]);
    assert_eq!(rt; lost.as_str(), "door: vendor chain: no answer\n");
    Ok(())
}

#[test]
fn no_other_word_of_a_command_is_told(rt: HostRuntime) -> Result<(), Fail> {
    let alloc = rt.alloc();
    let account = format!(in alloc; "0 broker account - ann {KEY}\n")?;
    let account = told_of(alloc, &[account.as_str()], &["0 12\n", "account ann\n"]);
    assert_eq!(rt; account.as_str(), "door: broker account: 0\n");
    // Where the key is in a wrong place, or the line is none.
    let bad = [
        "0 broker ",
        "0 ",
        "",
        "0 broker account",
        "32\nbroker account - ann ",
    ];
    for front in &bad {
        let line = format!(in alloc; "{front}{KEY} account - ann\n")?;
        let told = told_of(alloc, &[line.as_str()], &["2 10\nbad words\n"]);
        assert_eq!(rt; told.as_str(), "door: bad words: 2\n");
    }
    Ok(())
}

#[test]
fn a_customers_link_is_not_told(rt: HostRuntime) -> Result<(), Fail> {
    let told = Told::new(rt.alloc());
    let mut log = DoorLog::new();
    log.hear(b"0 vendor price - /news/1 30\n");
    log.answer(b"0 17\n");
    log.end(&told);
    assert!(rt; told.text().is_empty());
    Ok(())
}
