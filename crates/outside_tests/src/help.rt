//! What is printed of words that ask for help.

use command_help::{form_of, meaning_of, page_of};
use command_table::{COMMANDS, Shape};
use std::alloc::Global;
use std::test::Fail;

/// The page that these words ask for, as it is printed; empty where they ask for none.
fn page(alloc: Global, words: &[&str]) -> Result<String, Fail> {
    let mut copies = Vec::new(alloc);
    for word in words {
        copies.push(String::from_str(alloc, *word)?)?;
    }
    match page_of(&copies) {
        Some(page) => Ok(format!(in alloc; "{page}")?),
        None => Ok(String::new(alloc)),
    }
}

#[test]
fn each_command_is_explained_with_its_parameters(rt: HostRuntime) -> Result<(), Fail> {
    let alloc = rt.alloc();
    let all = page(alloc, &["--help"])?;
    for name in &COMMANDS {
        let role = page(alloc, &[name.role(), "help"])?;
        let said = page(alloc, &["help", name.role(), name.name()])?;
        assert!(rt; all.as_str().contains(name.name()));
        assert!(rt; role.as_str().contains(name.name()));
        for parameter in name.parameters() {
            let form = form_of(*parameter);
            let form = format!(in alloc; "{form}")?;
            assert!(rt; said.as_str().contains(parameter.name()));
            assert!(rt; said.as_str().contains(meaning_of(*parameter)));
            // A flag has no value, and so no form.
            let is_flag = matches!(parameter.shape(), Shape::Flag);
            assert!(rt; is_flag || said.as_str().contains(form.as_str()));
        }
        assert!(rt; page(alloc, &[name.role(), name.name()])?.is_empty());
    }
    Ok(())
}
