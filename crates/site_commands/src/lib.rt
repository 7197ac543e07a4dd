//! What a command does with the book of a site, whatever the trade: it founds the book, opens it and serves its
//! links, or opens it and has its operator's command done.
#![tactic(auto)]

mod founder;
mod init;
mod law;
mod operator;
mod serving;

pub use init::found_book;
pub use law::{books_of_another_kind_are_told, lawful_books_are_opened};
pub use operator::operate_book;
pub use serving::serve_book;
