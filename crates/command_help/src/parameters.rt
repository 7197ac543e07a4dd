//! What each parameter means, and which words it has.

use command_table::{Parameter, Shape, Sort};
use mc_records::MOST_CONTENTS;
use site_words::KEEP;
use std::fmt;

/// What a parameter is for.
pub fn meaning_of(parameter: Parameter) -> &'static str {
    match parameter {
        Parameter::Book => "the file of the book",
        Parameter::Books => "the files of the books, one or more, in any order",
        Parameter::Name => "the name of the site or the wallet; of a site it is in all its scrip",
        Parameter::Period => "for how many seconds pieces are given in one series",
        Parameter::Life => "for how many seconds a series stays good after its period",
        Parameter::Scrip => "the secrets that certificates of scrip are made with",
        Parameter::Customer => "the secrets that customers' secrets are made with",
        Parameter::Fee => "what a broker takes for a piece of a vendor's, beside its value",
        Parameter::Keep => "for how many seconds a repeated request gets its first reply",
        Parameter::Clear => "requests without a signature are taken too",
        Parameter::Target => "what a request asks for, with its query where it has one",
        Parameter::Price => "what it costs",
        Parameter::Kind => "the kind of the contents: 0 bytes, 1 plain text, 2 HTML",
        Parameter::Issuer => "the number of the issuer that is licensed",
        Parameter::AnyIssuer => "the number of the issuer; 0 is the vendor itself",
        Parameter::Epoch => "the epoch: a moment in seconds, divided by PERIOD, rounded down",
        Parameter::Pieces => "how many pieces",
        Parameter::Value => "what each of them is worth",
        Parameter::Reference => "a name for this one mint or payment, new for each",
        Parameter::Listen => "where links come",
        Parameter::Links => "after how many links the program ends",
        Parameter::Door => "where the site's operator gives commands while it serves",
        Parameter::Secret => "the one secret of the shop",
        Parameter::Contents => "what it sells",
        Parameter::Heads => "how many requests",
        Parameter::Account => "the name of the account",
        Parameter::Key => "the secret of the account's holder, who signs draws with it",
        Parameter::Amount => "how much is put in, taken out, drawn or bought",
        Parameter::Vendor => "the name of the vendor",
        Parameter::Broker => "the name of the broker",
        Parameter::Peer => "the name of the site",
        Parameter::Order => "a number above that of each earlier draw from the account",
        Parameter::Connect => "where the site is reached",
        Parameter::Limit => "what the piece that pays has to be worth at least",
        Parameter::Budget => "what all payments together may come to",
        Parameter::Before => "a second since 1970; a piece that ends then or earlier is due",
        Parameter::Json => "the report is printed as JSON",
    }
}

/// The unit of a parameter's numbers; empty where they have none, or the meaning has it.
pub fn unit_of(parameter: Parameter) -> &'static str {
    match parameter {
        Parameter::Price
        | Parameter::Value
        | Parameter::Fee
        | Parameter::Amount
        | Parameter::Limit
        | Parameter::Budget => ", in thousandths of a cent",
        _ => "",
    }
}

/// The form of the words of a parameter, as it is printed: `1 to 255`, say.
#[derive(Drop)]
pub struct Form {
    parameter: Parameter,
}

/// The form of the words of this parameter.
pub fn form_of(parameter: Parameter) -> Form {
    Form { parameter }
}

impl fmt::Display for Form {
    fn fmt<W: fmt::Write>(&self, f: &mut fmt::Formatter<W>) -> fmt::Result {
        let unit = unit_of(self.parameter);
        match (self.parameter, self.parameter.shape()) {
            (_, Shape::Flag) => write!(f, "no value"),
            (Parameter::Keep, Shape::Setting(Sort::Number(least, most))) => {
                write!(f, "{least} to {most}; {KEEP} where it is left out")
            }
            (_, Shape::Setting(Sort::Number(least, most))) => {
                write!(f, "{least} to {most}; 0 where it is left out")
            }
            (_, Shape::One(Sort::Number(least, most))) => write!(f, "{least} to {most}{unit}"),
            (_, Shape::One(Sort::Contents)) => write!(f, "{MOST_CONTENTS} bytes at most"),
            (parameter, _) => write!(f, "{}", words_of(parameter)),
        }
    }
}

/// The form of words that are no number.
fn words_of(parameter: Parameter) -> &'static str {
    match (parameter, parameter.shape()) {
        (Parameter::Listen, _) => {
            "a host or address, a colon and a port, or the path of a Unix socket, which begins with /"
        }
        (Parameter::Door, _) => "the path of a Unix socket, of 2 to 107 bytes, the first /",
        (Parameter::Connect, _) => "a host or address, a colon and a port, as 127.0.0.1:8081",
        (_, Shape::One(Sort::Name)) => {
            "1 to 63 of a to z, 0 to 9, - and ., the first a letter or a digit"
        }
        (_, Shape::One(Sort::Target)) => "1 to 512 visible characters, the first /",
        (_, Shape::One(Sort::Secret)) => "32 of 0 to 9 and a to f",
        (_, Shape::One(Sort::Secrets)) => {
            "1 to 16 times 32 of 0 to 9 and a to f, with a comma between each two"
        }
        _ => "a path of 1 to 255 bytes",
    }
}
