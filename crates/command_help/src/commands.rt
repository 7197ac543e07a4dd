//! What each command does: a line, some sentences more, and words that a person can type.

use command_table::CommandName;

/// What is said of a command.
#[derive(Clone, Copy)]
pub struct CommandText {
    /// What it does, in a line.
    pub line: &'static str,
    /// What it reads and prints, and what else one should know: some lines, each with its end.
    pub more: &'static str,
    /// An example of it, as it is typed, in one or more lines, each with its end.
    pub example: &'static str,
}

/// A row of the table.
fn text(line: &'static str, more: &'static str, example: &'static str) -> CommandText {
    CommandText {
        line,
        more,
        example,
    }
}

/// What is said of this command.
pub fn text_of(name: CommandName) -> CommandText {
    match name {
        CommandName::VendorInit => text(
            "founds a vendor in a new book",
            "A book that is missing is made, for its owner alone; prints `founded NAME`.\n\
             Nothing but the place of the book can be changed later.\n",
            "millicent vendor init news.book news.example 86400 2592000 \\\n        \
             \"$(openssl rand -hex 16)\" \"$(openssl rand -hex 16)\"\n",
        ),
        CommandName::VendorGoods => text(
            "puts goods on sale, or others in their place",
            "The contents are read from standard input, to its end: 65,536 bytes at most.\n\
             Prints `goods TARGET PRICE`.\n",
            "millicent vendor goods news.book /news/1 25 --kind 2 < page.html\n",
        ),
        CommandName::VendorPrice => text(
            "gives goods another price",
            "The contents stay. Prints `goods TARGET PRICE`.\n",
            "millicent vendor price news.book /news/1 30\n",
        ),
        CommandName::VendorLicence => text(
            "lets a broker make scrip of this vendor",
            "Prints the line that the broker enters by `broker licence`; who reads it can make\n\
             scrip that this vendor takes. A licence can't be taken back.\n",
            "millicent vendor licence news.book 1 86400 2592000 \\\n        \
             \"$(openssl rand -hex 16)\" \"$(openssl rand -hex 16)\" > licence\n",
        ),
        CommandName::VendorMint => text(
            "makes pieces of the vendor's own scrip, and prints them",
            "Prints a line for each piece, its scrip and its secret: as good as money. The same\n\
             words again print the same lines and make nothing new.\n",
            "millicent vendor mint news.book 100 5000 spring > pieces\n",
        ),
        CommandName::VendorServe => text(
            "serves a vendor's pages from its book",
            "Answers requests over HTTP until so many links were served; then prints\n\
             `served LINKS`. Meanwhile no other command can open the book; with --door PATH the\n\
             operator's commands are given with PATH in the place of BOOK.\n",
            "millicent vendor serve news.book 127.0.0.1:8081 1000000\n",
        ),
        CommandName::VendorOnce => text(
            "sells one thing on standard input and output, and forgets it",
            "Requests are read from standard input, and replies written to standard output.\n",
            "millicent vendor once news.example /news/1 25 \\\n        \
             55555555555555555555555555555555 hi < examples/paid-page.request\n",
        ),
        CommandName::VendorPlay => text(
            "answers so many requests of its own, in memory, and counts",
            "Opens no book and no link. Prints what was accepted, repeated and refused.\n",
            "millicent vendor play 8\n",
        ),
        CommandName::VendorUpgrade => text(
            "moves an issuer's scrip to version 2 from an epoch on",
            "The epoch must be still to come, and can't be changed later. Of a licence agree on\n\
             it with the broker first. Prints `upgrade VENDOR ISSUER EPOCH`.\n",
            "millicent vendor upgrade news.book 0 $(($(date +%s) / 86400 + 14))\n",
        ),
        CommandName::VendorChain => text(
            "has each later entry carry a digest of all so far",
            "Prints `chain NAME COUNT DIGEST`: how many entries there are, and a digest of all.\n\
             Given again it prints that line of the book as it then is.\n",
            "millicent vendor chain news.book\n",
        ),
        CommandName::VendorList => text(
            "lists what is on sale",
            "Prints `goods TARGET PRICE KIND LENGTH` of each target, in the order in which they\n\
             were first put on sale, and enters nothing.\n",
            "millicent vendor list news.book\n",
        ),
        CommandName::VendorStatus => text(
            "prints how the site is, for Prometheus",
            "Prints entries, bytes of the book, takings and goods in Prometheus' text form, and\n\
             enters nothing.\n",
            "millicent vendor status news.book\n",
        ),
        CommandName::VendorStatement => text(
            "states what it took of an epoch of a licence",
            "The epoch must have ended. Prints the line that the broker enters by `broker settle`:\n\
             `statement VENDOR ISSUER EPOCH AMOUNT CERT`.\n",
            "millicent vendor statement news.book 1 $((($(date +%s) - 2592000) / 86400 - 1))\n",
        ),
        CommandName::BrokerInit => text(
            "founds a broker in a new book",
            "A book that is missing is made, for its owner alone; prints `founded NAME`.\n\
             Nothing but the place of the book can be changed later.\n",
            "millicent broker init bank.book bank 86400 2592000 \\\n        \
             \"$(openssl rand -hex 16)\" \"$(openssl rand -hex 16)\" 1 --keep 86400\n",
        ),
        CommandName::BrokerAccount => text(
            "opens an account",
            "Who has the key can draw from the account. Prints `account ACCOUNT`.\n",
            "millicent broker account bank.book ann \"$(cat ann.key)\"\n",
        ),
        CommandName::BrokerDeposit => text(
            "puts an amount into an account, once under a reference",
            "Prints `balance ACCOUNT N`. The same words again enter nothing.\n",
            "millicent broker deposit bank.book ann 100000 receipt-117\n",
        ),
        CommandName::BrokerWithdraw => text(
            "takes an amount out of an account, once under a reference",
            "Prints `balance ACCOUNT N`. The same words again enter nothing.\n",
            "millicent broker withdraw bank.book ann 20000 payout-9\n",
        ),
        CommandName::BrokerBalance => text(
            "prints what an account holds",
            "Prints `balance ACCOUNT N`, and enters nothing.\n",
            "millicent broker balance bank.book ann\n",
        ),
        CommandName::BrokerLicence => text(
            "takes a vendor's licence",
            "The line of `vendor licence` is read from standard input. Prints\n\
             `licence VENDOR ISSUER`.\n",
            "millicent broker licence bank.book < licence\n",
        ),
        CommandName::BrokerStock => text(
            "takes pieces of a vendor",
            "Lines of `vendor mint` or `wallet lines`, 1 to 256, are read from standard input,\n\
             and all of them entered or none. Prints `stock VENDOR COUNT`.\n",
            "millicent broker stock bank.book news.example < pieces\n",
        ),
        CommandName::BrokerServe => text(
            "serves draws, sales and credits from a book",
            "Answers requests over HTTP until so many links were served; then prints\n\
             `served LINKS`. Meanwhile no other command can open the book; with --door PATH the\n\
             operator's commands are given with PATH in the place of BOOK.\n",
            "millicent broker serve bank.book 127.0.0.1:8082 1000000\n",
        ),
        CommandName::BrokerUpgrade => text(
            "moves what the broker makes to version 2 from an epoch on",
            "Of a vendor with a licence the epoch must be the one that the vendor named. Prints\n\
             `upgrade VENDOR ISSUER EPOCH`.\n",
            "millicent broker upgrade bank.book news.example $(($(date +%s) / 86400 + 14))\n",
        ),
        CommandName::BrokerChain => text(
            "has each later entry carry a digest of all so far",
            "Prints `chain NAME COUNT DIGEST`: how many entries there are, and a digest of all.\n\
             Given again it prints that line of the book as it then is.\n",
            "millicent broker chain bank.book\n",
        ),
        CommandName::BrokerList => text(
            "lists the accounts",
            "Prints `account ACCOUNT BALANCE ORDER` of each, ORDER being that of its last draw,\n\
             in the order in which they were opened, and enters nothing.\n",
            "millicent broker list bank.book\n",
        ),
        CommandName::BrokerStatus => text(
            "prints how the site is, for Prometheus",
            "Prints entries, bytes of the book and accounts in Prometheus' text form, and enters\n\
             nothing.\n",
            "millicent broker status bank.book\n",
        ),
        CommandName::BrokerSettle => text(
            "enters that a vendor's statement is paid",
            "The line of `vendor statement` is read from standard input. Prints\n\
             `paid VENDOR ISSUER EPOCH AMOUNT`; the money itself you pay by other means.\n",
            "millicent broker settle bank.book < statement\n",
        ),
        CommandName::WalletInit => text(
            "founds a wallet in a new book",
            "A book that is missing is made, for its owner alone. Prints `founded NAME`.\n",
            "millicent wallet init ann.book ann\n",
        ),
        CommandName::WalletTake => text(
            "takes pieces",
            "Lines of `vendor mint`, 1 to 256, are read from standard input, and all of them\n\
             entered or none. Prints `taken COUNT`.\n",
            "millicent wallet take ann.book < pieces\n",
        ),
        CommandName::WalletDraw => text(
            "draws a piece of a broker's from an account",
            "The same order and amount again is the same draw. Prints `got BROKER AMOUNT`.\n",
            "millicent wallet draw ann.book bank ann \"$(cat ann.key)\" 1 300 127.0.0.1:8082\n",
        ),
        CommandName::WalletBuy => text(
            "buys a piece of a vendor's from a broker",
            "The broker takes the amount and a fee. Prints `got VENDOR AMOUNT`.\n",
            "millicent wallet buy ann.book bank news.example 100 101 127.0.0.1:8082\n",
        ),
        CommandName::WalletGet => text(
            "pays a vendor for a page, and prints it",
            "The page may cost as much as the piece that pays; change comes into the wallet.\n\
             Standard error has the price. With a status above 0 what is printed is no page.\n",
            "millicent wallet get ann.book news.example /news/1 25 127.0.0.1:8081\n",
        ),
        CommandName::WalletRetry => text(
            "sends the oldest unsettled request to a site again",
            "It is charged once, however often it is sent. Prints what the request's own command\n\
             would have printed.\n",
            "millicent wallet retry ann.book news.example 127.0.0.1:8081\n",
        ),
        CommandName::WalletList => text(
            "prints its pieces",
            "Prints a line for each piece that ever came in: state, site, worth, identity, end.\n",
            "millicent wallet list ann.book\n",
        ),
        CommandName::WalletLines => text(
            "prints pieces, as lines that a broker takes as stock",
            "Prints the first 256 that may be sold on. Each line is as good as money, and the\n\
             wallet holds its piece still: pay with none of them from then on.\n",
            "millicent wallet lines own.book news.example > pieces\n",
        ),
        CommandName::WalletChain => text(
            "has each later entry carry a digest of all so far",
            "Prints `chain NAME COUNT DIGEST`: how many entries there are, and a digest of all.\n\
             Given again it prints that line of the book as it then is.\n",
            "millicent wallet chain ann.book\n",
        ),
        CommandName::WalletProxy => text(
            "serves a browser, and pays for each page",
            "Each page that is asked for at LISTEN is paid for at the vendor, and passed on.\n\
             After so many links it prints `proxied LINKS PAID`.\n",
            "millicent wallet proxy ann.book news.example 25 100 \\\n        \
             127.0.0.1:8090 127.0.0.1:8081 1000\n",
        ),
        CommandName::WalletRenew => text(
            "pays with the piece that ends first, and keeps the change",
            "The change has a later end. Prints `renewed VENDOR WORTH END` of it, and no page.\n",
            "millicent wallet renew ann.book news.example /renew \\\n        \
             $(($(date +%s) + 172800)) 127.0.0.1:8081\n",
        ),
        CommandName::AuditReport => text(
            "adds up the books of a broker and its vendors",
            "Only reads. Prints the sums and `balanced`, or the first piece that nobody handed out.\n",
            "millicent audit report bank.book news.book shop.book\n",
        ),
        CommandName::AuditChain => text(
            "prints each book's chain",
            "Only reads. Prints `chain NAME COUNT DIGEST` of each book, in your order.\n",
            "millicent audit chain bank.book news.book\n",
        ),
        CommandName::AuditTree => text(
            "adds up the books of several brokers and of vendors",
            "Only reads. Prints a line for each site, what was relayed, and `balanced`.\n",
            "millicent audit tree bank.book kiosk.book news.book\n",
        ),
    }
}

/// Who has a role, and what for.
pub fn role_line(role: &str) -> &'static str {
    match role {
        "vendor" => "sells pages for scrip",
        "broker" => "keeps accounts for customers, and sells them the scrip of vendors",
        "wallet" => "holds a customer's pieces, and pays with them",
        "audit" => "adds up the books of brokers and of vendors",
        _ => "",
    }
}
