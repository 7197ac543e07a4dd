ghost use Rattle.std.specs.Prelude.{◌≡◌, ◌⊎◌, ◌↔◌, ◌≤◌, map, length, string_bytes, codes};
ghost use Rattle.mc_outside.specs.Bytes.{Rose};
ghost use Rattle.mc_outside.specs.DiskView.{LinkKeeps, OnlyRead};
ghost use Rattle.mc_words.specs.declared.command.Command.{Command as Commanded};
ghost use Rattle.mc_words.specs.Commands.{AreNoWords, AreOfNoRow, AreWords};
ghost use Rattle.command_status.specs.Statuses.{number_of};
ghost use Rattle.std.specs.List.{AllZip};
ghost use Rattle.audit_cmd.specs.Reports.{AreCalm};
ghost use Rattle.mc_top.specs.Saying.{IsSaid, Says};
ghost use Rattle.mc_top.specs.Programs as programs;
ghost use Rattle.house_state.specs.declared.offer.SiteKind.TheVariants.{Vendor, Broker};
ghost use Rattle.house_state.specs.Learning.{untested};
ghost use Rattle.vendor_commands.specs.Operations.{operation_view};
ghost use Rattle.broker_commands.specs.Operations as brokers;
ghost use Rattle.mc_top.specs.Programs.{ServesOnce, TellsPlay, Operates, ordered, settlement, statement, Audits, AuditsTree, Tells, Obeys, Ends, Refuses, RunsAs, HasBook, EndsWell, HaveOtherBooks, count_of};

use crate::serving::{serve_desk, serve_shelf};
use crate::wallet::work;
use audit_cmd::{report_books, report_tree, tell_chains};
use broker_commands::DeskOperation;
use broker_core::Desk;
use command_status::Status;
use counted_trade::Counted;
use house_serving::BenchEnd;
use mc_base::NoMemory;
use mc_outside::{Disk, Doors, Link, Outside};
use mc_words::{Command, command_of};
use settle_commands::{SeriesStatement, StatementPayment};
use site_commands::{found_book, operate_book};
use site_words::{BrokerOperation, Operation, Playing, Shop, Stating};
use std::alloc::Global;
use vendor_commands::{VendorOperation, answer_play, serve_once};
use vendor_core::Shelf;
use wallet_commands::init;
use wallet_words::Reporting;

/// How the program ended: its status, and the outside and the books that it was given.
#[derive(Drop)]
pub struct Ran<O, D> {
    pub status: u8,
    pub out: O,
    pub books: Vec<D>,
}

/// The program: does what the words, those after its name, say, over the outside `out`. `books` are the
/// books that an audit is of, each on a disk of its own, in the order of the words.
///
/// `vendor once NAME TARGET PRICE SECRET CONTENTS` serves one link by a house in memory, and touches no
/// disk. `vendor play COUNT` plays so many heads that it makes itself by such a house, and says what it counted.
/// `vendor init BOOK NAME PERIOD LIFE SCRIP CUSTOMER [--keep S] [--clear]` founds a vendor in the
/// book on the outside's disk. `vendor serve BOOK LISTEN LINKS [--door PATH]` serves so many links by the house of that
/// book, or all that come; where there is a door, the links that came through it are its operator's, and each brings one of
/// his commands, which is done as over the book that is closed. `vendor goods`, `vendor price`, `vendor licence`, `vendor mint` and `vendor upgrade` enter into
/// that book what its operator says, at the reading of the clock; the contents of goods come on one link.
/// `broker init` founds a broker, with its FEE behind CUSTOMER, and `broker serve` serves its links. `broker account`,
/// `broker deposit`, `broker withdraw`, `broker licence`, `broker stock` and `broker upgrade` enter into its book what its
/// operator says; a licence and the pieces of stock come on one link. `broker balance` enters nothing. `vendor statement` and
/// `broker settle` enter what of a series was stated and paid; the statement that is paid comes on one link.
/// `wallet init` founds a wallet in the book. `wallet take` takes pieces whose lines come on one link. `wallet get`,
/// `wallet buy` and `wallet draw` enter what is asked, ask it on one link, and enter how the reply settled it; `wallet retry`
/// asks again what was entered. `wallet renew` pays for a target with the piece that ends first, and keeps the change. `wallet
/// list` says the pieces and their states, and `wallet lines` those of a vendor that may be sold on. `vendor chain`, `broker chain` and
/// `wallet chain` switch the chain of the book on, where it is not, and say it. `audit report BOOK.. [--json]` says the sums
/// of the books of a broker and of vendors, in which no stranger stands, `audit tree BOOK..` those of several brokers and of
/// vendors, and `audit chain BOOK..` the chain of each book.
///
/// 0: it is done. 2: the words are of no command, or name another number of books; nothing was touched but what is said.
/// That is so up to want of memory, since `clap` reads the words.
/// 3: the book that is opened is no journal, or has bytes that can't stand, or a chain that is not the one computed, or an
/// entry that may not follow.
/// 4: the disk failed. 5: memory was refused before anything was done, or to read the words; memory that is refused later, to
/// accept a request, is a reply with refusal 90 (`503`), and the link goes on. 6: `next_link` failed, or
/// receiving an operator's input, or saying the line of what is done. 7: a refusal is told: that the book to
/// be founded has bytes already (50), that the book that is opened is of a site of another kind (52), or what rules
/// refuse an operator, a customer or an auditor. A line says how it ended; where it can't be said, 0
/// becomes 6, and any other status stays. 8: a stranger stands in the books. The outside and the books are handed back.
pub fn run<O: Doors, D: Disk>(alloc: Global, words: &[String], out: O, books: Vec<D>) -> Ran<O, D>
    ensures books { AllZip (λ a b. OnlyRead (D.disk a) (D.disk b)) books.items result.books.items }
    ensures words { result.status ≡ 2 → AreOfNoRow (map string_bytes words.now)
        ⊎ HaveOtherBooks (map string_bytes words.now) (length books.items) }
    ensures no_words { AreNoWords (map string_bytes words.now)
        → Refuses O.link O.disk out books.items result.status result.out result.books.items }
    ensures other_books { HaveOtherBooks (map string_bytes words.now) (length books.items)
        → Refuses O.link O.disk out books.items result.status result.out result.books.items }
    ensures bad_words { result.status ≡ 2
        → IsSaid (codes "bad words\n") (O.link out) (O.link result.out)
        × LinkKeeps (O.disk out) (O.disk result.out) × (result.books ≡ books) }
    ensures obeyed { (command : Commanded) → AreWords (map string_bytes words.now) command
        → length books.items ≡ count_of command
        → RunsAs O.link O.disk D.disk command out books.items
        result.status result.out result.books.items }
    ensures complete { (command : Commanded) → AreWords (map string_bytes words.now) command
        → length books.items ≡ count_of command
        → HasBook (O.disk out) D.disk books.items command
        → (Rose (O.disk out).faults (O.disk result.out).faults → ⊥)
        → (Rose (O.link out).faults (O.link result.out).faults → ⊥)
        → AreCalm D.disk books.items result.books.items
        → EndsWell O.link O.disk D.disk command out books.items result.status result.out }
{
    let command = match command_of(alloc, words) {
        Ok(Some(command)) => command,
        Ok(None) => return ended(out, books, Status::BadWords),
        Err(_) => return ended(out, books, Status::NoMemory),
    };
    if books.len() != book_count(&command) {
        return ended(out, books, Status::BadWords);
    }
    let (out, books, status) = obey(alloc, &command, out, books);
    ended(out, books, status)
}

/// How the program ends with a status, whose line is said.
fn ended<O: Outside, D: Disk>(out: O, books: Vec<D>, status: Status) -> Ran<O, D>
    ensures ends { Ends O.link O.disk status out result.out result.status }
    ensures number { (result.status ≡ 2) ↔ (number_of status ≡ 2) }
    ensures books { result.books ≡ books }
    ensures read { AllZip (λ a b. OnlyRead (D.disk a) (D.disk b)) books.items result.books.items }
{
    let (out, status) = end(out, status);
    Ran { status, out, books }
}

/// How many books of sites a command has audited.
fn book_count(command: &Command<'_>) -> usize
    ensures { result ≡ count_of command.now }
{
    match command {
        Command::Report(reporting) => reporting.books().len(),
        Command::Chains(chained) => chained.books.list().len(),
        Command::Tree(tree) => tree.books.list().len(),
        _ => 0,
    }
}

/// Does what a command says, and tells how it ended.
fn obey<O: Doors, D: Disk>(
    alloc: Global,
    command: &Command<'_>,
    mut out: O,
    books: Vec<D>,
) -> (O, Vec<D>, Status)
    ensures obeyed { Obeys O.link O.disk D.disk command.now out books.items
        result.2 result.0 result.1.items }
    ensures read { AllZip (λ a b. OnlyRead (D.disk a) (D.disk b)) books.items result.1.items }
    ensures words { number_of result.2 ≡ 2 → ⊥ }
{
    match command {
        Command::Once(shop) => {
            let status = serve_shop(alloc, shop, &mut out);
            beside((out, status), books)
        }
        Command::Play(playing) => beside((out, play(alloc, playing)), books),
        Command::Init(founder) => {
            let done = found_book(alloc, &founder.founder(), Shelf::new(alloc), out);
            beside(done, books)
        }
        Command::Serve(server) => beside(serve_shelf(alloc, server, out), books),
        Command::Operate(operation) => beside(operate_shelf(alloc, operation, out), books),
        Command::State(stating) => beside(state(alloc, stating, out), books),
        Command::BrokerInit(founder) => {
            let done = found_book(alloc, &founder.founder(), Desk::new(alloc), out);
            beside(done, books)
        }
        Command::BrokerServe(server) => beside(serve_desk(alloc, server, out), books),
        Command::BrokerOperate(operation) => beside(operate_desk(alloc, operation, out), books),
        Command::Settle(_) => beside(settle(alloc, out), books),
        Command::WalletInit(founder) => beside(init(alloc, founder.name(), out), books),
        Command::WalletOperate(operation) => beside(work(alloc, operation, out), books),
        Command::Report(reporting) => {
            let (books, status) = report(alloc, reporting, books);
            (out, books, status)
        }
        Command::Chains(_) => {
            let (books, status) = tell(alloc, books);
            (out, books, status)
        }
        Command::Tree(_) => {
            let (books, status) = report_trees(alloc, books);
            (out, books, status)
        }
    }
}

/// What was done to the outside, beside books that were left alone.
fn beside<O, D: Disk>(done: (O, Status), books: Vec<D>) -> (O, Vec<D>, Status)
    ensures out { result.0 ≡ done.0 }
    ensures books { result.1 ≡ books }
    ensures read { AllZip (λ a b. OnlyRead (D.disk a) (D.disk b)) books.items result.1.items }
    ensures status { result.2 ≡ done.1 }
{
    let (out, status) = done;
    (out, books, status)
}

/// Has something done to the book of a vendor, and tells how it ended.
fn operate_shelf<O: Outside>(alloc: Global, operation: &Operation<'_>, out: O) -> (O, Status)
    ensures operated { Operates O.link O.disk untested Vendor (operation_view operation.now)
        out result.1 result.0 }
    ensures words { number_of result.1 ≡ 2 → ⊥ }
{
    let command = VendorOperation::of(operation);
    operate_book(alloc, &command, Shelf::new(alloc), out)
}

/// Has something done to the book of a broker, and tells how it ended.
fn operate_desk<O: Outside>(alloc: Global, operation: &BrokerOperation<'_>, out: O) -> (O, Status)
    ensures operated { Operates O.link O.disk untested Broker (brokers.operation_view operation.now)
        out result.1 result.0 }
    ensures words { number_of result.1 ≡ 2 → ⊥ }
{
    let command = DeskOperation::of(operation);
    operate_book(alloc, &command, Desk::new(alloc), out)
}

/// Has a series stated by the vendor of a book, which is opened with its counts, and tells how it ended.
fn state<O: Outside>(alloc: Global, stating: &Stating<'_>, out: O) -> (O, Status)
    ensures operated { Operates O.link O.disk ordered Vendor (statement stating.now)
        out result.1 result.0 }
    ensures words { number_of result.1 ≡ 2 → ⊥ }
{
    let command = SeriesStatement::of(stating.issuer, stating.epoch);
    operate_book(alloc, &command, Counted::new(alloc, Shelf::new(alloc)), out)
}

/// Has a statement paid by the broker of a book, which is opened with its counts, and tells how it ended.
fn settle<O: Outside>(alloc: Global, out: O) -> (O, Status)
    ensures operated { Operates O.link O.disk ordered Broker settlement out result.1 result.0 }
    ensures words { number_of result.1 ≡ 2 → ⊥ }
{
    operate_book(
        alloc,
        &StatementPayment,
        Counted::new(alloc, Desk::new(alloc)),
        out,
    )
}

/// Audits books, and tells how it ended.
fn report<D: Disk>(alloc: Global, reporting: &Reporting<'_>, books: Vec<D>) -> (Vec<D>, Status)
    ensures audited { Audits D.disk reporting.now.json books.items result.1 result.0.items }
    ensures read { AllZip (λ a b. OnlyRead (D.disk a) (D.disk b)) books.items result.0.items }
    ensures words { number_of result.1 ≡ 2 → ⊥ }
{
    report_books(alloc, books, reporting.is_json())
}

/// Audits books of several brokers, and tells how it ended.
fn report_trees<D: Disk>(alloc: Global, books: Vec<D>) -> (Vec<D>, Status)
    ensures audited { AuditsTree D.disk books.items result.1 result.0.items }
    ensures read { AllZip (λ a b. OnlyRead (D.disk a) (D.disk b)) books.items result.0.items }
    ensures words { number_of result.1 ≡ 2 → ⊥ }
{
    report_tree(alloc, books)
}

/// Tells the chains of books, and how that ended.
fn tell<D: Disk>(alloc: Global, books: Vec<D>) -> (Vec<D>, Status)
    ensures told { Tells D.disk books.items result.1 result.0.items }
    ensures read { AllZip (λ a b. OnlyRead (D.disk a) (D.disk b)) books.items result.0.items }
    ensures words { number_of result.1 ≡ 2 → ⊥ }
{
    tell_chains(alloc, books)
}

/// Serves the one link of a shop that keeps no book, and tells how it ended.
fn serve_shop<O: Outside>(alloc: Global, shop: &Shop<'_>, out: &mut O) -> Status
    ensures served { ServesOnce shop.now (O.link out.old) result (O.link out.new) }
    ensures keeps { LinkKeeps (O.disk out.old) (O.disk out.new) }
    ensures count { (O.link out.old).faults ≤ (O.link out.new).faults }
    ensures words { number_of result ≡ 2 → ⊥ }
{
    match serve_once(alloc, shop, out) {
        Ok(()) => Status::Done,
        Err(BenchEnd::NoMemory) => Status::NoMemory,
        Err(BenchEnd::Link) => Status::LinkFault,
    }
}

/// Plays so many heads, and tells what was counted.
fn play(alloc: Global, playing: &Playing) -> Status
    ensures played { TellsPlay playing.now.count result }
    ensures words { number_of result ≡ 2 → ⊥ }
{
    match answer_play(alloc, playing.count()) {
        Ok(lines) => Status::Did(lines),
        Err(NoMemory) => Status::NoMemory,
    }
}

/// Says the line of a status, where it has one, and answers its number; 6 in the place of 0 where the line
/// could not be said.
pub(crate) fn end<O: Outside>(out: O, status: Status) -> (O, u8)
    ensures ends { Ends O.link O.disk status out result.0 result.1 }
    ensures number { (result.1 ≡ 2) ↔ (number_of status ≡ 2) }
{
    let mut room = [0; 256];
    let (out, is_said) = say(out, status.line(&mut room));
    (out, answered(is_said, status.number()))
}

/// The number that is answered where a line was said, or could not be said.
pub(crate) fn answered(is_said: bool, number: u8) -> u8
    ensures number { result ≡ programs.answered is_said number }
    ensures other { (result ≡ 2) ↔ (number ≡ 2) }
{
    match number {
        0 if !is_said => Status::LinkFault.number(),
        _ => number,
    }
}

/// Says a line, where there is one, and answers whether it was said whole; where there is none nothing can fail.
pub(crate) fn say<O: Outside>(mut out: O, line: &[u8]) -> (O, bool)
    ensures said { Says line.now result.1 (O.link out) (O.link result.0) }
    ensures keeps { LinkKeeps (O.disk out) (O.disk result.0) }
{
    if line.is_empty() {
        return (out, true);
    }
    match out.say(line) {
        Ok(()) => (out, true),
        Err(_) => (out, false),
    }
}
