ghost use Rattle.std.specs.Prelude.{◌≡◌, map, string_bytes, IfOk};
ghost use Rattle.mc_top.specs.Places.{ArePlaces, AreProxyPlaces, audited_places, founded_places, no_places, operated_places, places_of, proxied_places, served_places, wallet_places};

use crate::named::Places;
use mc_base::{List, NoMemory};
use mc_words::{Command, command_of};
use site_words::Server;
use std::alloc::Global;
use wallet_words::{Proxying, WalletOperation, proxying_of};

/// Tells what the words, those after the program's name, name: None, or no books, where they are of no
/// command, or their command names none such. The words of `run_proxy` name a book, and both a place to listen at and one to
/// connect to.
pub fn places(alloc: Global, words: &[String]) -> Result<Places, NoMemory>
    ensures { IfOk result (ArePlaces (map string_bytes words.now)) }
{
    match command_of(alloc, words)? {
        Some(command) => command_places(alloc, &command),
        None => proxied(alloc, words),
    }
}

/// The places of a command.
fn command_places(alloc: Global, command: &Command<'_>) -> Result<Places, NoMemory>
    ensures { IfOk result (λ places. places ≡ places_of command.now) }
{
    match command {
        Command::Init(founder) => founded(alloc, founder.book()),
        Command::BrokerInit(founder) => founded(alloc, founder.book()),
        Command::Serve(server) | Command::BrokerServe(server) => served(alloc, server),
        Command::Operate(operation) => operated(alloc, operation.book(), true),
        Command::State(stating) => operated(alloc, stating.book(), false),
        Command::BrokerOperate(operation) => operated(alloc, operation.book(), true),
        Command::Settle(settling) => operated(alloc, settling.book(), false),
        Command::WalletInit(founder) => founded(alloc, founder.book()),
        Command::WalletOperate(operation) => connected(alloc, operation),
        Command::Report(reporting) => audited(alloc, reporting.books()),
        Command::Chains(chained) => audited(alloc, chained.books.list()),
        Command::Tree(tree) => audited(alloc, tree.books.list()),
        Command::Once(_) | Command::Play(_) => Ok(nowhere(alloc)),
    }
}

/// The places of words that are of no command of `run`: those of a wallet that pays for what a browser asks, or none.
fn proxied(alloc: Global, words: &[String]) -> Result<Places, NoMemory>
    ensures { IfOk result (AreProxyPlaces (map string_bytes words.now)) }
{
    match proxying_of(alloc, words)? {
        Some(proxying) => proxy_places(alloc, &proxying),
        None => Ok(nowhere(alloc)),
    }
}

/// The places of a wallet that pays for what a browser asks.
fn proxy_places(alloc: Global, proxying: &Proxying<'_>) -> Result<Places, NoMemory>
    ensures { IfOk result (λ places. places ≡ proxied_places proxying.now) }
{
    Ok(Places {
        site: Some(list_of(alloc, proxying.book())?),
        founds: false,
        books: List::of(Vec::new(alloc)),
        operates: false,
        listen: Some(list_of(alloc, proxying.listen())?),
        door: None,
        connect: Some(list_of(alloc, proxying.connect())?),
    })
}

/// The places of words that name none. It takes no memory.
fn nowhere(alloc: Global) -> Places
    ensures { result ≡ no_places }
{
    Places {
        site: None,
        founds: false,
        books: List::of(Vec::new(alloc)),
        operates: false,
        listen: None,
        door: None,
        connect: None,
    }
}

/// The places of a command that founds this book.
fn founded(alloc: Global, book: &[u8]) -> Result<Places, NoMemory>
    ensures { IfOk result (λ places. places ≡ founded_places book.now) }
{
    Ok(Places {
        site: Some(list_of(alloc, book)?),
        founds: true,
        books: List::of(Vec::new(alloc)),
        operates: false,
        listen: None,
        door: None,
        connect: None,
    })
}

/// The places of a command that serves a site.
fn served(alloc: Global, server: &Server<'_>) -> Result<Places, NoMemory>
    ensures { IfOk result (λ places. places ≡ served_places server.now) }
{
    let door = match server.door() {
        Some(path) => Some(list_of(alloc, path)?),
        None => None,
    };
    Ok(Places {
        site: Some(list_of(alloc, server.book())?),
        founds: false,
        books: List::of(Vec::new(alloc)),
        operates: false,
        listen: Some(list_of(alloc, server.listen())?),
        door,
        connect: None,
    })
}

/// The places of an operation for this book, which may be given at a door, too, or not.
fn operated(alloc: Global, book: &[u8], operates: bool) -> Result<Places, NoMemory>
    ensures { IfOk result (λ places. places ≡ operated_places book.now operates) }
{
    Ok(Places {
        site: Some(list_of(alloc, book)?),
        founds: false,
        books: List::of(Vec::new(alloc)),
        operates,
        listen: None,
        door: None,
        connect: None,
    })
}

/// The places of an operation for the book of a wallet.
fn connected(alloc: Global, operation: &WalletOperation<'_>) -> Result<Places, NoMemory>
    ensures { IfOk result (λ places. places ≡ wallet_places operation.now) }
{
    let connect = match operation.connect() {
        Some(place) => Some(list_of(alloc, place)?),
        None => None,
    };
    Ok(Places {
        site: Some(list_of(alloc, operation.book())?),
        founds: false,
        books: List::of(Vec::new(alloc)),
        operates: false,
        listen: None,
        door: None,
        connect,
    })
}

/// The places of a command that has these books audited.
fn audited(alloc: Global, books: &[&str]) -> Result<Places, NoMemory>
    ensures { IfOk result (λ places. places ≡ audited_places (map (λ book. book.now) books.now)) }
{
    let mut lists = Vec::new(alloc);
    for book in books {
        lists.push(list_of(alloc, book.as_bytes())?)?;
    }
    Ok(Places {
        site: None,
        founds: false,
        books: List::of(lists),
        operates: false,
        listen: None,
        door: None,
        connect: None,
    })
}

/// The bytes as a list of their own.
fn list_of(alloc: Global, bytes: &[u8]) -> Result<List<u8>, NoMemory>
    ensures { IfOk result (λ list. list ≡ bytes.now) }
{
    Ok(List::of(Vec::from_slice(alloc, bytes)?))
}
