//! The program `millicent`: its words, a book, links and the machine's clock, handed to the library
//! `mc_top`, which answers the status.
#![tactic(auto)]

ghost use Rattle.std.specs.Prelude.{◌≡◌};

mod help;
mod links;

use crate::links::{Announced, Links, Listening};
use diagnostics::{
    Survey, survey_of, tell_ahead, tell_audit, tell_behind, tell_clear, tell_disk_fault,
    tell_entered, tell_fault, tell_other_role, tell_pending_draws, tell_refusal, tell_reply,
    tell_unopened, tell_usage, word,
};
use mc_base::NoMemory;
use mc_door::{Listener, call, call_each, call_path, listen};
use mc_site::{Book, Metered, Passed, Progress, Site, Streams, Watched, Wiping, reading};
use mc_top::{Places, places, run, run_at_door, run_proxy};
use std::alloc::{AllocError, Global};
use std::fs::File;
use std::io::{ErrorKind, IsTerminal, Stdin, Stdout, Write};
use std::os::unix::fs::FileTypeExt;
use std::process::ExitCode;
use std::{env, fs, io};

fn main(rt: HostRuntime) -> ExitCode {
    let alloc = rt.alloc();
    ExitCode::from(match words(alloc, &rt) {
        Ok(words) if help::is_asked(&words) => help::print(&rt, &words),
        Ok(words) => match places(alloc, &words) {
            Ok(places) => {
                let status = start(&rt, &words, &places);
                if status == BAD_WORDS {
                    tell_usage(&rt, alloc, &words);
                }
                status
            }
            Err(NoMemory) => end(&rt, b"no memory\n", 5),
        },
        Err(NoWords::Memory) => end(&rt, b"no memory\n", 5),
        Err(NoWords::Bad) => {
            let status = end(&rt, b"bad words\n", BAD_WORDS);
            tell_usage(&rt, alloc, &[]);
            status
        }
    })
}

/// The status of words that are of no command.
const BAD_WORDS: u8 = 2;

/// Why there are no words.
enum NoWords {
    Memory,
    /// A word is not UTF-8.
    Bad,
}

impl From<AllocError> for NoWords {
    ghost use Rattle.std.specs.Prelude.{◌≡◌};
    ghost use Rattle.millicent.specs.declared.NoWords.TheVariants.{Memory};

    ghost from_gives = { λ e no. no ≡ Memory };

    fn from(_: AllocError) -> NoWords {
        NoWords::Memory
    }
}

/// The words after the program's name.
fn words(alloc: Global, rt: &HostRuntime) -> Result<Vec<String>, NoWords> {
    let args = match env::args(rt) {
        Ok(args) => args,
        Err(e) if e.kind() == io::ErrorKind::InvalidData => return Err(NoWords::Bad),
        Err(_) => return Err(NoWords::Memory),
    };
    Ok(args.skip(1).collect(alloc)?)
}

/// A book, of which it is shown how far its reading is where that takes long.
type Shown<'a> = Book<Metered<'a>>;

/// What is done: what the words say, with what they name.
#[derive(Clone, Copy)]
struct Task<'a> {
    rt: &'a HostRuntime,
    words: &'a [String],
    places: &'a Places,
    progress: &'a Progress<'a>,
}

/// Opens what the words name, does what they say, and answers the status. A book that is missing is made
/// only where the command founds it. Where a place to connect to is named the one link goes there; where one to listen at
/// is named too, links come to that one, and each page that is asked for on them has a link of its own to the other. Where
/// there is neither, standard input and output are the one link. An operator's command that names the door of a site, in the
/// place of its book, is given there, and no book is opened.
fn start(rt: &HostRuntime, words: &[String], places: &Places) -> u8 {
    let progress = Progress::new(rt);
    let task = Task {
        rt,
        words,
        places,
        progress: &progress,
    };
    if let Some(path) = door_named(&task) {
        return tell_door(&task, path);
    }
    let Ok(others) = open_all(&task) else {
        return end(rt, b"no memory\n", 5);
    };
    let book = open_book(&task);
    let survey = tell_before(&task, &book, &others);
    match (&places.connect, &places.listen) {
        (Some(peer), Some(address)) => {
            let (address, peer) = (text(address.slice()), text(peer.slice()));
            pay(&task, book, survey, address, peer)
        }
        (Some(address), None) => ask(&task, book, others, text(address.slice())),
        (None, Some(address)) => serve(&task, book, others, survey, text(address.slice())),
        (None, None) => work(&task, book, others),
    }
}

/// Runs a command whose one link goes to this address.
fn ask(task: &Task<'_>, book: Shown<'_>, others: Vec<Shown<'_>>, address: &str) -> u8 {
    let rt = task.rt;
    let source = Links::To(call(rt, address));
    let mut out = Site::new(book, source, output(task), rt);
    out.keep(rt.alloc());
    let ran = run(rt.alloc(), task.words, out, others);
    task.progress.end();
    let link = (address, ran.out.link_fault());
    tell_faults(task, ran.status, ran.out.book(), link);
    tell_fault(rt, OUTPUT, ran.out.said_fault());
    if let Links::To(caller) = ran.out.source() {
        tell_fault(rt, address, caller.reason());
        tell_clear(rt, caller.peer());
    }
    if let Some(passed) = ran.out.passed() {
        let book = ran.out.book();
        tell_reply(rt, rt.alloc(), task.words, ran.status, book, passed);
    }
    ran.status
}

/// Where lines are said.
fn output<'a>(task: &Task<'a>) -> Wiping<'a, Stdout> {
    Wiping::new(task.rt.stdout(), task.progress)
}

/// The links that come to this address, and to the operator's door, where the words name one; and what a fault of them is told
/// of. Which address is no loopback is told; and, as links are taken, who listens where, and that the book's name leads to
/// another file. An Err is want of memory.
fn door<'a>(
    task: &Task<'a>,
    book: &Shown<'_>,
    survey: Option<Survey>,
    address: &'a str,
) -> Result<(Links<'a>, &'a str), AllocError> {
    let rt = task.rt;
    let operators = match &task.places.door {
        Some(path) => Some(text(path.slice())),
        None => None,
    };
    let source = listen(rt, rt.alloc(), address, operators, rt)?;
    let at = match operators {
        Some(path) if source.lacks_door() => path,
        _ => address,
    };
    tell_clear(rt, source.address());
    let path = match &task.places.site {
        Some(path) => text(path.slice()),
        None => "",
    };
    let listening = if source.is_listening() {
        Some(Listening {
            survey,
            book: path,
            place: place_of(rt, &source, address)?,
            door: operators,
        })
    } else {
        None
    };
    let links = Watched::new(source, rt, path, book);
    Ok((Links::From(Announced::new(links, rt, listening)), at))
}

/// Where a listener listens: at the address that the system has for it, with the port that it chose, or at the path of the words.
fn place_of(
    rt: &HostRuntime,
    source: &Listener<&HostRuntime>,
    address: &str,
) -> Result<String, AllocError> {
    match source.address() {
        Some(at) => format!(in rt.alloc(); "{at}"),
        None => format!(in rt.alloc(); "{address}"),
    }
}

/// Runs a command that serves links which come to this address.
fn serve<'a>(
    task: &Task<'a>,
    book: Shown<'_>,
    others: Vec<Shown<'_>>,
    survey: Option<Survey>,
    address: &'a str,
) -> u8 {
    let rt = task.rt;
    let Ok((source, at)) = door(task, &book, survey, address) else {
        return end(rt, b"no memory\n", 5);
    };
    let out = Site::new(book, source, output(task), rt);
    let ran = run(rt.alloc(), task.words, out, others);
    task.progress.end();
    let link = (at, ran.out.link_fault());
    tell_fault(rt, OUTPUT, ran.out.said_fault());
    let book = ran.out.finish();
    tell_faults(task, ran.status, &book, link);
    tell_role(task, ran.status, &book);
    ran.status
}

/// Runs the command of a wallet that pays for what is asked on links which come to this address, over links to a peer.
fn pay<'a>(
    task: &Task<'a>,
    book: Shown<'_>,
    survey: Option<Survey>,
    address: &'a str,
    peer: &str,
) -> u8 {
    let rt = task.rt;
    let Ok((source, at)) = door(task, &book, survey, address) else {
        return end(rt, b"no memory\n", 5);
    };
    let none: Book<File> = Book::none();
    let mut up = Site::new(none, call_each(rt, peer, rt), rt.stdout(), rt);
    let out = Site::new(book, source, output(task), rt);
    let (status, out) = run_proxy(rt.alloc(), task.words, out, &mut up);
    task.progress.end();
    let link = (at, out.link_fault());
    tell_fault(rt, OUTPUT, out.said_fault());
    let book = out.finish();
    tell_faults(task, status, &book, link);
    tell_role(task, status, &book);
    tell_fault(rt, peer, up.link_fault());
    status
}

/// Runs a command whose one link is standard input and output, or which has none.
fn work(task: &Task<'_>, book: Shown<'_>, others: Vec<Shown<'_>>) -> u8 {
    let rt = task.rt;
    let source = Links::Over(streams(rt));
    let mut out = Site::new(book, source, output(task), rt);
    out.keep(rt.alloc());
    let ran = run(rt.alloc(), task.words, out, others);
    task.progress.end();
    let link = (STREAMS, ran.out.link_fault());
    tell_faults(task, ran.status, ran.out.book(), link);
    tell_fault(rt, OUTPUT, ran.out.said_fault());
    tell_other_faults(task, ran.status, &ran.books);
    if let Some(passed) = ran.out.passed() {
        let paths = task.places.books.slice();
        tell_audit(rt, rt.alloc(), task.words, paths, &ran.books, passed);
    }
    tell_work(rt, task.words, ran.status, ran.out.book(), ran.out.passed());
    if let Some(path) = &task.places.site
        && task.places.founds
    {
        leave(rt, text(path.slice()), ran.out.book());
    }
    ran.status
}

/// The one link over standard input and output.
fn streams(rt: &HostRuntime) -> Streams<Stdin, Stdout, &HostRuntime> {
    let asks = if rt.stdin().is_terminal() {
        Some(rt)
    } else {
        None
    };
    Streams::new(rt.stdin(), rt.stdout(), asks)
}

/// The path of a site's door, which the words of an operator's command name in the place of its book: a Unix socket stands there.
fn door_named<'a>(task: &Task<'a>) -> Option<&'a str> {
    let path = text(task.places.site.as_ref()?.slice());
    if task.places.operates && is_socket(task.rt, path) {
        Some(path)
    } else {
        None
    }
}

/// Whether a Unix socket stands at the path.
fn is_socket(rt: &HostRuntime, path: &str) -> bool {
    match fs::symlink_metadata(rt, path) {
        Ok(file) => file.file_type().is_socket(),
        Err(_) => false,
    }
}

/// Gives an operator's command to the site that is served, at its door. Its input is standard input. No book is opened.
fn tell_door(task: &Task<'_>, path: &str) -> u8 {
    let rt = task.rt;
    let none: Book<File> = Book::none();
    let mut door = Site::new(none, call_path(rt, path), rt.stdout(), rt);
    let book = Book::none().metered("", task.progress);
    let mut out = Site::new(book, Links::Over(streams(rt)), output(task), rt);
    out.keep(rt.alloc());
    let (status, out) = run_at_door(rt.alloc(), task.words, out, &mut door);
    task.progress.end();
    if status == 6 {
        tell_fault(rt, STREAMS, out.link_fault());
        tell_fault(rt, path, door.link_fault());
        tell_unserved(rt, path, door.source().reason());
    }
    tell_fault(rt, OUTPUT, out.said_fault());
    tell_work(rt, task.words, status, out.book(), out.passed());
    status
}

/// Tells why there was no link to a door, where there was none, and what to do.
fn tell_unserved(rt: &HostRuntime, path: &str, reason: Option<io::Error>) {
    match reason {
        Some(e) if e.kind() == ErrorKind::ConnectionRefused => {
            let _ = eprintln!(rt;
                "millicent: {path}: nobody serves there: start the site with --door {path}, or name its book"
            );
        }
        reason => tell_fault(rt, path, reason),
    }
}

/// How messages name the link over standard input and output.
const STREAMS: &str = "standard input or output";

/// How they name what lines are said on.
const OUTPUT: &str = "standard output";

/// Tells of the times of the books against the clock, before anything is done, and through which link of the file
/// system a book is founded. What a book has that is there already is answered.
fn tell_before(task: &Task<'_>, book: &Shown<'_>, others: &[Shown<'_>]) -> Option<Survey> {
    let rt = task.rt;
    let now = reading(&rt);
    for (path, other) in task.places.books.slice().iter().zip(others) {
        if let Some(survey) = surveyed(task, other)
            && let Some(latest) = survey.latest()
        {
            tell_ahead(rt, text(path.slice()), latest, now);
        }
    }
    let path = text(task.places.site.as_ref()?.slice());
    if task.places.founds {
        tell_symlink(rt, path, book);
        return None;
    }
    let survey = surveyed(task, book)?;
    if let Some(latest) = survey.latest() {
        tell_ahead(rt, path, latest, now);
        tell_behind(rt, path, latest, now);
    }
    Some(survey)
}

/// What a book has, where there is memory to read it.
fn surveyed(task: &Task<'_>, book: &Shown<'_>) -> Option<Survey> {
    let survey = survey_of(task.rt.alloc(), book);
    task.progress.wipe();
    survey
}

/// Tells which file a path leads to that is a symbolic link, where a book is founded there.
fn tell_symlink(rt: &HostRuntime, path: &str, book: &Shown<'_>) {
    if let Ok(named) = fs::symlink_metadata(rt, path)
        && named.file_type().is_symlink()
        && book.is_open()
        && let Ok(target) = fs::canonicalize(rt, path)
    {
        let target = target.as_str();
        let _ = eprintln!(rt; "millicent: {path} is a symbolic link to {target}");
    }
}

/// Tells why the disk failed, or the link, by the status.
fn tell_faults(task: &Task<'_>, status: u8, book: &Shown<'_>, link: (&str, Option<io::Error>)) {
    match (status, &task.places.site) {
        (4, Some(path)) => tell_disk(task.rt, text(path.slice()), book),
        (6, _) => tell_fault(task.rt, link.0, link.1),
        _ => {}
    }
}

/// Tells why the disk of a book that is only read failed.
fn tell_other_faults(task: &Task<'_>, status: u8, others: &[Shown<'_>]) {
    if status == 4 {
        for (path, other) in task.places.books.slice().iter().zip(others) {
            tell_disk(task.rt, text(path.slice()), other);
        }
    }
}

/// Tells why the disk of a book failed, where it did.
fn tell_disk(rt: &HostRuntime, path: &str, book: &Shown<'_>) {
    match book.early_end() {
        Some(end) => {
            let _ = eprintln!(rt; "millicent: {path}: {end}");
        }
        None => tell_disk_fault(rt, path, book.fault()),
    }
}

/// Tells whose the book is that was to be served, where it was refused: it is of another role.
fn tell_role(task: &Task<'_>, status: u8, book: &Shown<'_>) {
    if status == 7
        && let Some(path) = &task.places.site
    {
        tell_other_role(task.rt, task.rt.alloc(), text(path.slice()), book);
    }
}

/// Tells of what a command without a peer took and did.
fn tell_work(
    rt: &HostRuntime,
    words: &[String],
    status: u8,
    book: &Shown<'_>,
    passed: Option<&Passed>,
) {
    let Some(passed) = passed else {
        return;
    };
    if status == 7 {
        tell_refusal(rt, rt.alloc(), words, book, passed);
    }
    if status == 0 {
        tell_entered(rt, passed);
        if word(words, 0) == "wallet" && word(words, 1) == "list" {
            tell_pending_draws(rt, rt.alloc(), book);
        }
    }
}

/// Takes away the file of a book that was made and not founded, and tells on standard error where others may
/// read one that has secrets.
fn leave(rt: &HostRuntime, path: &str, book: &Shown<'_>) {
    book.forget_if_empty(rt, path);
    if book.is_open_to_others() {
        let _ = eprintln!(rt;
            "millicent: others than its owner may read {path}, which has secrets: chmod 600 {path}"
        );
    }
}

/// The books that an audit is of, to read alone.
fn open_all<'a>(task: &Task<'a>) -> Result<Vec<Shown<'a>>, AllocError> {
    let mut books = Vec::new(task.rt.alloc());
    for path in task.places.books.slice() {
        let path = text(path.slice());
        let book = or_none(task, path, Book::open_to_read(task.rt, path));
        books.push(book.metered(path, task.progress))?;
    }
    Ok(books)
}

/// The book that the words name, which is made where the command founds it; of none where they name none.
fn open_book<'a>(task: &Task<'a>) -> Shown<'a> {
    let (path, book) = match &task.places.site {
        Some(path) => {
            let path = text(path.slice());
            let opened = Book::open(task.rt, path, task.places.founds);
            (path, or_none(task, path, opened))
        }
        None => ("", Book::none()),
    };
    book.metered(path, task.progress)
}

/// The book that was opened at this path. Where it could not be, standard error says why, and it is a book of none.
fn or_none(task: &Task<'_>, path: &str, opened: io::Result<Book<File>>) -> Book<File> {
    match opened {
        Ok(book) => book,
        Err(error) => {
            tell_unopened(task.rt, task.words, path, task.places.founds, &error);
            tell_doors(task, path, error.kind());
            Book::none()
        }
    }
}

/// Tells of the door of a site where its book was named that is served, and that a door was named where a book is needed.
fn tell_doors(task: &Task<'_>, path: &str, kind: ErrorKind) {
    let rt = task.rt;
    if is_socket(rt, path) {
        let _ = eprintln!(rt;
            "millicent: {path} is a socket, as the door of a site is: this command needs the book, and the site stopped"
        );
        return;
    }
    if kind == ErrorKind::WouldBlock
        && task.places.operates
        && let Ok(door) = format!(in rt.alloc(); "{path}.door")
        && is_socket(rt, &door)
    {
        let door = door.as_str();
        let _ = eprintln!(rt; "millicent: the site that serves it takes this command at {door}");
    }
}

/// The text of a word. Words are UTF-8; other bytes are no path and no address, as no text is.
fn text(word: &[u8]) -> &str {
    str::from_utf8(word).unwrap_or("")
}

/// Says a line, and answers the status.
fn end(rt: &HostRuntime, line: &[u8], status: u8) -> u8
    ensures { result ≡ status }
{
    let _ = rt.stdout().write_all(line);
    status
}
