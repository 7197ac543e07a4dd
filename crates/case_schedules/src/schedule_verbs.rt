//! Lines that play a schedule: the histories that houses and wallets begin with, events, and what they leave.

ghost use Rattle.std.specs.Prelude.{◌≤◌, ◌^◌, IsTrue, IfOk};
ghost use Rattle.std.specs.List.{AllByRecursion};
ghost use Rattle.mc_requests.specs.Limits.{AreInRange};
ghost use Rattle.mc_records.specs.Sizes.{size};
ghost use Rattle.ledger_model.specs.Lawful.{IsLawful};
ghost use Rattle.wallet_model.specs.Follows.{IsWalletBook};

use case_houses::history_of;
use case_lines::{Fault, Lines, State, number, show_entry, small};
use ledger_model::History;
use mc_base::Amount;
use mc_requests::Limits;
use mc_world::{Event, Setup, World, play};
use scrip_form::{Name, Target};
use slow_ledger::{Prefix, slow_chain, slow_lawful, slow_size};
use slow_wallet::slow_wallet_book;
use std::alloc::Global;
use std::mem;
use wallet_core::Ask;

/// A history that has a name.
#[derive(Drop)]
struct Named {
    name: Vec<u8>,
    history: History,
}

/// The histories that have names, and the schedule of the case.
#[derive(Drop)]
pub struct Schedules {
    named: Vec<Named>,
    schedule: Schedule,
}

/// What the lines of a case have said of a schedule so far.
#[derive(Drop)]
struct Schedule {
    houses: Vec<History>,
    wallets: Vec<History>,
    events: Vec<Event>,
}

/// How many entries each party has before a schedule.
#[derive(Drop)]
struct Counts {
    houses: Vec<usize>,
    wallets: Vec<usize>,
}

impl Schedule {
    fn new(alloc: Global) -> Schedule {
        Schedule {
            houses: Vec::new(alloc),
            wallets: Vec::new(alloc),
            events: Vec::new(alloc),
        }
    }
}

impl Schedules {
    /// No histories that have names, and an empty schedule.
    pub fn new(alloc: Global) -> Schedules {
        Schedules {
            named: Vec::new(alloc),
            schedule: Schedule::new(alloc),
        }
    }

    /// Forgets all but the names, as each case begins.
    pub fn forget(&mut self, alloc: Global) {
        self.schedule = Schedule::new(alloc);
    }

    /// The verbs of this module; None where the verb is none of them.
    pub fn act(
        &mut self,
        state: &State,
        verb: &[u8],
        args: &[&[u8]],
        out: &mut Lines,
    ) -> Option<Result<(), Fault>> {
        match verb {
            b"history" => Some(self.set_name(state, args)),
            b"houses" => Some(self.set_houses(state, args)),
            b"wallets" => Some(self.set_wallets(state, args)),
            b"play" => Some(self.play(state, args, out)),
            _ => match event(state, verb, args) {
                Some(Ok(event)) => Some(self.add(event)),
                Some(Err(fault)) => Some(Err(fault)),
                None => None,
            },
        }
    }

    /// Gives the history of a book a name, in place of an older one.
    fn set_name(&mut self, state: &State, args: &[&[u8]]) -> Result<(), Fault> {
        let [name, book] = *args else {
            return Err(Fault::Arguments);
        };
        let history = history_of(state.alloc, state.names.bytes(book)?)?;
        for named in self.named.iter_mut() {
            if named.name.as_slice() == name {
                named.history = history;
                return Ok(());
            }
        }
        let name = Vec::from_slice(state.alloc, name)?;
        self.named.push(Named { name, history })?;
        Ok(())
    }

    fn set_houses(&mut self, state: &State, words: &[&[u8]]) -> Result<(), Fault> {
        self.schedule.houses = self.histories(state.alloc, words)?;
        Ok(())
    }

    fn set_wallets(&mut self, state: &State, words: &[&[u8]]) -> Result<(), Fault> {
        self.schedule.wallets = self.histories(state.alloc, words)?;
        Ok(())
    }

    /// Copies of the histories of these names.
    fn histories(&self, alloc: Global, words: &[&[u8]]) -> Result<Vec<History>, Fault> {
        let mut all = Vec::new(alloc);
        for word in words {
            all.push(copy(alloc, self.history(word)?)?)?;
        }
        Ok(all)
    }

    fn history(&self, name: &[u8]) -> Result<&History, Fault> {
        for named in &self.named {
            if named.name.as_slice() == name {
                return Ok(&named.history);
            }
        }
        Err(Fault::Name)
    }

    fn add(&mut self, event: Event) -> Result<(), Fault> {
        self.schedule.events.push(event)?;
        Ok(())
    }

    /// Plays the events. It prints what they leave, or, where the line says so, the digest of that.
    fn play(&mut self, state: &State, args: &[&[u8]], out: &mut Lines) -> Result<(), Fault> {
        let is_brief = is_brief(args)?;
        let whole = mem::replace(&mut self.schedule, Schedule::new(state.alloc));
        if !is_brief {
            return played(state, whole, out);
        }
        let mut lines = Lines::new(state.alloc);
        played(state, whole, &mut lines)?;
        if !lines.is_whole() {
            return Err(Fault::NoMemory);
        }
        out.start("play");
        out.digest(lines.text());
        out.end();
        Ok(())
    }
}

/// Whether a line wants the digest alone.
fn is_brief(args: &[&[u8]]) -> Result<bool, Fault> {
    match *args {
        [] => Ok(false),
        [word] if word == b"brief".as_slice() => Ok(true),
        _ => Err(Fault::Arguments),
    }
}

fn copy(alloc: Global, history: &History) -> Result<History, Fault> {
    let mut all = History::new(alloc);
    for number in 0..history.len() {
        if let Some(record) = history.get(number) {
            all.push(&record)?;
        }
    }
    Ok(all)
}

// ---- events

/// The event of a line; None where its verb is none of an event.
fn event(state: &State, verb: &[u8], args: &[&[u8]]) -> Option<Result<Event, Fault>> {
    Some(match verb {
        b"enter" => enter(state, args),
        b"ask" => ask(state, args),
        b"again" => again(state, args),
        b"forge" => forge(state, args),
        b"tell" => tell(state, args),
        b"deliver" => deliver(args),
        b"return" => hand(args),
        b"restart" => restart(args),
        _ => return None,
    })
}

fn enter(state: &State, args: &[&[u8]]) -> Result<Event, Fault> {
    let [house, payload] = *args else {
        return Err(Fault::Arguments);
    };
    Ok(Event::Enter {
        house: small(house)?,
        payload: state.names.bytes(payload)?,
    })
}

fn again(state: &State, args: &[&[u8]]) -> Result<Event, Fault> {
    let [wallet, peer] = *args else {
        return Err(Fault::Arguments);
    };
    Ok(Event::Again {
        wallet: small(wallet)?,
        peer: name(state, peer)?,
    })
}

fn forge(state: &State, args: &[&[u8]]) -> Result<Event, Fault> {
    let [bytes] = *args else {
        return Err(Fault::Arguments);
    };
    Ok(Event::Forge {
        bytes: state.names.bytes(bytes)?,
    })
}

fn tell(state: &State, args: &[&[u8]]) -> Result<Event, Fault> {
    let [bytes] = *args else {
        return Err(Fault::Arguments);
    };
    Ok(Event::Tell {
        bytes: state.names.bytes(bytes)?,
    })
}

fn deliver(args: &[&[u8]]) -> Result<Event, Fault> {
    let [message, house, reading] = *args else {
        return Err(Fault::Arguments);
    };
    Ok(Event::Deliver {
        message: small(message)?,
        house: small(house)?,
        reading: number(reading)?,
    })
}

fn hand(args: &[&[u8]]) -> Result<Event, Fault> {
    let [reply, wallet, request, reading] = *args else {
        return Err(Fault::Arguments);
    };
    Ok(Event::Return {
        reply: small(reply)?,
        wallet: small(wallet)?,
        request: number(request)?,
        reading: number(reading)?,
    })
}

fn restart(args: &[&[u8]]) -> Result<Event, Fault> {
    let [party] = *args else {
        return Err(Fault::Arguments);
    };
    Ok(Event::Restart {
        party: small(party)?,
    })
}

fn ask(state: &State, args: &[&[u8]]) -> Result<Event, Fault> {
    let [wallet, reading, kind, values @ ..] = args else {
        return Err(Fault::Arguments);
    };
    let ask = match *kind {
        b"get" => get(state, values)?,
        b"buy" => buy(state, values)?,
        b"draw" => draw(state, values)?,
        _ => return Err(Fault::Arguments),
    };
    Ok(Event::Ask {
        wallet: small(wallet)?,
        ask,
        reading: number(reading)?,
    })
}

fn get(state: &State, values: &[&[u8]]) -> Result<Ask, Fault> {
    let [vendor, target, limit] = *values else {
        return Err(Fault::Arguments);
    };
    let Some(target) = Target::new(&state.names.bytes(target)?) else {
        return Err(Fault::Value);
    };
    Ok(Ask::Get {
        vendor: name(state, vendor)?,
        target,
        limit: amount(limit)?,
    })
}

fn buy(state: &State, values: &[&[u8]]) -> Result<Ask, Fault> {
    let [broker, vendor, value, limit] = *values else {
        return Err(Fault::Arguments);
    };
    Ok(Ask::Buy {
        broker: name(state, broker)?,
        vendor: name(state, vendor)?,
        amount: amount(value)?,
        limit: amount(limit)?,
    })
}

fn draw(state: &State, values: &[&[u8]]) -> Result<Ask, Fault> {
    let [broker, account, key, order, value] = *values else {
        return Err(Fault::Arguments);
    };
    let Ok(key) = <[u8; 16]>::try_from(state.names.bytes(key)?.as_slice()) else {
        return Err(Fault::Bytes);
    };
    Ok(Ask::Draw {
        broker: name(state, broker)?,
        account: name(state, account)?,
        key,
        order: number(order)?,
        amount: amount(value)?,
    })
}

fn name(state: &State, word: &[u8]) -> Result<Name, Fault> {
    match Name::new(&state.names.bytes(word)?) {
        Some(name) => Ok(name),
        None => Err(Fault::Value),
    }
}

fn amount(word: &[u8]) -> Result<Amount, Fault> {
    match Amount::new(number(word)?) {
        Some(amount) => Ok(amount),
        None => Err(Fault::Value),
    }
}

// ---- playing

/// Plays a schedule, and prints what it leaves; or that its setup is not lawful.
fn played(state: &State, schedule: Schedule, out: &mut Lines) -> Result<(), Fault> {
    let alloc = state.alloc;
    let limits = state.limits;
    if !limits.are_in_range() {
        return Err(Fault::Value);
    }
    let Schedule {
        houses,
        wallets,
        events,
    } = schedule;
    if !are_houses(alloc, &houses, limits)? || !are_wallets(&wallets)? {
        out.line("play unlawful");
        return Ok(());
    }
    let counts = Counts {
        houses: lengths(alloc, &houses)?,
        wallets: lengths(alloc, &wallets)?,
    };
    let setup = Setup {
        houses,
        wallets,
        limits,
    };
    let left = play(alloc, setup, &events)?;
    show(&left, &counts, out);
    Ok(())
}

/// Whether histories are those of houses, lawful and of a journal's size.
fn are_houses(alloc: Global, histories: &[History], limits: Limits) -> Result<bool, Fault>
    requires { AreInRange limits }
    ensures { IfOk result (λ are. IsTrue are
        → AllByRecursion (λ h. IsLawful limits h × (size h ≤ 2 ^ 40)) histories.now) }
{
    for history in histories {
        if slow_lawful(alloc, history, limits)?.is_some() || !is_small(history)? {
            return Ok(false);
        }
    }
    Ok(true)
}

/// Whether histories are those of wallets, lawful and of a journal's size.
fn are_wallets(histories: &[History]) -> Result<bool, Fault>
    ensures { IfOk result (λ are. IsTrue are
        → AllByRecursion (λ h. IsWalletBook h × (size h ≤ 2 ^ 40)) histories.now) }
{
    for history in histories {
        if slow_wallet_book(history).is_some() || !is_small(history)? {
            return Ok(false);
        }
    }
    Ok(true)
}

/// Whether the journal of a history has no more bytes than one may have.
fn is_small(history: &History) -> Result<bool, Fault>
    ensures { IfOk result (λ is_so. IsTrue is_so → size history.now ≤ 2 ^ 40) }
{
    Ok(slow_size(&Prefix::whole(history))? <= Limits::MOST_JOURNAL)
}

/// How many entries each of some histories has.
fn lengths(alloc: Global, histories: &[History]) -> Result<Vec<usize>, Fault> {
    let mut all = Vec::new(alloc);
    for history in histories {
        all.push(history.len())?;
    }
    Ok(all)
}

// ---- what is left

/// Prints what each party's history has now, and the messages and the replies.
fn show(left: &World, counts: &Counts, out: &mut Lines) {
    show_parties("house", &left.houses, &counts.houses, out);
    show_parties("wallet", &left.wallets, &counts.wallets, out);
    show_all("message", &left.messages, out);
    show_all("reply", &left.replies, out)
}

fn show_parties(word: &str, histories: &[History], counts: &[usize], out: &mut Lines) {
    for (history, count) in histories.iter().zip(counts.iter()) {
        show_party(word, history, *count, out);
    }
}

/// Prints how many entries a history has, their chain, and those behind the first ones.
fn show_party(word: &str, history: &History, count: usize, out: &mut Lines) {
    out.start(word);
    out.number(history.len() as u64);
    out.digits(&slow_chain(&Prefix::whole(history)));
    out.end();
    for number in count..history.len() {
        if let Some(record) = history.get(number) {
            show_entry("entry", &record, out);
        }
    }
}

fn show_all(word: &str, all: &[Vec<u8>], out: &mut Lines) {
    for bytes in all {
        out.given(word, bytes);
    }
}
