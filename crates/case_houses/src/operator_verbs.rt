//! Lines by which a vendor's operator enters something into the book, within the limits; and how a house is opened for
//! that, whatever its trade, and what came of it is shown.

ghost use Rattle.std.specs.Prelude.{◌<◌, ◌^◌, [], IfOk, IsSome};
ghost use Rattle.house_core.specs.House.{IfDone};

use crate::ledger_verbs::show_refusal;
use crate::serve_verbs::unopened;
use case_lines::{Fault, Lines, State, number, show_chain, small, terms};
use house_core::{House, Outcome};
use house_opening::open_house;
use house_state::Trade;
use mc_base::{Amount, Moment};
use mc_requests::Refusal;
use mc_stage::Stage;
use scrip_form::{Id, Name, Target};
use vendor_core::{Shelf, add_terms, mint, set_goods, set_price, upgrade};

/// The verbs of this module; None where the verb is none of them.
pub(crate) fn enter(
    state: &mut State,
    verb: &[u8],
    args: &[&[u8]],
    out: &mut Lines,
) -> Option<Result<(), Fault>> {
    Some(match verb {
        b"goods" => goods(state, args, out),
        b"price" => price(state, args, out),
        b"licence" => licence(state, args, out),
        b"mint" => minted(state, args, out),
        b"coming" => coming(state, args, out),
        b"upgrade" => upgraded(state, args, out),
        b"switch" => switched(state, args, "switch", Shelf::new(state.alloc), out),
        _ => return None,
    })
}

/// What came of it.
#[derive(Drop)]
pub(crate) enum Entered {
    Done,
    Refused(Refusal),
    NoMemory,
    Halted,
}

pub(crate) fn came_of<T: Trade, A: Drop>(outcome: Outcome<Stage, T, A>) -> (Entered, Stage) {
    match outcome {
        Outcome::Done(house, _) => (Entered::Done, house.close()),
        Outcome::Refused(house, refusal) => (Entered::Refused(refusal), house.close()),
        Outcome::NoMemory(house) => (Entered::NoMemory, house.close()),
        Outcome::Halted(halted) => (Entered::Halted, halted.close()),
    }
}

/// Opens the book as a house that carries this trade at this time, within the limits.
pub(crate) fn opened<T: Trade>(
    state: &mut State,
    time: &[u8],
    trade: T,
) -> Result<Result<House<Stage, T>, Stage>, Fault>
    requires { (T.trade trade).represents [] }
{
    let time = Moment::clamped(number(time)?);
    let limits = state.limits;
    if !limits.are_in_range() {
        return Err(Fault::Value);
    }
    let stage = state.make_stage()?;
    Ok(match open_house(state.alloc, stage, limits, trade) {
        Ok(mut house) => {
            let _time = house.raise(time);
            Ok(house)
        }
        Err(fault) => Err(unopened(fault).1),
    })
}

pub(crate) fn show(
    state: &mut State,
    verb: &str,
    entered: (Entered, Stage),
    out: &mut Lines,
) -> Result<(), Fault> {
    let (came, stage) = entered;
    match came {
        Entered::Done => out.said(verb, "done"),
        Entered::Refused(refusal) => {
            out.start(verb);
            show_refusal(" refused", &refusal, out);
        }
        Entered::NoMemory => return Err(Fault::NoMemory),
        Entered::Halted => out.said(verb, "halted"),
    }
    state.show_stage(stage, out)
}

pub(crate) fn show_closed(
    state: &mut State,
    verb: &str,
    stage: Stage,
    out: &mut Lines,
) -> Result<(), Fault> {
    out.said(verb, "closed");
    state.show_stage(stage, out)
}

/// An amount above 0.
pub(crate) fn amount(token: &[u8]) -> Result<Amount, Fault>
    ensures { IfOk result (λ a. 0 < a) }
{
    match Amount::new(number(token)?) {
        Some(amount) if amount.get() > 0 => Ok(amount),
        _ => Err(Fault::Value),
    }
}

fn target(state: &State, token: &[u8]) -> Result<Target, Fault> {
    match Target::new(&state.names.bytes(token)?) {
        Some(target) => Ok(target),
        None => Err(Fault::Value),
    }
}

fn goods(state: &mut State, args: &[&[u8]], out: &mut Lines) -> Result<(), Fault> {
    let [time, at, price, kind, contents] = *args else {
        return Err(Fault::Arguments);
    };
    let (at, price) = (target(state, at)?, amount(price)?);
    let Ok(kind) = u8::try_from(number(kind)?) else {
        return Err(Fault::Value);
    };
    let contents = state.names.bytes(contents)?;
    if kind > 2 || contents.len() > 65_536 {
        return Err(Fault::Value);
    }
    let shelf = Shelf::new(state.alloc);
    match opened(state, time, shelf)? {
        Ok(house) => {
            let done = came_of(set_goods(house, &at, price, kind, &contents));
            show(state, "goods", done, out)
        }
        Err(stage) => show_closed(state, "goods", stage, out),
    }
}

fn price(state: &mut State, args: &[&[u8]], out: &mut Lines) -> Result<(), Fault> {
    let [time, at, price] = *args else {
        return Err(Fault::Arguments);
    };
    let (at, price) = (target(state, at)?, amount(price)?);
    let shelf = Shelf::new(state.alloc);
    match opened(state, time, shelf)? {
        Ok(house) => show(state, "price", came_of(set_price(house, &at, price)), out),
        Err(stage) => show_closed(state, "price", stage, out),
    }
}

fn licence(state: &mut State, args: &[&[u8]], out: &mut Lines) -> Result<(), Fault> {
    let [time] = *args else {
        return Err(Fault::Arguments);
    };
    let terms = terms(state)?;
    if terms.issuer() == 0 {
        return Err(Fault::Value);
    }
    let shelf = Shelf::new(state.alloc);
    match opened(state, time, shelf)? {
        Ok(house) => show(state, "licence", came_of(add_terms(house, &terms)), out),
        Err(stage) => show_closed(state, "licence", stage, out),
    }
}

fn minted(state: &mut State, args: &[&[u8]], out: &mut Lines) -> Result<(), Fault> {
    let [time, count, value, reference] = *args else {
        return Err(Fault::Arguments);
    };
    let Ok(count) = u16::try_from(number(count)?) else {
        return Err(Fault::Value);
    };
    let value = amount(value)?;
    let Some(reference) = Name::new(&state.names.bytes(reference)?) else {
        return Err(Fault::Value);
    };
    if count == 0 || count > 256 {
        return Err(Fault::Value);
    }
    let mut lines = Vec::new(state.alloc);
    let shelf = Shelf::new(state.alloc);
    match opened(state, time, shelf)? {
        Ok(house) => {
            let done = came_of(mint(house, count, value, &reference, &mut lines));
            out.given("lines", &lines);
            show(state, "mint", done, out)
        }
        Err(stage) => show_closed(state, "mint", stage, out),
    }
}

/// The scrip of an issuer goes over to the second version from an epoch on.
fn upgraded(state: &mut State, args: &[&[u8]], out: &mut Lines) -> Result<(), Fault> {
    let [time, issuer, from] = *args else {
        return Err(Fault::Arguments);
    };
    let Ok(issuer) = u8::try_from(number(issuer)?) else {
        return Err(Fault::Value);
    };
    let from = epoch(from)?;
    let shelf = Shelf::new(state.alloc);
    match opened(state, time, shelf)? {
        Ok(house) => show(state, "upgrade", came_of(upgrade(house, issuer, from)), out),
        Err(stage) => show_closed(state, "upgrade", stage, out),
    }
}

/// An epoch that a series may have.
pub(crate) fn epoch(token: &[u8]) -> Result<u32, Fault>
    ensures { IfOk result (λ e. e < 2 ^ 24) }
{
    match small(token)? {
        epoch if epoch < 1 << 24 => Ok(epoch),
        _ => Err(Fault::Value),
    }
}

/// Switches the chain on, and prints how many entries the book then has, and their chain.
pub(crate) fn switched<T: Trade>(
    state: &mut State,
    args: &[&[u8]],
    verb: &str,
    trade: T,
    out: &mut Lines,
) -> Result<(), Fault>
    requires { (T.trade trade).represents [] }
{
    let [time] = *args else {
        return Err(Fault::Arguments);
    };
    match opened(state, time, trade)? {
        Ok(house) => {
            let done = chained(house.switch(), out);
            show(state, verb, done, out)
        }
        Err(stage) => show_closed(state, verb, stage, out),
    }
}

/// What came of switching the chain on; where that is done, its chain is printed.
fn chained<T: Trade, A: Drop>(outcome: Outcome<Stage, T, A>, out: &mut Lines) -> (Entered, Stage)
    requires { IfDone (λ x told. IsSome x.journal.chain) outcome }
{
    match outcome {
        Outcome::Done(house, _) => {
            show_chain(house.entries(), &house.chain(), out);
            (Entered::Done, house.close())
        }
        Outcome::Refused(house, refusal) => (Entered::Refused(refusal), house.close()),
        Outcome::NoMemory(house) => (Entered::NoMemory, house.close()),
        Outcome::Halted(halted) => (Entered::Halted, halted.close()),
    }
}

/// The identity of the next piece of the house's own.
fn coming(state: &mut State, args: &[&[u8]], out: &mut Lines) -> Result<(), Fault> {
    let [time] = *args else {
        return Err(Fault::Arguments);
    };
    let shelf = Shelf::new(state.alloc);
    match opened(state, time, shelf)? {
        Ok(house) => {
            let next = house.next();
            let stage = house.close();
            show_coming(next, out);
            state.show_stage(stage, out)
        }
        Err(stage) => show_closed(state, "coming", stage, out),
    }
}

fn show_coming(next: Result<Id, Refusal>, out: &mut Lines) {
    match next {
        Ok(id) => {
            out.start("coming");
            out.identity(id);
            out.end()
        }
        Err(refusal) => show_refusal("coming refused", &refusal, out),
    }
}
