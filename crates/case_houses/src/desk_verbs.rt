//! Lines by which a broker's operator enters something into the book, within the limits.

use crate::operator_verbs::{amount, came_of, epoch, opened, show, show_closed, switched};
use broker_core::{Desk, add_licence, add_stock, deposit, open_account, upgrade_licence, withdraw};
use case_lines::{Fault, Lines, State, terms};
use scrip_form::Name;

/// The verbs of this module; None where the verb is none of them.
pub(crate) fn enter(
    state: &mut State,
    verb: &[u8],
    args: &[&[u8]],
    out: &mut Lines,
) -> Option<Result<(), Fault>> {
    Some(match verb {
        b"account" => account(state, args, out),
        b"deposit" => paid_in(state, args, out),
        b"withdraw" => paid_out(state, args, out),
        b"licensed" => licensed(state, args, out),
        b"stock" => stocked(state, args, out),
        b"upgraded" => upgraded(state, args, out),
        b"switched" => switched(state, args, "switched", Desk::new(state.alloc), out),
        _ => return None,
    })
}

fn name(state: &State, token: &[u8]) -> Result<Name, Fault> {
    match Name::new(&state.names.bytes(token)?) {
        Some(name) => Ok(name),
        None => Err(Fault::Value),
    }
}

fn account(state: &mut State, args: &[&[u8]], out: &mut Lines) -> Result<(), Fault> {
    let [time, of, key] = *args else {
        return Err(Fault::Arguments);
    };
    let of = name(state, of)?;
    let bytes = state.names.bytes(key)?;
    let Ok(key) = <[u8; 16]>::try_from(bytes.as_slice()) else {
        return Err(Fault::Value);
    };
    let desk = Desk::new(state.alloc);
    match opened(state, time, desk)? {
        Ok(house) => {
            let done = came_of(open_account(house, &of, key));
            show(state, "account", done, out)
        }
        Err(stage) => show_closed(state, "account", stage, out),
    }
}

fn paid_in(state: &mut State, args: &[&[u8]], out: &mut Lines) -> Result<(), Fault> {
    let [time, of, units, reference] = *args else {
        return Err(Fault::Arguments);
    };
    let (of, reference) = (name(state, of)?, name(state, reference)?);
    let units = amount(units)?;
    let desk = Desk::new(state.alloc);
    match opened(state, time, desk)? {
        Ok(house) => {
            let done = came_of(deposit(house, &of, units, &reference));
            show(state, "deposit", done, out)
        }
        Err(stage) => show_closed(state, "deposit", stage, out),
    }
}

fn paid_out(state: &mut State, args: &[&[u8]], out: &mut Lines) -> Result<(), Fault> {
    let [time, of, units, reference] = *args else {
        return Err(Fault::Arguments);
    };
    let (of, reference) = (name(state, of)?, name(state, reference)?);
    let units = amount(units)?;
    let desk = Desk::new(state.alloc);
    match opened(state, time, desk)? {
        Ok(house) => {
            let done = came_of(withdraw(house, &of, units, &reference));
            show(state, "withdraw", done, out)
        }
        Err(stage) => show_closed(state, "withdraw", stage, out),
    }
}

/// The terms that the case set, as the licence of a vendor.
fn licensed(state: &mut State, args: &[&[u8]], out: &mut Lines) -> Result<(), Fault> {
    let [time, vendor] = *args else {
        return Err(Fault::Arguments);
    };
    let vendor = name(state, vendor)?;
    let terms = terms(state)?;
    if terms.issuer() == 0 {
        return Err(Fault::Value);
    }
    let desk = Desk::new(state.alloc);
    match opened(state, time, desk)? {
        Ok(house) => {
            let done = came_of(add_licence(house, &vendor, &terms));
            show(state, "licensed", done, out)
        }
        Err(stage) => show_closed(state, "licensed", stage, out),
    }
}

fn stocked(state: &mut State, args: &[&[u8]], out: &mut Lines) -> Result<(), Fault> {
    let [time, vendor, lines] = *args else {
        return Err(Fault::Arguments);
    };
    let vendor = name(state, vendor)?;
    let lines = state.names.bytes(lines)?;
    let desk = Desk::new(state.alloc);
    match opened(state, time, desk)? {
        Ok(house) => {
            let done = came_of(add_stock(house, &vendor, &lines));
            show(state, "stock", done, out)
        }
        Err(stage) => show_closed(state, "stock", stage, out),
    }
}

/// The scrip that the broker makes in the name of a vendor, or in its own, goes over to the second version from an
/// epoch on.
fn upgraded(state: &mut State, args: &[&[u8]], out: &mut Lines) -> Result<(), Fault> {
    let [time, vendor, from] = *args else {
        return Err(Fault::Arguments);
    };
    let vendor = name(state, vendor)?;
    let from = epoch(from)?;
    let desk = Desk::new(state.alloc);
    match opened(state, time, desk)? {
        Ok(house) => {
            let done = came_of(upgrade_licence(house, &vendor, from));
            show(state, "upgraded", done, out)
        }
        Err(stage) => show_closed(state, "upgraded", stage, out),
    }
}
