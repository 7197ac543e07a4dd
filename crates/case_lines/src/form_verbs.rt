//! Lines that read the texts and numbers that formats are made of.

use crate::fault::Fault;
use crate::show::Lines;
use crate::state::State;
use crate::words::number;
use mc_base::{Amount, Coin, Moment, Total};
use mc_fields::{Stuck, number_of, read_hex, read_literal, read_number};
use scrip_certs::of_hex;
use scrip_form::{Id, Name, Piece, Props, Target, read_name, read_scrip, write_scrip};

/// The verbs of this module; None where the verb is none of them.
pub(crate) fn read(
    state: &mut State,
    verb: &[u8],
    args: &[&[u8]],
    out: &mut Lines,
) -> Option<Result<(), Fault>> {
    Some(match verb {
        b"scrip" => scrip(state, args, out),
        b"versioned" => versioned(state, args, out),
        b"name" | b"props" | b"target" | b"digest" => text(state, verb, args, out),
        b"whole_number" | b"number" => numeral(state, verb, args, out),
        b"literal" => literal(state, args, out),
        b"digits" => digits(state, args, out),
        b"before" => before(state, args, out),
        b"amount" | b"moment" => range(verb, args, out),
        b"split" => split(args, out),
        b"total" => total(args, out),
        b"id" => id(args, out),
        b"piece" => piece(state, args, out),
        _ => return None,
    })
}

fn scrip(state: &State, args: &[&[u8]], out: &mut Lines) -> Result<(), Fault> {
    let [text] = *args else {
        return Err(Fault::Arguments);
    };
    let text = state.names.bytes(text)?;
    let scrip = match read_scrip(&text) {
        Ok(scrip) => scrip,
        Err(fault) => {
            out.counted("fault", fault.place as u64);
            return Ok(());
        }
    };
    let piece = scrip.piece();
    out.start("scrip");
    out.number(u64::from(piece.version()));
    out.bytes(piece.vendor().bytes());
    out.number(piece.value().get());
    out.identity(piece.id());
    out.identity(piece.cust());
    out.number(piece.expires());
    out.bytes(piece.props().bytes());
    out.digits(&scrip.cert());
    out.end();
    let mut room = [0; 512];
    let end = write_scrip(&piece, &scrip.cert(), &mut room);
    if room.get(..end) != Some(text.as_slice()) {
        return Err(Fault::Otherwise);
    }
    Ok(())
}

/// The text of a piece in another version, with the certificate that it had.
fn versioned(state: &State, args: &[&[u8]], out: &mut Lines) -> Result<(), Fault> {
    let [text, version] = *args else {
        return Err(Fault::Arguments);
    };
    let text = state.names.bytes(text)?;
    let Ok(version) = u8::try_from(number(version)?) else {
        return Err(Fault::Value);
    };
    let Ok(scrip) = read_scrip(&text) else {
        return Err(Fault::Bytes);
    };
    let Some(piece) = scrip.piece().versioned(version) else {
        out.line("versioned no");
        return Ok(());
    };
    let mut room = [0; 512];
    let end = write_scrip(&piece, &scrip.cert(), &mut room);
    out.given("versioned", room.get(..end).unwrap_or(b""));
    Ok(())
}

fn text(state: &State, verb: &[u8], args: &[&[u8]], out: &mut Lines) -> Result<(), Fault> {
    let [text] = *args else {
        return Err(Fault::Arguments);
    };
    let text = state.names.bytes(text)?;
    match verb {
        b"name" => out.answered("name", Name::new(&text).is_some()),
        b"props" => out.answered("props", Props::new(&text).is_some()),
        b"target" => out.answered("target", Target::new(&text).is_some()),
        _ => match of_hex(&text) {
            Some(digest) => out.given("digest", &digest),
            None => out.line("digest no"),
        },
    }
    Ok(())
}

fn numeral(state: &State, verb: &[u8], args: &[&[u8]], out: &mut Lines) -> Result<(), Fault> {
    let [most, text] = *args else {
        return Err(Fault::Arguments);
    };
    let most = number(most)?;
    let text = state.names.bytes(text)?;
    if most > 1 << 60 {
        return Err(Fault::Value);
    }
    if verb == b"whole_number".as_slice() {
        match number_of(most, &text) {
            Some(n) => out.counted("whole_number", n),
            None => out.line("whole_number no"),
        }
        return Ok(());
    }
    match read_number(most, b'|', &text) {
        Ok((n, rest)) => {
            out.start("number");
            out.number(n);
            out.bytes(rest);
            out.end()
        }
        Err(stuck) => show_stuck(stuck, out),
    }
    Ok(())
}

fn show_stuck(stuck: Stuck, out: &mut Lines) {
    out.counted("stuck", stuck.left as u64)
}

fn literal(state: &State, args: &[&[u8]], out: &mut Lines) -> Result<(), Fault> {
    let [wanted, text] = *args else {
        return Err(Fault::Arguments);
    };
    let wanted = state.names.bytes(wanted)?;
    let text = state.names.bytes(text)?;
    match read_literal(&wanted, &text) {
        Ok(rest) => out.given("literal", rest),
        Err(stuck) => show_stuck(stuck, out),
    }
    Ok(())
}

fn digits(state: &State, args: &[&[u8]], out: &mut Lines) -> Result<(), Fault> {
    let [text] = *args else {
        return Err(Fault::Arguments);
    };
    let text = state.names.bytes(text)?;
    match read_hex::<2>(&text) {
        Ok(read) => {
            let bytes = read.0;
            out.start("digits");
            show_two(&bytes, out);
            out.bytes(read.1);
            out.end()
        }
        Err(stuck) => show_stuck(stuck, out),
    }
    Ok(())
}

fn show_two(bytes: &[u8; 2], out: &mut Lines) {
    out.bytes(bytes)
}

fn before(state: &State, args: &[&[u8]], out: &mut Lines) -> Result<(), Fault> {
    let [stop, text] = *args else {
        return Err(Fault::Arguments);
    };
    let stop = state.names.bytes(stop)?;
    let text = state.names.bytes(text)?;
    let is_bar = stop.as_slice() == b"|".as_slice();
    if !is_bar && stop.as_slice() != b"\r".as_slice() {
        return Err(Fault::Value);
    }
    let read = if is_bar {
        read_name(b'|', &text)
    } else {
        read_name(b'\r', &text)
    };
    match read {
        Ok((name, rest)) => {
            out.start("before");
            out.bytes(name);
            out.bytes(rest);
            out.end()
        }
        Err(stuck) => show_stuck(stuck, out),
    }
    Ok(())
}

fn range(verb: &[u8], args: &[&[u8]], out: &mut Lines) -> Result<(), Fault> {
    let [n] = *args else {
        return Err(Fault::Arguments);
    };
    let n = number(n)?;
    if verb == b"amount".as_slice() {
        out.answered("amount", Amount::new(n).is_some());
        return Ok(());
    }
    out.start("moment");
    out.word(if Moment::new(n).is_some() {
        b"yes"
    } else {
        b"no"
    });
    out.number(Moment::clamped(n).seconds());
    out.end();
    Ok(())
}

fn amount(token: &[u8]) -> Result<Amount, Fault> {
    match Amount::new(number(token)?) {
        Some(amount) => Ok(amount),
        None => Err(Fault::Value),
    }
}

fn split(args: &[&[u8]], out: &mut Lines) -> Result<(), Fault> {
    let [whole, part] = *args else {
        return Err(Fault::Arguments);
    };
    let (whole, part) = (amount(whole)?, amount(part)?);
    let mut sum = Total::zero();
    let first = match Coin::minted(whole).split(part) {
        Ok((part, rest)) => {
            let first = part.amount().get();
            sum.put(part);
            sum.put(rest);
            Some(first)
        }
        Err(whole) => {
            sum.put(whole);
            None
        }
    };
    out.start("split");
    match first {
        Some(first) => out.number(first),
        None => out.word(b"-"),
    }
    out.sum(sum.number());
    out.end();
    Ok(())
}

fn total(args: &[&[u8]], out: &mut Lines) -> Result<(), Fault> {
    let mut sum = Total::zero();
    let mut taken = Total::zero();
    for step in args {
        if sum.number() >= 1 << 100 || taken.number() >= 1 << 100 {
            return Err(Fault::Value);
        }
        match step.split_first() {
            Some((b'+', n)) => sum.put(Coin::minted(amount(n)?)),
            Some((b'-', n)) => {
                if let Some(coin) = sum.take(amount(n)?) {
                    taken.put(coin);
                }
            }
            _ => return Err(Fault::Arguments),
        }
    }
    out.start("total");
    out.sum(sum.number());
    out.sum(taken.number());
    out.end();
    Ok(())
}

fn id(args: &[&[u8]], out: &mut Lines) -> Result<(), Fault> {
    let [issuer, epoch, serial] = *args else {
        return Err(Fault::Arguments);
    };
    let parts = (
        u8::try_from(number(issuer)?),
        u32::try_from(number(epoch)?),
        u32::try_from(number(serial)?),
    );
    let id = match parts {
        (Ok(issuer), Ok(epoch), Ok(serial)) => Id::of_parts(issuer, epoch, serial),
        _ => None,
    };
    let Some(id) = id else {
        out.line("id no");
        return Ok(());
    };
    out.start("id");
    out.identity(id);
    out.number(u64::from(id.series()));
    out.end();
    Ok(())
}

fn piece(state: &State, args: &[&[u8]], out: &mut Lines) -> Result<(), Fault> {
    let [vendor, value, id, cust, expires, props] = *args else {
        return Err(Fault::Arguments);
    };
    let vendor = Name::new(&state.names.bytes(vendor)?);
    let props = Props::new(&state.names.bytes(props)?);
    let value = Amount::new(number(value)?);
    let id = Id::of_number(number(id)?);
    let cust = Id::of_number(number(cust)?);
    let expires = number(expires)?;
    let piece = match (vendor, value, props) {
        (Some(vendor), Some(value), Some(props)) => {
            Piece::new(vendor, value, id, cust, expires, props)
        }
        _ => None,
    };
    out.answered("piece", piece.is_some());
    Ok(())
}
