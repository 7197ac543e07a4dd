//! Lines that ask what a wallet's book says: its pieces and kept requests, what it would ask for, the bytes
//! of its requests, and what a reply does to one.

ghost use Rattle.std.specs.Prelude.{◌≡◌};
ghost use Rattle.slow_wallet.specs.Choices.{target_of, asking_view};

use case_houses::{history, show_refusal};
use case_lines::{Fault, Lines, State, number};
use mc_base::{Moment, NoMemory};
use mc_records::Record;
use reply_reader::{ReplyRead, ReplyRef, read_reply};
use slow_ledger::Prefix;
use slow_wallet::{
    Asking, Holding, Numbered, Pending, State as PieceState, slow_check, slow_chosen, slow_holding,
    slow_is_kept, slow_kept, slow_pend_entry, slow_pending, slow_request_bytes, slow_settlement,
    slow_target, slow_wallet_book,
};

/// The verbs of this module; None where the verb is none of them.
pub(crate) fn ask(
    state: &State,
    verb: &[u8],
    args: &[&[u8]],
    out: &mut Lines,
) -> Option<Result<(), Fault>> {
    Some(match verb {
        b"wallet" if args.is_empty() => wallet(state, out),
        b"choose" => choose(state, args, out),
        b"pend" => pend(state, args, out),
        b"request" => request(state, args, out),
        b"settle" => settle(state, args, out),
        _ => return None,
    })
}

// ---- the book

fn wallet(state: &State, out: &mut Lines) -> Result<(), Fault> {
    let history = history(state)?;
    match slow_wallet_book(&history) {
        Some(number) => out.counted("wallet unlawful", number as u64),
        None => out.line("wallet lawful"),
    }
    let book = Prefix::whole(&history);
    show_holdings(&book, out);
    show_kept(&book, out);
    Ok(())
}

fn show_holdings(book: &Prefix<'_>, out: &mut Lines) {
    for place in 0..usize::MAX {
        match slow_holding(book, place) {
            Some(holding) => show_holding(&holding, out),
            None => break,
        }
    }
}

fn show_holding(holding: &Holding<'_>, out: &mut Lines) {
    out.start("holding");
    out.word(word_of(holding.state));
    out.bytes(holding.text);
    out.bytes(&holding.secret);
    out.end()
}

fn word_of(state: PieceState) -> &'static [u8] {
    match state {
        PieceState::Held => b"held",
        PieceState::Pending => b"pending",
        PieceState::Disputed => b"disputed",
        PieceState::Used => b"used",
        PieceState::Dead => b"dead",
    }
}

fn show_kept(book: &Prefix<'_>, out: &mut Lines) {
    for place in 0..usize::MAX {
        match slow_kept(book, place) {
            Some(kept) => show_one_kept(&kept, out),
            None => break,
        }
    }
}

fn show_one_kept(kept: &Numbered<'_>, out: &mut Lines) {
    out.start("kept");
    out.number(kept.number);
    show_request(&kept.request, out)
}

/// Prints what is asked, and ends the line.
fn show_request(request: &Pending<'_>, out: &mut Lines) {
    out.number(u64::from(request.ask));
    out.bytes(request.peer);
    out.bytes(request.target);
    out.some_bytes(request.scrip);
    out.bytes(&request.secret);
    out.end()
}

// ---- what is asked

fn choose(state: &State, args: &[&[u8]], out: &mut Lines) -> Result<(), Fault> {
    let [time, vendor, limit] = *args else {
        return Err(Fault::Arguments);
    };
    let time = Moment::clamped(number(time)?);
    let vendor = state.names.bytes(vendor)?;
    let limit = number(limit)?;
    let history = history(state)?;
    match slow_chosen(&Prefix::whole(&history), time, &vendor, limit) {
        Ok(offer) => {
            out.start("choose");
            out.number(offer.value);
            out.bytes(offer.holding.text);
            out.end()
        }
        Err(refusal) => show_refusal("choose refused", &refusal, out),
    }
    Ok(())
}

fn pend(state: &State, args: &[&[u8]], out: &mut Lines) -> Result<(), Fault> {
    let Some((time, what)) = args.split_first() else {
        return Err(Fault::Arguments);
    };
    let time = Moment::clamped(number(time)?);
    let Some((kind, values)) = what.split_first() else {
        return Err(Fault::Arguments);
    };
    match *kind {
        b"get" => get(state, time, values, out),
        b"buy" => buy(state, time, values, out),
        b"draw" => draw(state, time, values, out),
        _ => Err(Fault::Arguments),
    }
}

fn get(state: &State, time: Moment, values: &[&[u8]], out: &mut Lines) -> Result<(), Fault> {
    let [vendor, target, limit] = *values else {
        return Err(Fault::Arguments);
    };
    let vendor = state.names.bytes(vendor)?;
    let wanted = state.names.bytes(target)?;
    let limit = number(limit)?;
    let asking = Asking::Get {
        vendor: &vendor,
        target: &wanted,
        limit,
    };
    let target = slow_target(state.alloc, &asking)?;
    let history = history(state)?;
    pend_on(&Prefix::whole(&history), time, &asking, &target, out);
    Ok(())
}

fn buy(state: &State, time: Moment, values: &[&[u8]], out: &mut Lines) -> Result<(), Fault> {
    let [broker, vendor, amount, limit] = *values else {
        return Err(Fault::Arguments);
    };
    let broker = state.names.bytes(broker)?;
    let vendor = state.names.bytes(vendor)?;
    let amount = number(amount)?;
    let limit = number(limit)?;
    let asking = Asking::Buy {
        broker: &broker,
        vendor: &vendor,
        amount,
        limit,
    };
    let target = slow_target(state.alloc, &asking)?;
    let history = history(state)?;
    pend_on(&Prefix::whole(&history), time, &asking, &target, out);
    Ok(())
}

fn draw(state: &State, time: Moment, values: &[&[u8]], out: &mut Lines) -> Result<(), Fault> {
    let [broker, account, key, order, amount] = *values else {
        return Err(Fault::Arguments);
    };
    let broker = state.names.bytes(broker)?;
    let account = state.names.bytes(account)?;
    let Ok(key) = <[u8; 16]>::try_from(state.names.bytes(key)?.as_slice()) else {
        return Err(Fault::Bytes);
    };
    let order = number(order)?;
    let amount = number(amount)?;
    let asking = Asking::Draw {
        broker: &broker,
        account: &account,
        key,
        order,
        amount,
    };
    let target = slow_target(state.alloc, &asking)?;
    let history = history(state)?;
    pend_on(&Prefix::whole(&history), time, &asking, &target, out);
    Ok(())
}

/// Prints the entry of what is asked under its target.
fn pend_on<'a>(
    book: &'a Prefix<'_>,
    time: Moment,
    asking: &Asking<'a>,
    target: &'a [u8],
    out: &mut Lines,
)
    requires { target.now ≡ target_of (asking_view asking.now) }
{
    match slow_pend_entry(book, time, asking, target) {
        Ok(record) => show_pend(&record, out),
        Err(refusal) => show_refusal("pend refused", &refusal, out),
    }
}

fn show_pend(record: &Record<'_>, out: &mut Lines) {
    if let Record::Pend {
        moment,
        ask,
        peer,
        target,
        scrip,
        secret,
    } = *record
    {
        out.start("pend");
        out.number(moment.seconds());
        show_request(
            &Pending {
                ask,
                peer,
                target,
                scrip,
                secret,
            },
            out,
        )
    }
}

fn request(state: &State, args: &[&[u8]], out: &mut Lines) -> Result<(), Fault> {
    let [of] = *args else {
        return Err(Fault::Arguments);
    };
    let of = number(of)?;
    let history = history(state)?;
    let book = Prefix::whole(&history);
    match slow_pending(&book, of) {
        Some(request) => out.given("request", &slow_request_bytes(state.alloc, &request)?),
        None => out.line("request none"),
    }
    Ok(())
}

// ---- replies

fn settle(state: &State, args: &[&[u8]], out: &mut Lines) -> Result<(), Fault> {
    let [time, of, reply] = *args else {
        return Err(Fault::Arguments);
    };
    let time = Moment::clamped(number(time)?);
    let of = number(of)?;
    let reply = state.names.bytes(reply)?;
    let history = history(state)?;
    let book = Prefix::whole(&history);
    let Some(request) = kept(&book, of) else {
        out.line("settle none");
        return Ok(());
    };
    match read_reply(&reply) {
        ReplyRead::Whole(reply) => settle_by(state, &book, time, of, &request, &reply, out),
        _ => {
            out.line("settle no reply");
            Ok(())
        }
    }
}

/// The request of a number, where it is kept.
fn kept<'a>(book: &'a Prefix<'_>, number: u64) -> Option<Pending<'a>> {
    if slow_is_kept(book, number) {
        slow_pending(book, number)
    } else {
        None
    }
}

fn settle_by(
    state: &State,
    book: &Prefix<'_>,
    time: Moment,
    number: u64,
    request: &Pending<'_>,
    reply: &ReplyRef<'_>,
    out: &mut Lines,
) -> Result<(), Fault> {
    if let Some(refusal) = slow_check(state.alloc, request, reply)? {
        show_refusal("settle wrong", &refusal, out);
        return Ok(());
    }
    match slow_settlement(state.alloc, book, time, number, request, reply) {
        Ok(record) => {
            show_settlement(&record, out);
            Ok(())
        }
        Err(NoMemory) => Err(Fault::NoMemory),
    }
}

fn show_settlement(record: &Record<'_>, out: &mut Lines) {
    match *record {
        Record::Done {
            price,
            change,
            got,
            ..
        } => {
            out.start("settle done");
            out.number(price);
            out.some_bytes(change);
            show_got(got, out);
            out.end()
        }
        Record::Refused { refusal, .. } => out.counted("settle refused", u64::from(refusal)),
        _ => {}
    }
}

fn show_got(got: Option<(&[u8], [u8; 16])>, out: &mut Lines) {
    match got {
        Some(piece) => {
            let secret = piece.1;
            out.bytes(piece.0);
            out.bytes(&secret)
        }
        None => out.word(b"-"),
    }
}
