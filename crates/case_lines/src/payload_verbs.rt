//! Lines that read payloads of entries, and texts of refusals.

ghost use Rattle.mc_records.specs.Entry.{Fits};
ghost use Rattle.mc_records.specs.Views.{entry};

use crate::fault::Fault;
use crate::refusals::{refusal, show_refusal};
use crate::show::Lines;
use crate::state::State;
use mc_base::Moment;
use mc_records::{PieceList, Record, RecordDeed, SiteTerms, put_record, read_record, write_record};
use scrip_form::Terms;
use std::alloc::Global;

/// The verbs of this module; None where the verb is none of them.
pub(crate) fn read(
    state: &mut State,
    verb: &[u8],
    args: &[&[u8]],
    out: &mut Lines,
) -> Option<Result<(), Fault>> {
    Some(match verb {
        b"payload" => payload(state, args, out),
        b"refusal" => refused(state, args, out),
        _ => return None,
    })
}

fn refused(state: &State, args: &[&[u8]], out: &mut Lines) -> Result<(), Fault> {
    let Some((number, kept)) = args.split_first() else {
        return Err(Fault::Arguments);
    };
    let refusal = refusal(state, number, kept)?;
    show_refusal(&refusal, out);
    Ok(())
}

fn payload(state: &State, args: &[&[u8]], out: &mut Lines) -> Result<(), Fault> {
    let [bytes] = *args else {
        return Err(Fault::Arguments);
    };
    let bytes = state.names.bytes(bytes)?;
    let record = match read_record(&bytes) {
        Ok(record) => record,
        Err(fault) => {
            out.counted("fault", fault.place as u64);
            return Ok(());
        }
    };
    show_entry("payload", &record, out);
    if !is_written_so(state.alloc, &record, &bytes)? {
        return Err(Fault::Otherwise);
    }
    Ok(())
}

/// Prints the fields of an entry behind a verb.
pub fn show_entry(verb: &str, record: &Record<'_>, out: &mut Lines) {
    out.start(verb);
    show(record, out);
    out.end()
}

/// Whether both writers write these bytes of an entry, and none where a byte of room lacks.
fn is_written_so(alloc: Global, r: &Record<'_>, bytes: &[u8]) -> Result<bool, Fault>
    requires { Fits (entry r.now) }
{
    let mut room = vec![in alloc; b'.'; bytes.len()]?;
    let exact = put_record(r, &mut room) == Some(bytes.len()) && room.as_slice() == bytes;
    let _last = room.pop();
    let short = put_record(r, &mut room).is_none();
    let mut written = Vec::new(alloc);
    write_record(r, &mut written)?;
    Ok(exact && short && written.as_slice() == bytes)
}

fn begin(kind: u64, moment: Moment, out: &mut Lines) {
    out.number(kind);
    out.number(moment.seconds())
}

/// Prints the fields of an entry.
fn show(record: &Record<'_>, out: &mut Lines) {
    match *record {
        Record::Site {
            moment,
            kind,
            name,
            house,
        } => {
            begin(1, moment, out);
            show_site(kind, name, &house, out)
        }
        Record::Terms { moment, terms } => {
            begin(2, moment, out);
            show_terms(&terms.terms(), out)
        }
        Record::Goods {
            moment,
            target,
            price,
            kind,
            contents,
        } => {
            begin(3, moment, out);
            out.bytes(target);
            out.number(price);
            out.number(u64::from(kind));
            out.bytes(contents)
        }
        Record::Mint {
            moment,
            reference,
            count,
            value,
            first,
        } => {
            begin(5, moment, out);
            out.bytes(reference);
            out.number(u64::from(count));
            out.number(value);
            out.identity(first)
        }
        Record::Accept { .. } | Record::Draw { .. } => show_accepted(record, out),
        Record::Account { .. }
        | Record::Deposit { .. }
        | Record::Withdraw { .. }
        | Record::Licence { .. }
        | Record::Stock { .. } => show_of_broker(record, out),
        Record::Upgrade { .. } | Record::Switch { .. } | Record::Note { .. } => {
            show_of_operator(record, out)
        }
        _ => show_of_wallet(record, out),
    }
}

fn show_site(kind: u8, name: &[u8], house: &Option<SiteTerms<'_>>, out: &mut Lines) {
    out.number(u64::from(kind));
    out.bytes(name);
    let Some(house) = house else {
        return out.word(b"-");
    };
    out.number(u64::from(house.keep));
    out.number(house.fee);
    out.number(u64::from(house.clear));
    show_terms(&house.terms.terms(), out)
}

fn show_terms(terms: &Terms, out: &mut Lines) {
    out.number(u64::from(terms.issuer()));
    out.number(u64::from(terms.period()));
    out.number(u64::from(terms.life()));
    show_secrets(terms.scrip(), out);
    show_secrets(terms.customer(), out)
}

/// Prints secrets, joined.
fn show_secrets(secrets: &[[u8; 16]], out: &mut Lines) {
    let mut joined = [0; 256];
    let mut end = 0_usize;
    for secret in secrets {
        for byte in secret {
            if let Some(place) = joined.get_mut(end) {
                *place = *byte;
            }
            end = end.saturating_add(1);
        }
    }
    out.bytes(joined.get(..end).unwrap_or(b""));
}

fn show_accepted(record: &Record<'_>, out: &mut Lines) {
    match *record {
        Record::Accept {
            moment,
            scrip,
            target,
            sign,
            price,
            change,
            deed,
        } => {
            begin(4, moment, out);
            out.bytes(scrip);
            out.bytes(target);
            show_key(&sign, out);
            out.number(price);
            match change {
                Some(id) => out.identity(id),
                None => out.word(b"-"),
            }
            show_deed(deed, out)
        }
        Record::Draw {
            moment,
            target,
            sign,
            drawn,
        } => {
            begin(9, moment, out);
            out.bytes(target);
            show_sixteen(&sign, out);
            out.identity(drawn)
        }
        _ => {}
    }
}

/// Prints a key, a secret or a signature.
fn show_sixteen(key: &[u8; 16], out: &mut Lines) {
    out.bytes(key)
}

/// Prints the chain of a switch.
fn show_thirty_two(chain: &[u8; 32], out: &mut Lines) {
    out.bytes(chain)
}

fn show_key(key: &Option<[u8; 16]>, out: &mut Lines) {
    match key {
        Some(key) => show_sixteen(key, out),
        None => out.word(b"-"),
    }
}

fn show_deed(deed: RecordDeed, out: &mut Lines) {
    match deed {
        RecordDeed::Goods => out.word(b"goods"),
        RecordDeed::Sale { stock, id } => {
            out.word(b"sale");
            out.number(u64::from(stock));
            out.identity(id)
        }
        RecordDeed::Credit { balance } => {
            out.word(b"credit");
            out.number(balance)
        }
    }
}

fn show_of_broker(record: &Record<'_>, out: &mut Lines) {
    match *record {
        Record::Account { moment, name, key } => {
            begin(6, moment, out);
            out.bytes(name);
            show_sixteen(&key, out)
        }
        Record::Deposit {
            moment,
            name,
            amount,
            reference,
        } => {
            begin(7, moment, out);
            show_money(name, amount, reference, out)
        }
        Record::Withdraw {
            moment,
            name,
            amount,
            reference,
        } => {
            begin(8, moment, out);
            show_money(name, amount, reference, out)
        }
        Record::Licence {
            moment,
            vendor,
            terms,
        } => {
            begin(10, moment, out);
            out.bytes(vendor);
            show_terms(&terms.terms(), out)
        }
        Record::Stock {
            moment,
            vendor,
            pieces,
        } => {
            begin(11, moment, out);
            out.bytes(vendor);
            show_pieces(&pieces, out)
        }
        _ => {}
    }
}

/// Prints an upgrade, a switch or a note.
fn show_of_operator(record: &Record<'_>, out: &mut Lines) {
    match *record {
        Record::Upgrade {
            moment,
            vendor,
            issuer,
            from,
        } => {
            begin(16, moment, out);
            out.bytes(vendor);
            out.number(u64::from(issuer));
            out.number(u64::from(from))
        }
        Record::Switch { moment, chain } => {
            begin(17, moment, out);
            show_thirty_two(&chain, out)
        }
        Record::Note { moment, tag, bytes } => {
            begin(18, moment, out);
            out.bytes(tag);
            out.bytes(bytes)
        }
        _ => {}
    }
}

fn show_money(name: &[u8], amount: u64, reference: &[u8], out: &mut Lines) {
    out.bytes(name);
    out.number(amount);
    out.bytes(reference)
}

fn show_pieces(pieces: &PieceList<'_>, out: &mut Lines) {
    out.number(u64::from(pieces.count()));
    for n in 0..pieces.count() {
        if let Some(piece) = pieces.get(n) {
            let secret = piece.1;
            out.bytes(piece.0.text());
            show_sixteen(&secret, out);
        }
    }
}

fn show_of_wallet(record: &Record<'_>, out: &mut Lines) {
    match *record {
        Record::Got { moment, pieces } => {
            begin(12, moment, out);
            show_pieces(&pieces, out)
        }
        Record::Pend {
            moment,
            ask,
            peer,
            target,
            scrip,
            secret,
        } => {
            begin(13, moment, out);
            out.number(u64::from(ask));
            out.bytes(peer);
            out.bytes(target);
            out.some_bytes(scrip);
            show_sixteen(&secret, out)
        }
        Record::Done {
            moment,
            number,
            price,
            change,
            got,
        } => {
            begin(14, moment, out);
            out.number(number);
            out.number(price);
            out.some_bytes(change);
            match got {
                Some(piece) => {
                    let secret = piece.1;
                    out.bytes(piece.0);
                    show_sixteen(&secret, out)
                }
                None => out.word(b"-"),
            }
        }
        Record::Refused {
            moment,
            number,
            refusal,
        } => {
            begin(15, moment, out);
            out.number(number);
            out.number(u64::from(refusal))
        }
        _ => {}
    }
}
