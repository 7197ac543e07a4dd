//! Lines that make digests: of bytes, and under the terms that a case sets.

use crate::fault::Fault;
use crate::show::Lines;
use crate::state::State;
use crate::words::{number, small};
use mc_base::Moment;
use md5::{Digest as Md5Digest, Md5};
use scrip_certs::{certificate, customer_secret, sign_reply, sign_request};
use scrip_form::{Id, Secrets, Terms};
use sha2::{Digest as Sha2Digest, Sha256};
use std::alloc::Global;

/// The verbs of this module; None where the verb is none of them.
pub(crate) fn make(
    state: &mut State,
    verb: &[u8],
    args: &[&[u8]],
    out: &mut Lines,
) -> Option<Result<(), Fault>> {
    Some(match verb {
        b"terms" => set_terms(state, args, out),
        b"series" => series(state, args, out),
        b"certificate" => certified(state, args, out),
        b"secret" => secret(state, args, out),
        b"signed" => signed(state, args, out),
        b"replied" => replied(state, args, out),
        b"md5" => md5(state, args, out),
        b"sha256" => sha256(state, args, out),
        _ => return None,
    })
}

fn set_terms(state: &mut State, args: &[&[u8]], out: &mut Lines) -> Result<(), Fault> {
    let [issuer, period, life, scrip, customer] = *args else {
        return Err(Fault::Arguments);
    };
    let issuer = u8::try_from(number(issuer)?);
    let (period, life) = (small(period)?, small(life)?);
    let scrip = secrets(state.alloc, &state.names.bytes(scrip)?)?;
    let customer = secrets(state.alloc, &state.names.bytes(customer)?)?;
    state.terms = match (issuer, scrip, customer) {
        (Ok(issuer), Some(scrip), Some(customer)) => {
            Terms::new(issuer, period, life, scrip, customer)
        }
        _ => None,
    };
    if state.terms.is_none() {
        out.said("terms", "no");
        return Ok(());
    }
    Ok(())
}

/// The secrets that these bytes are, joined; None where they are none.
fn secrets(alloc: Global, joined: &[u8]) -> Result<Option<Secrets>, Fault> {
    let mut all = Vec::new(alloc);
    for secret in joined.chunks(16) {
        all.push(key(secret)?)?;
    }
    Ok(Secrets::new(&all))
}

fn key(bytes: &[u8]) -> Result<[u8; 16], Fault> {
    match <[u8; 16]>::try_from(bytes) {
        Ok(key) => Ok(key),
        Err(_) => Err(Fault::Bytes),
    }
}

/// The terms that the case set.
pub fn terms(state: &State) -> Result<Terms, Fault> {
    match state.terms {
        Some(terms) => Ok(terms),
        None => Err(Fault::Missing),
    }
}

fn series(state: &State, args: &[&[u8]], out: &mut Lines) -> Result<(), Fault> {
    let [moment] = *args else {
        return Err(Fault::Arguments);
    };
    let terms = terms(state)?;
    let epoch = terms.epoch_of(Moment::clamped(number(moment)?));
    out.start("series");
    out.number(u64::from(epoch));
    out.number(terms.series_end(epoch));
    out.end();
    Ok(())
}

fn show_digest(verb: &str, digest: &[u8], out: &mut Lines) {
    out.start(verb);
    out.digits(digest);
    out.end();
}

fn certified(state: &State, args: &[&[u8]], out: &mut Lines) -> Result<(), Fault> {
    let [body, id] = *args else {
        return Err(Fault::Arguments);
    };
    let body = state.names.bytes(body)?;
    let id = Id::of_number(number(id)?);
    show_digest("certificate", &certificate(&terms(state)?, &body, id), out);
    Ok(())
}

fn secret(state: &State, args: &[&[u8]], out: &mut Lines) -> Result<(), Fault> {
    let Some((cust, rest)) = args.split_first() else {
        return Err(Fault::Arguments);
    };
    let cust = Id::of_number(number(cust)?);
    let version = version(rest)?;
    show_digest(
        "secret",
        &customer_secret(&terms(state)?, cust, version),
        out,
    );
    Ok(())
}

/// The version that a line names; 1 where it names none.
fn version(args: &[&[u8]]) -> Result<u8, Fault> {
    if args.is_empty() {
        return Ok(1);
    }
    let [version] = *args else {
        return Err(Fault::Arguments);
    };
    match u8::try_from(number(version)?) {
        Ok(version) => Ok(version),
        Err(_) => Err(Fault::Value),
    }
}

fn signed(state: &State, args: &[&[u8]], out: &mut Lines) -> Result<(), Fault> {
    let [scrip, target, secret] = *args else {
        return Err(Fault::Arguments);
    };
    let scrip = state.names.bytes(scrip)?;
    let target = state.names.bytes(target)?;
    let secret = key(&state.names.bytes(secret)?)?;
    show_digest("signed", &sign_request(&scrip, &target, &secret), out);
    Ok(())
}

fn replied(state: &State, args: &[&[u8]], out: &mut Lines) -> Result<(), Fault> {
    let [scrip, target, head, contents, secret] = *args else {
        return Err(Fault::Arguments);
    };
    let scrip = state.names.bytes(scrip)?;
    let target = state.names.bytes(target)?;
    let head = state.names.bytes(head)?;
    let contents = state.names.bytes(contents)?;
    let secret = key(&state.names.bytes(secret)?)?;
    let sign = sign_reply(&scrip, &target, &head, &contents, &secret);
    show_digest("replied", &sign, out);
    Ok(())
}

/// The MD5 digest of bytes, as RFC 1321 has it.
fn md5(state: &State, args: &[&[u8]], out: &mut Lines) -> Result<(), Fault> {
    let [bytes] = *args else {
        return Err(Fault::Arguments);
    };
    show_digest("md5", &Md5::digest(&state.names.bytes(bytes)?), out);
    Ok(())
}

/// The SHA-256 digest of bytes, as FIPS 180-4 has it.
fn sha256(state: &State, args: &[&[u8]], out: &mut Lines) -> Result<(), Fault> {
    let [bytes] = *args else {
        return Err(Fault::Arguments);
    };
    show_digest("sha256", &Sha256::digest(&state.names.bytes(bytes)?), out);
    Ok(())
}
