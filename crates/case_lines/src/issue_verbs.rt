//! Lines that issue scrip, and those that keep replies.

use crate::asked::Asked;
use crate::digest_verbs::terms;
use crate::fault::Fault;
use crate::show::Lines;
use crate::state::State;
use crate::words::{number, small};
use change_issue::{Issuer, SeriesFull};
use kept_replies::{Deed, Kept, KeptEntry};
use mc_base::{Amount, Coin, Moment, Total};
use mc_requests::{Limits, Request};
use scrip_form::{Id, Name, Props};

/// The verbs of this module; None where the verb is none of them.
pub(crate) fn keep_books(
    state: &mut State,
    verb: &[u8],
    args: &[&[u8]],
    out: &mut Lines,
) -> Option<Result<(), Fault>> {
    Some(match verb {
        b"issuer" => begin_issuing(state, args),
        b"next" => next(state, args, out),
        b"coin" => coin(state, args, out),
        b"redeem" => redeem(state, args, out),
        b"count" => count(state, args, out),
        b"kept" => begin_keeping(state, args),
        b"keep" => keep(state, args, out),
        b"find" => find(state, args, out),
        b"forget" => forget(state, args, out),
        b"held" => held(state, args, out),
        _ => return None,
    })
}

fn begin_issuing(state: &mut State, args: &[&[u8]]) -> Result<(), Fault> {
    let [series] = *args else {
        return Err(Fault::Arguments);
    };
    let limits = Limits {
        journal: 1 << 40,
        series: number(series)?,
    };
    if !limits.are_in_range() {
        return Err(Fault::Value);
    }
    state.issuer = Some(Issuer::new(state.alloc, terms(state)?, limits));
    Ok(())
}

fn issuer(state: &mut State) -> Result<&mut Issuer, Fault> {
    match &mut state.issuer {
        Some(issuer) => Ok(issuer),
        None => Err(Fault::Missing),
    }
}

fn next(state: &mut State, args: &[&[u8]], out: &mut Lines) -> Result<(), Fault> {
    let [now] = *args else {
        return Err(Fault::Arguments);
    };
    let now = Moment::clamped(number(now)?);
    match issuer(state)?.next(now) {
        Ok(id) => {
            out.start("next");
            out.identity(id);
            out.end()
        }
        Err(SeriesFull { series }) => out.counted("full", u64::from(series)),
    }
    Ok(())
}

fn coin(state: &mut State, args: &[&[u8]], out: &mut Lines) -> Result<(), Fault> {
    let [now, value, cust] = *args else {
        return Err(Fault::Arguments);
    };
    let now = Moment::clamped(number(now)?);
    let cust = if cust == b"-".as_slice() {
        None
    } else {
        Some(Id::of_number(number(cust)?))
    };
    let Some(value) = Amount::new(number(value)?) else {
        return Err(Fault::Value);
    };
    issue(issuer(state)?, now, value, cust, out)
}

fn issue(
    issuer: &mut Issuer,
    now: Moment,
    value: Amount,
    cust: Option<Id>,
    out: &mut Lines,
) -> Result<(), Fault> {
    let (Some(name), Some(props)) = (Name::new(b"news.example"), Props::new(b"a=1")) else {
        return Err(Fault::Name);
    };
    if value.get() == 0 {
        return Err(Fault::Value);
    }
    let id = match issuer.next(now) {
        Ok(id) => id,
        Err(SeriesFull { series }) => {
            out.counted("full", u64::from(series));
            return Ok(());
        }
    };
    issuer.reserve(id.series())?;
    let piece = issuer.issue(now, name, Coin::minted(value), cust, props);
    out.start("coin");
    out.identity(piece.id());
    out.identity(piece.cust());
    out.number(piece.expires());
    out.bytes(piece.props().bytes());
    out.end();
    Ok(())
}

fn redeem(state: &mut State, args: &[&[u8]], out: &mut Lines) -> Result<(), Fault> {
    let [id, value] = *args else {
        return Err(Fault::Arguments);
    };
    let id = Id::of_number(number(id)?);
    let Some(value) = Amount::new(number(value)?) else {
        return Err(Fault::Value);
    };
    let worth = redeem_one(issuer(state)?, id, value)?;
    out.counted("redeem", worth);
    Ok(())
}

fn redeem_one(issuer: &mut Issuer, id: Id, value: Amount) -> Result<u64, Fault> {
    issuer.reserve(id.series())?;
    if issuer.redeemed(id.series()) >= 1 << 120 {
        return Err(Fault::Value);
    }
    let coin = issuer.redeem(id, value);
    let worth = coin.amount().get();
    let mut sum = Total::zero();
    sum.put(coin);
    Ok(worth)
}

fn count(state: &mut State, args: &[&[u8]], out: &mut Lines) -> Result<(), Fault> {
    let [series] = *args else {
        return Err(Fault::Arguments);
    };
    let series = small(series)?;
    let issuer = issuer(state)?;
    out.start("count");
    out.number(issuer.count(series));
    out.sum(issuer.issued(series));
    out.sum(issuer.redeemed(series));
    out.end();
    Ok(())
}

fn begin_keeping(state: &mut State, args: &[&[u8]]) -> Result<(), Fault> {
    let [keep] = *args else {
        return Err(Fault::Arguments);
    };
    state.kept = Some(Kept::new(state.alloc, small(keep)?));
    Ok(())
}

fn kept(state: &mut State) -> Result<&mut Kept, Fault> {
    match &mut state.kept {
        Some(kept) => Ok(kept),
        None => Err(Fault::Missing),
    }
}

fn keep(state: &mut State, args: &[&[u8]], out: &mut Lines) -> Result<(), Fault> {
    let [number, moment, target, scrip, sign] = *args else {
        return Err(Fault::Arguments);
    };
    let asked = Asked::of(state, target, scrip, sign)?;
    let e = KeptEntry {
        number: crate::words::number(number)?,
        moment: Moment::clamped(crate::words::number(moment)?),
        price: 25,
        change: None,
        secret: [7; 16],
        deed: Deed::Goods { goods: 2 },
    };
    let is_new = put_entry(kept(state)?, &asked.request(), e)?;
    out.answered("keep", is_new);
    Ok(())
}

/// Keeps an entry where neither its request nor its number is kept, as a house does. Whether it was kept.
fn put_entry(kept: &mut Kept, q: &Request<'_>, e: KeptEntry) -> Result<bool, Fault> {
    let start = Moment::clamped(0);
    kept.forget(start);
    kept.reserve(q, e.size())?;
    if kept.find(start, q).is_some() || kept.entry(e.number).is_some() {
        return Ok(false);
    }
    kept.keep(q, None, e);
    Ok(true)
}

fn find(state: &mut State, args: &[&[u8]], out: &mut Lines) -> Result<(), Fault> {
    let [moment, target, scrip, sign] = *args else {
        return Err(Fault::Arguments);
    };
    let asked = Asked::of(state, target, scrip, sign)?;
    let now = Moment::clamped(number(moment)?);
    match kept(state)?.find(now, &asked.request()) {
        Some(number) => out.counted("find", number.number()),
        None => out.line("find none"),
    }
    Ok(())
}

fn forget(state: &mut State, args: &[&[u8]], out: &mut Lines) -> Result<(), Fault> {
    let [moment] = *args else {
        return Err(Fault::Arguments);
    };
    let now = Moment::clamped(number(moment)?);
    let kept = kept(state)?;
    kept.forget(now);
    match kept.first() {
        Some(number) => out.counted("forget", number),
        None => out.line("forget none"),
    }
    Ok(())
}

fn held(state: &mut State, args: &[&[u8]], out: &mut Lines) -> Result<(), Fault> {
    let [held] = *args else {
        return Err(Fault::Arguments);
    };
    match kept(state)?.entry(number(held)?) {
        Some((q, e)) => {
            out.start("held");
            out.bytes(q.target);
            out.some_bytes(q.scrip);
            out.some_bytes(q.sign);
            out.number(e.moment.seconds());
            out.number(e.price);
            out.end()
        }
        None => out.line("held none"),
    }
    Ok(())
}
