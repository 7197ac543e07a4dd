//! A request as a house answers it: with its scrip text read.

ghost use Rattle.std.specs.Prelude.{◌≡◌, IfErr};
ghost use Rattle.mc_requests.specs.Requests.{asked_of};
ghost use Rattle.ledger_model.specs.Lines.{as_line};
ghost use Rattle.ledger_model.specs.Stages.{read_by};
ghost use Rattle.ledger_model.specs.Answer.{without_scrip};
ghost use Rattle.house_state.specs.Replying.{IsOfSite};

use mc_requests::{Refusal, Request};
use scrip_form::{ScripRef, read_scrip};
use std::marker::Model;

/// A request with its scrip text read, which is done once for each request, or the refusal that says why
/// none can be: 20 where it has no such text, 21 where it has no piece at a place. Contracts see it as
/// what the request asks.
#[derive(Drop)]
pub struct Presented<'a> {
    request: Request<'a>,
    scrip: Result<ScripRef<'a>, Refusal>,
}

impl<'a> Model for Presented<'a> {
    ghost use Rattle.mc_requests.specs.Requests.{Asked, asked_of, seen};
    ghost use Rattle.house_state.specs.Presented.{IsReading};

    ghost Value = { Asked };

    ghost view = { λ q. asked_of q.request };

    ghost invariant = { λ q. IsReading (seen q.request.scrip) q.scrip };
}

impl<'a> Presented<'a> {
    /// Reads the scrip text of a request. It takes no memory.
    pub fn of(request: Request<'a>) -> Presented<'a>
        ensures { result ≡ asked_of request.entry }
    {
        let scrip = match request.scrip {
            Some(text) => match read_scrip(text) {
                Ok(scrip) => Ok(scrip),
                Err(fault) => Err(Refusal::BadScrip(fault.place as u64)),
            },
            None => Err(Refusal::NoScrip),
        };
        Presented { request, scrip }
    }

    /// The request.
    pub fn request(&self) -> &Request<'a>
        ensures { asked_of result.now ≡ self.now }
    {
        &self.request
    }

    /// What was read of its scrip text.
    pub fn scrip(&self) -> Result<&ScripRef<'a>, Refusal>
        ensures read { as_line (λ c. c.now) result ≡ read_by self.now.scrip }
        ensures site { IfErr result IsOfSite }
    {
        match &self.scrip {
            Ok(scrip) => Ok(scrip),
            Err(refusal) => Err(*refusal),
        }
    }
}

/// A request without its scrip text, as which a draw is kept and told apart: that of a draw does not count.
pub fn without_scrip<'a>(q: &Request<'a>) -> Request<'a>
    ensures { asked_of result ≡ without_scrip (asked_of q.now) }
{
    Request {
        target: q.target,
        scrip: None,
        sign: q.sign,
    }
}
