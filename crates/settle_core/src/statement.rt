//! Statement lines are read.

ghost use Rattle.std.specs.Prelude.{◌≡◌, option_map, bytes_eq, Some, IfOk};
ghost use Rattle.mc_fields.specs.Gives.{Gives};
ghost use Rattle.settle_core.specs.Claims.{payment_text, statement_body, statement_cert};
ghost use Rattle.settle_core.specs.Statements.{StatementFits, statement_text, cert_at, paid_to, words_at, statement_at, statement_input};

use crate::claim::{Claim, Payment, Statement};
use crate::reading::claim_in;
use mc_fields::{Stuck, cut, read_hex, read_literal};
use scrip_certs::certificate;
use scrip_form::{Id, Name, Terms};

/// How many bytes stand in a statement's line before its vendor: the word `statement` and a space.
const WORD: usize = 10;

/// How many bytes its certificate takes, with the LF behind it.
const CERT: usize = 33;

/// Reads an input that is one statement line. `Err` is the line at which the input breaks: 0 for an empty input, 1 where it
/// begins with no statement line, 2 where more bytes follow. It takes no memory.
pub fn read_statement(bytes: &[u8]) -> Result<Statement, u16>
    ensures read { result ≡ statement_input bytes.now }
    ensures told { IfOk result (λ s. StatementFits s × (bytes.now ≡ statement_text s)) }
{
    if bytes.is_empty() {
        return Err(0);
    }
    match statement_at(bytes) {
        Some((statement, rest)) => {
            if rest.is_empty() {
                Ok(statement)
            } else {
                Err(2)
            }
        }
        None => Err(1),
    }
}

/// Whether a statement, whose line this is, has the certificate of these terms. It takes no memory.
pub fn is_certified(terms: &Terms, statement: &Statement, line: &[u8]) -> bool
    requires fits { StatementFits statement.now }
    requires line { line.now ≡ statement_text statement.now }
    ensures { result ≡ bytes_eq statement.now.cert (statement_cert terms.now statement.now.payment) }
{
    let claim = &statement.payment.claim;
    let first = Id::of_parts(claim.issuer, claim.epoch, 0).unwrap();
    statement.cert == certificate(terms, certified_in(line, statement), first)
}

/// What the certificate of a statement is of: its line up to and with the last space.
fn certified_in<'a>(line: &'a [u8], _statement: &Statement) -> &'a [u8]
    requires fits { StatementFits _statement.now }
    requires line { line.now ≡ statement_text _statement.now }
    ensures { result.now ≡ statement_body _statement.now.payment }
{
    &line[..line.len() - CERT]
}

/// The text of the payment that a statement asks for, which stands in its line. It takes no memory.
pub fn payment_in<'a>(line: &'a [u8], _statement: &Statement) -> &'a [u8]
    requires fits { StatementFits _statement.now }
    requires line { line.now ≡ statement_text _statement.now }
    ensures { result.now ≡ payment_text _statement.now.payment }
{
    &line[WORD..line.len() - CERT - 1]
}

/// A statement at the front, and the bytes behind it.
fn statement_at(bytes: &[u8]) -> Option<(Statement, &[u8])>
    ensures { option_map (λ x. (x.0, x.1.now)) result ≡ statement_at bytes.now }
{
    let (word, rest) = cut(b' ', bytes)?;
    if word != b"statement".as_slice() {
        return None;
    }
    words_at(rest)
}

/// What stands behind the word `statement`.
fn words_at(bytes: &[u8]) -> Option<(Statement, &[u8])>
    ensures { option_map (λ x. (x.0, x.1.now)) result ≡ words_at bytes.now }
{
    let (vendor, rest) = cut(b' ', bytes)?;
    let (issuer, rest) = cut(b' ', rest)?;
    let (epoch, rest) = cut(b' ', rest)?;
    let (amount, rest) = cut(b' ', rest)?;
    let claim = claim_in(issuer, epoch, amount)?;
    let payment = paid_to(vendor, claim)?;
    let (cert, rest) = read_cert(rest).ok()?;
    Some((stated(payment, cert), rest))
}

/// A payment that is asked for with this certificate.
fn stated(payment: Payment, cert: [u8; 16]) -> Statement
    ensures payment { result.payment ≡ payment }
    ensures cert { result.cert ≡ cert }
{
    Statement { payment, cert }
}

/// A claim of the vendor of these bytes, where they are a name.
fn paid_to(vendor: &[u8], claim: Claim) -> Option<Payment>
    ensures { result ≡ paid_to vendor.now (Some claim) }
{
    match Name::new(vendor) {
        Some(vendor) => Some(Payment { vendor, claim }),
        None => None,
    }
}

/// The 32 digits of a certificate and the LF at the front, and the bytes behind them.
#[tactic(auto, unfolding(crate::specs::Statements::cert_at))]
fn read_cert(bytes: &[u8]) -> Result<([u8; 16], &[u8]), Stuck>
    ensures { Gives (λ x. (x.0, x.1.now)) result (cert_at bytes.now) }
{
    let (cert, rest) = read_hex::<16>(bytes)?;
    let rest = read_literal(b"\n", rest)?;
    Ok((cert, rest))
}
