//! What an entry says of money and of pieces.

ghost use Rattle.std.specs.Prelude.{◌≡◌, ℕ, List, Option, Some, option_map, is_some};
ghost use Rattle.scrip_form.specs.Issuing.{series_end};
ghost use Rattle.scrip_form.specs.Identities.{epoch_of};
ghost use Rattle.mc_records.specs.Entry.{Accept, Draw, Deed};
ghost use Rattle.mc_records.specs.Views.{entry};
ghost use Rattle.ledger_model.specs.Histories.{History};
ghost use Rattle.ledger_model.specs.Houses.{terms_in};
ghost use Rattle.ledger_model.specs.Pieces.{piece_of, accepted_piece, handed_piece};
ghost use Rattle.ledger_model.specs.Sums as model;
ghost use Rattle.ledger_model.specs.Sums.{amount_in, amount_out, fee_of, price_paid};
ghost use Rattle.audit_model.specs.Parts.{part_of};
ghost use Rattle.audit_sums.specs.Rows.{acceptance_of, run_of};

use crate::rows::{Acceptance, Run};
use audit_model::{Part, Sold};
use mc_records::{Record, RecordDeed};
use mc_requests::{Errand, read_errand};
use scrip_form::{Id, Terms};

// ---- money

/// What a deposit brought in, in units; other entries 0.
pub(crate) fn deposited(r: &Record<'_>) -> u64
    ensures { result ≡ amount_in (entry r.now) }
{
    match r {
        Record::Deposit { amount, .. } => *amount,
        _ => 0,
    }
}

/// What a withdrawal took out.
pub(crate) fn withdrawn(r: &Record<'_>) -> u64
    ensures { result ≡ amount_out (entry r.now) }
{
    match r {
        Record::Withdraw { amount, .. } => *amount,
        _ => 0,
    }
}

/// The price that was taken for a piece.
pub(crate) fn price(r: &Record<'_>) -> u64
    ensures { result ≡ price_paid (entry r.now) }
{
    match r {
        Record::Accept { price, .. } => *price,
        _ => 0,
    }
}

/// What was credited to an account.
pub(crate) fn credited(r: &Record<'_>) -> u64
    ensures { result ≡ model.amount_credited (entry r.now) }
{
    match r {
        Record::Accept {
            price,
            deed: RecordDeed::Credit { .. },
            ..
        } => *price,
        _ => 0,
    }
}

/// What was drawn out of an account.
pub(crate) fn drawn(r: &Record<'_>) -> u64
    ensures { result ≡ model.amount_drawn (entry r.now) }
{
    let Record::Draw { target, .. } = r else {
        return 0;
    };
    match read_errand(target) {
        Some(Errand::Draw { amount, .. }) => amount,
        _ => 0,
    }
}

/// The fee of an entry, where a sale costs so much.
pub(crate) fn fee_taken(fee: u64, r: &Record<'_>) -> u64
    ensures { result ≡ fee_of fee (entry r.now) }
{
    match r {
        Record::Accept {
            deed: RecordDeed::Sale { .. },
            ..
        } => fee,
        _ => 0,
    }
}

// ---- pieces

/// What is kept of the piece that an entry accepts.
pub(crate) fn acceptance(r: &Record<'_>, paid: &Option<Part>) -> Option<Acceptance>
    requires { paid.now ≡ option_map part_of (accepted_piece (entry r.now)) }
    ensures { result ≡ acceptance_of (entry r.now) }
{
    match r {
        Record::Accept { .. } => Some(Acceptance {
            piece: *paid,
            sale: Sold::read(r).is_some(),
        }),
        _ => None,
    }
}

/// The pieces that an entry mints.
pub(crate) fn run(r: &Record<'_>) -> Option<Run>
    ensures { result ≡ run_of (entry r.now) }
{
    match r {
        Record::Mint {
            count,
            value,
            first,
            ..
        } => Some(Run {
            first: *first,
            count: *count,
            value: *value,
        }),
        _ => None,
    }
}

/// The piece that an entry hands out in the house's own series, whose terms these are, by the piece that it accepts.
pub(crate) fn handed(terms: &Terms, r: &Record<'_>, paid: &Option<Part>) -> Option<Part>
    requires { paid.now ≡ option_map part_of (accepted_piece (entry r.now)) }
    ensures { (h : History) → terms_in h 0 ≡ Some terms.now
        → result ≡ option_map part_of (handed_piece h (entry r.now)) }
{
    match r {
        Record::Accept { price, change, .. } => change_of(terms, paid, *price, *change),
        Record::Draw { target, drawn, .. } => drawn_by(terms, target, *drawn),
        _ => None,
    }
}

/// The end of a series of these terms, by an identity of it.
pub(crate) fn end_of(terms: &Terms, id: Id) -> u64
    ensures { result ≡ series_end terms.now (epoch_of id) }
{
    let (_, epoch, _) = id.parts();
    terms.series_end(epoch)
}

/// The change of a piece at a price.
fn change_of(terms: &Terms, paid: &Option<Part>, price: u64, change: Option<Id>) -> Option<Part>
    ensures { (h : History) (m : ℕ) (scrip target : List ℕ) (sign : Option (List ℕ)) (deed : Deed)
        → terms_in h 0 ≡ Some terms.now → paid.now ≡ option_map part_of (piece_of scrip)
        → result ≡ option_map part_of (handed_piece h (Accept m scrip target sign price change deed)) }
{
    match (change, *paid) {
        (Some(id), Some(paid)) => Some(Part {
            id,
            value: paid.value.saturating_sub(price),
            expires: end_of(terms, id),
        }),
        _ => None,
    }
}

/// What was drawn by a target.
fn drawn_by(terms: &Terms, target: &[u8], drawn: Id) -> Option<Part>
    ensures { (h : History) (m : ℕ) (sign : List ℕ) → terms_in h 0 ≡ Some terms.now
        → result ≡ option_map part_of (handed_piece h (Draw m target.now sign drawn)) }
{
    match read_errand(target) {
        Some(Errand::Draw { amount, .. }) => Some(Part {
            id: drawn,
            value: amount,
            expires: end_of(terms, drawn),
        }),
        _ => None,
    }
}
