//! Pieces, as sums and strangers ask of them.

ghost use Rattle.std.specs.Prelude.{◌≡◌, ◌<◌, ◌++◌, ◌==◌, ◌&&◌, option_map, option_to_list, length, slice_get, IfOk, IfSome};
ghost use Rattle.std.specs.List.{list_any};
ghost use Rattle.ledger_model.specs.Pieces.{accepted_piece};
ghost use Rattle.audit_model.specs.Parts.{part_of};

use audit_model::Part;
use mc_base::NoMemory;
use mc_records::Record;
use slow_ledger::Prefix;

/// The piece that the entry of a number accepts.
pub(crate) fn accepted_at(h: &Prefix<'_>, n: usize) -> Option<Part>
    requires { n < length h.now }
    ensures { IfSome (slice_get h.now n) (λ e. result ≡ option_map part_of (accepted_piece e)) }
{
    match h.record(n) {
        Record::Accept { scrip, .. } => Part::read(scrip),
        _ => None,
    }
}

/// Some pieces, and behind them one more where there is one.
pub(crate) fn with(mut parts: Vec<Part>, part: Option<Part>) -> Result<Vec<Part>, NoMemory>
    ensures { IfOk result (λ all. all.items ≡ parts.items ++ option_to_list part) }
{
    match part {
        Some(part) => parts.push(part)?,
        None => (),
    }
    Ok(parts)
}

/// Whether a piece stands among others, with its identity and its value.
pub(crate) fn is_among(parts: &[Part], part: &Part) -> bool
    ensures { result ≡ list_any (λ q. (q.id == part.now.id) && (q.value == part.now.value)) parts.now }
{
    parts
        .iter()
        .any(|other| other.id == part.id && other.value == part.value)
}
