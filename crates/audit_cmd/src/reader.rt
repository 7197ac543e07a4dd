//! What reads the entries of one book.

ghost use Rattle.std.specs.Prelude.{◌≡◌, ◌+◌, ◌≤◌, [], ◌∷◌, option_map, IfOk};
ghost use Rattle.mc_records.specs.Chains.{TellsChain};
ghost use Rattle.mc_records.specs.Entry.{Entry, Fits};
ghost use Rattle.mc_records.specs.Sizes.{size, entry_size};
ghost use Rattle.mc_records.specs.Views.{entry};
ghost use Rattle.mc_requests.specs.declared.limits.TheConstants.Limits.{MOST_JOURNAL};
ghost use Rattle.ledger_model.specs.Histories.{History};
ghost use Rattle.ledger_model.specs.Lawful.{MayFollow};
ghost use Rattle.ledger_model.specs.Pieces.{accepted_piece};
ghost use Rattle.ledger_model.specs.declared.numbers.TheConstants.{BROKER_KIND};
ghost use Rattle.scrip_journal.specs.Causes.{FoundsSite, Only};
ghost use Rattle.book_opening.specs.Opener.{Learns};
ghost use Rattle.house_state.specs.Learning.{Passes};
ghost use Rattle.house_core.specs.Bench.{limits_of};
ghost use Rattle.house_core.specs.Spent.{spent_in};
ghost use Rattle.audit_model.specs.Parts as parts;
ghost use Rattle.audit_cmd.specs.Reading.{Reads};

use audit_model::Part;
use audit_sums::BookSums;
use house_core::{ReadingBench, SpentPiece};
use house_state::Trade;
use mc_base::NoMemory;
use mc_records::Record;
use mc_requests::Limits;
use scrip_journal::LearnFault;
use std::alloc::Global;

/// What reads the entries of one book: a bench with a trade of its kind tells which may follow, and sums keep of them what
/// an audit needs.
#[derive(Drop)]
pub(crate) struct Reader<T> {
    bench: ReadingBench<T>,
    sums: BookSums,
}

impl<T: Trade> Reader<T> {
    /// Begins with the first entry of a book of the trade's kind.
    pub(crate) fn begin(alloc: Global, first: &Record<'_>, trade: T) -> Result<Reader<T>, NoMemory>
        requires fits { Fits (entry first.now) }
        requires house { (T.trade trade).site ≤ BROKER_KIND }
        requires kind { FoundsSite (Only (T.trade trade).site) (entry first.now) }
        requires trade { (T.trade trade).represents [] }
        ensures limits { IfOk result (λ r. limits_of r.bench ≡ Limits.FULL) }
        ensures may { MayFollow Limits.FULL [] (entry first.now) }
        ensures holds { IfOk result (λ r. Reads T.trade r (entry first.now ∷ [])) }
    {
        let bench = ReadingBench::new(alloc, first, Limits::FULL, trade)?;
        Ok(Reader {
            bench,
            sums: BookSums::new(alloc, first),
        })
    }

    /// Learns the next entry. After an `Err` nothing is said of what reads.
    pub(crate) fn learn(&mut self, r: &Record<'_>) -> Result<(), LearnFault>
        requires fits { Fits (entry r.now) }
        requires passed { (h : History) → Passes T.passes h (entry r.now) }
        ensures limits { limits_of self.new.bench ≡ limits_of self.old.bench }
        ensures exact { (h : History) → limits_of self.old.bench ≡ Limits.FULL
            → Reads T.trade self.old h → TellsChain h (entry r.now) → size h + entry_size h (entry r.now) ≤ MOST_JOURNAL
            → Learns (MayFollow Limits.FULL) (λ u. Reads T.trade self.new) h (entry r.now) result }
    {
        let spent = match self.bench.replay(r) {
            Ok(spent) => spent,
            Err(fault) => return Err(fault),
        };
        match self.sums.learn(r, &part_of(spent)) {
            Ok(()) => Ok(()),
            Err(NoMemory) => Err(LearnFault::NoMemory),
        }
    }

    /// What was kept of the book.
    pub(crate) fn into_sums(self) -> BookSums
        ensures { result ≡ self.sums }
    {
        let Reader { bench: _, sums } = self;
        sums
    }
}

/// What sums keep of the piece that a house told.
fn part_of(spent: Option<SpentPiece>) -> Option<Part>
    ensures { (e : Entry) → spent ≡ spent_in e → result ≡ option_map parts.part_of (accepted_piece e) }
{
    match spent {
        Some(spent) => Some(Part {
            id: spent.id,
            value: spent.value,
            expires: spent.expires,
        }),
        None => None,
    }
}
