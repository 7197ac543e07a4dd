//! What reads the entries of a site's book.

ghost use Rattle.std.specs.Prelude.{◌≡◌, ◌+◌, ◌≤◌, [], ◌∷◌, Some, IfOk};
ghost use Rattle.mc_requests.specs.Limits.{AreInRange};
ghost use Rattle.mc_records.specs.Chains.{TellsChain};
ghost use Rattle.mc_records.specs.Entry.{Fits, moment_of};
ghost use Rattle.mc_records.specs.Sizes.{size, entry_size};
ghost use Rattle.mc_records.specs.Views.{entry};
ghost use Rattle.ledger_model.specs.Histories.{History, time};
ghost use Rattle.ledger_model.specs.Houses.{site_kind};
ghost use Rattle.ledger_model.specs.Lawful.{MayFollow};
ghost use Rattle.house_state.specs.Founding.{FoundsHouse};
ghost use Rattle.house_core.specs.Bench.{Represents, Replays, house_time, limits_of};
ghost use Rattle.house_core.specs.Spent.{spent_in};

use crate::bench::Bench;
use crate::spent::SpentPiece;
use house_state::Trade;
use mc_base::NoMemory;
use mc_records::Record;
use mc_requests::Limits;
use scrip_journal::LearnFault;
use std::alloc::Global;
use std::marker::Model;

/// A house that is read, and never serves: it tells which entry may follow those before it. No reply is kept, since which
/// entries may follow does not depend on them ([`ledger_model::taking_needs_no_replies`]), and so it takes no request.
/// Contracts see it as the record `BenchView`.
#[derive(Drop)]
pub struct ReadingBench<T> {
    bench: Bench<T>,
}

impl<T> Model for ReadingBench<T> {
    ghost use Rattle.house_core.specs.BenchView.{BenchView};

    ghost Value = { BenchView T };

    ghost view = { λ b. b.bench };
}

impl<T: Trade> ReadingBench<T> {
    /// The house that a Site entry founds, with a trade that has learned nothing yet, as [`Bench::new`] makes it.
    pub fn new(
        alloc: Global,
        site: &Record<'_>,
        limits: Limits,
        trade: T,
    ) -> Result<ReadingBench<T>, NoMemory>
        requires limits { AreInRange limits }
        requires site { FoundsHouse (entry site.now) }
        requires first { MayFollow limits [] (entry site.now) }
        requires kind { site_kind (entry site.now ∷ []) ≡ Some (T.trade trade).site }
        requires trade { (T.trade trade).represents [] }
        ensures holds { IfOk result (λ b. Represents T.trade b (entry site.now ∷ [])) }
        ensures time { IfOk result (λ b. house_time b ≡ moment_of (entry site.now)) }
        ensures limits { IfOk result (λ b. limits_of b ≡ limits) }
        ensures keep { IfOk result (λ b. b.state.kept.keep ≡ 0) }
        ensures none { IfOk result (λ b. b.state.kept.replies ≡ []) }
    {
        let mut bench = Bench::new(alloc, site, limits, trade)?;
        bench.state.keep_none();
        Ok(ReadingBench { bench })
    }

    /// Learns the next entry of a history, as [`Bench::replay`] does. After an `Err` nothing is said of the house.
    pub fn replay(&mut self, r: &Record<'_>) -> Result<Option<SpentPiece>, LearnFault>
        requires fits { Fits (entry r.now) }
        ensures limits { limits_of self.new ≡ limits_of self.old }
        ensures exact { (h : History) → Represents T.trade self.old h → house_time self.old ≡ time h
            → TellsChain h (entry r.now)
            → size h + entry_size h (entry r.now) ≤ Limits.MOST_JOURNAL
            → Replays T.trade T.passes self.new (limits_of self.old) h (entry r.now) result }
        ensures spent { IfOk result (λ p. p ≡ spent_in (entry r.now)) }
    {
        self.bench.replay(r)
    }
}
