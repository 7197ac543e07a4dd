//! A play: a house in memory answers heads that are made for it, and what it counted is said.

ghost use Rattle.std.specs.Prelude.{◌≡◌, [], ◌∷◌, IfOk};
ghost use Rattle.vendor_commands.specs.Opening.{IsOpen};
ghost use Rattle.vendor_commands.specs.Play.{ArePlayLines, house_terms, play_founding, play_opening};

use crate::lines::play_lines;
use crate::shop::{entered, start};
use house_core::Bench;
use house_serving::serve_bench;
use mc_base::{List, NoMemory};
use mc_records::{PieceList, Record, RecordTerms, SiteTerms};
use mc_requests::Limits;
use play_heads::{Heads, heads_told_are_of_their_play, play_terms};
use scrip_form::{Secrets, Terms};
use std::alloc::Global;
use vendor_core::Shelf;

/// How many heads a link has.
const LINK_HEADS: u32 = 1000;

/// The period of the house's series, in seconds. They have no life behind it.
const PERIOD: u32 = 2048;

/// How long a request gets its first reply again, in seconds.
const KEEP: u32 = 60;

/// Answers so many heads of a play over links in memory, and answers the lines that are said of it. An `Err`
/// is want of memory, before the first head, for one of the requests, or for the lines.
pub fn answer_play(alloc: Global, count: u32) -> Result<List<u8>, NoMemory>
    ensures { IfOk result (ArePlayLines count) }
{
    let mut bench = open_play(alloc)?;
    answer_heads(alloc, &mut bench, count)
}

/// The same, in the house that was opened for it.
fn answer_heads(alloc: Global, bench: &mut Bench<Shelf>, count: u32) -> Result<List<u8>, NoMemory>
    requires { IsOpen bench.old play_opening }
    ensures { IfOk result (ArePlayLines count) }
{
    heads_told_are_of_their_play();
    let mut heads = Heads::new(count);
    let Ok(_links) = serve_bench(bench, &mut heads, count.div_ceil(LINK_HEADS)) else {
        return Err(NoMemory);
    };
    let tally = bench.tally();
    // No head ends its link, so all are received.
    if tally.memory != 0 || !heads.is_done() {
        return Err(NoMemory);
    }
    let lines = play_lines(alloc, count, &tally, bench.windows())?;
    Ok(List::of(lines))
}

/// Opens the house of a play, which sells one thing for scrip of its own issuer 0 and of issuer 1, at the
/// moment 0.
fn open_play(alloc: Global) -> Result<Bench<Shelf>, NoMemory>
    ensures { IfOk result (λ b. IsOpen b play_opening) }
{
    let _parts: Option<(PieceList<'_>, SiteTerms<'_>)> = None;
    let terms = play_terms();
    let licence = Record::Terms {
        moment: start(),
        terms: RecordTerms::of(&terms),
    };
    let goods = Record::Goods {
        moment: start(),
        target: b"/p",
        price: 25,
        kind: 0,
        contents: b"ok",
    };
    let bench = entered(found_play(alloc)?, &licence)?;
    entered(bench, &goods)
}

/// The house as it is founded.
fn found_play(alloc: Global) -> Result<Bench<Shelf>, NoMemory>
    ensures { IfOk result (λ b. IsOpen b (play_founding ∷ [])) }
{
    let _parts: Option<PieceList<'_>> = None;
    let terms = house_terms();
    let site = Record::Site {
        moment: start(),
        kind: 0,
        name: b"play.example",
        house: Some(SiteTerms {
            keep: KEEP,
            fee: 0,
            clear: true,
            terms: RecordTerms::of(&terms),
        }),
    };
    Bench::new(alloc, &site, Limits::FULL, Shelf::new(alloc))
}

/// The terms of the house itself.
fn house_terms() -> Terms
    ensures { result ≡ house_terms }
{
    let scrip = Secrets::new(&[[1; 16]]).unwrap();
    let customer = Secrets::new(&[[2; 16]]).unwrap();
    Terms::new(0, PERIOD, 0, scrip, customer).unwrap()
}
