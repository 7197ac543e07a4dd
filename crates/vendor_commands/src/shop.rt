ghost use Rattle.std.specs.Prelude.{◌≡◌, ◌≤◌, ◌++◌, ◌∷◌, [], IfOk, OnOk};
ghost use Rattle.mc_records.specs.Chains.{TellsChain};
ghost use Rattle.mc_records.specs.Entry.{Fits, moment_of};
ghost use Rattle.mc_records.specs.Views.{entry};
ghost use Rattle.house_state.specs.CommandEntries.{IsCommand};
ghost use Rattle.ledger_model.specs.Histories.{History};
ghost use Rattle.vendor_commands.specs.Opening.{terms_of, founding, opening, IsOpen, ComesNext};

use house_core::{Bench, EnterFault};
use mc_base::{Moment, NoMemory};
use mc_records::{PieceList, Record, RecordTerms, SiteTerms};
use mc_requests::Limits;
use scrip_form::{Secrets, Terms};
use site_words::Shop;
use std::alloc::Global;
use vendor_core::Shelf;

/// The period of the shop's series, in seconds.
const PERIOD: u32 = 4096;

/// How long a series stays good after its period, in seconds.
const LIFE: u32 = 8192;

/// How long a request gets its first reply again, in seconds.
const KEEP: u32 = 600;

/// The kind of the contents that are sold: bytes of no type of their own.
const KIND: u8 = 0;

/// Opens a shop for scrip of its own issuer 0 and of issuer 1: a house with its terms and its goods, at the
/// moment 0.
pub(crate) fn open_shop(alloc: Global, shop: &Shop<'_>) -> Result<Bench<Shelf>, NoMemory>
    ensures { IfOk result (λ b. IsOpen b (opening shop.now)) }
{
    let _parts: Option<(PieceList<'_>, SiteTerms<'_>)> = None;
    let goods = Record::Goods {
        moment: start(),
        target: shop.target().bytes(),
        price: shop.price().get(),
        kind: KIND,
        contents: shop.contents(),
    };
    let terms = terms_of(shop, 1);
    let licence = Record::Terms {
        moment: start(),
        terms: RecordTerms::of(&terms),
    };
    let bench = entered(found_shop(alloc, shop)?, &licence)?;
    entered(bench, &goods)
}

/// The house that the shop is founded as.
fn found_shop(alloc: Global, shop: &Shop<'_>) -> Result<Bench<Shelf>, NoMemory>
    ensures { IfOk result (λ b. IsOpen b (founding shop.now ∷ [])) }
{
    let _parts: Option<(PieceList<'_>, SiteTerms<'_>)> = None;
    let terms = terms_of(shop, 0);
    let site = shop_site(shop, &terms);
    Bench::new(alloc, &site, Limits::FULL, Shelf::new(alloc))
}

/// The entry that founds the shop, with its terms.
fn shop_site<'a>(shop: &'a Shop<'_>, terms: &'a Terms) -> Record<'a>
    requires { terms.now ≡ terms_of shop.now 0 }
    ensures entry { entry result ≡ founding shop.now }
    ensures fits { Fits (founding shop.now) }
{
    Record::Site {
        moment: start(),
        kind: 0,
        name: shop.name().bytes(),
        house: Some(SiteTerms {
            keep: KEEP,
            fee: 0,
            clear: true,
            terms: RecordTerms::of(terms),
        }),
    }
}

/// The terms of an issuer.
fn terms_of(shop: &Shop<'_>, issuer: u8) -> Terms
    requires { issuer ≤ 1 }
    ensures { result ≡ terms_of shop.now issuer }
{
    let secrets = Secrets::new(&[*shop.secret()]).unwrap();
    Terms::new(issuer, PERIOD, LIFE, secrets, secrets).unwrap()
}

/// The house with one entry more, which may follow and fits, so that only memory can be refused.
pub(crate) fn entered(mut bench: Bench<Shelf>, r: &Record<'_>) -> Result<Bench<Shelf>, NoMemory>
    requires fits { Fits (entry r.now) }
    requires command { IsCommand (entry r.now) }
    requires told { (h : History) → TellsChain h (entry r.now) }
    requires time { moment_of (entry r.now) ≡ 0 }
    requires may { (h : History) × IsOpen bench h × ComesNext h (entry r.now) }
    ensures { IfOk result (λ b. (h : History) → IsOpen bench h → IsOpen b (h ++ entry r.now ∷ [])) }
{
    match enter(&mut bench, r) {
        Ok(()) => Ok(bench),
        Err(NoMemory) => Err(NoMemory),
    }
}

/// Enters such an entry.
fn enter(bench: &mut Bench<Shelf>, r: &Record<'_>) -> Result<(), NoMemory>
    requires fits { Fits (entry r.now) }
    requires command { IsCommand (entry r.now) }
    requires told { (h : History) → TellsChain h (entry r.now) }
    requires time { moment_of (entry r.now) ≡ 0 }
    requires may { (h : History) × IsOpen bench.old h × ComesNext h (entry r.now) }
    ensures { OnOk result ((h : History) → IsOpen bench.old h
        → IsOpen bench.new (h ++ entry r.now ∷ [])) }
{
    match bench.enter(r) {
        Ok(_) => Ok(()),
        Err(EnterFault::NoMemory) => Err(NoMemory),
        Err(EnterFault::Unlawful) => unreachable!(),
        Err(EnterFault::Refused(_)) => unreachable!(),
    }
}

/// The moment 0, at which a house in memory opens.
pub(crate) fn start() -> Moment
    ensures { result ≡ 0 }
{
    Moment::clamped(0)
}
