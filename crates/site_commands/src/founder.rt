ghost use Rattle.std.specs.Prelude.{◌≡◌};
ghost use Rattle.mc_records.specs.Entry.{Fits};
ghost use Rattle.mc_records.specs.Views.{entry};
ghost use Rattle.ledger_model.specs.Houses.{IsHouseKind};
ghost use Rattle.house_state.specs.Views.{kind_number};
ghost use Rattle.house_state.specs.declared.offer.SiteKind.TheVariants.{Vendor};
ghost use Rattle.site_commands.specs.Founding.{site_of};

use house_state::SiteKind;
use mc_base::Moment;
use mc_records::{PieceList, Record, RecordTerms, SiteTerms};
use site_words::Founder;

/// The first entry of the book that is founded, as a house of this kind.
pub(crate) fn site<'a>(founder: &'a Founder, kind: SiteKind, moment: Moment) -> Record<'a>
    requires house { IsHouseKind (kind_number kind) }
    requires fee { kind_number kind ≡ kind_number Vendor → founder.now.fee ≡ 0 }
    ensures site { entry result ≡ site_of (kind_number kind) founder.now moment }
    ensures fits { Fits (site_of (kind_number kind) founder.now moment) }
{
    let _parts: Option<PieceList<'_>> = None;
    Record::Site {
        moment,
        kind: kind.number(),
        name: founder.name().bytes(),
        house: Some(SiteTerms {
            keep: founder.keep(),
            fee: founder.fee().get(),
            clear: founder.clear(),
            terms: RecordTerms::of(founder.terms()),
        }),
    }
}
