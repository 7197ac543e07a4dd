//! What a Site entry founds.

ghost use Rattle.std.specs.Prelude.{◌≡◌, ◌<◌, ◌^◌, [], length, IfOk};
ghost use Rattle.mc_records.specs.Entry.{payload};
ghost use Rattle.mc_requests.specs.Limits.{AreInRange};
ghost use Rattle.mc_records.specs.Views.{entry};
ghost use Rattle.ledger_model.specs.Lawful.{MayFollow};
ghost use Rattle.house_state.specs.Founding.{IsStateOf, FoundsHouse};

use crate::house_state::HouseState;
use mc_base::NoMemory;
use mc_records::{PieceList, Record};
use mc_requests::Limits;
use scrip_form::Name;
use std::alloc::Global;

/// The state of the house that a Site entry founds, by an entry of so many bytes of payload.
pub fn found_state(
    alloc: Global,
    site: &Record<'_>,
    limits: Limits,
    bytes: u64,
) -> Result<HouseState, NoMemory>
    requires limits { AreInRange limits }
    requires site { FoundsHouse (entry site.now) }
    requires first { MayFollow limits [] (entry site.now) }
    requires len { bytes ≡ length (payload (entry site.now)) }
    requires short { bytes < 2 ^ 32 }
    ensures { IfOk result (λ b. IsStateOf b limits (entry site.now)) }
{
    let _parts: Option<PieceList<'_>> = None;
    match site {
        Record::Site {
            moment,
            name,
            house: Some(house),
            ..
        } => {
            let name = Name::new(name).unwrap();
            HouseState::found(alloc, *moment, name, house, limits, bytes)
        }
        _ => unreachable!(),
    }
}
