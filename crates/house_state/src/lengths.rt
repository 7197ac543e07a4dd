//! How long the payload of an Accept entry or of a Draw entry is, without writing it.

ghost use Rattle.std.specs.Prelude.{◌≡◌, ◌≤◌, ◌<◌, ℕ, List, length, IfSome};
ghost use Rattle.mc_fields.specs.Field.{spelled};
ghost use Rattle.mc_records.specs.Entry as entries;
ghost use Rattle.mc_records.specs.Entry.{IsKey, Accept, Draw, payload, sign_fields, change_fields, deed_fields};
ghost use Rattle.house_state.specs.Views.{entry_deed};

use kept_replies::Deed;
use scrip_form::{Id, ScripRef};

/// The length of the payload of the Accept entry of a piece, in bytes.
pub(crate) fn accept_len(
    scrip: &ScripRef<'_>,
    target: &[u8],
    sign: &Option<[u8; 16]>,
    change: &Option<Id>,
    deed: &Deed,
) -> u64
    requires { IfSome sign.now IsKey }
    ensures { (m price : ℕ)
        → result ≡ length (payload (Accept m scrip.now.text target.now sign.now price change.now (entry_deed deed.now))) }
{
    let texts = scrip.text().len() as u64 + target.len() as u64;
    21 + texts + sign_len(sign) + change_len(change) + deed_len(deed)
}

/// The length of the payload of the Draw entry of a target, in bytes.
pub(crate) fn draw_len(target: &[u8]) -> u64
    ensures { (m id : ℕ) (sign : List ℕ) → IsKey sign
        → result ≡ length (payload (Draw m target.now sign id)) }
{
    35 + target.len() as u64
}

fn sign_len(sign: &Option<[u8; 16]>) -> u64
    requires { IfSome sign.now IsKey }
    ensures len { result ≡ length (spelled (sign_fields sign.now)) }
    ensures short { result ≤ 17 }
{
    match sign {
        Some(_) => 17,
        None => 1,
    }
}

fn change_len(change: &Option<Id>) -> u64
    ensures len { result ≡ length (spelled (change_fields change.now)) }
    ensures short { result ≤ 9 }
{
    match change {
        Some(_) => 9,
        None => 1,
    }
}

fn deed_len(deed: &Deed) -> u64
    ensures len { result ≡ length (spelled (deed_fields (entry_deed deed.now))) }
    ensures short { result ≤ 10 }
{
    match deed {
        Deed::Goods { .. } => 1,
        Deed::Sale { .. } | Deed::Draw { .. } => 10,
        Deed::Credit { .. } => 9,
    }
}
