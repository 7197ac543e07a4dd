//! Payloads to entries.

ghost use Rattle.std.specs.Prelude.{◌≡◌, IfOk, IfErr, Ok};
ghost use Rattle.mc_fields.specs.Form.{run};
ghost use Rattle.mc_fields.specs.Stops.{StopsAt};
ghost use Rattle.mc_fields.specs.Gives.{Gives};
ghost use Rattle.mc_records.specs.Entry.{Entry, Fits, payload};
ghost use Rattle.mc_records.specs.Forms.{kind_form, entry_form, entry_of};
ghost use Rattle.mc_records.specs.Views.{entry, GivesEntry};

use crate::kinds::{
    read_accept, read_account, read_add_terms, read_deposit, read_done, read_draw, read_goods,
    read_licence, read_mint, read_note, read_pend, read_refused, read_site, read_switch,
    read_upgrade, read_withdraw,
};
use crate::piece_lists::{read_got_pieces, read_stock};
use crate::record::{Record, RecordFault};
use mc_base::Moment;
use mc_fields::{Stuck, read_u8, read_u64};

/// The entry that is spelled by the bytes, all of them; Ok exactly where they are one payload whole.
pub fn read_record(bytes: &[u8]) -> Result<Record<'_>, RecordFault>
    // What is read is spelled so.
    ensures found { IfOk result (λ r. Fits (entry r) × (bytes.now ≡ payload (entry r))) }
    // What is spelled so is read.
    ensures only { (e : Entry) → Fits e → bytes.now ≡ payload e → GivesEntry result (Ok e) }
    // Before the place of a fault stand whole fields, and there none that may stand there.
    ensures place { IfErr result (λ f. StopsAt entry_form bytes.now f.place) }
    // All of it as one function of the bytes.
    ensures exact { GivesEntry result (entry_of bytes.now) }
{
    whole_record(bytes)
}

fn whole_record(bytes: &[u8]) -> Result<Record<'_>, RecordFault>
    ensures { GivesEntry result (entry_of bytes.now) }
{
    let (record, rest) = match any_kind(bytes) {
        Ok(found) => found,
        Err(stuck) => return Err(RecordFault {
            place: bytes.len().saturating_sub(stuck.left),
        }),
    };
    if !rest.is_empty() {
        return Err(RecordFault {
            place: bytes.len().saturating_sub(rest.len()),
        });
    }
    Ok(record)
}

/// An entry from the front of the bytes.
#[tactic(auto, unfolding(crate::specs::Forms::entry_form))]
fn any_kind(bytes: &[u8]) -> Result<(Record<'_>, &[u8]), Stuck>
    ensures { Gives (λ x. (entry x.0, x.1.now)) result (run entry_form bytes.now) }
{
    let (kind, rest) = read_u8(bytes, 1, 18)?;
    let (seconds, after) = read_u64(rest, 0, Moment::LAST)?;
    let Some(moment) = Moment::new(seconds) else {
        return Err(Stuck { left: rest.len() });
    };
    of_kind(kind, moment, after)
}

/// The fields of an entry of this kind.
#[tactic(auto, unfolding(crate::specs::Forms::kind_form))]
fn of_kind(kind: u8, moment: Moment, bytes: &[u8]) -> Result<(Record<'_>, &[u8]), Stuck>
    ensures { Gives (λ x. (entry x.0, x.1.now)) result (run (kind_form kind moment) bytes.now) }
{
    match kind {
        1 => read_site(moment, bytes),
        2 => read_add_terms(moment, bytes),
        3 => read_goods(moment, bytes),
        4 => read_accept(moment, bytes),
        5 => read_mint(moment, bytes),
        6 => read_account(moment, bytes),
        7 => read_deposit(moment, bytes),
        8 => read_withdraw(moment, bytes),
        9 => read_draw(moment, bytes),
        10 => read_licence(moment, bytes),
        11 => read_stock(moment, bytes),
        12 => read_got_pieces(moment, bytes),
        13 => read_pend(moment, bytes),
        14 => read_done(moment, bytes),
        15 => read_refused(moment, bytes),
        16 => read_upgrade(moment, bytes),
        17 => read_switch(moment, bytes),
        _ => read_note(moment, bytes),
    }
}
