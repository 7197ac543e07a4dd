//! Readers of the fields of each kind of entry, behind its kind and its moment.

ghost use Rattle.mc_fields.specs.Form.{run};
ghost use Rattle.mc_fields.specs.Gives.{Gives};
ghost use Rattle.mc_records.specs.Forms.{site_form, add_terms_form, goods_form, accept_form, mint_form, account_form, deposit_form, withdraw_form, draw_form, licence_form, pend_form, done_form, refused_form, upgrade_form, switch_form, note_form};
ghost use Rattle.mc_records.specs.Views.{entry};

use crate::parts::{chain, change, deed, got, house, name, scrip, sign, target, terms, text};
use crate::ranges::{MOST_CONTENTS, MOST_EPOCH, MOST_PIECES};
use crate::record::Record;
use mc_base::{Amount, Moment};
use mc_fields::{Stuck, read_key, read_plain, read_u8, read_u16, read_u32, read_u64};
use scrip_form::Id;

#[tactic(auto, unfolding(crate::specs::Forms::site_form), using(mc_fields::proofs::FormLaws::behind))]
pub(crate) fn read_site(moment: Moment, bytes: &[u8]) -> Result<(Record<'_>, &[u8]), Stuck>
    ensures { Gives (λ x. (entry x.0, x.1.now)) result (run (site_form moment) bytes.now) }
{
    let (kind, rest) = read_u8(bytes, 0, 2)?;
    let (name, rest) = name(rest)?;
    let (house, rest) = match house(kind, rest) {
        Ok(found) => found,
        Err(stuck) => return Err(stuck),
    };
    let record = Record::Site {
        moment,
        kind,
        name,
        house,
    };
    Ok((record, rest))
}

#[tactic(auto, unfolding(crate::specs::Forms::add_terms_form), using(mc_fields::proofs::FormLaws::behind))]
pub(crate) fn read_add_terms(moment: Moment, bytes: &[u8]) -> Result<(Record<'_>, &[u8]), Stuck>
    ensures { Gives (λ x. (entry x.0, x.1.now)) result (run (add_terms_form moment) bytes.now) }
{
    match terms(1, 255, bytes) {
        Ok((terms, rest)) => Ok((Record::Terms { moment, terms }, rest)),
        Err(stuck) => Err(stuck),
    }
}

#[tactic(auto, unfolding(crate::specs::Forms::goods_form))]
pub(crate) fn read_goods(moment: Moment, bytes: &[u8]) -> Result<(Record<'_>, &[u8]), Stuck>
    ensures { Gives (λ x. (entry x.0, x.1.now)) result (run (goods_form moment) bytes.now) }
{
    let (target, rest) = target(bytes)?;
    let (price, rest) = read_u64(rest, 1, Amount::MOST)?;
    let (kind, rest) = read_u8(rest, 0, 2)?;
    let (len, rest) = read_u32(rest, 0, MOST_CONTENTS as u32)?;
    let (contents, rest) = read_plain(rest, len as usize)?;
    let record = Record::Goods {
        moment,
        target,
        price,
        kind,
        contents,
    };
    Ok((record, rest))
}

#[tactic(auto, unfolding(crate::specs::Forms::accept_form), using(mc_fields::proofs::FormLaws::behind))]
pub(crate) fn read_accept(moment: Moment, bytes: &[u8]) -> Result<(Record<'_>, &[u8]), Stuck>
    ensures { Gives (λ x. (entry x.0, x.1.now)) result (run (accept_form moment) bytes.now) }
{
    let (scrip, rest) = scrip(bytes)?;
    let (target, rest) = target(rest)?;
    let (sign, rest) = sign(rest)?;
    let (price, rest) = read_u64(rest, 0, u64::MAX)?;
    let (change, rest) = match change(rest) {
        Ok(found) => found,
        Err(stuck) => return Err(stuck),
    };
    let (deed, rest) = match deed(rest) {
        Ok(found) => found,
        Err(stuck) => return Err(stuck),
    };
    let record = Record::Accept {
        moment,
        scrip,
        target,
        sign,
        price,
        change,
        deed,
    };
    Ok((record, rest))
}

#[tactic(auto, unfolding(crate::specs::Forms::mint_form))]
pub(crate) fn read_mint(moment: Moment, bytes: &[u8]) -> Result<(Record<'_>, &[u8]), Stuck>
    ensures { Gives (λ x. (entry x.0, x.1.now)) result (run (mint_form moment) bytes.now) }
{
    let (reference, rest) = name(bytes)?;
    let (count, rest) = read_u16(rest, 1, MOST_PIECES)?;
    let (value, rest) = read_u64(rest, 1, Amount::MOST)?;
    let (first, rest) = read_u64(rest, 0, u64::MAX)?;
    let first = Id::of_number(first);
    let record = Record::Mint {
        moment,
        reference,
        count,
        value,
        first,
    };
    Ok((record, rest))
}

#[tactic(auto, unfolding(crate::specs::Forms::account_form))]
pub(crate) fn read_account(moment: Moment, bytes: &[u8]) -> Result<(Record<'_>, &[u8]), Stuck>
    ensures { Gives (λ x. (entry x.0, x.1.now)) result (run (account_form moment) bytes.now) }
{
    let (name, rest) = name(bytes)?;
    let (key, rest) = read_key(rest)?;
    Ok((Record::Account { moment, name, key }, rest))
}

#[tactic(auto, unfolding(crate::specs::Forms::deposit_form))]
pub(crate) fn read_deposit(moment: Moment, bytes: &[u8]) -> Result<(Record<'_>, &[u8]), Stuck>
    ensures { Gives (λ x. (entry x.0, x.1.now)) result (run (deposit_form moment) bytes.now) }
{
    let (account, rest) = name(bytes)?;
    let (amount, rest) = read_u64(rest, 1, Amount::MOST)?;
    let (reference, rest) = name(rest)?;
    let record = Record::Deposit {
        moment,
        name: account,
        amount,
        reference,
    };
    Ok((record, rest))
}

#[tactic(auto, unfolding(crate::specs::Forms::withdraw_form))]
pub(crate) fn read_withdraw(moment: Moment, bytes: &[u8]) -> Result<(Record<'_>, &[u8]), Stuck>
    ensures { Gives (λ x. (entry x.0, x.1.now)) result (run (withdraw_form moment) bytes.now) }
{
    let (account, rest) = name(bytes)?;
    let (amount, rest) = read_u64(rest, 1, Amount::MOST)?;
    let (reference, rest) = name(rest)?;
    let record = Record::Withdraw {
        moment,
        name: account,
        amount,
        reference,
    };
    Ok((record, rest))
}

#[tactic(auto, unfolding(crate::specs::Forms::draw_form))]
pub(crate) fn read_draw(moment: Moment, bytes: &[u8]) -> Result<(Record<'_>, &[u8]), Stuck>
    ensures { Gives (λ x. (entry x.0, x.1.now)) result (run (draw_form moment) bytes.now) }
{
    let (target, rest) = target(bytes)?;
    let (sign, rest) = read_key(rest)?;
    let (drawn, rest) = read_u64(rest, 0, u64::MAX)?;
    let drawn = Id::of_number(drawn);
    let record = Record::Draw {
        moment,
        target,
        sign,
        drawn,
    };
    Ok((record, rest))
}

#[tactic(auto, unfolding(crate::specs::Forms::licence_form), using(mc_fields::proofs::FormLaws::behind))]
pub(crate) fn read_licence(moment: Moment, bytes: &[u8]) -> Result<(Record<'_>, &[u8]), Stuck>
    ensures { Gives (λ x. (entry x.0, x.1.now)) result (run (licence_form moment) bytes.now) }
{
    let (vendor, rest) = name(bytes)?;
    let (terms, rest) = match terms(1, 255, rest) {
        Ok(found) => found,
        Err(stuck) => return Err(stuck),
    };
    let record = Record::Licence {
        moment,
        vendor,
        terms,
    };
    Ok((record, rest))
}

#[tactic(auto, unfolding(crate::specs::Forms::pend_form), using(mc_fields::proofs::FormLaws::behind))]
pub(crate) fn read_pend(moment: Moment, bytes: &[u8]) -> Result<(Record<'_>, &[u8]), Stuck>
    ensures { Gives (λ x. (entry x.0, x.1.now)) result (run (pend_form moment) bytes.now) }
{
    let (ask, rest) = read_u8(bytes, 0, 2)?;
    let (peer, rest) = name(rest)?;
    let (target, rest) = target(rest)?;
    let (scrip, rest) = text(rest)?;
    let (secret, rest) = read_key(rest)?;
    let record = Record::Pend {
        moment,
        ask,
        peer,
        target,
        scrip,
        secret,
    };
    Ok((record, rest))
}

#[tactic(auto, unfolding(crate::specs::Forms::done_form), using(mc_fields::proofs::FormLaws::behind))]
pub(crate) fn read_done(moment: Moment, bytes: &[u8]) -> Result<(Record<'_>, &[u8]), Stuck>
    ensures { Gives (λ x. (entry x.0, x.1.now)) result (run (done_form moment) bytes.now) }
{
    let (number, rest) = read_u64(bytes, 0, u64::MAX)?;
    let (price, rest) = read_u64(rest, 0, u64::MAX)?;
    let (change, rest) = text(rest)?;
    let (got, rest) = got(rest)?;
    let record = Record::Done {
        moment,
        number,
        price,
        change,
        got,
    };
    Ok((record, rest))
}

#[tactic(auto, unfolding(crate::specs::Forms::refused_form))]
pub(crate) fn read_refused(moment: Moment, bytes: &[u8]) -> Result<(Record<'_>, &[u8]), Stuck>
    ensures { Gives (λ x. (entry x.0, x.1.now)) result (run (refused_form moment) bytes.now) }
{
    let (number, rest) = read_u64(bytes, 0, u64::MAX)?;
    let (refusal, rest) = read_u16(rest, 0, u16::MAX)?;
    let record = Record::Refused {
        moment,
        number,
        refusal,
    };
    Ok((record, rest))
}

#[tactic(auto, unfolding(crate::specs::Forms::upgrade_form))]
pub(crate) fn read_upgrade(moment: Moment, bytes: &[u8]) -> Result<(Record<'_>, &[u8]), Stuck>
    ensures { Gives (λ x. (entry x.0, x.1.now)) result (run (upgrade_form moment) bytes.now) }
{
    let (vendor, rest) = name(bytes)?;
    let (issuer, rest) = read_u8(rest, 0, u8::MAX)?;
    let (from, rest) = read_u32(rest, 0, MOST_EPOCH)?;
    let record = Record::Upgrade {
        moment,
        vendor,
        issuer,
        from,
    };
    Ok((record, rest))
}

#[tactic(auto, unfolding(crate::specs::Forms::switch_form))]
pub(crate) fn read_switch(moment: Moment, bytes: &[u8]) -> Result<(Record<'_>, &[u8]), Stuck>
    ensures { Gives (λ x. (entry x.0, x.1.now)) result (run (switch_form moment) bytes.now) }
{
    let (chain, rest) = chain(bytes)?;
    Ok((Record::Switch { moment, chain }, rest))
}

#[tactic(auto, unfolding(crate::specs::Forms::note_form))]
pub(crate) fn read_note(moment: Moment, bytes: &[u8]) -> Result<(Record<'_>, &[u8]), Stuck>
    ensures { Gives (λ x. (entry x.0, x.1.now)) result (run (note_form moment) bytes.now) }
{
    let (tag, rest) = name(bytes)?;
    let (len, rest) = read_u32(rest, 0, MOST_CONTENTS as u32)?;
    let (bytes, rest) = read_plain(rest, len as usize)?;
    Ok((Record::Note { moment, tag, bytes }, rest))
}
