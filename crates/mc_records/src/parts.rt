//! Readers of the parts of entries, from the front of the bytes.

ghost use Rattle.std.specs.Prelude.{◌≡◌, Some, IfOk, length, option_map};
ghost use Rattle.scrip_form.specs.Texts.{is_name, is_target};
ghost use Rattle.scrip_form.specs.Reading.{is_scrip};
ghost use Rattle.mc_fields.specs.Form.{run, repeated, plain, done, plain_at, str_at};
ghost use Rattle.mc_fields.specs.Gives.{Gives};
ghost use Rattle.mc_requests.specs.Requests.{seen};
ghost use Rattle.mc_records.specs.Forms.{secrets_form, terms_form, house_with, house_form, sign_form, change_form, deed_form, held_form, text_form, got_form};
ghost use Rattle.mc_records.specs.TermsRanges.{AreSome};
ghost use Rattle.mc_records.specs.TermsViews.{issuing_of};
ghost use Rattle.mc_records.specs.Views.{deed_of, house_of, held_of};

use crate::ranges::{CHAIN_BYTES, LEAST_KEEP, MOST_KEEP};
use crate::record::{RecordDeed, SiteTerms};
use crate::terms::RecordTerms;
use mc_base::Amount;
use mc_fields::{Stuck, read_counted, read_flag, read_key, read_str, read_u8, read_u32, read_u64};
use scrip_form::{Id, NameRule, TargetRule, Terms, is_scrip};

pub(crate) fn name(bytes: &[u8]) -> Result<(&[u8], &[u8]), Stuck>
    ensures { Gives (λ x. (x.0.now, x.1.now)) result (str_at is_name bytes.now) }
{
    read_str::<NameRule>(bytes)
}

pub(crate) fn target(bytes: &[u8]) -> Result<(&[u8], &[u8]), Stuck>
    ensures { Gives (λ x. (x.0.now, x.1.now)) result (str_at is_target bytes.now) }
{
    read_str::<TargetRule>(bytes)
}

#[tactic(auto, unfolding(mc_fields::specs::Form::str_at))]
pub(crate) fn scrip(bytes: &[u8]) -> Result<(&[u8], &[u8]), Stuck>
    ensures { Gives (λ x. (x.0.now, x.1.now)) result (str_at is_scrip bytes.now) }
{
    let (text, rest) = read_counted(bytes)?;
    if !is_scrip(text) {
        return Err(Stuck { left: bytes.len() });
    }
    Ok((text, rest))
}

/// A chain of 32 bytes.
pub(crate) fn chain(bytes: &[u8]) -> Result<([u8; 32], &[u8]), Stuck>
    ensures { Gives (λ x. (x.0, x.1.now)) result (plain_at CHAIN_BYTES bytes.now) }
{
    if bytes.len() < CHAIN_BYTES {
        return Err(Stuck { left: bytes.len() });
    }
    let (front, rest) = bytes.split_at(CHAIN_BYTES);
    let mut chain = [0; CHAIN_BYTES];
    chain.copy_from_slice(front);
    Ok((chain, rest))
}

/// A scrip text that may be there.
#[tactic(auto, unfolding(crate::specs::Forms::text_form))]
pub(crate) fn text(bytes: &[u8]) -> Result<(Option<&[u8]>, &[u8]), Stuck>
    ensures { Gives (λ x. (seen x.0, x.1.now)) result (run text_form bytes.now) }
{
    let (is_there, rest) = read_flag(bytes)?;
    if !is_there {
        return Ok((None, rest));
    }
    let (text, rest) = scrip(rest)?;
    Ok((Some(text), rest))
}

/// A scrip text with its secret.
#[tactic(auto, unfolding(crate::specs::Forms::held_form))]
pub(crate) fn held(bytes: &[u8]) -> Result<((&[u8], [u8; 16]), &[u8]), Stuck>
    ensures { Gives (λ x. (held_of x.0, x.1.now)) result (run held_form bytes.now) }
{
    let (text, rest) = scrip(bytes)?;
    let (secret, rest) = read_key(rest)?;
    Ok(((text, secret), rest))
}

/// A scrip text with its secret that may be there.
#[tactic(auto, unfolding(crate::specs::Forms::got_form), using(mc_fields::proofs::FormLaws::behind))]
pub(crate) fn got(bytes: &[u8]) -> Result<(Option<(&[u8], [u8; 16])>, &[u8]), Stuck>
    ensures { Gives (λ x. (option_map held_of x.0, x.1.now)) result (run got_form bytes.now) }
{
    let (is_there, rest) = read_flag(bytes)?;
    if !is_there {
        return Ok((None, rest));
    }
    let (piece, rest) = held(rest)?;
    Ok((Some(piece), rest))
}

/// A signature that may be there.
#[tactic(auto, unfolding(crate::specs::Forms::sign_form))]
pub(crate) fn sign(bytes: &[u8]) -> Result<(Option<[u8; 16]>, &[u8]), Stuck>
    ensures { Gives (λ x. (x.0, x.1.now)) result (run sign_form bytes.now) }
{
    let (is_there, rest) = read_flag(bytes)?;
    if !is_there {
        return Ok((None, rest));
    }
    let (sign, rest) = read_key(rest)?;
    Ok((Some(sign), rest))
}

/// The identity of change that may be there.
#[tactic(auto, unfolding(crate::specs::Forms::change_form))]
pub(crate) fn change(bytes: &[u8]) -> Result<(Option<Id>, &[u8]), Stuck>
    ensures { Gives (λ x. (x.0, x.1.now)) result (run change_form bytes.now) }
{
    let (is_there, rest) = read_flag(bytes)?;
    if !is_there {
        return Ok((None, rest));
    }
    let (id, rest) = read_u64(rest, 0, u64::MAX)?;
    Ok((Some(Id::of_number(id)), rest))
}

/// What was sold.
#[tactic(auto, unfolding(crate::specs::Forms::deed_form))]
pub(crate) fn deed(bytes: &[u8]) -> Result<(RecordDeed, &[u8]), Stuck>
    ensures { Gives (λ x. (deed_of x.0, x.1.now)) result (run deed_form bytes.now) }
{
    let (kind, rest) = read_u8(bytes, 0, 2)?;
    match kind {
        0 => Ok((RecordDeed::Goods, rest)),
        1 => {
            let (stock, rest) = read_flag(rest)?;
            let (id, rest) = read_u64(rest, 0, u64::MAX)?;
            let id = Id::of_number(id);
            Ok((RecordDeed::Sale { stock, id }, rest))
        }
        _ => {
            let (balance, rest) = read_u64(rest, 0, u64::MAX)?;
            Ok((RecordDeed::Credit { balance }, rest))
        }
    }
}

/// So many secrets.
fn secrets_list(count: u8, bytes: &[u8]) -> Result<(&[[u8; 16]], &[u8]), Stuck>
    ensures read { Gives (λ x. (x.0.now, x.1.now)) result (run (repeated count (plain 16 done)) bytes.now) }
    ensures count { IfOk result (λ x. length x.0.now ≡ count) }
{
    let (secrets, part) = bytes.as_chunks::<16>();
    if secrets.len() < count as usize {
        return Err(Stuck { left: part.len() });
    }
    let (_, rest) = bytes.split_at(16 * count as usize);
    Ok((&secrets[..count as usize], rest))
}

/// The secrets of an issuer, of one kind.
#[tactic(auto, unfolding(crate::specs::Forms::secrets_form))]
fn secrets(bytes: &[u8]) -> Result<(&[[u8; 16]], &[u8]), Stuck>
    ensures read { Gives (λ x. (x.0.now, x.1.now)) result (run secrets_form bytes.now) }
    ensures some { IfOk result (λ x. AreSome x.0.now) }
{
    let (count, rest) = read_u8(bytes, 1, 16)?;
    secrets_list(count, rest)
}

/// Terms of an issuer from the lowest to the highest.
#[tactic(auto, unfolding(crate::specs::Forms::terms_form), using(mc_fields::proofs::FormLaws::behind))]
pub(crate) fn terms(
    lowest: u8,
    highest: u8,
    bytes: &[u8],
) -> Result<(RecordTerms<'_>, &[u8]), Stuck>
    ensures { Gives (λ x. (issuing_of x.0, x.1.now)) result (run (terms_form lowest highest) bytes.now) }
{
    let (_version, rest) = read_u8(bytes, 1, 1)?;
    let (issuer, rest) = read_u8(rest, lowest, highest)?;
    let (period, rest) = read_u32(rest, Terms::LEAST_PERIOD, Terms::MOST_SECONDS)?;
    let (life, rest) = read_u32(rest, 0, Terms::MOST_SECONDS)?;
    let (scrip, rest) = secrets(rest)?;
    let (customer, rest) = secrets(rest)?;
    Ok((
        RecordTerms::new(issuer, period, life, scrip, customer),
        rest,
    ))
}

/// What a house of at most this fee is founded with.
#[tactic(auto, using(mc_fields::proofs::FormLaws::behind))]
fn house_with(most: u64, bytes: &[u8]) -> Result<(SiteTerms<'_>, &[u8]), Stuck>
    ensures { Gives (λ x. (Some (house_of x.0), x.1.now)) result (run (house_with most) bytes.now) }
{
    let (keep, rest) = read_u32(bytes, LEAST_KEEP, MOST_KEEP)?;
    let (fee, rest) = read_u64(rest, 0, most)?;
    let (clear, rest) = read_flag(rest)?;
    let (terms, rest) = match terms(0, 0, rest) {
        Ok(found) => found,
        Err(stuck) => return Err(stuck),
    };
    let house = SiteTerms {
        keep,
        fee,
        clear,
        terms,
    };
    Ok((house, rest))
}

/// What a site of this kind is founded with: a vendor takes no fee, and a wallet is no house.
#[tactic(auto, unfolding(crate::specs::Forms::house_form))]
pub(crate) fn house(kind: u8, bytes: &[u8]) -> Result<(Option<SiteTerms<'_>>, &[u8]), Stuck>
    ensures { Gives (λ x. (option_map house_of x.0, x.1.now)) result (run (house_form kind) bytes.now) }
{
    let most = match kind {
        0 => 0,
        1 => Amount::MOST,
        _ => return Ok((None, bytes)),
    };
    match house_with(most, bytes) {
        Ok((house, rest)) => Ok((Some(house), rest)),
        Err(stuck) => Err(stuck),
    }
}
