//! Reading what a target asks of a broker.

ghost use Rattle.std.specs.Prelude.{◌≡◌, codes, option_map};
ghost use Rattle.mc_requests.specs.Errands.{errand_of, behind, last_number, last_name, read_buy, read_pay_in, read_draw};
ghost use Rattle.mc_requests.specs.ErrandViews.{errand};

use crate::errand::Errand;
use mc_base::Amount;
use mc_fields::{number_of, read_literal, read_number};
use scrip_form::{Name, read_name};

/// The errand of a target; None exactly where the target is the text of none.
#[tactic(auto, unfolding(crate::specs::Errands::errand_of))]
pub fn read_errand(target: &[u8]) -> Option<Errand<'_>>
    ensures { option_map errand result ≡ errand_of target.now }
{
    match buy(target) {
        Some(errand) => return Some(errand),
        None => (),
    }
    match credit(target) {
        Some(errand) => return Some(errand),
        None => (),
    }
    draw(target)
}

fn buy(target: &[u8]) -> Option<Errand<'_>>
    ensures { option_map errand result ≡ behind (codes "/buy/") read_buy target.now }
{
    let rest = match read_literal(b"/buy/", target) {
        Ok(rest) => rest,
        Err(_) => return None,
    };
    let (vendor, rest) = match read_name(b'/', rest) {
        Ok(read) => read,
        Err(_) => return None,
    };
    let amount = match last_number(rest) {
        Some(amount) => amount,
        None => return None,
    };
    Some(Errand::Buy { vendor, amount })
}

fn credit(target: &[u8]) -> Option<Errand<'_>>
    ensures { option_map errand result ≡ behind (codes "/credit/") read_pay_in target.now }
{
    let rest = match read_literal(b"/credit/", target) {
        Ok(rest) => rest,
        Err(_) => return None,
    };
    let account = match last_name(rest) {
        Some(account) => account,
        None => return None,
    };
    Some(Errand::Credit { account })
}

fn draw(target: &[u8]) -> Option<Errand<'_>>
    ensures { option_map errand result ≡ behind (codes "/draw/") read_draw target.now }
{
    let rest = match read_literal(b"/draw/", target) {
        Ok(rest) => rest,
        Err(_) => return None,
    };
    let (account, rest) = match read_name(b'/', rest) {
        Ok(read) => read,
        Err(_) => return None,
    };
    let (order, rest) = match read_number(Amount::MOST, b'/', rest) {
        Ok(read) => read,
        Err(_) => return None,
    };
    let amount = match last_number(rest) {
        Some(amount) => amount,
        None => return None,
    };
    Some(Errand::Draw {
        account,
        order,
        amount,
    })
}

/// A number to the end of the bytes.
fn last_number(bytes: &[u8]) -> Option<u64>
    ensures { result ≡ last_number bytes.now }
{
    number_of(Amount::MOST, bytes)
}

/// A name to the end of the bytes.
fn last_name(bytes: &[u8]) -> Option<&[u8]>
    ensures { option_map (λ n. n.now) result ≡ last_name bytes.now }
{
    match Name::new(bytes) {
        Some(_) => Some(bytes),
        None => None,
    }
}
