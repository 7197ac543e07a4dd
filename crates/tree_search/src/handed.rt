//! What was handed out of a book, each identity once.

ghost use Rattle.std.specs.Prelude.{◌≡◌, ◌++◌, ◌+◌, ◌||◌, ℕ, [], sum_by, IfOk, OnOk};
ghost use Rattle.std.specs.List.{list_any};
ghost use Rattle.audit_search.specs.Known.{has_id};
ghost use Rattle.audit_search.specs.Checks.{is_desk};
ghost use Rattle.tree_search.specs.Handed.{is_id, fresh, stale, handed_parts, sold_again, value_of};

use crate::desks::append_sold;
use audit_model::Part;
use audit_search::{Shops, is_desk};
use audit_sums::BookSums;
use mc_base::NoMemory;
use std::alloc::Global;
use std::collections::HashSet;

/// The pieces that were handed out of a book, each identity once.
#[derive(Drop)]
pub(crate) struct Handed {
    pub(crate) parts: Vec<Part>,
    /// The values of the pieces that were sold of identities that had been sold before, in units.
    pub(crate) again: u128,
}

/// The pieces that were handed out of a book: of a broker's those of its own series, of a vendor's those that the brokers sold, by
/// book and then in order, and then its own change, each identity once, as it comes first.
pub(crate) fn handed_of(
    alloc: Global,
    desks: &[Option<Shops>],
    book: &BookSums,
) -> Result<Handed, NoMemory>
    ensures parts { IfOk result (λ h. h.parts.items ≡ handed_parts desks.now book.now) }
    ensures again { IfOk result (λ h. h.again ≡ sold_again desks.now book.now) }
{
    if is_desk(book) {
        return Ok(Handed {
            parts: Vec::from_slice(alloc, book.own_out())?,
            again: 0,
        });
    }
    let mut sold = Vec::new(alloc);
    append_sold(&mut sold, desks, book.name())?;
    once(alloc, &sold, book.own_out())
}

/// Of these pieces each identity once, and the sum of the sold ones of identities that had been sold before.
fn once(alloc: Global, sold: &[Part], own: &[Part]) -> Result<Handed, NoMemory>
    ensures parts { IfOk result (λ h. h.parts.items ≡ fresh [] (sold.now ++ own.now)) }
    ensures again { IfOk result (λ h. h.again ≡ sum_by value_of (stale [] sold.now)) }
{
    let mut seen = HashSet::new(alloc);
    let mut parts = Vec::new(alloc);
    let again = keep(&mut seen, &mut parts, sold)?;
    keep(&mut seen, &mut parts, own)?;
    Ok(Handed { parts, again })
}

/// Appends the pieces whose identities were not seen yet, and answers the sum of the others. A sum of 2^128 or more, which no
/// memory has the pieces for, is told as want of it.
fn keep(seen: &mut HashSet<u64>, parts: &mut Vec<Part>, more: &[Part]) -> Result<u128, NoMemory>
    ensures parts { OnOk result (parts.new.items ≡ parts.old.items ++ fresh seen.old.keys more.now) }
    ensures again { IfOk result (λ n. n ≡ sum_by value_of (stale seen.old.keys more.now)) }
    ensures seen { OnOk result ((id : ℕ) → has_id seen.new.keys id
        ≡ (has_id seen.old.keys id || list_any (is_id id) more.now)) }
{
    let mut again = 0;
    for part in more {
        if seen.insert(part.id.number())? {
            parts.push(*part)?;
        } else {
            again = sum(again, part.value)?;
        }
    }
    Ok(again)
}

/// The sum of two numbers.
fn sum(a: u128, b: u64) -> Result<u128, NoMemory>
    ensures { IfOk result (λ all. all ≡ a + b) }
{
    match a.checked_add(u128::from(b)) {
        Some(all) => Ok(all),
        None => Err(NoMemory),
    }
}
