//! What is told of an entry that a command made, where it may not be what was meant.

use crate::spans::span;
use crate::texts::shown;
use mc_records::{Record, RecordTerms};
use mc_site::Passed;

/// The shortest life of scrip that is not told, in seconds: a day.
const LONG_LIFE: u32 = 86_400;

/// Tells of the last entry: goods without contents, or at a target that no client asks for; pieces of a short life.
pub fn tell_entered(rt: &impl Eprint, passed: &Passed) {
    match passed.record() {
        Some(
            Record::Goods {
                target,
                contents,
                ..
            },
        ) => tell_goods(rt, target, contents),
        Some(Record::Site { house, .. }) => {
            if let Some(house) = house {
                tell_life(rt, &house.terms);
            }
        }
        Some(Record::Terms { terms, .. }) => tell_life(rt, &terms),
        _ => {}
    }
}

/// Tells of goods that have no bytes, and of a target that is not asked for as it is.
fn tell_goods(rt: &impl Eprint, target: &[u8], contents: &[u8]) {
    let front = shown(target);
    if contents.is_empty() {
        let _ = eprintln!(rt; "millicent: {front}: 0 bytes");
    }
    if target.contains(&b'#') {
        let _ = eprintln!(rt;
            "millicent: {front}: no client asks for it, since none sends # and what follows"
        );
    } else if has_dots(target) {
        let _ = eprintln!(rt;
            "millicent: {front}: most clients don't ask for it, since they resolve /. and /.. before"
        );
    }
}

/// Whether the path of a target, which ends at a question mark, has a segment that is one dot or two.
fn has_dots(target: &[u8]) -> bool {
    let path = match target.iter().position(|b| *b == b'?') {
        Some(n) if n <= target.len() => &target[..n],
        _ => target,
    };
    for segment in path.split(|b| *b == b'/') {
        if segment == b".".as_slice() || segment == b"..".as_slice() {
            return true;
        }
    }
    false
}

/// Tells for how long the pieces of these terms live, where that is short or may be a slip: one that is made at a moment of
/// its period ends so long after the period's end as the life says.
fn tell_life(rt: &impl Eprint, terms: &RecordTerms<'_>) {
    let terms = terms.terms();
    let (period, life) = (terms.period(), terms.life());
    if life >= LONG_LIFE && life >= period {
        return;
    }
    let (least, least_unit) = span(u64::from(life));
    let (most, most_unit) = span(u64::from(life) + u64::from(period));
    let _ = eprintln!(rt;
        "millicent: pieces live {least} {least_unit} to {most} {most_unit}, which can't be changed: PERIOD and LIFE are seconds"
    );
}
