//! What is told of a clock and a book whose times lie apart.

use crate::spans::span;
use httpdate::HttpDate;

/// A book may be ahead of the clock by so many seconds before it is told, as where the clock was set right.
const MOST_AHEAD: u64 = 60;

/// The clock may be ahead of a book by so many seconds: a day.
const MOST_BEHIND: u64 = 86_400;

/// Tells where the latest moment of the book at this path lies ahead of the clock. Both are in seconds since 1970.
pub fn tell_ahead(rt: &impl Eprint, path: &str, latest: u64, now: u64) {
    let ahead = latest.saturating_sub(now);
    if ahead > MOST_AHEAD
        && let Ok(date) = HttpDate::from_unix_secs(latest)
    {
        let (count, unit) = span(ahead);
        let _ = eprintln!(rt;
            "millicent: {path}: its latest moment, {date}, is {count} {unit} ahead of the clock"
        );
    }
}

/// Tells where it lies far behind the clock.
pub fn tell_behind(rt: &impl Eprint, path: &str, latest: u64, now: u64) {
    let behind = now.saturating_sub(latest);
    if behind > MOST_BEHIND
        && let Ok(date) = HttpDate::from_unix_secs(latest)
    {
        let (count, unit) = span(behind);
        let _ = eprintln!(rt;
            "millicent: {path}: the clock is {count} {unit} ahead of its latest moment, {date}"
        );
    }
}
