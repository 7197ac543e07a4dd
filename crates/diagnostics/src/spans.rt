//! Spans of time in words.

/// A span of seconds in the greatest unit of which it has two, rounded down.
pub(crate) fn span(seconds: u64) -> (u64, &'static str) {
    if seconds >= 2 * 86_400 {
        (seconds / 86_400, "days")
    } else if seconds >= 2 * 3600 {
        (seconds / 3600, "hours")
    } else if seconds >= 2 * 60 {
        (seconds / 60, "minutes")
    } else {
        (seconds, "seconds")
    }
}
