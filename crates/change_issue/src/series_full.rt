use std::error::Error;
use std::fmt;

/// As many pieces as the limit allows stand in a series, so that no more are handed out in it.
#[derive(Clone, Copy, Debug, PartialEq, Eq)]
pub struct SeriesFull {
    /// The series: the issuer in the highest 8 bits, the epoch in the 24 others.
    pub series: u32,
}

impl fmt::Display for SeriesFull {
    ghost use Rattle.std.specs.Prelude.{Some, ◌++◌, codes, decimal};

    ghost output = { λ e. Some (codes "series full: " ++ decimal e.series) };

    fn fmt<W: fmt::Write>(&self, f: &mut fmt::Formatter<W>) -> fmt::Result {
        write!(f, "series full: {}", self.series)
    }
}

impl Error for SeriesFull {}
