use mc_base::Moment;

/// The clock by which the items of links are answered.
#[derive(Clone, Copy, Debug, PartialEq, Eq)]
pub enum Clock {
    /// That of the links: it is read once for each item.
    OfLinks,
    /// It stands at a moment.
    At(Moment),
}
