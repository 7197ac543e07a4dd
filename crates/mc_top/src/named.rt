use mc_base::List;

/// The places that the words name, for the program to open before it does what they say. A place is the
/// bytes of its word.
#[derive(Debug, Drop)]
pub struct Places {
    /// The book of the house or the wallet that the command works on.
    pub site: Option<List<u8>>,
    /// Whether the command founds that book, so that a file that is missing is made.
    pub founds: bool,
    /// The books that the command only reads.
    pub books: List<List<u8>>,
    /// Whether it is a command of a site's operator that he may give at the door of the site, too, while that is served.
    pub operates: bool,
    /// Where the links come.
    pub listen: Option<List<u8>>,
    /// Where the operator of the site that is served gives commands meanwhile.
    pub door: Option<List<u8>>,
    /// Where a link goes.
    pub connect: Option<List<u8>>,
}
