/// A request for a target by GET, with its scrip text and its signature where it has them.
#[derive(Clone, Copy)]
pub struct Request<'a> {
    pub target: &'a [u8],
    pub scrip: Option<&'a [u8]>,
    pub sign: Option<&'a [u8]>,
}
