/// A reply of a site: its status and the values of its Millicent fields as they stand in its head,
/// without the blanks at their ends, and its contents.
#[derive(Clone, Copy)]
pub struct ReplyRef<'a> {
    /// The status in HTTP, of three digits.
    pub status: u16,
    /// None in a 200. Else it begins with a decimal number of at most 65,535 and a space.
    pub refusal: Option<&'a [u8]>,
    pub price: &'a [u8],
    pub change: &'a [u8],
    pub sign: &'a [u8],
    /// As many bytes as the head says, at most 65,536.
    pub contents: &'a [u8],
}

/// What some bytes, received from the front of a link on, are.
#[derive(Drop)]
pub enum ReplyRead<'a> {
    /// They begin with this reply.
    Whole(ReplyRef<'a>),
    /// They begin with no reply, whatever follows.
    Bad,
    /// The reply that they begin is not whole with fewer than so many bytes.
    Short(usize),
}

/// Why no reply came.
#[derive(Clone, Copy, Debug, PartialEq, Eq)]
pub enum ReplyFault {
    /// The bytes up to the head's end, or the first 8,192 where no head ends in them, are no head of a
    /// reply.
    BadReply,
    /// The link was read to its end before the reply was whole.
    NoReply,
    /// A call of the link failed.
    Fault,
}
