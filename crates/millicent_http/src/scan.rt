ghost use Rattle.std.specs.Prelude.{◌≡◌, ◌≤◌, ◌+◌, length, take, drop, IfSome, IfNone};
ghost use Rattle.millicent_http.specs.HeadEnds.{line_ends, ends_empty, ends_at, HasNoEnd, IsFirstEnd};

/// How many bytes the line ends at the front take, where the first `known` bytes are line ends.
pub fn skip_line_ends(bytes: &[u8], known: usize) -> usize
    requires within { known ≤ length bytes.now }
    requires known { line_ends (take known bytes.now) ≡ known }
    ensures { result ≡ line_ends bytes.now }
{
    let mut skip = known;
    'ends: loop {
        let len = line_end_len(&bytes[skip..]);
        if len == 0 {
            return skip;
        }
        skip += len;
    }
}

/// How many bytes the line end at the front takes, or 0 where none is there.
#[tactic(auto, using(crate::proofs::EndLemmas::line_end_lf, crate::proofs::EndLemmas::line_end_crlf, crate::proofs::EndLemmas::line_end_none))]
fn line_end_len(text: &[u8]) -> usize
    ensures within { result ≤ length text.now }
    ensures step { line_ends text.now ≡ result + line_ends (drop result text.now) }
    ensures none { result ≡ 0 → line_ends text.now ≡ 0 }
{
    if text.starts_with(b"\n") {
        1
    } else if text.starts_with(b"\r\n") {
        2
    } else {
        0
    }
}

/// Whether the text ends in an empty line.
#[tactic(auto, unfolding(crate::specs::HeadEnds::ends_empty))]
pub(crate) fn ends_empty(text: &[u8]) -> bool
    ensures { result ≡ ends_empty text.now }
{
    text.ends_with(b"\n\n") || text.ends_with(b"\n\r\n")
}

/// Whether an empty line ends at `end`, behind the line ends at the front. Most bytes are no line
/// feed, and cost the first comparison alone.
#[tactic(auto, using(crate::proofs::EndLemmas::no_end_but_lf))]
fn ends_at(bytes: &[u8], skip: usize, end: usize) -> bool
    requires front { skip ≡ line_ends bytes.now }
    requires order { skip ≤ end }
    requires within { end ≤ length bytes.now }
    ensures { result ≡ ends_at bytes.now end }
{
    bytes[..end].ends_with(b"\n") && ends_empty(&bytes[skip..end])
}

/// Where the first empty line ends, which doesn't in the first `searched` bytes.
pub fn find_end(bytes: &[u8], skip: usize, searched: usize) -> Option<usize>
    requires within { skip ≤ searched }
    requires front { skip ≡ line_ends bytes.now }
    requires before { HasNoEnd bytes.now searched }
    ensures found { IfSome result (IsFirstEnd bytes.now) }
    ensures none { IfNone result (HasNoEnd bytes.now (length bytes.now)) }
{
    for end in searched..bytes.len() {
        if ends_at(bytes, skip, end + 1) {
            return Some(end + 1);
        }
    }
    None
}
