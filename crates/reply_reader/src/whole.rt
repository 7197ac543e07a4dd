ghost use Rattle.std.specs.Prelude.{◌≡◌, take};
ghost use Rattle.millicent_http.specs.Items.{max_head};
ghost use Rattle.reply_reader.specs.Seen.{ReadsAs};

use crate::head::read_head;
use crate::reply::ReplyRead;
use millicent_http::{MAX_HEAD, find_end, skip_line_ends};

/// The bytes that a head may lie in.
#[tactic(auto, using(millicent_http::proofs::WholeLemmas::window_is))]
pub(crate) fn head_window(bytes: &[u8]) -> &[u8]
    ensures { result.now ≡ take max_head bytes.now }
{
    &bytes[..bytes.len().min(MAX_HEAD)]
}

/// What the bytes of a link are, from its front on: a reply, no reply, or less than one. For bytes that
/// are all there; [`ReplyReader`](crate::ReplyReader) reads the same as the bytes come.
///
/// Line ends before the head are dropped. The head goes up to its first empty line, and has at most
/// 8,192 bytes with the line ends before it. It is a response head (RFC 9112) of at most 64 fields, with
/// exactly one Content-Length of at most 65,536 and exactly one each of Millicent-Price,
/// Millicent-Change and Millicent-Sign. A 200 has no Millicent-Refusal, any other status exactly one,
/// which begins with a decimal number of at most 65,535 and a space. Bytes behind the contents mean
/// nothing.
#[tactic(auto, using(millicent_http::proofs::WholeLemmas::end_behind))]
pub fn read_reply(bytes: &[u8]) -> ReplyRead<'_>
    ensures { ReadsAs bytes.now result }
{
    let window = head_window(bytes);
    let skip = skip_line_ends(window, 0);
    let end = match find_end(window, skip, skip) {
        Some(end) => end,
        None if bytes.len() < MAX_HEAD => return ReplyRead::Short(bytes.len() + 1),
        None => return ReplyRead::Bad,
    };
    let text = &window[skip..end];
    let head = match read_head(text) {
        Some(head) => head,
        None => return ReplyRead::Bad,
    };
    let whole = end + head.length;
    if bytes.len() < whole {
        return ReplyRead::Short(whole);
    }
    ReplyRead::Whole(head.reply(text, &bytes[end..whole]))
}
