ghost use Rattle.std.specs.Prelude.{◌≡◌, ◌↔◌, false, IfSome, IfNone};
ghost use Rattle.millicent_http.specs.Items.{NextItem, EndsNoItem};
ghost use Rattle.millicent_http.specs.Takes.{item_of};

use crate::item::{HeadRefusal, ItemRef};
use crate::reader::MAX_HEAD;
use crate::request::{FIELD_ROOM, read_item};
use crate::scan::{find_end, skip_line_ends};

/// The first item of some bytes, and the bytes behind it; None where they end no item. For a link whose
/// bytes are all there; [`HeadReader`](crate::HeadReader) reads the same items as the bytes come.
#[tactic(auto, using(crate::proofs::WholeLemmas::end_behind))]
pub fn next_item(bytes: &[u8]) -> Option<(ItemRef<'_>, &[u8])>
    ensures some { IfSome result (λ x. NextItem bytes.now (item_of x.0) x.1.now) }
    ensures none { IfNone result (EndsNoItem bytes.now) }
{
    let window = &bytes[..bytes.len().min(MAX_HEAD)];
    let skip = skip_line_ends(window, 0);
    let mut fields = FIELD_ROOM;
    match find_end(window, skip, skip) {
        Some(end) => Some((read_item(&window[skip..end], &mut fields), &bytes[end..])),
        None if window.len() < MAX_HEAD => None,
        None => Some((
            ItemRef::Refused(HeadRefusal::HeadTooLarge, true),
            &bytes[MAX_HEAD..],
        )),
    }
}

/// Whether the bytes end an item: with them alone [`HeadReader`](crate::HeadReader) gives one, and waits for
/// no more. Reads no head.
pub fn ends_item(bytes: &[u8]) -> bool
    ensures { (result ≡ false) ↔ EndsNoItem bytes.now }
{
    if bytes.len() >= MAX_HEAD {
        return true;
    }
    let skip = skip_line_ends(bytes, 0);
    match find_end(bytes, skip, skip) {
        Some(_) => true,
        None => false,
    }
}
