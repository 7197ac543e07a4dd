ghost use Rattle.std.specs.Prelude.{◌≡◌, ◌+◌, ◌≤◌, ◌<◌, ◌^◌, length, vec_len, vec_capacity, slice_range};
ghost use Rattle.mc_requests.specs.Requests.{seen};
ghost use Rattle.kept_replies.specs.Requests.{size_of_text};
ghost use Rattle.kept_replies.specs.Parts.{StaysIn, text_if, is_there};

/// Puts the text behind what the buffer holds, and answers where it ends. What stood there before stands there
/// still.
pub(crate) fn put(buffer: &mut Vec<u8>, text: &[u8]) -> u16
    requires room { vec_len buffer.old + length text.now ≤ vec_capacity buffer.old }
    requires short { vec_len buffer.old + length text.now < 2 ^ 16 }
    ensures end { result ≡ vec_len buffer.new }
    ensures len { result ≡ vec_len buffer.old + length text.now }
    ensures capacity { vec_capacity buffer.old ≤ vec_capacity buffer.new }
    ensures stays { StaysIn buffer.old.items buffer.new.items }
    ensures part { slice_range buffer.new.items (vec_len buffer.old) result ≡ text.now }
{
    match buffer.extend_from_slice(text) {
        Ok(()) => buffer.len() as u16,
        Err(_) => unreachable!(),
    }
}

/// Puts a text that may be there, likewise.
pub(crate) fn put_if(buffer: &mut Vec<u8>, text: Option<&[u8]>) -> u16
    requires room { vec_len buffer.old + size_of_text (seen text) ≤ vec_capacity buffer.old }
    requires short { vec_len buffer.old + size_of_text (seen text) < 2 ^ 16 }
    ensures end { result ≡ vec_len buffer.new }
    ensures len { result ≡ vec_len buffer.old + size_of_text (seen text.entry) }
    ensures capacity { vec_capacity buffer.old ≤ vec_capacity buffer.new }
    ensures stays { StaysIn buffer.old.items buffer.new.items }
    ensures part { text_if (is_there (seen text.entry)) buffer.new.items (vec_len buffer.old) result ≡ seen text.entry }
{
    match text {
        Some(text) => put(buffer, text),
        None => buffer.len() as u16,
    }
}

/// The text between two places, where there is one.
pub(crate) fn text_at(there: bool, bytes: &[u8], start: u16, end: u16) -> Option<&[u8]>
    requires order { start ≤ end }
    requires within { end ≤ length bytes.now }
    ensures { seen result ≡ text_if there bytes.now start end }
{
    there.then_some(&bytes[start as usize..end as usize])
}
