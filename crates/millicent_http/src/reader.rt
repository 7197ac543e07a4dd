use crate::item::{After, HeadOut, HeadRefusal, ItemRef};
use crate::request::{FIELD_ROOM, FieldRoom, read_item};
use crate::scan::{find_end, skip_line_ends};
use mc_base::NoMemory;
use mc_outside::{Link, LinkFault};
use std::alloc::Global;
use std::marker::Model;

/// The greatest head, with the line ends before it.
pub const MAX_HEAD: usize = 8192;

/// The most items that one link may have.
pub const MAX_ITEMS: u16 = 1000;

/// Why the reader stopped receiving.
enum Awaited {
    Head(usize),
    TooLarge,
    End,
    Fault,
}

/// Reads the heads of requests on a link, one after another, however the link cuts their bytes: each
/// call of [`HeadReader::take`] gives the next item. An item is a request or one of the refusals 10 to
/// 16.
///
/// Line ends before a head are dropped. A head goes up to its first empty line, and has at most 8,192
/// bytes with the line ends before it. Contracts see the bytes received that belong to no item given,
/// and the number of items given, counted up to 1,000.
#[derive(Drop)]
pub struct HeadReader {
    buf: Vec<u8>,
    // the bytes held lie in `start..end` of the buffer
    start: usize,
    end: usize,
    // so many of the bytes held are line ends at the front
    skip: usize,
    // no head ends in so many of the bytes held
    searched: usize,
    given: u16,
    // for the places of the fields of the head that is given
    fields: FieldRoom,
}

impl Model for HeadReader {
    ghost use Rattle.std.specs.Prelude.{◌≤◌, slice_range};
    ghost use Rattle.millicent_http.specs.Held.{Held, IsBuffer};
    ghost use Rattle.millicent_http.specs.declared.reader.TheConstants.{MAX_ITEMS};

    ghost Value = { Held };

    ghost view = { λ r. record { bytes = slice_range r.buf.items r.start r.end; given = r.given } };

    ghost invariant = { λ r. IsBuffer r.buf.items r.start r.end r.skip r.searched × (r.given ≤ MAX_ITEMS) };
}

impl HeadReader {
    ghost use Rattle.std.specs.Prelude.{◌≡◌, ◌↔◌, true, false, min, ⊤, ◌+◌, ◌<◌, ◌≤◌, ◌++◌, [], List, ℕ, length, take, drop, IfOk, OnErr, IfSome, IfNone, IsTrue};
    ghost use Rattle.millicent_http.specs.HeadEnds.{line_ends, HasNoEnd, IsFirstEnd};
    ghost use Rattle.millicent_http.specs.Items.{max_head, EndsNoItem};
    ghost use Rattle.mc_outside.specs.LinkView.{after_recv, after_eof, Failed};
    ghost use Rattle.millicent_http.specs.Held.{Held, nothing_held};
    ghost use Rattle.millicent_http.specs.Awaits.{Awaits};
    ghost use Rattle.millicent_http.specs.Takes.{Gave, Took};
    ghost use Rattle.std.specs.Borrow.{sem};
    ghost use denote.Follow.{follows_so};
    ghost use mathlib.Core.Option.{none};
    ghost use Rattle.millicent_http.specs.contracts.reader.HeadReader.{the_row};

    /// A reader with a buffer of 8,192 bytes, which holds nothing. No later call takes memory.
    pub fn new(alloc: Global) -> Result<HeadReader, NoMemory>
        ensures { IfOk result (λ r. r ≡ nothing_held) }
    {
        Ok(HeadReader {
            buf: vec![in alloc; 0; MAX_HEAD]?,
            start: 0,
            end: 0,
            skip: 0,
            searched: 0,
            given: 0,
            fields: FIELD_ROOM,
        })
    }

    /// Forgets the bytes held and the count of items, for a new link.
    pub fn restart(&mut self)
        ensures { self.new ≡ nothing_held }
    {
        self.start = 0;
        self.end = 0;
        self.skip = 0;
        self.searched = 0;
        self.given = 0;
    }

    /// The next item of the standing link. What is lent lies in the buffer, up to the next call.
    ///
    /// Receives only while the bytes held end no item, and at most 8,192 bytes. `After::Close` comes
    /// with the item that closes the link, and from the 1,000th on. The answer is `End` where the link
    /// is read to its end, and `Fault` where a call of the link failed; then the bytes held stay.
    pub fn take<K: Link>(&mut self, k: &mut K) -> HeadOut<'_>
        requires { IsTrue (K.link k.old).stands }
        ensures moved { K.link_moved k.old k.new }
        ensures quiet { (EndsNoItem self.old.bytes → ⊥) → k.new ≡ k.old }
        ensures* took { sem 𝓛 (follows_so the_row the_row self.entry.ghost_name none (λ _ _. ⊤)
            (λ n. Took self.old (K.link k.old) result n (K.link k.new))) }
    {
        match self.await_item(k) {
            Awaited::Head(end) => self.give(end),
            Awaited::TooLarge => self.refuse_large(),
            Awaited::End => HeadOut::End,
            Awaited::Fault => HeadOut::Fault,
        }
    }

    /// Gives the head that ends here.
    fn give(&mut self, end: usize) -> HeadOut<'_>
        requires first { IsFirstEnd self.old.bytes end }
        ensures* gave { sem 𝓛 (follows_so the_row the_row self.entry.ghost_name none (λ _ _. ⊤)
            (λ n. Gave self.old result n)) }
    {
        let last = self.count();
        let skip = skip_line_ends(&self.buf[self.start..self.end], self.skip);
        let from = self.start + skip;
        let to = self.start + end;
        self.start = to;
        self.skip = 0;
        self.searched = 0;
        match read_item(&self.buf[from..to], &mut self.fields) {
            ItemRef::Request(request, close) => HeadOut::Head(request, After::of(close, last)),
            ItemRef::Refused(refusal, close) => HeadOut::Refused(refusal, After::of(close, last)),
        }
    }

    /// Refuses a head that fills the buffer and has no end.
    fn refuse_large(&mut self) -> HeadOut<'_>
        requires full { length self.old.bytes ≡ max_head }
        requires none { HasNoEnd self.old.bytes max_head }
        ensures* gave { sem 𝓛 (follows_so the_row the_row self.entry.ghost_name none (λ _ _. ⊤)
            (λ n. Gave self.old result n)) }
    {
        self.count();
        self.start = self.end;
        self.skip = 0;
        self.searched = 0;
        HeadOut::Refused(HeadRefusal::HeadTooLarge, After::Close)
    }

    /// Counts one more item. True for the last that a link may have.
    fn count(&mut self) -> bool
        ensures bytes { self.new.bytes ≡ self.old.bytes }
        ensures given { self.new.given ≡ min (self.old.given + 1) MAX_ITEMS }
        ensures last { (result ≡ true) ↔ (self.new.given ≡ MAX_ITEMS) }
    {
        self.given = (self.given + 1).min(MAX_ITEMS);
        self.given == MAX_ITEMS
    }

    /// Where the first head of the bytes held ends. What was searched once is not searched again.
    fn find(&mut self) -> Option<usize>
        ensures same { self.new ≡ self.old }
        ensures found { IfSome result (IsFirstEnd self.old.bytes) }
        ensures none { IfNone result (HasNoEnd self.old.bytes (length self.old.bytes)) }
        ensures within { length self.old.bytes ≤ max_head }
    {
        let held = &self.buf[self.start..self.end];
        let skip = skip_line_ends(held, self.skip);
        let searched = self.searched.max(skip);
        self.skip = skip;
        match find_end(held, skip, searched) {
            Some(end) => {
                self.searched = searched;
                Some(end)
            }
            None => {
                self.searched = held.len();
                None
            }
        }
    }

    /// Whether the bytes held are as many as a head may have.
    fn is_full(&self) -> bool
        ensures full { result ≡ true → length self.now.bytes ≡ max_head }
        ensures room { result ≡ false → length self.now.bytes < max_head }
        ensures within { length self.now.bytes ≤ max_head }
    {
        self.end - self.start == MAX_HEAD
    }

    /// Receives until the bytes held end an item, or to the link's end, or up to a fault.
    fn await_item<K: Link>(&mut self, k: &mut K) -> Awaited
        requires { IsTrue (K.link k.old).stands }
        ensures moved { K.link_moved k.old k.new }
        ensures given { self.new.given ≡ self.old.given }
        ensures found { Awaits self.old.bytes (K.link k.old) result self.new.bytes (K.link k.new) }
        ensures quiet { (EndsNoItem self.old.bytes → ⊥) → k.new ≡ k.old }
    {
        'pieces: loop {
            if let Some(end) = self.find() {
                return Awaited::Head(end);
            }
            if self.is_full() {
                return Awaited::TooLarge;
            }
            match self.receive(k) {
                Ok(0) => return Awaited::End,
                Ok(_) => {}
                Err(LinkFault) => return Awaited::Fault,
            }
        }
    }

    /// Receives a piece behind the bytes held.
    fn receive<K: Link>(&mut self, k: &mut K) -> Result<usize, LinkFault>
        requires stands { IsTrue (K.link k.old).stands }
        requires room { length self.old.bytes < max_head }
        ensures moved { K.link_moved k.old k.new }
        ensures given { self.new.given ≡ self.old.given }
        ensures piece { IfOk result (λ n. 0 < n → (piece : List ℕ) × (length piece ≡ n)
            × (self.new.bytes ≡ self.old.bytes ++ piece)
            × (K.link k.new ≡ after_recv piece (K.link k.old))) }
        ensures end { IfOk result (λ n. n ≡ 0 → (self.new.bytes ≡ self.old.bytes)
            × (K.link k.new ≡ after_eof (K.link k.old))) }
        ensures fault { OnErr result ((self.new.bytes ≡ self.old.bytes)
            × Failed (K.link k.old) (K.link k.new)) }
    {
        move_to_front(&mut self.buf, self.start, self.end);
        self.end -= self.start;
        self.start = 0;
        let n = receive_at(k, &mut self.buf, self.end)?;
        self.end += n;
        Ok(n)
    }
}

ghost use Rattle.std.specs.Prelude.{◌≡◌, ◌+◌, ◌-◌, ◌<◌, ◌≤◌, length, take, slice_range, vec_len, IfOk, OnErr, IsTrue};
ghost use Rattle.mc_outside.specs.LinkView.{after_recv, after_eof, Failed};

/// Moves the bytes from `start` to `end` to the front.
fn move_to_front(buf: &mut Vec<u8>, start: usize, end: usize)
    requires order { start ≤ end }
    requires within { end ≤ vec_len buf.old }
    ensures len { length buf.new.items ≡ length buf.old.items }
    ensures moved { take (end - start) buf.new.items ≡ slice_range buf.old.items start end }
{
    if start > 0 {
        buf.copy_within(start..end, 0);
    }
}

/// Receives a piece at this place of the buffer.
fn receive_at<K: Link>(k: &mut K, buf: &mut Vec<u8>, at: usize) -> Result<usize, LinkFault>
    requires stands { IsTrue (K.link k.old).stands }
    requires room { at < vec_len buf.old }
    ensures moved { K.link_moved k.old k.new }
    ensures len { length buf.new.items ≡ length buf.old.items }
    ensures front { take at buf.new.items ≡ take at buf.old.items }
    ensures within { IfOk result (λ n. at + n ≤ length buf.new.items) }
    ensures piece { IfOk result
        (λ n. 0 < n → K.link k.new ≡ after_recv (slice_range buf.new.items at (at + n)) (K.link k.old)) }
    ensures end { IfOk result (λ n. n ≡ 0 → K.link k.new ≡ after_eof (K.link k.old)) }
    ensures fault { OnErr result (Failed (K.link k.old) (K.link k.new)) }
{
    k.recv(&mut buf[at..])
}
