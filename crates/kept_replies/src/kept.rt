ghost use Rattle.std.specs.Prelude.{◌≡◌, ◌+◌, ◌<◌, ◌≤◌, ◌^◌, ◌↔◌, ◌||◌, [], All, IsTrue, IsFalse, IsNone, IsSome, IfSome, IfOk, OnOk, filter, find, length, remove, option_map, option_copied};
ghost use Rattle.std.specs.VecDeque.{deque_len, deque_capacity};
ghost use Rattle.mc_requests.specs.Requests.{asked_of};
ghost use Rattle.kept_replies.specs.Requests.{text_size};
ghost use Rattle.kept_replies.specs.Index.{slot_leads, marks};
ghost use Rattle.kept_replies.specs.Store.{AreInOrder, IsPlaceOf, has_mark, is_repeat};
ghost use Rattle.std.specs.Bool.{then_some};
ghost use Rattle.std.specs.List.{list_any};
ghost use Rattle.kept_replies.specs.Kept.{entry_size, AreRising, has_request, has_number, is_in_time, found, NoneInTime, with_number, first_number, kept_with, reply_of};

use crate::index::{Index, mark_in, may_lead, tag_of};
use crate::parts::MOST_BESIDE;
use crate::reply::Reply;
use crate::together::put_together;
use crate::{KeptEntry, KeptNumber};
use mc_base::{Moment, NoMemory};
use mc_requests::Request;
use scrip_form::ScripRef;
use std::alloc::Global;
use std::collections::VecDeque;
use std::marker::Model;
use std::mem;

/// The first replies that a house keeps, for its keeping time, so that a request which comes again
/// gets its reply again. A request is compared only with the replies to requests of its tag, which
/// are found by hashing; a number is found by halving, unless it is known where its reply lies, so that
/// neither takes long where many are kept. With a keeping time of no seconds none is kept. Contracts see the
/// keeping time in seconds, the replies in the order of their numbers, which rise, and the room that was made
/// for one more: a request and an entry may be kept where their texts have fewer bytes together than the room.
#[derive(Drop)]
pub struct Kept {
    keep: u32,
    /// In the order of their numbers.
    replies: VecDeque<Reply>,
    /// No moment is below one before it, as it is in a house: those that are over stand first then.
    in_order: bool,
    /// The marks of the replies, and no others.
    index: Index,
    /// Empty, for the bytes of the next reply.
    spare: Vec<u8>,
    /// Where that buffer goes.
    place: Option<Box<Vec<u8>>>,
}

impl Model for Kept {
    ghost use Rattle.std.specs.Prelude.{vec_capacity, is_some, ◌&&◌};
    ghost use Rattle.std.specs.VecDeque.{deque_len, deque_capacity};
    ghost use Rattle.kept_replies.specs.Kept.{KeptView};
    ghost use Rattle.kept_replies.specs.Store.{IsStored, room_in, room_for};

    ghost Value = { KeptView };

    ghost view = { λ k. record { keep = k.keep; replies = k.replies.items; room = room_for k.keep (room_in (deque_len k.replies) (deque_capacity k.replies) (k.index.has_place && is_some k.place) (vec_capacity k.spare)) } };

    ghost invariant = { λ k. IsStored k.replies.items k.in_order k.index k.spare.items (vec_capacity k.spare) };
}

impl Kept {
    /// No replies, and a keeping time of `keep` seconds. It takes no memory.
    pub fn new(alloc: Global, keep: u32) -> Kept
        ensures keep { result.keep ≡ keep }
        ensures replies { result.replies ≡ [] }
        ensures room { 0 < keep → result.room ≡ 0 }
    {
        Kept {
            keep,
            replies: VecDeque::new(alloc),
            in_order: true,
            index: Index::new(alloc),
            spare: Vec::new(alloc),
            place: None,
        }
    }

    /// For how many seconds replies are kept.
    pub fn seconds(&self) -> u32
        ensures { result ≡ self.now.keep }
    {
        self.keep
    }

    /// Makes room for this request, with an entry whose texts have so many bytes ([`KeptEntry::size`]); of
    /// others nothing is said. What is kept stays as it is, after an `Err` too. More than 65,202 bytes of texts
    /// are want of memory; those of a head and its entry are fewer, since a head has at most 8,192.
    pub fn reserve(&mut self, q: &Request<'_>, more: usize) -> Result<(), NoMemory>
        ensures keep { self.new.keep ≡ self.old.keep }
        ensures replies { self.new.replies ≡ self.old.replies }
        ensures room { OnOk result (text_size (asked_of q.now) + more < self.new.room) }
        ensures rising { AreRising self.new.replies }
    {
        let keeps = self.keep > 0;
        let size = short_sum(short_sum(text_size_of(q)?, more)?, MOST_BESIDE)?;
        if !keeps {
            return Ok(());
        }
        make_place(&mut self.replies)?;
        self.index.reserve(self.replies.len())?;
        make_box(&mut self.place, *self.spare.allocator())?;
        if self.spare.capacity() != size {
            let alloc = *self.spare.allocator();
            self.spare = Vec::with_capacity(alloc, size)?;
        }
        Ok(())
    }

    /// The number of the entry of this request, by which [`Kept::entry_of`] has the reply without another
    /// search. None exactly where no kept entry has the request, or `now` is at least the entry's moment
    /// plus the keeping time.
    pub fn find(&self, now: Moment, q: &Request<'_>) -> Option<KeptNumber>
        ensures found { result ≡ option_map (λ e. e.number) (found self.now now (asked_of q.now)) }
        ensures none { IsNone result ↔ NoneInTime self.now now (asked_of q.now) }
        ensures rising { AreRising self.now.replies }
    {
        if self.replies.is_empty() {
            return None;
        }
        let tag = tag_of(q);
        let first = self.index.first(tag);
        let second = self.index.second(tag);
        self.first_repeat(first, second, self.index.older(), tag, now, q)
    }

    /// Keeps an entry for repeats of this request, for which there is room with it, and answers its number;
    /// neither the request nor the number is kept yet; with a keeping time of no seconds nothing is kept. With
    /// what was read of the request's scrip text, change that is like its piece takes fewer bytes. It takes no
    /// memory, and there may be no room for another request then.
    pub fn keep(&mut self, q: &Request<'_>, paid: Option<&ScripRef<'_>>, e: KeptEntry) -> KeptNumber
        requires room { text_size (asked_of q.now) + entry_size e < self.old.room }
        requires new_request { IsFalse (has_request self.old.replies (asked_of q.now)) }
        requires new_number { IsFalse (has_number self.old.replies e.number) }
        ensures keep { self.new.keep ≡ self.old.keep }
        ensures replies { self.new.replies ≡ kept_with self.old.keep (record { asked = asked_of q.now; entry = e }) self.old.replies }
        ensures number { result ≡ e.number }
        ensures rising { AreRising self.new.replies }
    {
        let number = e.number;
        if self.keep == 0 {
            return KeptNumber { number, at: 0 };
        }
        let Some(place) = self.place.take() else {
            unreachable!();
        };
        let alloc = *self.spare.allocator();
        let buffer = mem::replace(&mut self.spare, Vec::new(alloc));
        self.index.put(tag_of(q), number);
        let at = place_of(&self.replies, number);
        self.in_order = goes_last(self.in_order, &self.replies, at, e.moment);
        match self
            .replies
            .insert(at, Reply::of(buffer, place, q, paid, &e))
        {
            Ok(()) => KeptNumber { number, at },
            Err(_) => unreachable!(),
        }
    }

    /// Drops each reply whose keeping time is over: its entry's moment plus the keeping time is not
    /// above `now`. It takes no memory, and there may be no room for a request then.
    pub fn forget(&mut self, now: Moment)
        ensures keep { self.new.keep ≡ self.old.keep }
        ensures replies { self.new.replies ≡ filter (is_in_time self.old.keep now) self.old.replies }
        ensures rising { AreRising self.new.replies }
    {
        drop_over(
            &mut self.replies,
            self.in_order,
            &mut self.index,
            self.keep,
            now,
        );
    }

    /// The least number that is kept; None exactly where nothing is kept.
    pub fn first(&self) -> Option<u64>
        ensures first { result ≡ first_number self.now.replies }
        ensures least { IfSome result (λ n. All (λ r. n ≤ r.entry.number) self.now.replies) }
        ensures none { IsNone result ↔ (self.now.replies ≡ []) }
        ensures rising { AreRising self.now.replies }
    {
        let first = self.replies.front()?;
        Some(first.number())
    }

    /// The request that is kept under this number, and what is kept of its entry. None exactly where no
    /// kept entry has the number.
    pub fn entry(&self, number: u64) -> Option<(Request<'_>, KeptEntry)>
        ensures reply { option_map reply_of result ≡ with_number self.now.replies number }
        ensures none { IsNone result ↔ IsFalse (has_number self.now.replies number) }
        ensures rising { AreRising self.now.replies }
    {
        self.entry_of(&KeptNumber::of(number))
    }

    /// The same of a number that was found or kept: where its reply still lies there, it is not searched
    /// for.
    pub fn entry_of(&self, number: &KeptNumber) -> Option<(Request<'_>, KeptEntry)>
        ensures reply { option_map reply_of result ≡ with_number self.now.replies number.now }
        ensures none { IsNone result ↔ IsFalse (has_number self.now.replies number.now) }
        ensures rising { AreRising self.now.replies }
    {
        match self.reply(number) {
            Some(reply) => Some((reply.request(), reply.entry())),
            None => None,
        }
    }

    /// The reply of a number: at its place, or else by a search.
    fn reply(&self, known: &KeptNumber) -> Option<&Reply>
        ensures reply { option_copied result ≡ with_number self.now.replies known.now }
        ensures rising { AreRising self.now.replies }
    {
        match self.replies.get(known.at) {
            Some(reply) if reply.number() == known.number => Some(reply),
            _ => {
                let (_, reply) = self.search(known.number)?;
                Some(reply)
            }
        }
    }

    /// The place of the reply of this number, and the reply.
    fn search(&self, number: u64) -> Option<(usize, &Reply)>
        ensures reply { option_map (λ p. p.1.now) result ≡ with_number self.now.replies number }
        ensures rising { AreRising self.now.replies }
    {
        let at = self.replies.partition_point(|r| r.number() < number);
        let reply = self.replies.get(at)?;
        (reply.number() == number).then_some((at, reply))
    }

    /// The first mark that leads to a repeat of this request, which has this tag: one in these slots, or
    /// else one of the older marks.
    fn first_repeat(
        &self,
        first: &[u64],
        second: &[u64],
        older: &[u64],
        tag: u64,
        now: Moment,
        q: &Request<'_>,
    ) -> Option<KeptNumber>
        ensures repeat { IfSome result (λ n. IsTrue (is_repeat self.now now (asked_of q.now) n)) }
        ensures none { IsNone result → IsFalse (list_any (slot_leads tag (is_repeat self.now now (asked_of q.now))) first.now
            || list_any (slot_leads tag (is_repeat self.now now (asked_of q.now))) second.now
            || list_any (is_repeat self.now now (asked_of q.now)) older.now) }
    {
        match self.first_in(first, tag, now, q) {
            Some(number) => Some(number),
            None => match self.first_in(second, tag, now, q) {
                Some(number) => Some(number),
                None => self.first_older(older, now, q),
            },
        }
    }

    /// The first mark of this tag in these slots that leads to a repeat of this request.
    fn first_in(&self, slots: &[u64], tag: u64, now: Moment, q: &Request<'_>) -> Option<KeptNumber>
        ensures repeat { IfSome result (λ n. IsTrue (is_repeat self.now now (asked_of q.now) n)) }
        ensures none { IsNone result → IsFalse (list_any (slot_leads tag (is_repeat self.now now (asked_of q.now))) slots.now) }
    {
        if !may_lead(slots, tag) {
            return None;
        }
        for slot in slots {
            match self.repeat_in(*slot, tag, now, q) {
                Some(number) => return Some(number),
                None => (),
            }
        }
        None
    }

    /// The number of the mark in a slot, where it was put under this tag, and is that of a repeat.
    fn repeat_in(&self, slot: u64, tag: u64, now: Moment, q: &Request<'_>) -> Option<KeptNumber>
        ensures repeat { IfSome result (λ n. IsTrue (is_repeat self.now now (asked_of q.now) n)) }
        ensures none { IsNone result → IsFalse (slot_leads tag (is_repeat self.now now (asked_of q.now)) slot) }
    {
        let mark = mark_in(slot, tag)?;
        self.repeat(mark, now, q)
    }

    /// The first of these marks that leads to a repeat of this request.
    fn first_older(&self, older: &[u64], now: Moment, q: &Request<'_>) -> Option<KeptNumber>
        ensures { result ≡ find (is_repeat self.now now (asked_of q.now)) older.now }
    {
        for mark in older {
            match self.repeat(*mark, now, q) {
                Some(number) => return Some(number),
                None => (),
            }
        }
        None
    }

    /// The number of this mark, where its reply is to this request, and in time.
    fn repeat(&self, mark: u64, now: Moment, q: &Request<'_>) -> Option<KeptNumber>
        ensures { result ≡ then_some (is_repeat self.now now (asked_of q.now) mark) mark }
    {
        let (at, reply) = self.search(mark)?;
        let repeats = reply.is_of(q) && reply.is_in_time(self.keep, now);
        repeats.then_some(KeptNumber { number: mark, at })
    }
}

/// Makes a place for one more reply, after those before it were put together, and where memory is asked
/// for, for an eighth more than there are: twice as many places would be much that lies unused.
fn make_place(replies: &mut VecDeque<Reply>) -> Result<(), NoMemory>
    ensures replies { replies.new.items ≡ replies.old.items }
    ensures place { OnOk result (deque_len replies.new < deque_capacity replies.new) }
{
    put_together(replies)?;
    if replies.len() < replies.capacity() {
        return Ok(());
    }
    replies.reserve_exact(replies.len() / 8 + 1)?;
    Ok(())
}

/// Makes a place for a buffer, where there is none.
fn make_box(place: &mut Option<Box<Vec<u8>>>, alloc: Global) -> Result<(), NoMemory>
    ensures { OnOk result (IsSome place.new) }
{
    if place.is_none() {
        *place = Some(Box::new(alloc, Vec::new(alloc))?);
    }
    Ok(())
}

/// Where a number goes among the replies: behind those of lower numbers. The last one is looked at first,
/// since a new number mostly is above all.
fn place_of(replies: &VecDeque<Reply>, number: u64) -> usize
    requires { AreRising replies.now.items }
    ensures place { IsPlaceOf number replies.now.items result }
    ensures within { result ≤ deque_len replies.now }
{
    let last = replies.back();
    if last.is_none_or(|last| last.number() < number) {
        return replies.len();
    }
    replies.partition_point(|r| r.number() < number)
}

/// Whether the moments are still in order where a reply of this moment is put at this place: there is
/// none behind it, and none before it is of a later moment.
fn goes_last(in_order: bool, replies: &VecDeque<Reply>, at: usize, moment: Moment) -> bool
    requires { IsTrue in_order → AreInOrder replies.now.items }
    ensures { IsTrue result → AreInOrder replies.now.items × (at ≡ length replies.now.items)
        × All (λ r. r.entry.moment ≤ moment) replies.now.items }
{
    if !in_order {
        return false;
    }
    at == replies.len()
        && replies
            .back()
            .is_none_or(|last| last.moment().seconds() <= moment.seconds())
}

/// Drops each reply that is not in time, with its mark, so that there are no more marks than replies. Where the moments are in order it looks at
/// those that go and at one more, and else at all.
fn drop_over(
    replies: &mut VecDeque<Reply>,
    in_order: bool,
    index: &mut Index,
    keep: u32,
    now: Moment,
)
    requires rising { AreRising replies.old.items }
    requires order { IsTrue in_order → AreInOrder replies.old.items }
    requires marked { All (λ r. IsTrue (has_mark index.old r)) replies.old.items }
    requires few { marks index.old ≤ length replies.old.items }
    ensures replies { replies.new.items ≡ filter (is_in_time keep now) replies.old.items }
    ensures marked { All (λ r. IsTrue (has_mark index.new r)) replies.new.items }
    ensures few { marks index.new ≤ length replies.new.items }
{
    let mut at = 0;
    while let Some(reply) = replies.get(at) {
        if !reply.is_in_time(keep, now) {
            index.drop_mark(tag_of(&reply.request()), reply.number());
            drop_at(replies, at);
        } else if in_order {
            break;
        } else {
            at += 1;
        }
    }
}

/// Drops the reply at a place.
fn drop_at(replies: &mut VecDeque<Reply>, at: usize)
    requires { at < deque_len replies.old }
    ensures { replies.new.items ≡ remove replies.old.items at }
{
    replies.remove(at);
}

/// The sum of two sizes. 2^16 or more is want of memory.
fn short_sum(a: usize, b: usize) -> Result<usize, NoMemory>
    ensures { IfOk result (λ size. (size ≡ a + b) × (size < 2 ^ 16)) }
{
    let sum = a.checked_add(b).ok_or(NoMemory)?;
    if sum <= u16::MAX as usize {
        Ok(sum)
    } else {
        Err(NoMemory)
    }
}

/// How many bytes the texts of a request have together. A sum of 2^64 or more is want of memory.
fn text_size_of(q: &Request<'_>) -> Result<usize, NoMemory>
    ensures { IfOk result (λ size. size ≡ text_size (asked_of q.now)) }
{
    let scrip = q.scrip.map_or(0, |text| text.len());
    let sign = q.sign.map_or(0, |text| text.len());
    let size = q.target.len().checked_add(scrip).ok_or(NoMemory)?;
    size.checked_add(sign).ok_or(NoMemory)
}
