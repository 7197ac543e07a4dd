ghost use Rattle.std.specs.Prelude.{◌≡◌, ℕ, ◌+◌, ◌*◌, ◌/◌, ◌%◌, ◌<◌, ◌≤◌, Bool, [], ◌==◌, ◌&&◌, ◌||◌, if◌then◌else◌, IfSome, Some, IsTrue, IsFalse, OnOk, length, sum_by, vec_len, vec_capacity};
ghost use Rattle.std.specs.List.{list_any, position};
ghost use Rattle.mc_requests.specs.Requests.{asked_of};
ghost use Rattle.kept_replies.specs.Index.{text_tag, request_tag, first_place, second_place, bucket_at, marked_in, slot_leads, leads_in, leads, counted, taken_in, marks_in, marks};

use mc_base::NoMemory;
use mc_requests::Request;
use std::alloc::Global;
use std::marker::Model;

/// How many tags there are. By this number the remainders of sixteen digits are spread over 64 bits: 2^64
/// divided by the golden ratio, as in Fibonacci hashing.
const TAGS: u128 = 0x9e37_79b9_7f4a_7c15;

/// A mark stands in a slot where it is below this number, 2^36, and above it in the slot stand the last 28 bits
/// of its tag.
const MARKS: u64 = 0x10_0000_0000;

/// How many there are of these bits: 2^28.
const SHORTS: u64 = 0x1000_0000;

/// By this odd number the bits are scrambled for the second bucket: 2^28 divided by the golden ratio.
const SCRAMBLE: u64 = 0x9e3_779b;

/// How many slots a bucket has.
const WIDTH: usize = 16;

/// How many marks a bucket has on the average where more buckets are made. Of marks that come and go in
/// millions, one or none then finds both its buckets full.
const CROWD: usize = 12;

/// The numbers of the entries of replies, as their marks, by the tags of their requests, so that the
/// reply to a request is found in a few looks, however many are kept. A tag has two buckets, and its mark
/// stands in the one that had more room. Contracts see the slots of the buckets, the older marks, and
/// whether there is a place for one more.
#[derive(Drop)]
pub(crate) struct Index {
    /// Marks with bits of their tags; 0 is an empty slot.
    buckets: Vec<[u64; WIDTH]>,
    /// Those for which no slot was free, or which are too large for one. There are hardly ever any.
    older: Vec<u64>,
}

impl Model for Index {
    ghost use Rattle.std.specs.Prelude.{vec_len, vec_capacity, nat_lt};
    ghost use Rattle.kept_replies.specs.Index.{IndexView};

    ghost Value = { IndexView };

    ghost view = { λ i. record { buckets = i.buckets.items; older = i.older.items; has_place = nat_lt (vec_len i.older) (vec_capacity i.older) } };
}

impl Index {
    /// No marks, and no place. It takes no memory.
    pub(crate) fn new(alloc: Global) -> Index
        ensures buckets { result.buckets ≡ [] }
        ensures older { result.older ≡ [] }
        ensures place { IsFalse result.has_place }
    {
        Index {
            buckets: Vec::new(alloc),
            older: Vec::new(alloc),
        }
    }

    /// Makes a place for one more mark, where so many replies are kept. The marks lead to what they did, and are
    /// no more than they were, after an `Err` too. There are more buckets only where so many replies are
    /// twelve for each, and then half as many and one more at most.
    pub(crate) fn reserve(&mut self, kept: usize) -> Result<(), NoMemory>
        ensures leads { (t : ℕ) (p : ℕ → Bool) → IsTrue (leads self.old t p) → IsTrue (leads self.new t p) }
        ensures marks { marks self.new ≤ marks self.old }
        ensures place { OnOk result (IsTrue self.new.has_place) }
        ensures buckets { kept < CROWD * length self.old.buckets → self.new.buckets ≡ self.old.buckets }
        ensures grown { length self.new.buckets ≤ length self.old.buckets + (length self.old.buckets / 2 + 1) }
    {
        if kept / CROWD >= self.buckets.len() {
            widen(&mut self.buckets, &mut self.older)?;
        }
        self.older.reserve(1)?;
        Ok(())
    }

    /// Puts a mark under a tag, for which there is a place. It leads to what it should, and the others
    /// still do. There is at most one mark more. It takes no memory.
    pub(crate) fn put(&mut self, tag: u64, mark: u64)
        requires { IsTrue self.old.has_place }
        ensures leads { (t : ℕ) (p : ℕ → Bool) → IsTrue (leads self.old t p || (tag == t && p mark))
            → IsTrue (leads self.new t p) }
        ensures marks { marks self.new ≤ marks self.old + 1 }
    {
        match slot_of(tag, mark) {
            Some(slot) => put_slot(&mut self.buckets, &mut self.older, slot),
            None => match self.older.push(mark) {
                Ok(()) => (),
                Err(_) => unreachable!(),
            },
        }
    }

    /// Drops this mark, which was put under this tag; the others lead to what they did. Where the tag led to
    /// the mark, there are fewer marks then. The older ones are looked through only where it has no slot. It
    /// takes no memory.
    pub(crate) fn drop_mark(&mut self, tag: u64, mark: u64)
        ensures left { (t : ℕ) (p : ℕ → Bool) → IsFalse (p mark)
            → IsTrue (leads self.old t p) → IsTrue (leads self.new t p) }
        ensures fewer { IsTrue (leads self.old tag (λ m. m == mark)) → marks self.new < marks self.old }
    {
        let had_slot = match slot_of(tag, mark) {
            Some(slot) => drop_slot(&mut self.buckets, slot),
            None => false,
        };
        if !had_slot {
            self.older.retain(|m| *m != mark);
        }
    }

    /// The slots of the first bucket of a tag.
    pub(crate) fn first(&self, tag: u64) -> &[u64]
        ensures { result.now ≡ bucket_at self.now.buckets (first_place (tag % SHORTS) (length self.now.buckets)) }
    {
        slots_at(&self.buckets, first_of(tag % SHORTS, self.buckets.len()))
    }

    /// The slots of its second bucket.
    pub(crate) fn second(&self, tag: u64) -> &[u64]
        ensures { result.now ≡ bucket_at self.now.buckets (second_place (tag % SHORTS) (length self.now.buckets)) }
    {
        slots_at(&self.buckets, second_of(tag % SHORTS, self.buckets.len()))
    }

    /// The older marks, whatever their tags.
    pub(crate) fn older(&self) -> &[u64]
        ensures { result.now ≡ self.now.older }
    {
        &self.older
    }
}

// ---- slots

/// The mark in a slot, where it was put under this tag, or under one of the same last bits.
pub(crate) fn mark_in(slot: u64, tag: u64) -> Option<u64>
    ensures { result ≡ marked_in tag slot }
{
    (slot != 0 && slot / MARKS == tag % SHORTS).then_some(slot % MARKS)
}

/// Whether a slot among these may have a mark that was put under this tag, or under one of the same last bits. It looks at
/// all, which is quicker than to stop at the first.
pub(crate) fn may_lead(slots: &[u64], tag: u64) -> bool
    ensures { (p : ℕ → Bool) → IsTrue (list_any (slot_leads tag p) slots.now) → IsTrue result }
{
    let short = tag % SHORTS;
    let mut may = false;
    for slot in slots {
        if *slot / MARKS == short {
            may = true;
        }
    }
    may
}

/// The slot of a mark that is put under a tag. None where the mark would not be read in it again: it is
/// too large, or all bits are 0. There is no other slot of it under this tag.
fn slot_of(tag: u64, mark: u64) -> Option<u64>
    ensures read { IfSome result (λ slot. marked_in tag slot ≡ Some mark) }
    ensures only { (s : ℕ) → IsTrue (slot_leads tag (λ m. m == mark) s) → result ≡ Some s }
{
    let slot = (tag % SHORTS).wrapping_mul(MARKS).wrapping_add(mark);
    (mark_in(slot, tag) == Some(mark)).then_some(slot)
}

/// Which of so many buckets is the first one of a tag with these last bits.
fn first_of(short: u64, count: usize) -> usize
    ensures { result ≡ first_place short count }
{
    (short.wrapping_mul(count as u64) / SHORTS) as usize
}

/// Which one is its second.
fn second_of(short: u64, count: usize) -> usize
    ensures { result ≡ second_place short count }
{
    first_of(short.wrapping_mul(SCRAMBLE) % SHORTS, count)
}

// ---- buckets

/// The slots of a bucket, none where there is no such bucket.
fn slots_at(buckets: &Vec<[u64; WIDTH]>, at: usize) -> &[u64]
    ensures { result.now ≡ bucket_at buckets.now.items at }
{
    match buckets.get(at) {
        Some(bucket) => bucket,
        None => &[],
    }
}

/// How many slots of a bucket are empty.
fn free_at(buckets: &Vec<[u64; WIDTH]>, at: usize) -> usize {
    // A plain loop becomes a few instructions for many slots, which an iterator with a test does not.
    let mut free = 0usize;
    for slot in slots_at(buckets, at) {
        if *slot == 0 {
            free = free.wrapping_add(1);
        }
    }
    free
}

/// Where the first slot stands that is as said.
fn place_in(slots: &[u64], slot: u64) -> Option<usize>
    ensures { result ≡ position (λ s. s == slot) slots.now }
{
    slots.iter().position(|s| *s == slot)
}

/// Replaces the first slot of a bucket that is as said by another, and answers whether there was one. Where
/// there was none, all are as they were.
fn replace_in(bucket: &mut [u64; WIDTH], was: u64, slot: u64) -> bool
    ensures left { (q : ℕ → Bool) → IsFalse (q was) → IsTrue (list_any q bucket.old) → IsTrue (list_any q bucket.new) }
    ensures there { IsTrue result → (q : ℕ → Bool) → IsTrue (q slot) → IsTrue (list_any q bucket.new) }
    ensures taken { taken_in bucket.new + (if result then counted was else 0) ≡ taken_in bucket.old + (if result then counted slot else 0) }
    ensures none { IsFalse result → (bucket.new ≡ bucket.old) × IsFalse (list_any (λ s. s == was) bucket.old) }
{
    match place_in(bucket, was) {
        Some(at) => {
            bucket[at] = slot;
            true
        }
        None => false,
    }
}

/// The same in the bucket at a place.
fn replace_at(buckets: &mut Vec<[u64; WIDTH]>, at: usize, was: u64, slot: u64) -> bool
    ensures count { length buckets.new.items ≡ length buckets.old.items }
    ensures left { (i : ℕ) (q : ℕ → Bool) → IsFalse (q was) → IsTrue (list_any q (bucket_at buckets.old.items i))
        → IsTrue (list_any q (bucket_at buckets.new.items i)) }
    ensures there { IsTrue result → (q : ℕ → Bool) → IsTrue (q slot) → IsTrue (list_any q (bucket_at buckets.new.items at)) }
    ensures taken { sum_by taken_in buckets.new.items + (if result then counted was else 0)
        ≡ sum_by taken_in buckets.old.items + (if result then counted slot else 0) }
    ensures none { IsFalse result → (buckets.new.items ≡ buckets.old.items) × IsFalse (list_any (λ s. s == was) (bucket_at buckets.old.items at)) }
{
    match buckets.get_mut(at) {
        Some(bucket) => replace_in(bucket, was, slot),
        None => false,
    }
}

/// Puts what stands in a slot into a free slot of the emptier one of its buckets, or its mark with the
/// older ones where both are full. There is at most one mark more. It takes no memory.
fn put_slot(buckets: &mut Vec<[u64; WIDTH]>, older: &mut Vec<u64>, slot: u64)
    requires { vec_len older.old < vec_capacity older.old }
    ensures count { length buckets.new.items ≡ length buckets.old.items }
    ensures leads { (t : ℕ) (p : ℕ → Bool) → IsTrue (leads_in buckets.old.items older.old.items t p || slot_leads t p slot)
        → IsTrue (leads_in buckets.new.items older.new.items t p) }
    ensures marks { marks_in buckets.new.items older.new.items ≤ marks_in buckets.old.items older.old.items + 1 }
{
    let count = buckets.len();
    let first = first_of(slot / MARKS, count);
    let second = second_of(slot / MARKS, count);
    let put = if free_at(buckets, first) < free_at(buckets, second) {
        replace_at(buckets, second, 0, slot)
    } else {
        replace_at(buckets, first, 0, slot)
    };
    if !put {
        match older.push(slot % MARKS) {
            Ok(()) => (),
            Err(_) => unreachable!(),
        }
    }
}

/// Empties the first slot of its two buckets that is as said, and answers whether there was one.
fn drop_slot(buckets: &mut Vec<[u64; WIDTH]>, slot: u64) -> bool
    ensures count { length buckets.new.items ≡ length buckets.old.items }
    ensures left { (i : ℕ) (q : ℕ → Bool) → IsFalse (q slot) → IsTrue (list_any q (bucket_at buckets.old.items i))
        → IsTrue (list_any q (bucket_at buckets.new.items i)) }
    ensures taken { sum_by taken_in buckets.new.items + (if result then counted slot else 0) ≡ sum_by taken_in buckets.old.items }
    ensures none { IsFalse result
        → IsFalse (list_any (λ s. s == slot) (bucket_at buckets.old.items (first_place (slot / MARKS) (length buckets.old.items))))
        × IsFalse (list_any (λ s. s == slot) (bucket_at buckets.old.items (second_place (slot / MARKS) (length buckets.old.items)))) }
{
    let count = buckets.len();
    replace_at(buckets, first_of(slot / MARKS, count), slot, 0)
        || replace_at(buckets, second_of(slot / MARKS, count), slot, 0)
}

/// Makes half as many buckets more as there are, and puts what stands in them anew. After an `Err` all is as
/// it was.
fn widen(buckets: &mut Vec<[u64; WIDTH]>, older: &mut Vec<u64>) -> Result<(), NoMemory>
    ensures leads { (t : ℕ) (p : ℕ → Bool) → IsTrue (leads_in buckets.old.items older.old.items t p)
        → IsTrue (leads_in buckets.new.items older.new.items t p) }
    ensures marks { marks_in buckets.new.items older.new.items ≤ marks_in buckets.old.items older.old.items }
    ensures count { length buckets.new.items ≤ length buckets.old.items + (length buckets.old.items / 2 + 1) }
{
    let count = buckets.len();
    let alloc = *buckets.allocator();
    let more = count.saturating_add(count / 2 + 1);
    let mut wider = Vec::with_capacity(alloc, more)?;
    wider.resize(more, [0; WIDTH])?;
    let mut over = Vec::new(alloc);
    spread(buckets, &mut wider, &mut over)?;
    older.append(&mut over)?;
    *buckets = wider;
    Ok(())
}

/// Puts what stands in some buckets into others, and the marks that find both theirs full with the older ones.
fn spread(
    buckets: &Vec<[u64; WIDTH]>,
    wider: &mut Vec<[u64; WIDTH]>,
    older: &mut Vec<u64>,
) -> Result<(), NoMemory>
    ensures leads { OnOk result ((i t : ℕ) (p : ℕ → Bool) → IsTrue (list_any (slot_leads t p) (bucket_at buckets.now.items i))
        → IsTrue (leads_in wider.new.items older.new.items t p)) }
    ensures marks { OnOk result (marks_in wider.new.items older.new.items
        ≤ marks_in wider.old.items older.old.items + sum_by taken_in buckets.now.items) }
    ensures count { length wider.new.items ≡ length wider.old.items }
{
    for bucket in buckets {
        spread_bucket(bucket, wider, older)?;
    }
    Ok(())
}

/// Puts what stands in a bucket into others, likewise.
fn spread_bucket(
    bucket: &[u64; WIDTH],
    wider: &mut Vec<[u64; WIDTH]>,
    older: &mut Vec<u64>,
) -> Result<(), NoMemory>
    ensures kept { (t : ℕ) (p : ℕ → Bool) → IsTrue (leads_in wider.old.items older.old.items t p)
        → IsTrue (leads_in wider.new.items older.new.items t p) }
    ensures leads { OnOk result ((t : ℕ) (p : ℕ → Bool) → IsTrue (list_any (slot_leads t p) bucket.now)
        → IsTrue (leads_in wider.new.items older.new.items t p)) }
    ensures marks { OnOk result (marks_in wider.new.items older.new.items ≤ marks_in wider.old.items older.old.items + taken_in bucket.now) }
    ensures count { length wider.new.items ≡ length wider.old.items }
{
    for slot in bucket {
        if *slot != 0 {
            older.reserve(1)?;
            put_slot(wider, older, *slot);
        }
    }
    Ok(())
}

// ---- tags

/// The tag of a request: the last sixteen bytes of its scrip text as a number, whose least byte is
/// the first, or those of its signature where it has no scrip text, modulo the number of tags; 0 where
/// it has neither, or the text is shorter. They are digits of a certificate or of a signature, so that
/// requests hardly ever share a tag, and nobody can make many that do.
pub(crate) fn tag_of(q: &Request<'_>) -> u64
    ensures { result ≡ request_tag (asked_of q.now) }
{
    match q.scrip {
        Some(text) => tag_of_text(text),
        None => match q.sign {
            Some(text) => tag_of_text(text),
            None => 0,
        },
    }
}

/// The tag of a request with this text.
fn tag_of_text(text: &[u8]) -> u64
    ensures { result ≡ text_tag text.now }
{
    match text.last_chunk::<16>() {
        Some(last) => (u128::from_le_bytes(*last) % TAGS) as u64,
        None => 0,
    }
}
