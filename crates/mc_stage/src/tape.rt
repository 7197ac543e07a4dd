ghost use Rattle.std.specs.Prelude.{◌≡◌, ◌+◌, ◌≤◌, ◌^◌, length, OnOk, OnErr, IfOk};
ghost use Rattle.mc_outside.specs.Bytes.{put};
ghost use Rattle.mc_stage.specs.Lists.{unsynced};

use crate::lasts::{add_to_last, drop_from_last};
use mc_base::NoMemory;
use std::alloc::Global;
use std::marker::Model;

/// A call that left something behind.
#[derive(Drop)]
pub(crate) enum Event {
    Put(u64, Vec<u8>),
    Cut(u64),
    Sync,
    Take,
    Hear(Vec<u8>),
    End,
    Send(Vec<u8>),
}

/// The record of all calls, with what they come to. Contracts see the contents at first and the
/// calls since; the rest is kept beside them.
#[derive(Drop)]
pub(crate) struct Tape {
    alloc: Global,
    base: Vec<u8>,
    bytes: Vec<u8>,
    kept: Vec<u8>,
    marks: Vec<bool>,
    sent: Vec<Vec<u8>>,
    at_end: bool,
    log: Vec<Event>,
}

impl Model for Tape {
    ghost use Rattle.std.specs.Prelude.{map};
    ghost use Rattle.mc_stage.specs.Tape.{Played, IsPlayed, entry_of};

    ghost Value = { Played };

    ghost view = { λ t. record { first = t.base.items; calls = map entry_of t.log.items } };

    ghost invariant = { λ t. IsPlayed (record { first = t.base.items; calls = map entry_of t.log.items }) t.bytes.items t.kept.items t.marks.items (map (λ v. v.items) t.sent.items) t.at_end };
}

/// The bytes after a write.
fn written(alloc: Global, old: &[u8], at: usize, bytes: &[u8]) -> Result<Vec<u8>, NoMemory>
    requires { at + length bytes.now ≤ 2 ^ 40 }
    ensures { IfOk result (λ v. v.items ≡ put at bytes.now old.now) }
{
    let mut next = if at < old.len() {
        old[..at].to_vec(alloc)?
    } else {
        old.to_vec(alloc)?
    };
    let gap = vec![in alloc; 0u8; at - next.len()]?;
    next.extend_from_slice(&gap)?;
    next.extend_from_slice(bytes)?;
    if at + bytes.len() < old.len() {
        next.extend_from_slice(&old[at + bytes.len()..])?;
    }
    Ok(next)
}

/// The marks after a write: what lies in its range or in the gap before it isn't synced.
fn marked(alloc: Global, old: &[bool], at: usize, count: usize) -> Result<Vec<bool>, NoMemory>
    requires { at + count ≤ 2 ^ 40 }
    ensures { IfOk result (λ v. v.items ≡ unsynced at count old.now) }
{
    let mut next = if at < old.len() {
        old[..at].to_vec(alloc)?
    } else {
        old.to_vec(alloc)?
    };
    let range = vec![in alloc; false; at + count - next.len()]?;
    next.extend_from_slice(&range)?;
    if at + count < old.len() {
        next.extend_from_slice(&old[at + count..])?;
    }
    Ok(next)
}

impl Tape {
    ghost use Rattle.std.specs.Prelude.{List, [], ◌∷◌, ◌++◌, IsTrue, length, slice_get, map, option_map};
    ghost use Rattle.mc_outside.specs.LinkView.{Session};
    ghost use Rattle.mc_stage.specs.Model.{Put, Cut, Sync, Take, Hear, End, Send, last_to_end};
    ghost use Rattle.mc_stage.specs.Tape.{Played, played, push_call, sent_of};

    pub(crate) fn new(alloc: Global, base: Vec<u8>) -> Result<Tape, NoMemory>
        ensures { IfOk result (λ t. t ≡ record { first = base.items; calls = [] }) }
    {
        let bytes = base.to_vec(alloc)?;
        let kept = base.to_vec(alloc)?;
        let marks = vec![in alloc; true; base.len()]?;
        Ok(Tape {
            alloc,
            base,
            bytes,
            kept,
            marks,
            sent: Vec::new(alloc),
            at_end: false,
            log: Vec::new(alloc),
        })
    }

    /// What a read gives.
    pub(crate) fn bytes(&self) -> &[u8]
        ensures { result.now ≡ (played self.now).contents }
    {
        &self.bytes
    }

    /// What the last sync left.
    pub(crate) fn kept(&self) -> &[u8]
        ensures { result.now ≡ (played self.now).synced }
    {
        &self.kept
    }

    /// Of each byte whether it is synced.
    pub(crate) fn marks(&self) -> &[bool]
        ensures { result.now ≡ (played self.now).marks }
    {
        &self.marks
    }

    /// The bytes sent on one link; None where fewer were taken.
    pub(crate) fn sent(&self, link: usize) -> Option<&[u8]>
        ensures { option_map (λ b. b.now) result ≡ option_map (λ s. s.sent) (slice_get (played self.now).sessions link) }
    {
        match self.sent.get(link) {
            Some(sent) => Some(sent.as_slice()),
            None => None,
        }
    }

    /// How many links were taken.
    pub(crate) fn links(&self) -> u64
        ensures { result ≡ length (played self.now).sessions }
    {
        self.sent.len() as u64
    }

    /// Whether the last link was read to its end.
    pub(crate) fn at_end(&self) -> bool
        ensures { result ≡ last_to_end (played self.now).sessions }
    {
        self.at_end
    }

    pub(crate) fn write(&mut self, at: u64, bytes: &[u8]) -> Result<(), NoMemory>
        requires { at + length bytes.now ≤ 2 ^ 40 }
        ensures ok { OnOk result (self.new ≡ push_call (Put at bytes.now) self.old) }
        ensures err { OnErr result (self.new ≡ self.old) }
    {
        let next = written(self.alloc, &self.bytes, at as usize, bytes)?;
        let marks = marked(self.alloc, &self.marks, at as usize, bytes.len())?;
        let copy = bytes.to_vec(self.alloc)?;
        self.log.push(Event::Put(at, copy))?;
        self.bytes = next;
        self.marks = marks;
        Ok(())
    }

    pub(crate) fn cut(&mut self, size: u64) -> Result<(), NoMemory>
        ensures ok { OnOk result (self.new ≡ push_call (Cut size) self.old) }
        ensures err { OnErr result (self.new ≡ self.old) }
    {
        self.log.push(Event::Cut(size))?;
        self.bytes.truncate(size as usize);
        self.marks.truncate(size as usize);
        Ok(())
    }

    pub(crate) fn sync(&mut self) -> Result<(), NoMemory>
        ensures ok { OnOk result (self.new ≡ push_call Sync self.old) }
        ensures err { OnErr result (self.new ≡ self.old) }
    {
        let kept = self.bytes.to_vec(self.alloc)?;
        let marks = vec![in self.alloc; true; self.bytes.len()]?;
        self.log.push(Event::Sync)?;
        self.kept = kept;
        self.marks = marks;
        Ok(())
    }

    pub(crate) fn take_link(&mut self) -> Result<(), NoMemory>
        ensures ok { OnOk result (self.new ≡ push_call Take self.old) }
        ensures err { OnErr result (self.new ≡ self.old) }
    {
        self.sent.push(Vec::new(self.alloc))?;
        match self.log.push(Event::Take) {
            Ok(()) => {
                self.at_end = false;
                Ok(())
            }
            Err(_) => {
                self.sent.pop();
                Err(NoMemory)
            }
        }
    }

    pub(crate) fn hear(&mut self, bytes: &[u8]) -> Result<(), NoMemory>
        ensures ok { OnOk result (self.new ≡ push_call (Hear bytes.now) self.old) }
        ensures err { OnErr result (self.new ≡ self.old) }
    {
        let copy = bytes.to_vec(self.alloc)?;
        self.log.push(Event::Hear(copy))?;
        Ok(())
    }

    pub(crate) fn end(&mut self) -> Result<(), NoMemory>
        ensures ok { OnOk result (self.new ≡ push_call End self.old) }
        ensures err { OnErr result (self.new ≡ self.old) }
    {
        self.log.push(Event::End)?;
        self.at_end = !self.sent.is_empty();
        Ok(())
    }

    pub(crate) fn send(&mut self, bytes: &[u8]) -> Result<(), NoMemory>
        ensures ok { OnOk result (self.new ≡ push_call (Send bytes.now) self.old) }
        ensures err { OnErr result (self.new ≡ self.old) }
    {
        let copy = bytes.to_vec(self.alloc)?;
        add_to_last(&mut self.sent, bytes)?;
        match self.log.push(Event::Send(copy)) {
            Ok(()) => Ok(()),
            Err(_) => {
                drop_from_last(&mut self.sent, bytes.len());
                Err(NoMemory)
            }
        }
    }
}
