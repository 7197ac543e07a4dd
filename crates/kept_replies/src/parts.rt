//! What is kept of a reply, by as many bytes as it needs: its parts lie one behind the other, and beside them
//! stands where each ends.

ghost use Rattle.std.specs.Prelude.{◌≡◌, ◌+◌, ◌≤◌, ◌<◌, ◌^◌, length, vec_len, vec_capacity};
ghost use Rattle.mc_requests.specs.Requests.{seen, asked_of};
ghost use Rattle.kept_replies.specs.Requests.{text_size};
ghost use Rattle.kept_replies.specs.Kept.{deed_size, entry_size};
ghost use Rattle.kept_replies.specs.Parts.{StaysIn, number_at, deed_end, deed_in, DeedIsWithin, asked_in, AskedIsWithin, entry_end, entry_in, EntryIsWithin};

use crate::change::ChangeParts;
use crate::digits::{number_of, put_number};
use crate::sold::{put_sold, sold_of};
use crate::span::{put, put_if, text_at};
use crate::{Deed, KeptEntry};
use mc_base::Moment;
use mc_requests::Request;
use scrip_form::ScripRef;

/// The most bytes that an entry takes beside its texts: its moment, its price, its secret, its change as a text,
/// and the number of its deed.
pub(crate) const MOST_BESIDE: usize = 333;

/// Where a deed ends: a number, or the text of a piece with its certificate and the secret behind it.
#[derive(Clone, Copy, Drop)]
pub(crate) enum DeedParts {
    Goods { end: u16 },
    Sale { stock: bool, end: u16 },
    Credit { end: u16 },
    Draw { end: u16 },
}

/// Where the moment, the price, the change and the deed end. The secret stands behind the price.
#[derive(Clone, Copy, Drop)]
pub(crate) struct EntryParts {
    pub(crate) moment: u8,
    pub(crate) price: u8,
    pub(crate) change: ChangeParts,
    pub(crate) deed: DeedParts,
}

/// Where the texts of a request end, and which of them are there.
#[derive(Clone, Copy, Drop)]
pub(crate) struct AskedParts {
    pub(crate) target: u16,
    pub(crate) scrip: u16,
    pub(crate) sign: u16,
    pub(crate) has_scrip: bool,
    pub(crate) has_sign: bool,
}

impl DeedParts {
    /// Puts a deed behind what the buffer holds.
    fn put(buffer: &mut Vec<u8>, deed: &Deed) -> DeedParts
        requires room { vec_len buffer.old + 8 + deed_size deed.now ≤ vec_capacity buffer.old }
        requires short { vec_len buffer.old + 8 + deed_size deed.now < 2 ^ 16 }
        ensures end { deed_end result ≡ vec_len buffer.new }
        ensures most { vec_len buffer.new ≤ vec_len buffer.old + 8 + deed_size deed.now }
        ensures capacity { vec_capacity buffer.old ≤ vec_capacity buffer.new }
        ensures stays { StaysIn buffer.old.items buffer.new.items }
        ensures deed { deed_in buffer.new.items (vec_len buffer.old) result ≡ deed.now }
        ensures within { DeedIsWithin buffer.new.items (vec_len buffer.old) result }
    {
        match deed {
            Deed::Goods { goods } => DeedParts::Goods {
                end: put_number(buffer, *goods),
            },
            Deed::Sale {
                piece,
                cert,
                secret,
                stock,
            } => DeedParts::Sale {
                stock: *stock,
                end: put_sold(buffer, piece, cert, secret),
            },
            Deed::Credit { balance } => DeedParts::Credit {
                end: put_number(buffer, *balance),
            },
            Deed::Draw {
                piece,
                cert,
                secret,
            } => DeedParts::Draw {
                end: put_sold(buffer, piece, cert, secret),
            },
        }
    }

    /// Where it ends.
    fn end(self) -> u16
        ensures { result ≡ deed_end self }
    {
        match self {
            DeedParts::Goods { end }
            | DeedParts::Sale { end, .. }
            | DeedParts::Credit { end }
            | DeedParts::Draw { end } => end,
        }
    }

    /// The deed.
    fn deed(self, bytes: &[u8], start: u16) -> Deed
        requires { DeedIsWithin bytes.now start self }
        ensures { result ≡ deed_in bytes.now start self }
    {
        match self {
            DeedParts::Goods { end } => Deed::Goods {
                goods: number_of(&bytes[start as usize..end as usize]),
            },
            DeedParts::Sale { stock, end } => {
                let (piece, cert, secret) = sold_of(bytes, start, end);
                Deed::Sale {
                    piece,
                    cert,
                    secret,
                    stock,
                }
            }
            DeedParts::Credit { end } => Deed::Credit {
                balance: number_of(&bytes[start as usize..end as usize]),
            },
            DeedParts::Draw { end } => {
                let (piece, cert, secret) = sold_of(bytes, start, end);
                Deed::Draw {
                    piece,
                    cert,
                    secret,
                }
            }
        }
    }
}

impl EntryParts {
    /// Puts what is kept of an entry, beside the scrip text of its request and what was read of it, into an empty
    /// buffer.
    pub(crate) fn put(
        buffer: &mut Vec<u8>,
        e: &KeptEntry,
        scrip: Option<&[u8]>,
        paid: Option<&ScripRef<'_>>,
    ) -> EntryParts
        requires empty { vec_len buffer.old ≡ 0 }
        requires room { MOST_BESIDE + entry_size e.now ≤ vec_capacity buffer.old }
        requires short { MOST_BESIDE + entry_size e.now < 2 ^ 16 }
        ensures end { entry_end result ≡ vec_len buffer.new }
        ensures most { vec_len buffer.new ≤ MOST_BESIDE + entry_size e.now }
        ensures capacity { vec_capacity buffer.old ≤ vec_capacity buffer.new }
        ensures entry { entry_in e.now.number buffer.new.items result (seen scrip.entry) ≡ e.now }
        ensures within { EntryIsWithin buffer.new.items result (seen scrip.entry) }
    {
        let moment = put_number(buffer, e.moment.seconds());
        let price = put_number(buffer, e.price);
        put(buffer, &e.secret);
        let change = ChangeParts::put(buffer, &e.change, scrip, paid);
        let deed = DeedParts::put(buffer, &e.deed);
        EntryParts {
            moment: moment as u8,
            price: price as u8,
            change,
            deed,
        }
    }

    /// Where it ends.
    pub(crate) fn end(self) -> u16
        ensures { result ≡ entry_end self }
    {
        self.deed.end()
    }

    /// The moment.
    pub(crate) fn moment(self, bytes: &[u8]) -> Moment
        requires order { self.moment ≤ length bytes.now }
        requires last { number_at bytes.now 0 self.moment < 2 ^ 35 }
        ensures { result ≡ number_at bytes.now 0 self.moment }
    {
        Moment::clamped(number_of(&bytes[..self.moment as usize]))
    }

    /// What is kept of the entry of this number, beside the scrip text of its request.
    pub(crate) fn entry(self, number: u64, bytes: &[u8], scrip: Option<&[u8]>) -> KeptEntry
        requires { EntryIsWithin bytes.now self (seen scrip) }
        ensures { result ≡ entry_in number bytes.now self (seen scrip.entry) }
    {
        let price = self.price as usize;
        let start = u16::from(self.price) + 16;
        let mut secret = [0; 16];
        secret.copy_from_slice(&bytes[price..price + 16]);
        KeptEntry {
            number,
            moment: self.moment(bytes),
            price: number_of(&bytes[self.moment as usize..price]),
            change: self.change.piece(bytes, start, scrip),
            secret,
            deed: self.deed.deed(bytes, self.change.end(start)),
        }
    }
}

impl AskedParts {
    /// Puts the texts of a request behind what the buffer holds.
    pub(crate) fn put(buffer: &mut Vec<u8>, q: &Request<'_>) -> AskedParts
        requires room { vec_len buffer.old + text_size (asked_of q.now) ≤ vec_capacity buffer.old }
        requires short { vec_len buffer.old + text_size (asked_of q.now) < 2 ^ 16 }
        ensures stays { StaysIn buffer.old.items buffer.new.items }
        ensures asked { asked_in buffer.new.items (vec_len buffer.old) result ≡ asked_of q.now }
        ensures within { AskedIsWithin (length buffer.new.items) (vec_len buffer.old) result }
    {
        let target = put(buffer, q.target);
        let scrip = put_if(buffer, q.scrip);
        let sign = put_if(buffer, q.sign);
        AskedParts {
            target,
            scrip,
            sign,
            has_scrip: q.scrip.is_some(),
            has_sign: q.sign.is_some(),
        }
    }

    /// The request.
    pub(crate) fn request<'a>(&self, bytes: &'a [u8], start: u16) -> Request<'a>
        requires { AskedIsWithin (length bytes.now) start self.now }
        ensures { asked_of result ≡ asked_in bytes.now start self.now }
    {
        Request {
            target: &bytes[start as usize..self.target as usize],
            scrip: text_at(self.has_scrip, bytes, self.target, self.scrip),
            sign: text_at(self.has_sign, bytes, self.scrip, self.sign),
        }
    }
}
