//! Reading one book.

ghost use Rattle.std.specs.Prelude.{◌≡◌, List, ℕ, Some};
ghost use Rattle.mc_outside.specs.DiskView.{OnlyRead};
ghost use Rattle.book_opening.specs.Opening.{CountedBy};
ghost use Rattle.audit_cmd.specs.OneBook.{read_disk};
ghost use Rattle.audit_cmd.specs.Reading.{kept_by, wallets_disk, ReadsHouse, ReadsWallet, ReadsBook};

use crate::reader::Reader;
use audit_sums::BookSums;
use book_opening::{Opener, open_book};
use broker_core::Desk;
use ledger_model::{BROKER_KIND, VENDOR_KIND};
use mc_base::NoMemory;
use mc_outside::Disk;
use mc_records::Record;
use mc_requests::Limits;
use scrip_journal::{HouseFault, LearnFault};
use std::alloc::Global;
use vendor_core::Shelf;
use wallet_core::open_wallet;

/// What reads a book, of the kind that its first entry tells.
#[derive(Drop)]
pub(crate) enum BookReader {
    Vendor(Reader<Shelf>),
    Broker(Reader<Desk>),
}

impl BookReader {
    /// What was kept of the book.
    fn into_sums(self) -> BookSums
        ensures { result ≡ kept_by self }
    {
        match self {
            BookReader::Vendor(reader) => reader.into_sums(),
            BookReader::Broker(reader) => reader.into_sums(),
        }
    }
}

/// Who opens a book to audit it.
#[derive(Clone, Copy, Drop)]
pub(crate) struct Auditor;

impl Opener for Auditor {
    ghost use Rattle.audit_cmd.specs.Reading.{auditor};
    ghost use Rattle.audit_cmd.specs.Notes.{site_first, tells_chain};

    type Learner = BookReader;

    ghost opener = { λ o. auditor };

    fn opens(&self, kind: u8) -> bool {
        kind <= BROKER_KIND
    }

    fn begin(self, alloc: Global, first: &Record<'_>) -> Result<BookReader, LearnFault> {
        match first {
            Record::Site {
                kind: VENDOR_KIND,
                ..
            } => match Reader::begin(alloc, first, Shelf::new(alloc)) {
                Ok(reader) => Ok(BookReader::Vendor(reader)),
                Err(NoMemory) => Err(LearnFault::NoMemory),
            },
            _ => match Reader::begin(alloc, first, Desk::new(alloc)) {
                Ok(reader) => Ok(BookReader::Broker(reader)),
                Err(NoMemory) => Err(LearnFault::NoMemory),
            },
        }
    }

    fn is_told(r: &Record<'_>, before: &[u8; 32]) -> bool {
        r.tells(before)
    }

    fn learn(reader: &mut BookReader, r: &Record<'_>) -> Result<(), LearnFault> {
        match reader {
            BookReader::Vendor(reader) => reader.learn(r),
            BookReader::Broker(reader) => reader.learn(r),
        }
    }

    ghost site_first = { λ o. site_first };

    ghost told_first = { λ o. tells_chain };
}

/// Reads the book that the disk has, as that of a vendor or a broker, and keeps of its entries what an audit needs.
///
/// `NotJournal` comes where the disk does not begin with the header of a journal, `BadRecord` where its bytes can't
/// stand, from the place told on, and `BadChain` where an entry's chain at the place told is another than the one computed.
/// `Unlawful` tells the place of the gate of the first entry that may not follow those
/// before it, and 8 where there is no entry at all. `WrongKind` comes where the book is a wallet's. `Disk` comes only where
/// the disk failed. Nothing is written, and the disk comes back.
fn read_house<D: Disk>(alloc: Global, disk: D) -> Result<(D, BookSums), HouseFault<D>>
    ensures moved { D.disk_moved disk (read_disk result) }
    ensures read { OnlyRead (D.disk disk) (D.disk (read_disk result)) }
    ensures exact { (x : List ℕ) → (D.disk disk).contents ≡ Some x → ReadsHouse x result }
    ensures fault { CountedBy result (D.disk disk).faults (D.disk (read_disk result)).faults }
{
    match open_book(alloc, disk, Limits::FULL, Auditor) {
        Ok((journal, reader)) => Ok((journal.close(), reader.into_sums())),
        Err(fault) => Err(fault),
    }
}

/// Reads the book that the disk has, as that of a wallet. The faults are as those of a house's book, and `WrongKind` comes
/// where it is one.
fn read_wallet<D: Disk>(alloc: Global, disk: D) -> Result<D, HouseFault<D>>
    ensures moved { D.disk_moved disk (wallets_disk result) }
    ensures read { OnlyRead (D.disk disk) (D.disk (wallets_disk result)) }
    ensures exact { (x : List ℕ) → (D.disk disk).contents ≡ Some x → ReadsWallet x result }
    ensures fault { CountedBy result (D.disk disk).faults (D.disk (wallets_disk result)).faults }
{
    match open_wallet(alloc, disk, Limits::FULL) {
        Ok(wallet) => Ok(wallet.close()),
        Err(fault) => Err(fault),
    }
}

/// Reads the book that the disk has, of a house or of a wallet, and keeps of a house's what an audit needs, and nothing of
/// a wallet's. Nothing is written, and the disk comes back.
///
/// `NotJournal` comes where the disk does not begin with the header of a journal, `BadRecord` where its bytes can't
/// stand, from the place told on, and `BadChain` where an entry's chain at the place told is another than the one computed.
/// `Unlawful` tells the place of the gate of the first entry that may not follow those
/// before it, by the laws of its kind of site, and 8 where there is no entry at all. `Disk` comes only where the disk
/// failed. No other fault comes but `NoMemory`.
pub(crate) fn read_book<D: Disk>(
    alloc: Global,
    disk: D,
) -> Result<(D, Option<BookSums>), HouseFault<D>>
    ensures moved { D.disk_moved disk (read_disk result) }
    ensures read { OnlyRead (D.disk disk) (D.disk (read_disk result)) }
    ensures exact { (x : List ℕ) → (D.disk disk).contents ≡ Some x → ReadsBook x result }
    ensures fault { CountedBy result (D.disk disk).faults (D.disk (read_disk result)).faults }
{
    match read_house(alloc, disk) {
        Ok((disk, sums)) => Ok((disk, Some(sums))),
        Err(fault) => match fault {
            HouseFault::WrongKind(disk) => match read_wallet(alloc, disk) {
                Ok(disk) => Ok((disk, None)),
                Err(fault) => Err(fault),
            },
            fault => Err(fault),
        },
    }
}
