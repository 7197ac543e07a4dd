ghost use Rattle.std.specs.Prelude.{◌≡◌, ◌↔◌, IsTrue};
ghost use Rattle.mc_records.specs.Chains.{Tells, is_switch};
ghost use Rattle.mc_records.specs.Entry.{moment_of};
ghost use Rattle.mc_records.specs.Views.{entry};

use crate::piece_list::PieceList;
use crate::terms::RecordTerms;
use mc_base::Moment;
use scrip_form::Id;

/// What was sold for an accepted piece.
#[derive(Clone, Copy, Drop)]
pub enum RecordDeed {
    /// The goods of the target.
    Goods,
    /// Scrip of another house, which was bought and kept where `stock` says so, and else made under a
    /// licence; `id` is its identity.
    Sale { stock: bool, id: Id },
    /// Credit in an account, which has this balance after it.
    Credit { balance: u64 },
}

/// What a site that is a house is founded with.
#[derive(Clone, Copy, Drop)]
pub struct SiteTerms<'a> {
    /// How long a request gets its first reply again, 60 to 86,400 seconds.
    pub keep: u32,
    /// What a sale costs beside the value sold: 0 at a vendor, at most 2^40 at a broker.
    pub fee: u64,
    /// Whether a piece is taken without a signature.
    pub clear: bool,
    /// The terms of its own scrip, which are issuer 0's.
    pub terms: RecordTerms<'a>,
}

/// An entry of a history, of which nothing is ever changed. Its texts, without their length, and its
/// secrets are borrowed. Names, targets and scrip texts are those of `scrip_form`; amounts and values are
/// 1 to 2^40 units; keys, secrets and signatures are 16 bytes. A value outside its range has no payload.
#[derive(Clone, Copy, Drop)]
pub enum Record<'a> {
    /// The first entry: whose history it is. The kind is 0 for a vendor, 1 for a broker, 2 for a
    /// wallet, which alone is no house.
    Site {
        moment: Moment,
        kind: u8,
        name: &'a [u8],
        house: Option<SiteTerms<'a>>,
    },
    /// Terms of an issuer above 0, which a vendor takes scrip of.
    Terms {
        moment: Moment,
        terms: RecordTerms<'a>,
    },
    /// Goods on sale: what is given for a target from now on. The kind of contents is below 3; they
    /// are at most 65,536 bytes.
    Goods {
        moment: Moment,
        target: &'a [u8],
        price: u64,
        kind: u8,
        contents: &'a [u8],
    },
    /// A piece accepted for a target, the identity of its change and what was sold.
    Accept {
        moment: Moment,
        scrip: &'a [u8],
        target: &'a [u8],
        sign: Option<[u8; 16]>,
        price: u64,
        change: Option<Id>,
        deed: RecordDeed,
    },
    /// Pieces made to be sold elsewhere: 1 to 256 of one value, whose identities follow the first.
    Mint {
        moment: Moment,
        reference: &'a [u8],
        count: u16,
        value: u64,
        first: Id,
    },
    /// A new account with its key.
    Account {
        moment: Moment,
        name: &'a [u8],
        key: [u8; 16],
    },
    /// Money paid in to an account.
    Deposit {
        moment: Moment,
        name: &'a [u8],
        amount: u64,
        reference: &'a [u8],
    },
    /// Money paid out of an account.
    Withdraw {
        moment: Moment,
        name: &'a [u8],
        amount: u64,
        reference: &'a [u8],
    },
    /// A piece drawn from an account.
    Draw {
        moment: Moment,
        target: &'a [u8],
        sign: [u8; 16],
        drawn: Id,
    },
    /// Leave to make a vendor's scrip, under terms of an issuer above 0.
    Licence {
        moment: Moment,
        vendor: &'a [u8],
        terms: RecordTerms<'a>,
    },
    /// Pieces of a vendor that were bought to be sold.
    Stock {
        moment: Moment,
        vendor: &'a [u8],
        pieces: PieceList<'a>,
    },
    /// Pieces that a wallet was given.
    Got {
        moment: Moment,
        pieces: PieceList<'a>,
    },
    /// A request that a wallet is to send: `ask` is 0 for goods, 1 to buy, 2 to draw; the secret is
    /// that of the piece, or the key of the account.
    Pend {
        moment: Moment,
        ask: u8,
        peer: &'a [u8],
        target: &'a [u8],
        scrip: Option<&'a [u8]>,
        secret: [u8; 16],
    },
    /// What the request of that Pend entry cost, its change, and the piece that it bought.
    Done {
        moment: Moment,
        number: u64,
        price: u64,
        change: Option<&'a [u8]>,
        got: Option<(&'a [u8], [u8; 16])>,
    },
    /// The number of the refusal that the request of that Pend entry got.
    Refused {
        moment: Moment,
        number: u64,
        refusal: u16,
    },
    /// The series of a vendor's issuer have version 2 from this epoch on, which is below 2^24.
    Upgrade {
        moment: Moment,
        vendor: &'a [u8],
        issuer: u8,
        from: u32,
    },
    /// The entries behind this one carry chains; this is the chain of those before it.
    Switch {
        moment: Moment,
        chain: [u8; 32],
    },
    /// What an operator notes under a tag, which is a name: at most 65,536 bytes.
    Note {
        moment: Moment,
        tag: &'a [u8],
        bytes: &'a [u8],
    },
}

impl Record<'_> {
    /// The moment of the entry.
    pub fn moment(&self) -> Moment
        ensures { result ≡ moment_of (entry self.now) }
    {
        match self {
            Record::Site { moment, .. }
            | Record::Terms { moment, .. }
            | Record::Goods { moment, .. }
            | Record::Accept { moment, .. }
            | Record::Mint { moment, .. }
            | Record::Account { moment, .. }
            | Record::Deposit { moment, .. }
            | Record::Withdraw { moment, .. }
            | Record::Draw { moment, .. }
            | Record::Licence { moment, .. }
            | Record::Stock { moment, .. }
            | Record::Got { moment, .. }
            | Record::Pend { moment, .. }
            | Record::Done { moment, .. }
            | Record::Refused { moment, .. }
            | Record::Upgrade { moment, .. }
            | Record::Switch { moment, .. }
            | Record::Note { moment, .. } => *moment,
        }
    }

    /// Whether it is a Switch.
    pub fn is_switch(&self) -> bool
        ensures { result ≡ is_switch (entry self.now) }
    {
        matches!(self, Record::Switch { .. })
    }

    /// Whether it tells this chain, where it is a Switch. Of any other entry that is true.
    pub fn tells(&self, chain: &[u8; 32]) -> bool
        ensures { IsTrue result ↔ Tells chain.now (entry self.now) }
    {
        match self {
            Record::Switch { chain: told, .. } => told.as_slice() == chain.as_slice(),
            _ => true,
        }
    }
}

/// The bytes are no payload.
#[derive(Clone, Copy, Debug, PartialEq, Eq)]
pub struct RecordFault {
    /// The first byte of the first field that is malformed or not whole, or, where a whole payload is
    /// followed by more bytes, that payload's length.
    pub place: usize,
}
