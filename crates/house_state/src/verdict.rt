ghost use Rattle.std.specs.Prelude.{◌≡◌};
ghost use Rattle.house_state.specs.HouseState.{change_worth, pieces_size};
ghost use Rattle.house_state.specs.Verdicts.{change_of, fresh_of, payload_of, price_of};

use kept_replies::{Deed, KeptNumber};
use mc_base::Amount;
use mc_requests::Refusal;
use scrip_form::{Id, Name, ScripRef};
use spent_windows::Fresh;

/// What a house says of a request, before it enters anything.
#[derive(Drop)]
pub enum Verdict {
    /// It is refused.
    Refused(Refusal),
    /// It was accepted within the keeping time, by the entry of this number, from 0.
    Again(u64),
    /// It is to be accepted.
    Take,
}

/// Why a request makes no entry.
#[derive(Drop)]
pub enum NotAuthorized {
    Refused(Refusal),
    Again(KeptNumber),
}

/// What a request brings whose piece may be spent by it: the signature, where it has one, and the proof
/// that the windows were asked for the piece's identity.
#[derive(Drop)]
pub(crate) struct Spendable {
    pub(crate) sign: Option<[u8; 16]>,
    pub(crate) fresh: Fresh,
}

/// What an entry for a piece says beside the moment and the target, with the secret of the piece's
/// customer, the length of the payload, and the proof that the windows were asked for the piece's
/// identity.
#[derive(Drop)]
pub struct Authorization<'q, 'a> {
    pub scrip: &'q ScripRef<'a>,
    pub secret: [u8; 16],
    pub sign: Option<[u8; 16]>,
    pub price: u64,
    pub change: Option<Id>,
    pub deed: Deed,
    pub payload: u64,
    pub fresh: Fresh,
}

/// What an entry for a draw says beside the moment and the target, with the key of the account, the amount,
/// and the length of the payload. Its piece is made when it is entered.
#[derive(Drop)]
pub struct DrawAuthorization {
    pub key: [u8; 16],
    pub sign: [u8; 16],
    pub amount: Amount,
    pub id: Id,
    pub payload: u64,
}

/// What the entry of a request says, by the column of the answer that the request belongs to.
#[derive(Drop)]
pub enum Authorized<'q, 'a> {
    Scrip(Authorization<'q, 'a>),
    Draw(DrawAuthorization),
}

impl<'q, 'a> Authorized<'q, 'a> {
    /// The length of the payload of the entry.
    pub fn payload(&self) -> u64
        ensures { result ≡ payload_of self.now }
    {
        match self {
            Authorized::Scrip(a) => a.payload,
            Authorized::Draw(d) => d.payload,
        }
    }

    /// What the entry takes for what it brings. A draw takes nothing.
    pub fn price(&self) -> u64
        ensures { result ≡ price_of self.now }
    {
        match self {
            Authorized::Scrip(a) => a.price,
            Authorized::Draw(_) => 0,
        }
    }

    /// The worth of the change that the entry gives.
    pub fn change_worth(&self) -> u64
        ensures { result ≡ change_of self.now }
    {
        match self {
            Authorized::Scrip(a) => a.change_worth(),
            Authorized::Draw(_) => 0,
        }
    }

    /// The proof that the windows were asked for the piece, where one is accepted.
    pub fn into_fresh(self) -> Option<Fresh>
        ensures { result ≡ fresh_of self.entry }
    {
        match self {
            Authorized::Scrip(a) => {
                let Authorization { fresh, .. } = a;
                Some(fresh)
            }
            Authorized::Draw(_) => None,
        }
    }
}

impl<'q, 'a> Authorization<'q, 'a> {
    /// What the piece is worth above the price, where there is change.
    pub(crate) fn change_worth(&self) -> u64
        ensures { result ≡ change_worth self.now.price self.now.scrip.now.piece.value self.now.change }
    {
        match self.change {
            Some(_) => {
                let value = self.scrip.piece().value();
                value.get().saturating_sub(self.price)
            }
            None => 0,
        }
    }

    /// How many bytes the texts of the pieces have that are kept for its reply, in a house of this name:
    /// those of the change are the name of the house and the properties of the piece.
    pub(crate) fn pieces_size(&self, name: &Name) -> usize
        ensures { result ≡ pieces_size name.now self.now.scrip.now.piece self.now }
    {
        let change = match self.change {
            Some(_) => name.bytes().len() + self.scrip.piece().props().bytes().len(),
            None => 0,
        };
        change + self.deed.size()
    }
}
