//! How the pieces and the kept requests of a wallet go on with its entries.

ghost use Rattle.std.specs.Prelude.{◌≡◌, ◌+◌, ◌<◌, ◌≤◌, ℕ, length, vec_len, vec_capacity, ◌∷◌, ◌++◌, [], Some, None, IfSome, option_map, option_to_list};
ghost use Rattle.scrip_form.specs.Scrip.{IsScripText};
ghost use Rattle.scrip_form.specs.Texts.{IsName, IsTarget};
ghost use Rattle.mc_records.specs.Entry.{Got, Pend, Done, Refused};
ghost use Rattle.mc_records.specs.PieceViews.{pieces_of};
ghost use Rattle.mc_requests.specs.Requests.{seen};
ghost use Rattle.mc_records.specs.Views.{held_of};
ghost use Rattle.ledger_model.specs.Histories.{History};
ghost use Rattle.wallet_model.specs.Holdings.{refused_state};
ghost use Rattle.wallet_model.specs.Follows.{IsWalletBook};
ghost use Rattle.wallet_book.specs.Holdings.{state_of};
ghost use Rattle.wallet_book.specs.Parts.{PartsRepresent, LearnsEntry};

use crate::holding::State;
use crate::kept::Kept;
use crate::parts::{Parts, bring_all, bring_if, put_in_state};
use crate::paying::{asks_to_draw, payment};
use mc_records::PieceList;
use scrip_form::{Name, Target};

impl Parts {
    /// Pieces that came. False exactly where one came before, or comes twice; then nothing is said of the parts.
    /// It takes no memory.
    pub(crate) fn learn_got(&mut self, pieces: &PieceList<'_>) -> bool
        requires { length (pieces_of pieces.now) ≤ self.old.holdings.room }
        ensures { (h : History) (m : ℕ) → IsWalletBook h
            → PartsRepresent self.old.holdings.list self.old.kept.items h
            → LearnsEntry self.new.holdings.list self.new.kept.items h (Got m (pieces_of pieces.now)) result }
    {
        let _count = pieces.count();
        bring_all(&mut self.holdings, pieces)
    }

    /// A request of the entry of this number. False exactly where the history does not allow it. It takes no
    /// memory.
    pub(crate) fn learn_pend(
        &mut self,
        number: u64,
        ask: u8,
        peer: &[u8],
        target: &[u8],
        scrip: Option<&[u8]>,
        secret: [u8; 16],
    ) -> bool
        requires peer { IsName peer.now }
        requires target { IsTarget target.now }
        requires room { vec_len self.old.kept < vec_capacity self.old.kept }
        ensures { (h : History) (m : ℕ) → IsWalletBook h
            → PartsRepresent self.old.holdings.list self.old.kept.items h → length h ≡ number
            → LearnsEntry self.new.holdings.list self.new.kept.items h (Pend m ask peer.now target.now (seen scrip.entry) secret) result }
    {
        match scrip {
            Some(text) => self.learn_payment(number, ask, peer, target, text, secret),
            None => self.learn_draw(number, ask, peer, target, secret),
        }
    }

    /// A request that pays with the piece of a text.
    fn learn_payment(
        &mut self,
        number: u64,
        ask: u8,
        peer: &[u8],
        target: &[u8],
        text: &[u8],
        secret: [u8; 16],
    ) -> bool
        requires peer { IsName peer.now }
        requires target { IsTarget target.now }
        requires room { vec_len self.old.kept < vec_capacity self.old.kept }
        ensures { (h : History) (m : ℕ) → IsWalletBook h
            → PartsRepresent self.old.holdings.list self.old.kept.items h → length h ≡ number
            → LearnsEntry self.new.holdings.list self.new.kept.items h (Pend m ask peer.now target.now (Some text.now) secret) result }
    {
        // What the pieces know of themselves.
        let _pieces = self.holdings.as_slice();
        let place = match payment(&self.holdings, ask, peer, target, text) {
            Some(place) => place,
            None => return false,
        };
        put_in_state(&mut self.holdings, Some(place), State::Pending);
        keep(
            &mut self.kept,
            number,
            ask,
            peer,
            target,
            Some(place),
            secret,
        );
        true
    }

    /// A request that pays with no piece.
    fn learn_draw(
        &mut self,
        number: u64,
        ask: u8,
        peer: &[u8],
        target: &[u8],
        secret: [u8; 16],
    ) -> bool
        requires peer { IsName peer.now }
        requires target { IsTarget target.now }
        requires room { vec_len self.old.kept < vec_capacity self.old.kept }
        ensures { (h : History) (m : ℕ) → IsWalletBook h
            → PartsRepresent self.old.holdings.list self.old.kept.items h → length h ≡ number
            → LearnsEntry self.new.holdings.list self.new.kept.items h (Pend m ask peer.now target.now None secret) result }
    {
        if ask < 2 {
            return false;
        }
        if !asks_to_draw(target) {
            return false;
        }
        keep(&mut self.kept, number, ask, peer, target, None, secret);
        true
    }

    /// The settlement of a request by its reply. False exactly where the history does not allow it; then
    /// nothing is said of the parts. It takes no memory.
    pub(crate) fn learn_done(
        &mut self,
        number: u64,
        change: Option<&[u8]>,
        got: Option<(&[u8], [u8; 16])>,
    ) -> bool
        requires change { IfSome change (λ text. IsScripText text.now) }
        requires got { IfSome got (λ p. IsScripText p.0.now) }
        requires room { length (option_to_list change) + length (option_to_list got) ≤ self.old.holdings.room }
        ensures { (h : History) (m price : ℕ) → IsWalletBook h
            → PartsRepresent self.old.holdings.list self.old.kept.items h
            → LearnsEntry self.new.holdings.list self.new.kept.items h (Done m number price (seen change.entry) (option_map held_of got.entry)) result }
    {
        // What the pieces know of themselves.
        let _pieces = self.holdings.as_slice();
        let kept = match self.settle(number, State::Used) {
            Some(kept) => kept,
            None => return false,
        };
        let secret = kept.secret;
        let change = with_secret(change, secret);
        if !bring_if(&mut self.holdings, change) {
            return false;
        }
        bring_if(&mut self.holdings, got)
    }

    /// The settlement of a request by a refusal of this number. False exactly where the history does not allow
    /// it. It takes no memory.
    pub(crate) fn learn_refused(&mut self, number: u64, refusal: u16) -> bool
        ensures { (h : History) (m : ℕ) → IsWalletBook h
            → PartsRepresent self.old.holdings.list self.old.kept.items h
            → LearnsEntry self.new.holdings.list self.new.kept.items h (Refused m number refusal) result }
    {
        // What the pieces know of themselves.
        let _pieces = self.holdings.as_slice();
        match self.settle(number, refused_state(refusal)) {
            Some(_) => true,
            None => false,
        }
    }
}

/// The number of `Expired`.
const EXPIRED: u16 = 26;

/// The number of `Spent`.
const SPENT: u16 = 27;

/// What a signed refusal of this number leaves the piece as that the request paid with: `Spent` disputed, `Expired` dead,
/// and any other held.
pub fn refused_state(refusal: u16) -> State
    ensures { state_of result ≡ refused_state refusal }
{
    match refusal {
        SPENT => State::Disputed,
        EXPIRED => State::Dead,
        _ => State::Held,
    }
}

/// Keeps a request behind the others, for which there is room. It takes no memory.
fn keep(
    kept: &mut Vec<Kept>,
    number: u64,
    ask: u8,
    peer: &[u8],
    target: &[u8],
    place: Option<usize>,
    secret: [u8; 16],
)
    requires peer { IsName peer.now }
    requires target { IsTarget target.now }
    requires room { vec_len kept.old < vec_capacity kept.old }
    ensures { kept.new.items ≡ kept.old.items ++ record { number = number; ask = ask; peer = peer.now; target = target.now; place = place; secret = secret } ∷ [] }
{
    let peer = Name::new(peer).unwrap();
    let target = Target::new(target).unwrap();
    kept.push_reserved(Kept {
        number,
        ask,
        peer,
        target,
        place,
        secret,
    });
}

/// A text that may be there, with a secret.
fn with_secret(text: Option<&[u8]>, secret: [u8; 16]) -> Option<(&[u8], [u8; 16])>
    ensures pair { option_map held_of result ≡ option_map (λ t. record { text = t; secret = secret }) (seen text.entry) }
    ensures long { length (option_to_list result) ≡ length (option_to_list text.entry) }
    ensures text { IfSome text.entry (λ t. IsScripText t.now) → IfSome result (λ p. IsScripText p.0.now) }
{
    match text {
        Some(text) => Some((text, secret)),
        None => None,
    }
}
