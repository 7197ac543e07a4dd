ghost use Rattle.std.specs.Prelude.{◌≡◌, ◌↔◌, ◌<◌, ◌≤◌, [], IsSome, IfSome};
ghost use Rattle.scrip_form.specs.Scrip.{Scrip, IsVersion, IsPiece};

use crate::id::Id;
use crate::name::Name;
use crate::props::Props;
use mc_base::Amount;
use std::marker::Model;

/// A piece of scrip without its certificate: its version, 1 or 2, its vendor, its value of 1 to 2^40 units, its identity
/// and that of its customer, its expiry of 1 to 2^49 seconds since 1970, and its properties. Contracts
/// see it as the record `Scrip`. That the expiry is the end of a series is for a house to ask.
#[derive(Clone, Copy)]
pub struct Piece {
    version: u8,
    vendor: Name,
    value: Amount,
    id: Id,
    cust: Id,
    expires: u64,
    props: Props,
}

impl Model for Piece {
    ghost use Rattle.scrip_form.specs.Scrip.{Scrip, IsPiece};

    ghost Value = { Scrip };

    ghost view = { λ p. record { version = p.version; vendor = p.vendor; value = p.value; id = p.id; cust = p.cust; expires = p.expires; props = p.props } };

    ghost invariant = { λ p. IsPiece (record { version = p.version; vendor = p.vendor; value = p.value; id = p.id; cust = p.cust; expires = p.expires; props = p.props }) };

    ghost inverse = { λ s. record { version = s.version; vendor = s.vendor; value = s.value; id = s.id; cust = s.cust; expires = s.expires; props = s.props } };
}

impl Piece {
    /// The latest version that scrip is spelled and certified in; the first is 1.
    pub const LATEST_VERSION: u8 = 2;

    /// The last moment at which a piece may expire, in seconds since 1970.
    pub const LAST_END: u64 = 1 << 49;

    /// The piece of these parts, in version 1; None exactly where the value is 0, or `expires` is 0 or above 2^49.
    pub fn new(
        vendor: Name,
        value: Amount,
        id: Id,
        cust: Id,
        expires: u64,
        props: Props,
    ) -> Option<Piece>
        ensures valid { IsSome result ↔ ((0 < value) × (0 < expires) × (expires ≤ Piece.LAST_END)) }
        ensures piece { IfSome result (λ p. p ≡ record { version = 1; vendor = vendor; value = value; id = id; cust = cust; expires = expires; props = props }) }
    {
        if value.get() == 0 || expires == 0 || expires > Piece::LAST_END {
            return None;
        }
        // What the parts know of themselves.
        let _vendor = vendor.bytes();
        let _props = props.bytes();
        let _id = id.number();
        let _cust = cust.number();
        Some(Piece {
            version: 1,
            vendor,
            value,
            id,
            cust,
            expires,
            props,
        })
    }

    pub(crate) fn of(
        version: u8,
        vendor: Name,
        value: Amount,
        id: Id,
        cust: Id,
        expires: u64,
        props: Props,
    ) -> Piece
        requires { IsPiece (record { version = version; vendor = vendor; value = value; id = id; cust = cust; expires = expires; props = props }) }
        ensures { result ≡ record { version = version; vendor = vendor; value = value; id = id; cust = cust; expires = expires; props = props } }
    {
        Piece {
            version,
            vendor,
            value,
            id,
            cust,
            expires,
            props,
        }
    }

    /// The piece of these parts as it is first handed out, in a version: its customer's identity is its own, and it has
    /// no properties. None exactly where the version is neither 1 nor 2, the value is 0, or `expires` is 0 or above 2^49.
    pub fn first_hand(
        version: u8,
        vendor: Name,
        value: Amount,
        id: Id,
        expires: u64,
    ) -> Option<Piece>
        ensures valid { IsSome result ↔ (IsVersion version × (0 < value) × (0 < expires) × (expires ≤ Piece.LAST_END)) }
        ensures piece { IfSome result (λ p. p ≡ record { version = version; vendor = vendor; value = value; id = id; cust = id; expires = expires; props = [] }) }
    {
        Piece::new(vendor, value, id, id, expires, Props::of(b""))?.versioned(version)
    }

    /// The version that it is spelled in, 1 or 2.
    pub fn version(&self) -> u8
        ensures version { result ≡ self.now.version }
        ensures piece { IsPiece self.now }
    {
        self.version
    }

    /// The same piece in a version; None exactly where the version is neither 1 nor 2.
    pub fn versioned(self, version: u8) -> Option<Piece>
        ensures valid { IsSome result ↔ IsVersion version }
        ensures piece { IfSome result (λ p. p ≡ record self { version = version }) }
    {
        if version == 0 || version > Piece::LATEST_VERSION {
            return None;
        }
        let _vendor = self.vendor();
        Some(Piece {
            version,
            vendor: self.vendor,
            value: self.value,
            id: self.id,
            cust: self.cust,
            expires: self.expires,
            props: self.props,
        })
    }

    /// The name of the vendor that takes it.
    pub fn vendor(&self) -> Name
        ensures vendor { result ≡ self.now.vendor }
        ensures piece { IsPiece self.now }
    {
        self.vendor
    }

    /// Its value.
    pub fn value(&self) -> Amount
        ensures value { result ≡ self.now.value }
        ensures piece { IsPiece self.now }
    {
        self.value
    }

    /// Its identity, which is spent once.
    pub fn id(&self) -> Id
        ensures id { result ≡ self.now.id }
        ensures piece { IsPiece self.now }
    {
        self.id
    }

    /// The identity that its customer secret is made for.
    pub fn cust(&self) -> Id
        ensures cust { result ≡ self.now.cust }
        ensures piece { IsPiece self.now }
    {
        self.cust
    }

    /// The moment from which on it is expired, in seconds since 1970.
    pub fn expires(&self) -> u64
        ensures expires { result ≡ self.now.expires }
        ensures piece { IsPiece self.now }
    {
        self.expires
    }

    /// Its properties.
    pub fn props(&self) -> Props
        ensures props { result ≡ self.now.props }
        ensures piece { IsPiece self.now }
    {
        self.props
    }
}
