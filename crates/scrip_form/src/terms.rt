ghost use Rattle.std.specs.Prelude.{◌≡◌, ◌↔◌, ◌<◌, ◌≤◌, ◌^◌, length, IsSome, IfSome};
ghost use Rattle.scrip_form.specs.Issuing.{Issuing, HasPeriod, epoch, series_at, series_end};

use crate::secrets::Secrets;
use mc_base::Moment;
use std::marker::Model;

/// The terms under which an issuer's scrip is made, which never change: the issuer's number (0 for
/// the house itself, 1 to 255 for licence holders), a period of 2,048 to 2^24 seconds, a life of at
/// most 2^24 seconds, and the secrets of scrip and of customers. Contracts see them as the record
/// `Issuing`.
#[derive(Clone, Copy)]
pub struct Terms {
    issuer: u8,
    period: u32,
    life: u32,
    scrip: Secrets,
    customer: Secrets,
}

impl Model for Terms {
    ghost use Rattle.scrip_form.specs.Issuing.{Issuing, HasPeriod};

    ghost Value = { Issuing };

    ghost view = { λ t. record { issuer = t.issuer; period = t.period; life = t.life; scrip = t.scrip; customer = t.customer } };

    ghost invariant = { λ t. HasPeriod t.period t.life };

    ghost inverse = { λ t. record { issuer = t.issuer; period = t.period; life = t.life; scrip = t.scrip; customer = t.customer } };
}

impl Terms {
    /// The least period, in seconds.
    pub const LEAST_PERIOD: u32 = 2048;

    /// The greatest period and the greatest life, in seconds.
    pub const MOST_SECONDS: u32 = 1 << 24;

    /// These terms; None exactly where the period or the life is out of range.
    pub fn new(
        issuer: u8,
        period: u32,
        life: u32,
        scrip: Secrets,
        customer: Secrets,
    ) -> Option<Terms>
        ensures valid { IsSome result ↔ HasPeriod period life }
        ensures terms { IfSome result (λ t. t ≡ record { issuer = issuer; period = period; life = life; scrip = scrip; customer = customer }) }
    {
        if (Terms::LEAST_PERIOD..=Terms::MOST_SECONDS).contains(&period)
            && life <= Terms::MOST_SECONDS
        {
            Some(Terms {
                issuer,
                period,
                life,
                scrip,
                customer,
            })
        } else {
            None
        }
    }

    /// The epoch of a moment: the moment divided by the period, rounded down.
    pub fn epoch_of(&self, m: Moment) -> u32
        ensures epoch { result ≡ epoch self.now m }
        ensures small { result < 2 ^ 24 }
    {
        (m.seconds() / u64::from(self.period)) as u32
    }

    /// The series that the issuer hands out at a moment: its number times 2^24, and the epoch.
    pub fn series_at(&self, m: Moment) -> u32
        ensures series { result ≡ series_at self.now m }
        ensures short { epoch self.now m < 2 ^ 24 }
    {
        u32::from(self.issuer) * (1 << 24) + self.epoch_of(m)
    }

    /// The end of the series of an epoch below 2^24, in seconds since 1970: the moment from which on
    /// its pieces are expired, `(epoch + 1) * period + life`.
    pub fn series_end(&self, epoch: u32) -> u64
        requires { epoch < 2 ^ 24 }
        ensures { result ≡ series_end self.now epoch }
    {
        (u64::from(epoch) + 1) * u64::from(self.period) + u64::from(self.life)
    }

    /// The number of the issuer.
    pub fn issuer(&self) -> u8
        ensures { result ≡ self.now.issuer }
    {
        self.issuer
    }

    /// How long a series is issued, in seconds.
    pub fn period(&self) -> u32
        ensures value { result ≡ self.now.period }
        ensures ranges { HasPeriod self.now.period self.now.life }
    {
        self.period
    }

    /// How long a series stays good after its period, in seconds.
    pub fn life(&self) -> u32
        ensures { result ≡ self.now.life }
    {
        self.life
    }

    /// The secrets of certificates, in place.
    pub fn scrip(&self) -> &[[u8; 16]]
        ensures value { result.now ≡ self.now.scrip }
        ensures some { 0 < length self.now.scrip }
        ensures few { length self.now.scrip ≤ 16 }
    {
        self.scrip.list()
    }

    /// The secrets of customers, in place.
    pub fn customer(&self) -> &[[u8; 16]]
        ensures value { result.now ≡ self.now.customer }
        ensures some { 0 < length self.now.customer }
        ensures few { length self.now.customer ≤ 16 }
    {
        self.customer.list()
    }
}
