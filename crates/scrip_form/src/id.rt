ghost use Rattle.std.specs.Prelude.{◌≡◌, ◌↔◌, ◌<◌, ◌^◌, IsSome, IfSome};
ghost use Rattle.scrip_form.specs.Identities.{identity, issuer_of, epoch_of, serial_of, series_of};

use std::marker::Model;

/// The identity of a piece: 64 bits, of which the highest 8 are the issuer, the next 24 the epoch
/// and the last 32 the serial. Issuer 0 is the house itself, 1 to 255 are licence holders. The first
/// 32 bits name the series. Contracts see it as the number.
#[derive(Clone, Copy, Debug, PartialEq, Eq, PartialOrd, Ord)]
pub struct Id {
    number: u64,
}

impl Model for Id {
    ghost use Rattle.std.specs.Prelude.{ℕ, ◌<◌, ◌^◌};

    ghost Value = { ℕ };

    ghost view = { λ i. i.number };

    ghost invariant = { λ i. i.number < 2 ^ 64 };

    ghost inverse = { λ n. record { number = n } };
}

impl Id {
    /// The identity of these parts; None exactly where the epoch is 2^24 or more.
    pub fn of_parts(issuer: u8, epoch: u32, serial: u32) -> Option<Id>
        ensures valid { IsSome result ↔ (epoch < 2 ^ 24) }
        ensures value { IfSome result (λ id. id ≡ identity issuer epoch serial) }
    {
        if epoch >= 1 << 24 {
            return None;
        }
        let number = u64::from(issuer) * (1 << 56)
            + u64::from(epoch) * (1 << 32)
            + u64::from(serial);
        Some(Id { number })
    }

    /// The issuer, the epoch and the serial.
    pub fn parts(self) -> (u8, u32, u32)
        ensures { result ≡ (issuer_of self, epoch_of self, serial_of self) }
    {
        let number = self.number();
        (
            (number / (1 << 56)) as u8,
            (number / (1 << 32) % (1 << 24)) as u32,
            (number % (1 << 32)) as u32,
        )
    }

    /// The identity as a number, the issuer in its highest bits.
    pub fn number(self) -> u64
        ensures { result ≡ self }
    {
        self.number
    }

    /// The identity of this number.
    pub fn of_number(n: u64) -> Id
        ensures { result ≡ n }
    {
        Id { number: n }
    }

    /// The issuer and the epoch, as one number: the issuer in its highest 8 bits.
    pub fn series(self) -> u32
        ensures { result ≡ series_of self }
    {
        (self.number / (1 << 32)) as u32
    }
}
