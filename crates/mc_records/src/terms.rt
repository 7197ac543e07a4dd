ghost use Rattle.mc_records.specs.TermsRanges.{HasRanges};

use scrip_form::{Secrets, Terms};

/// Terms of an issuer as an entry has them. Their secrets are borrowed, from a payload or from the `Terms`
/// that an entry is made of.
#[derive(Clone, Copy, Drop)]
pub struct RecordTerms<'a> {
    issuer: u8,
    period: u32,
    life: u32,
    scrip: &'a [[u8; 16]],
    customer: &'a [[u8; 16]],
    pub ghost ranges: { HasRanges period life scrip.now customer.now },
}

impl<'a> RecordTerms<'a> {
    ghost use Rattle.std.specs.Prelude.{◌≡◌};
    ghost use Rattle.mc_records.specs.TermsRanges.{HasRanges};
    ghost use Rattle.mc_records.specs.TermsViews.{issuing_of};

    /// These terms, whose secrets stay where they are.
    pub fn of(terms: &'a Terms) -> RecordTerms<'a>
        ensures { issuing_of result ≡ terms.now }
    {
        RecordTerms::new(
            terms.issuer(),
            terms.period(),
            terms.life(),
            terms.scrip(),
            terms.customer(),
        )
    }

    /// Terms of these parts.
    pub(crate) fn new(
        issuer: u8,
        period: u32,
        life: u32,
        scrip: &'a [[u8; 16]],
        customer: &'a [[u8; 16]],
    ) -> RecordTerms<'a>
        requires { HasRanges period life scrip.now customer.now }
        ensures { issuing_of result ≡ record { issuer = issuer; period = period; life = life; scrip = scrip.now; customer = customer.now } }
    {
        RecordTerms {
            issuer,
            period,
            life,
            scrip,
            customer,
        }
    }

    /// The terms with secrets of their own.
    pub fn terms(&self) -> Terms
        ensures { result ≡ issuing_of self.now }
    {
        let scrip = Secrets::new(self.scrip).unwrap();
        let customer = Secrets::new(self.customer).unwrap();
        Terms::new(self.issuer, self.period, self.life, scrip, customer).unwrap()
    }

    /// The number of the issuer.
    pub fn issuer(&self) -> u8
        ensures { result ≡ (issuing_of self.now).issuer }
    {
        self.issuer
    }

    /// How long a series is issued, in seconds.
    pub(crate) fn period(&self) -> u32
        ensures { result ≡ (issuing_of self.now).period }
    {
        self.period
    }

    /// How long a series stays good after its period, in seconds.
    pub(crate) fn life(&self) -> u32
        ensures { result ≡ (issuing_of self.now).life }
    {
        self.life
    }

    /// The secrets of certificates, in place.
    pub(crate) fn scrip(&self) -> &'a [[u8; 16]]
        ensures { result.now ≡ (issuing_of self.now).scrip }
    {
        self.scrip
    }

    /// The secrets of customers, in place.
    pub(crate) fn customer(&self) -> &'a [[u8; 16]]
        ensures { result.now ≡ (issuing_of self.now).customer }
    {
        self.customer
    }
}
