ghost use Rattle.std.specs.Prelude.{◌≡◌, ◌≤◌, length};
ghost use Rattle.mc_requests.specs.Refusals as refusals;

use scrip_form::{Id, Name};

/// Why a request or a command was refused, with what is kept of it. Each refusal has a number and a
/// name by which it is told to whoever asked; those of a site have a status of HTTP too.
#[derive(Clone, Copy)]
pub enum Refusal {
    /// 10: The bytes up to the first empty line are no head of a request.
    BadHead,
    /// 11: A head of more than 8,192 bytes, the line ends before it included.
    HeadTooLarge,
    /// 12: No Host field where there must be one, more than one, or one that is no host.
    NoHost,
    /// 13: The head says that a body follows.
    BodyRefused,
    /// 14: The target is no target of this protocol.
    BadTarget,
    /// 15: The method is not GET.
    BadMethod,
    /// 16: A Millicent field stands there twice.
    RepeatedField,
    /// 20: No scrip came with the request.
    NoScrip,
    /// 21: The value is no scrip text: the length of its longest prefix that begins one.
    BadScrip(u64),
    /// 22: The scrip is of another vendor.
    WrongVendor,
    /// 23: The site has no terms for an issuer that the scrip names.
    UnknownIssuer,
    /// 24: The expiry is not the end of the piece's series: the expiry, the end.
    ExpiryMismatch(u64, u64),
    /// 25: The certificate is not the one that the terms give.
    BadCertificate,
    /// 26: The time of the site has come to the end of the series: the end, that time.
    Expired(u64, u64),
    /// 27: The identity was accepted before.
    Spent,
    /// 28: No signature, and the site takes no request without one.
    NeedSignature,
    /// 29: The signature is not the one of this request.
    BadSignature,
    /// 30: The target has no goods here.
    NoSuchGoods,
    /// 31: The value is below the price: the price.
    TooLittle(u64),
    /// 32: The series has as many pieces as it may have: the series.
    SeriesFull(u64),
    /// 33: The entry would pass the limit of the journal: its size, the length of the payload.
    JournalFull(u64, u64),
    /// 34: The version of the scrip is not its series': the series' version.
    WrongVersion(u64),
    /// 40: There is no such account.
    NoAccount,
    /// 41: The order is not above the last one: the last order.
    StaleOrder(u64),
    /// 42: The amount is above the balance: the balance.
    PoorAccount(u64),
    /// 43: The broker has no licence and no stock of the vendor.
    NoVendor,
    /// 44: No licence, and no unsold piece of the value: the value.
    NoStock(u64),
    /// 45: The balance would pass 2^60: the balance.
    AccountFull(u64),
    /// 50: The book to be founded holds something: its size.
    NotEmpty(u64),
    /// 52: The book is of another role.
    WrongKind,
    /// 53: A line of the input is malformed: its number from 1, or 0 where there is no line.
    BadInput(u64),
    /// 54: More contents than a vendor may have: 65,537, or the bytes that would be in force.
    ContentsFull(u64),
    /// 55: The issuer has other terms: the issuer.
    IssuerTaken(u64),
    /// 56: The reference stands with other contents: the reference.
    RefUsed(Name),
    /// 57: A piece was put in stock before: its identity.
    StockTwice(Id),
    /// 59: The vendor has given another licence: its issuer.
    LicenceTwice(u64),
    /// 60: The account stands with another key.
    AccountTaken,
    /// 61: The wallet has held the piece before: its identity.
    TwiceHeld(Id),
    /// 62: No piece covers the limit: the greatest value held.
    NoFunds(u64),
    /// 63: No link to the peer came.
    NoLink,
    /// 64: The link ended before the reply did.
    NoReply,
    /// 65: The reply breaks the protocol.
    BadReply,
    /// 66: The signature of the reply is not right.
    Unproved,
    /// 67: No request to the peer is kept.
    Nothing,
    /// 68: The site refused the request, and signed it: the number of its refusal.
    SiteRefused(u64),
    /// 69: The books are not those of one broker and of vendors with names of their own.
    BadBooks,
    /// 70: The book of a vendor is missing: its name.
    MissingBook(Name),
    /// 71: No terms of that issuer, or no licence of that vendor.
    NoTerms,
    /// 72: The version was set for another epoch: that epoch.
    VersionSet(u64),
    /// 73: The epoch is not above the present one: the present epoch.
    TooEarly(u64),
    /// 74: The series has not ended: its end, the time of the site.
    SeriesOpen(u64, u64),
    /// 75: The certificate of a statement is not right.
    BadStatement,
    /// 76: Another amount was paid for the series: that amount.
    PaidTwice(u128),
    /// 77: The amount is above what was sold: the amount sold.
    OverSold(u128),
    /// 78: A request to the proxy with a Millicent field of its own.
    NotPlain,
    /// 79: The piece would pass the budget: the sum paid so far.
    OverBudget(u64),
    /// 80: No piece is due for renewal.
    NothingDue,
    /// 81: The link to the vendor failed.
    UpstreamFault,
    /// 90: Memory was refused.
    NoMemory,
    /// 91: The disk failed.
    DiskFault,
}

impl Refusal {
    /// The number of the refusal.
    pub fn number(&self) -> u16
        ensures { result ≡ refusals.number_of self.now }
    {
        self.row().0
    }

    /// The status in HTTP (RFC 9110, 15), or 0 where a site never answers so.
    pub fn status(&self) -> u16
        ensures { result ≡ refusals.status_of self.now }
    {
        self.row().1
    }

    /// Whether a reply that tells the refusal is signed for the customer of the piece.
    pub fn is_signed(&self) -> bool
        ensures { result ≡ refusals.is_signed self.now }
    {
        self.row().2
    }

    /// The name of the refusal.
    pub fn name(&self) -> &'static [u8]
        ensures name { result.now ≡ refusals.name_of self.now }
        ensures short { length result.now ≤ 15 }
    {
        self.row().3
    }

    /// The row of the refusal in the table of refusals.
    fn row(&self) -> Row
        ensures number { result.0 ≡ refusals.number_of self.now }
        ensures status { result.1 ≡ refusals.status_of self.now }
        ensures signed { result.2 ≡ refusals.is_signed self.now }
        ensures name { result.3.now ≡ refusals.name_of self.now }
        ensures short { length result.3.now ≤ 15 }
    {
        match self {
            Refusal::BadHead => Row(10, 400, false, b"BadHead"),
            Refusal::HeadTooLarge => Row(11, 431, false, b"HeadTooLarge"),
            Refusal::NoHost => Row(12, 400, false, b"NoHost"),
            Refusal::BodyRefused => Row(13, 413, false, b"BodyRefused"),
            Refusal::BadTarget => Row(14, 400, false, b"BadTarget"),
            Refusal::BadMethod => Row(15, 405, false, b"BadMethod"),
            Refusal::RepeatedField => Row(16, 400, false, b"RepeatedField"),
            Refusal::NoScrip => Row(20, 402, false, b"NoScrip"),
            Refusal::BadScrip(..) => Row(21, 400, false, b"BadScrip"),
            Refusal::WrongVendor => Row(22, 403, false, b"WrongVendor"),
            Refusal::UnknownIssuer => Row(23, 403, false, b"UnknownIssuer"),
            Refusal::ExpiryMismatch(..) => Row(24, 403, false, b"ExpiryMismatch"),
            Refusal::BadCertificate => Row(25, 403, false, b"BadCertificate"),
            Refusal::Expired(..) => Row(26, 410, true, b"Expired"),
            Refusal::Spent => Row(27, 409, true, b"Spent"),
            Refusal::NeedSignature => Row(28, 403, true, b"NeedSignature"),
            Refusal::BadSignature => Row(29, 403, true, b"BadSignature"),
            Refusal::NoSuchGoods => Row(30, 404, true, b"NoSuchGoods"),
            Refusal::TooLittle(..) => Row(31, 402, true, b"TooLittle"),
            Refusal::SeriesFull(..) => Row(32, 503, true, b"SeriesFull"),
            Refusal::JournalFull(..) => Row(33, 503, true, b"JournalFull"),
            Refusal::WrongVersion(..) => Row(34, 403, false, b"WrongVersion"),
            Refusal::NoAccount => Row(40, 404, true, b"NoAccount"),
            Refusal::StaleOrder(..) => Row(41, 409, true, b"StaleOrder"),
            Refusal::PoorAccount(..) => Row(42, 402, true, b"PoorAccount"),
            Refusal::NoVendor => Row(43, 404, true, b"NoVendor"),
            Refusal::NoStock(..) => Row(44, 404, true, b"NoStock"),
            Refusal::AccountFull(..) => Row(45, 409, true, b"AccountFull"),
            Refusal::NotEmpty(..) => Row(50, 0, false, b"NotEmpty"),
            Refusal::WrongKind => Row(52, 0, false, b"WrongKind"),
            Refusal::BadInput(..) => Row(53, 0, false, b"BadInput"),
            Refusal::ContentsFull(..) => Row(54, 0, false, b"ContentsFull"),
            Refusal::IssuerTaken(..) => Row(55, 0, false, b"IssuerTaken"),
            Refusal::RefUsed(..) => Row(56, 0, false, b"RefUsed"),
            Refusal::StockTwice(..) => Row(57, 0, false, b"StockTwice"),
            Refusal::LicenceTwice(..) => Row(59, 0, false, b"LicenceTwice"),
            Refusal::AccountTaken => Row(60, 0, false, b"AccountTaken"),
            Refusal::TwiceHeld(..) => Row(61, 0, false, b"TwiceHeld"),
            Refusal::NoFunds(..) => Row(62, 0, false, b"NoFunds"),
            Refusal::NoLink => Row(63, 0, false, b"NoLink"),
            Refusal::NoReply => Row(64, 0, false, b"NoReply"),
            Refusal::BadReply => Row(65, 0, false, b"BadReply"),
            Refusal::Unproved => Row(66, 0, false, b"Unproved"),
            Refusal::Nothing => Row(67, 0, false, b"Nothing"),
            Refusal::SiteRefused(..) => Row(68, 0, false, b"SiteRefused"),
            Refusal::BadBooks => Row(69, 0, false, b"BadBooks"),
            Refusal::MissingBook(..) => Row(70, 0, false, b"MissingBook"),
            Refusal::NoTerms => Row(71, 0, false, b"NoTerms"),
            Refusal::VersionSet(..) => Row(72, 0, false, b"VersionSet"),
            Refusal::TooEarly(..) => Row(73, 0, false, b"TooEarly"),
            Refusal::SeriesOpen(..) => Row(74, 0, false, b"SeriesOpen"),
            Refusal::BadStatement => Row(75, 0, false, b"BadStatement"),
            Refusal::PaidTwice(..) => Row(76, 0, false, b"PaidTwice"),
            Refusal::OverSold(..) => Row(77, 0, false, b"OverSold"),
            Refusal::NotPlain => Row(78, 400, false, b"NotPlain"),
            Refusal::OverBudget(..) => Row(79, 402, false, b"OverBudget"),
            Refusal::NothingDue => Row(80, 0, false, b"NothingDue"),
            Refusal::UpstreamFault => Row(81, 503, false, b"UpstreamFault"),
            Refusal::NoMemory => Row(90, 503, false, b"NoMemory"),
            Refusal::DiskFault => Row(91, 500, false, b"DiskFault"),
        }
    }
}

/// What the table says of a refusal: its number, its status, whether it is signed, and its name.
#[derive(Clone, Copy)]
struct Row(u16, u16, bool, &'static [u8]);
