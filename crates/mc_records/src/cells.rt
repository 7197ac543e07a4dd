//! The table of the fields of each kind of entry, as they are written.

ghost use Rattle.std.specs.Prelude.{◌≡◌, ◌<◌, [], ◌∷◌, ◌++◌, option_map};
ghost use Rattle.mc_fields.specs.Field.{one, four, eight, number, flag};
ghost use Rattle.mc_records.specs.Entry.{fields, secrets_fields, sign_fields, change_fields, deed_fields, text_fields, got_fields};
ghost use Rattle.mc_requests.specs.Requests.{seen};
ghost use Rattle.mc_records.specs.TermsViews.{issuing_of};
ghost use Rattle.mc_records.specs.Views.{entry, deed_of, held_of};
ghost use Rattle.mc_records.specs.Cells.{group_fields, groups_fields, kind_of};

use crate::piece_list::PieceList;
use crate::record::{Record, RecordDeed, SiteTerms};
use crate::terms::RecordTerms;
use mc_base::Moment;
use scrip_form::Id;

/// A field with its value, or a count with all that it counts.
#[derive(Clone, Copy, Drop)]
pub enum Cell<'a> {
    /// No field.
    Nothing,
    /// A number of one byte.
    Byte(u8),
    /// A number of two bytes.
    Half(u16),
    /// A number of four bytes.
    Word(u32),
    /// A number of eight bytes.
    Long(u64),
    /// A flag.
    Flag(bool),
    /// A text, with its length of two bytes before it.
    Str(&'a [u8]),
    /// Bytes as they are.
    Plain(&'a [u8]),
    /// Bytes, with their length of four bytes before them.
    Contents(&'a [u8]),
    /// Secrets, with their count of one byte before them.
    Secrets(&'a [[u8; 16]]),
    /// Scrip texts with their secrets, with their count of two bytes before them.
    Pieces(PieceList<'a>),
}

/// Fields that belong together, one behind the other.
#[derive(Clone, Copy, Drop)]
pub struct Group<'a>(pub Cell<'a>, pub Cell<'a>, pub Cell<'a>);

/// The fields of an entry, in order.
pub fn table<'a>(r: &'a Record<'a>) -> [Group<'a>; 6]
    ensures { groups_fields result ≡ fields (entry r.now) }
{
    match r {
        Record::Site { .. } => site_table(r),
        Record::Terms { .. } => site_table(r),
        Record::Goods { .. } => sale_table(r),
        Record::Accept { .. } => sale_table(r),
        Record::Mint { .. } => mint_table(r),
        Record::Account { .. } => mint_table(r),
        Record::Deposit { .. } => money_table(r),
        Record::Withdraw { .. } => money_table(r),
        Record::Draw { .. } => money_table(r),
        Record::Licence { .. } => stock_table(r),
        Record::Stock { .. } => stock_table(r),
        Record::Got { .. } => held_table(r),
        Record::Pend { .. } => held_table(r),
        Record::Done { .. } => settled_table(r),
        Record::Refused { .. } => settled_table(r),
        Record::Upgrade { .. } => book_table(r),
        Record::Switch { .. } => book_table(r),
        Record::Note { .. } => book_table(r),
    }
}

fn site_table<'a>(r: &'a Record<'a>) -> [Group<'a>; 6]
    requires { kind_of (entry r.now) < 3 }
    ensures { groups_fields result ≡ fields (entry r.now) }
{
    match r {
        Record::Site {
            moment,
            kind,
            name,
            house,
        } => {
            let site = Group(Cell::Byte(*kind), Cell::Str(name), Cell::Nothing);
            match house {
                None => two_groups(head(1, *moment), site),
                Some(house) => five_groups(
                    head(1, *moment),
                    site,
                    house_cells(house),
                    issuer_cells(&house.terms),
                    secret_cells(&house.terms),
                ),
            }
        }
        Record::Terms { moment, terms } => {
            three_groups(head(2, *moment), issuer_cells(terms), secret_cells(terms))
        }
        _ => unreachable!(),
    }
}

fn sale_table<'a>(r: &'a Record<'a>) -> [Group<'a>; 6]
    requires { (2 < kind_of (entry r.now)) × (kind_of (entry r.now) < 5) }
    ensures { groups_fields result ≡ fields (entry r.now) }
{
    match r {
        Record::Goods {
            moment,
            target,
            price,
            kind,
            contents,
        } => three_groups(
            head(3, *moment),
            Group(Cell::Str(target), Cell::Long(*price), Cell::Byte(*kind)),
            Group(Cell::Contents(contents), Cell::Nothing, Cell::Nothing),
        ),
        Record::Accept {
            moment,
            scrip,
            target,
            sign,
            price,
            change,
            deed,
        } => [
            head(4, *moment),
            Group(Cell::Str(scrip), Cell::Str(target), Cell::Nothing),
            sign_cells(sign),
            Group(Cell::Long(*price), Cell::Nothing, Cell::Nothing),
            change_cells(*change),
            deed_cells(*deed),
        ],
        _ => unreachable!(),
    }
}

fn mint_table<'a>(r: &'a Record<'a>) -> [Group<'a>; 6]
    requires { (4 < kind_of (entry r.now)) × (kind_of (entry r.now) < 7) }
    ensures { groups_fields result ≡ fields (entry r.now) }
{
    match r {
        Record::Mint {
            moment,
            reference,
            count,
            value,
            first,
        } => three_groups(
            head(5, *moment),
            Group(Cell::Str(reference), Cell::Half(*count), Cell::Long(*value)),
            Group(Cell::Long(first.number()), Cell::Nothing, Cell::Nothing),
        ),
        Record::Account { moment, name, key } => two_groups(
            head(6, *moment),
            Group(Cell::Str(name), Cell::Plain(key), Cell::Nothing),
        ),
        _ => unreachable!(),
    }
}

fn money_table<'a>(r: &'a Record<'a>) -> [Group<'a>; 6]
    requires { (6 < kind_of (entry r.now)) × (kind_of (entry r.now) < 10) }
    ensures { groups_fields result ≡ fields (entry r.now) }
{
    match r {
        Record::Deposit {
            moment,
            name,
            amount,
            reference,
        } => two_groups(
            head(7, *moment),
            Group(Cell::Str(name), Cell::Long(*amount), Cell::Str(reference)),
        ),
        Record::Withdraw {
            moment,
            name,
            amount,
            reference,
        } => two_groups(
            head(8, *moment),
            Group(Cell::Str(name), Cell::Long(*amount), Cell::Str(reference)),
        ),
        Record::Draw {
            moment,
            target,
            sign,
            drawn,
        } => two_groups(
            head(9, *moment),
            Group(
                Cell::Str(target),
                Cell::Plain(sign),
                Cell::Long(drawn.number()),
            ),
        ),
        _ => unreachable!(),
    }
}

fn stock_table<'a>(r: &'a Record<'a>) -> [Group<'a>; 6]
    requires { (9 < kind_of (entry r.now)) × (kind_of (entry r.now) < 12) }
    ensures { groups_fields result ≡ fields (entry r.now) }
{
    match r {
        Record::Licence {
            moment,
            vendor,
            terms,
        } => four_groups(
            head(10, *moment),
            Group(Cell::Str(vendor), Cell::Nothing, Cell::Nothing),
            issuer_cells(terms),
            secret_cells(terms),
        ),
        Record::Stock {
            moment,
            vendor,
            pieces,
        } => two_groups(
            head(11, *moment),
            Group(Cell::Str(vendor), Cell::Pieces(*pieces), Cell::Nothing),
        ),
        _ => unreachable!(),
    }
}

fn held_table<'a>(r: &'a Record<'a>) -> [Group<'a>; 6]
    requires { (11 < kind_of (entry r.now)) × (kind_of (entry r.now) < 14) }
    ensures { groups_fields result ≡ fields (entry r.now) }
{
    match r {
        Record::Got { moment, pieces } => two_groups(
            head(12, *moment),
            Group(Cell::Pieces(*pieces), Cell::Nothing, Cell::Nothing),
        ),
        Record::Pend {
            moment,
            ask,
            peer,
            target,
            scrip,
            secret,
        } => four_groups(
            head(13, *moment),
            Group(Cell::Byte(*ask), Cell::Str(peer), Cell::Str(target)),
            text_cells(*scrip),
            Group(Cell::Plain(secret), Cell::Nothing, Cell::Nothing),
        ),
        _ => unreachable!(),
    }
}

fn settled_table<'a>(r: &'a Record<'a>) -> [Group<'a>; 6]
    requires { (13 < kind_of (entry r.now)) × (kind_of (entry r.now) < 16) }
    ensures { groups_fields result ≡ fields (entry r.now) }
{
    match r {
        Record::Done {
            moment,
            number,
            price,
            change,
            got,
        } => four_groups(
            head(14, *moment),
            Group(Cell::Long(*number), Cell::Long(*price), Cell::Nothing),
            text_cells(*change),
            got_cells(got),
        ),
        Record::Refused {
            moment,
            number,
            refusal,
        } => two_groups(
            head(15, *moment),
            Group(Cell::Long(*number), Cell::Half(*refusal), Cell::Nothing),
        ),
        _ => unreachable!(),
    }
}

fn book_table<'a>(r: &'a Record<'a>) -> [Group<'a>; 6]
    requires { 15 < kind_of (entry r.now) }
    ensures { groups_fields result ≡ fields (entry r.now) }
{
    match r {
        Record::Upgrade {
            moment,
            vendor,
            issuer,
            from,
        } => two_groups(
            head(16, *moment),
            Group(Cell::Str(vendor), Cell::Byte(*issuer), Cell::Word(*from)),
        ),
        Record::Switch { moment, chain } => two_groups(
            head(17, *moment),
            Group(Cell::Plain(chain), Cell::Nothing, Cell::Nothing),
        ),
        Record::Note { moment, tag, bytes } => two_groups(
            head(18, *moment),
            Group(Cell::Str(tag), Cell::Contents(bytes), Cell::Nothing),
        ),
        _ => unreachable!(),
    }
}

/// The kind of an entry and its moment.
fn head<'a>(kind: u8, moment: Moment) -> Group<'a>
    ensures { group_fields result ≡ number one kind ∷ number eight moment ∷ [] }
{
    Group(
        Cell::Byte(kind),
        Cell::Long(moment.seconds()),
        Cell::Nothing,
    )
}

/// The keeping time, the fee and the clear flag of a house.
fn house_cells<'a>(house: &SiteTerms<'_>) -> Group<'a>
    ensures { group_fields result ≡ number four house.now.keep ∷ number eight house.now.fee ∷ flag house.now.clear ∷ [] }
{
    Group(
        Cell::Word(house.keep),
        Cell::Long(house.fee),
        Cell::Flag(house.clear),
    )
}

/// The version of terms, which is 1, their issuer and their period.
fn issuer_cells<'a>(terms: &RecordTerms<'_>) -> Group<'a>
    ensures { group_fields result ≡ number one 1 ∷ number one (issuing_of terms.now).issuer ∷ number four (issuing_of terms.now).period ∷ [] }
{
    Group(
        Cell::Byte(1),
        Cell::Byte(terms.issuer()),
        Cell::Word(terms.period()),
    )
}

/// The life of a series under terms, and their secrets.
fn secret_cells<'a>(terms: &RecordTerms<'a>) -> Group<'a>
    ensures { group_fields result ≡ number four (issuing_of terms.now).life
        ∷ (secrets_fields (issuing_of terms.now).scrip ++ secrets_fields (issuing_of terms.now).customer) }
{
    Group(
        Cell::Word(terms.life()),
        Cell::Secrets(terms.scrip()),
        Cell::Secrets(terms.customer()),
    )
}

fn sign_cells(sign: &Option<[u8; 16]>) -> Group<'_>
    ensures { group_fields result ≡ sign_fields sign.now }
{
    match sign {
        None => Group(Cell::Flag(false), Cell::Nothing, Cell::Nothing),
        Some(sign) => Group(Cell::Flag(true), Cell::Plain(sign), Cell::Nothing),
    }
}

fn change_cells<'a>(change: Option<Id>) -> Group<'a>
    ensures { group_fields result ≡ change_fields change }
{
    match change {
        None => Group(Cell::Flag(false), Cell::Nothing, Cell::Nothing),
        Some(id) => Group(Cell::Flag(true), Cell::Long(id.number()), Cell::Nothing),
    }
}

fn deed_cells<'a>(deed: RecordDeed) -> Group<'a>
    ensures { group_fields result ≡ deed_fields (deed_of deed) }
{
    match deed {
        RecordDeed::Goods => Group(Cell::Byte(0), Cell::Nothing, Cell::Nothing),
        RecordDeed::Sale { stock, id } => {
            Group(Cell::Byte(1), Cell::Flag(stock), Cell::Long(id.number()))
        }
        RecordDeed::Credit { balance } => {
            Group(Cell::Byte(2), Cell::Long(balance), Cell::Nothing)
        }
    }
}

/// A scrip text that may be there.
fn text_cells(text: Option<&[u8]>) -> Group<'_>
    ensures { group_fields result ≡ text_fields (seen text.entry) }
{
    match text {
        None => Group(Cell::Flag(false), Cell::Nothing, Cell::Nothing),
        Some(text) => Group(Cell::Flag(true), Cell::Str(text), Cell::Nothing),
    }
}

/// A scrip text with its secret, which may be there.
fn got_cells<'a>(got: &'a Option<(&'a [u8], [u8; 16])>) -> Group<'a>
    ensures { group_fields result ≡ got_fields (option_map held_of got.now) }
{
    match got {
        None => Group(Cell::Flag(false), Cell::Nothing, Cell::Nothing),
        Some(got) => Group(Cell::Flag(true), Cell::Str(got.0), Cell::Plain(&got.1)),
    }
}

fn none<'a>() -> Group<'a>
    ensures { group_fields result ≡ [] }
{
    Group(Cell::Nothing, Cell::Nothing, Cell::Nothing)
}

fn two_groups<'a>(a: Group<'a>, b: Group<'a>) -> [Group<'a>; 6]
    ensures { groups_fields result ≡ group_fields a.entry ++ group_fields b.entry }
{
    [a, b, none(), none(), none(), none()]
}

fn three_groups<'a>(a: Group<'a>, b: Group<'a>, c: Group<'a>) -> [Group<'a>; 6]
    ensures { groups_fields result ≡ group_fields a.entry ++ (group_fields b.entry ++ group_fields c.entry) }
{
    [a, b, c, none(), none(), none()]
}

fn four_groups<'a>(a: Group<'a>, b: Group<'a>, c: Group<'a>, d: Group<'a>) -> [Group<'a>; 6]
    ensures { groups_fields result ≡ group_fields a.entry ++ (group_fields b.entry ++ (group_fields c.entry ++ group_fields d.entry)) }
{
    [a, b, c, d, none(), none()]
}

fn five_groups<'a>(
    a: Group<'a>,
    b: Group<'a>,
    c: Group<'a>,
    d: Group<'a>,
    e: Group<'a>,
) -> [Group<'a>; 6]
    ensures { groups_fields result ≡ group_fields a.entry ++ (group_fields b.entry ++ (group_fields c.entry ++ (group_fields d.entry ++ group_fields e.entry))) }
{
    [a, b, c, d, e, none()]
}
