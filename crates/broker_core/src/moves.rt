//! The issuers of vendors that were moved to the second version of scrip.

ghost use Rattle.std.specs.Prelude.{◌≡◌, ◌++◌, ◌∷◌, [], OnOk, find};
ghost use Rattle.std.specs.List.{list_any};
ghost use Rattle.std.specs.Option.{option_copied};
ghost use Rattle.scrip_form.specs.Scrip.{IsVersion};
ghost use Rattle.mc_records.specs.Views.{entry};
ghost use Rattle.ledger_model.specs.Histories.{History};
ghost use Rattle.ledger_model.specs.Houses.{version_by, upgrade_by};
ghost use Rattle.house_state.specs.Learning.{CommandFits};
ghost use Rattle.broker_core.specs.Moves.{moves_of, is_move_of, raises_of, MovesRepresent, MovesHaveRoom};

use house_state::raises;
use ledger_model::Upgraded;
use mc_base::NoMemory;
use mc_records::Record;
use scrip_form::Name;
use std::alloc::Global;
use std::marker::Model;

/// An issuer of a vendor that was moved, and from which epoch on.
#[derive(Clone, Copy, Drop)]
pub(crate) struct Moved {
    vendor: Name,
    upgraded: Upgraded,
}

/// Those of all vendors, in the order of entry. Contracts see them as the record `MovesView`.
#[derive(Drop)]
pub(crate) struct Moves {
    list: Vec<Moved>,
}

impl Model for Moves {
    ghost use Rattle.std.specs.Prelude.{◌-◌, vec_len, vec_capacity};
    ghost use Rattle.broker_core.specs.Moves.{MovesView};

    ghost Value = { MovesView };

    ghost view = { λ s. record { moved = s.list.items; room = vec_capacity s.list - vec_len s.list } };
}

impl Moves {
    /// Those of an empty history: there are none. It takes no memory.
    pub(crate) fn new(alloc: Global) -> Moves
        ensures { MovesRepresent result [] }
    {
        Moves {
            list: Vec::new(alloc),
        }
    }

    /// The version of a series of a vendor.
    pub(crate) fn version(&self, vendor: &[u8], series: u32) -> u8
        ensures value { result ≡ version_by (moves_of self.now.moved vendor.now) series }
        ensures valid { IsVersion result }
    {
        version_in(&self.list, vendor, series)
    }

    /// The epoch from which on an issuer of a vendor has the second version, where there is one.
    pub(crate) fn upgraded(&self, vendor: &[u8], issuer: u8) -> Option<u32>
        ensures { result ≡ upgrade_by (moves_of self.now.moved vendor.now) issuer }
    {
        match first_of(&self.list, vendor, issuer) {
            Some(moved) => Some(moved.upgraded.from),
            None => None,
        }
    }

    /// Makes room for what an entry moves.
    pub(crate) fn reserve(&mut self, r: &Record<'_>) -> Result<(), NoMemory>
        ensures room { OnOk result (MovesHaveRoom self.new (entry r.now)) }
        ensures same { self.new.moved ≡ self.old.moved }
    {
        match r {
            Record::Upgrade { .. } => {
                self.list.reserve(1)?;
                Ok(())
            }
            _ => Ok(()),
        }
    }

    /// Learns the next entry, for which there is room. It takes no memory.
    pub(crate) fn learn(&mut self, r: &Record<'_>)
        requires room { MovesHaveRoom self.old (entry r.now) }
        requires fits { CommandFits (entry r.now) }
        ensures { (h : History) → MovesRepresent self.old h
            → MovesRepresent self.new (h ++ entry r.now ∷ []) }
    {
        let Record::Upgrade {
            vendor,
            issuer,
            from,
            ..
        } = *r
        else {
            return;
        };
        let vendor = Name::new(vendor).unwrap();
        let upgraded = Upgraded { issuer, from };
        self.list.push_reserved(Moved { vendor, upgraded });
    }
}

/// The version of a series of a vendor, where these issuers were moved.
fn version_in(moved: &[Moved], vendor: &[u8], series: u32) -> u8
    ensures value { result ≡ version_by (moves_of moved.now vendor.now) series }
    ensures valid { IsVersion result }
{
    if is_raised(moved, vendor, series) {
        2
    } else {
        1
    }
}

/// Whether an issuer of a vendor that was moved has the second version in a series.
fn is_raised(moved: &[Moved], vendor: &[u8], series: u32) -> bool
    ensures { result ≡ list_any (raises_of vendor.now series) moved.now }
{
    moved.iter().any(|m| raises_of(m, vendor, series))
}

/// Whether it is of a vendor, and has the second version in a series.
fn raises_of(moved: &Moved, vendor: &[u8], series: u32) -> bool
    ensures { result ≡ raises_of vendor.now series moved.now }
{
    moved.vendor.bytes() == vendor && raises(series, &moved.upgraded)
}

/// The first that is of an issuer of a vendor.
fn first_of<'a>(moved: &'a [Moved], vendor: &[u8], issuer: u8) -> Option<&'a Moved>
    ensures { option_copied result ≡ find (is_move_of vendor.now issuer) moved.now }
{
    moved.iter().find(|m| is_of(m, vendor, issuer))
}

/// Whether it is of an issuer of a vendor.
fn is_of(moved: &Moved, vendor: &[u8], issuer: u8) -> bool
    ensures { result ≡ is_move_of vendor.now issuer moved.now }
{
    moved.vendor.bytes() == vendor && moved.upgraded.issuer == issuer
}
