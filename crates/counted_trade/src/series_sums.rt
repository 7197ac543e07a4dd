ghost use Rattle.std.specs.Prelude.{◌≡◌, ◌<◌, ◌^◌, length, [], ◌∷◌, ◌++◌, OnOk};
ghost use Rattle.mc_records.specs.Views.{entry};
ghost use Rattle.ledger_model.specs.Histories.{History};
ghost use Rattle.settle_core.specs.Settlement.{redeemed, sold_under};
ghost use Rattle.counted_trade.specs.Series.{CountsSeries, HasRoom, RedeemedStand, SoldStand, HasRoomToRedeem, HasRoomToSell};

use crate::sales::{licensed_in, paid, put_key};
use mc_base::NoMemory;
use mc_records::Record;
use scrip_form::Name;
use std::alloc::Global;
use sum_table::SumTable;

/// What a house redeemed of each series, and sold of it under each vendor's licence. Each sum is found in a few looks,
/// however many there are.
#[derive(Drop)]
pub struct SeriesSums {
    redeemed: SumTable,
    sold: SumTable,
}

impl SeriesSums {
    /// The sums of an empty history. It takes no memory.
    pub fn new(alloc: Global) -> SeriesSums
        ensures { CountsSeries result [] }
    {
        SeriesSums {
            redeemed: SumTable::new(alloc),
            sold: SumTable::new(alloc),
        }
    }

    /// Makes room for what an entry adds. All sums stay as they are, after an `Err` too.
    pub fn reserve(&mut self, r: &Record<'_>) -> Result<(), NoMemory>
        ensures room { OnOk result (HasRoom self.new (entry r.now)) }
        ensures same { (h : History) → CountsSeries self.old h → CountsSeries self.new h }
    {
        reserve_paid(&mut self.redeemed, r)?;
        reserve_sold(&mut self.sold, r)
    }

    /// Counts the next entry, for which there is room. It takes no memory. No history is so long that a sum leaves its
    /// range: `number` says how long it is.
    pub fn count(&mut self, number: u64, r: &Record<'_>)
        requires room { HasRoom self.old (entry r.now) }
        ensures counted { (h : History) → CountsSeries self.old h → number ≡ length h
            → CountsSeries self.new (h ++ entry r.now ∷ []) }
    {
        count_paid(&mut self.redeemed, number, r);
        count_sold(&mut self.sold, number, r);
    }

    /// What was redeemed of a series.
    pub fn redeemed(&self, issuer: u8, epoch: u32) -> u128
        requires { epoch < 2 ^ 24 }
        ensures { (h : History) → CountsSeries self.now h → result ≡ redeemed h issuer epoch }
    {
        let series = u32::from(issuer) * (1 << 24) + epoch;
        self.redeemed.get(&series.to_be_bytes()).unwrap_or(0)
    }

    /// What was sold of a series under a vendor's licence.
    pub fn sold(&self, vendor: &Name, issuer: u8, epoch: u32) -> u128
        requires { epoch < 2 ^ 24 }
        ensures { (h : History) → CountsSeries self.now h
            → result ≡ sold_under h vendor.now issuer epoch }
    {
        let series = u32::from(issuer) * (1 << 24) + epoch;
        let mut key = [0; 67];
        let n = put_key(&mut key, series, vendor.bytes());
        self.sold.get(&key[..n]).unwrap_or(0)
    }
}

fn reserve_paid(sums: &mut SumTable, r: &Record<'_>) -> Result<(), NoMemory>
    ensures room { OnOk result (HasRoomToRedeem sums.new (entry r.now)) }
    ensures same { (h : History) → RedeemedStand sums.old h → RedeemedStand sums.new h }
{
    match paid(r) {
        Some(part) => sums.reserve(&part.id.series().to_be_bytes()),
        None => Ok(()),
    }
}

fn reserve_sold(sums: &mut SumTable, r: &Record<'_>) -> Result<(), NoMemory>
    ensures room { OnOk result (HasRoomToSell sums.new (entry r.now)) }
    ensures same { (h : History) → SoldStand sums.old h → SoldStand sums.new h }
{
    match licensed_in(r) {
        Some(sale) => {
            let mut key = [0; 67];
            let n = put_key(&mut key, sale.id.series(), sale.vendor.bytes());
            sums.reserve(&key[..n])
        }
        None => Ok(()),
    }
}

fn count_paid(sums: &mut SumTable, _number: u64, r: &Record<'_>)
    requires room { HasRoomToRedeem sums.old (entry r.now) }
    ensures counted { (h : History) → RedeemedStand sums.old h → _number ≡ length h
        → RedeemedStand sums.new (h ++ entry r.now ∷ []) }
{
    match paid(r) {
        Some(part) => sums.add(u128::from(part.value)),
        None => (),
    }
}

fn count_sold(sums: &mut SumTable, _number: u64, r: &Record<'_>)
    requires room { HasRoomToSell sums.old (entry r.now) }
    ensures counted { (h : History) → SoldStand sums.old h → _number ≡ length h
        → SoldStand sums.new (h ++ entry r.now ∷ []) }
{
    match licensed_in(r) {
        Some(sale) => sums.add(u128::from(sale.value)),
        None => (),
    }
}
