/// What a target asks of a broker. Names are 1 to 63 bytes as [`Name`](scrip_form::Name) has them; amounts
/// and orders are 1 to [`Amount::MOST`](mc_base::Amount::MOST).
#[derive(Clone, Copy, Drop)]
pub enum Errand<'a> {
    /// `/buy/V/N`: scrip of a vendor, of this value.
    Buy {
        vendor: &'a [u8],
        amount: u64,
    },
    /// `/credit/A`: credit in an account.
    Credit {
        account: &'a [u8],
    },
    /// `/draw/A/K/N`: scrip of the broker's own, of this value, out of an account and under an order.
    Draw {
        account: &'a [u8],
        order: u64,
        amount: u64,
    },
}
