use scrip_form::Id;

/// The pieces that a Mint entry makes: how many, their value, and the identity of the first, which those of
/// the others follow. `number` is that of the entry, from 0.
#[derive(Clone, Copy, Drop)]
pub(crate) struct Minting {
    pub(crate) number: u64,
    pub(crate) count: u16,
    pub(crate) value: u64,
    pub(crate) first: Id,
}
