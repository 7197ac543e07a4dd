/// An issuer that was moved to the second version of scrip, and the epoch from which on its series have it.
#[derive(Clone, Copy, Drop)]
pub struct Upgraded {
    pub issuer: u8,
    pub from: u32,
}
