/// The bytes go on as no field of this kind does.
#[derive(Clone, Copy, Debug, PartialEq, Eq)]
pub struct Stuck {
    /// How many bytes are left from the first one that no such field has there; 0 where the bytes
    /// end within a field.
    pub left: usize,
}
