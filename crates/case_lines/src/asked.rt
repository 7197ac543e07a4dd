//! Requests that lines spell.

use crate::fault::Fault;
use crate::state::State;
use mc_requests::Request;

/// A request of a case, which owns its texts.
#[derive(Drop)]
pub struct Asked {
    target: Vec<u8>,
    scrip: Option<Vec<u8>>,
    sign: Option<Vec<u8>>,
}

impl Asked {
    pub fn of(state: &State, target: &[u8], scrip: &[u8], sign: &[u8]) -> Result<Asked, Fault> {
        Ok(Asked {
            target: state.names.bytes(target)?,
            scrip: state.names.some_bytes(scrip)?,
            sign: state.names.some_bytes(sign)?,
        })
    }

    pub fn request(&self) -> Request<'_> {
        Request {
            target: &self.target,
            scrip: self.scrip.as_deref(),
            sign: self.sign.as_deref(),
        }
    }
}
