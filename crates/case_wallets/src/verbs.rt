//! What lines do that ask a wallet's book or read replies.

use crate::{reply_verbs, wallet_verbs};
use case_lines::{Fault, Lines, State};

/// Does what a line says, and prints what came out; None where its verb is none of these.
pub fn act(
    state: &mut State,
    verb: &[u8],
    args: &[&[u8]],
    out: &mut Lines,
) -> Option<Result<(), Fault>> {
    if let Some(done) = wallet_verbs::ask(state, verb, args, out) {
        return Some(done);
    }
    reply_verbs::read(state, verb, args, out)
}
