//! What lines do that need a house or the ledger.

use crate::{desk_verbs, ledger_verbs, market_verbs, operator_verbs, serve_verbs};
use case_lines::{Fault, Lines, State};

/// Does what a line says, and prints what came out; None where its verb is none of this crate.
pub fn act(
    state: &mut State,
    verb: &[u8],
    args: &[&[u8]],
    out: &mut Lines,
) -> Option<Result<(), Fault>> {
    if let Some(done) = serve_verbs::act(state, verb, args, out) {
        return Some(done);
    }
    if let Some(done) = operator_verbs::enter(state, verb, args, out) {
        return Some(done);
    }
    if let Some(done) = desk_verbs::enter(state, verb, args, out) {
        return Some(done);
    }
    if let Some(done) = market_verbs::ask(state, verb, args, out) {
        return Some(done);
    }
    ledger_verbs::ask(state, verb, args, out)
}
