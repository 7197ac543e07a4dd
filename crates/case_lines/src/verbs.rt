//! What lines do that need no house.

use crate::fault::Fault;
use crate::show::Lines;
use crate::state::State;
use crate::{
    digest_verbs, form_verbs, head_verbs, issue_verbs, journal_verbs, payload_verbs, setting_verbs,
    stage_verbs,
};

/// Does what a line says, and prints what came out; None where its verb is none of this crate.
pub fn act(
    state: &mut State,
    verb: &[u8],
    args: &[&[u8]],
    out: &mut Lines,
) -> Option<Result<(), Fault>> {
    match on_stage(state, verb, args, out) {
        Some(done) => Some(done),
        None => on_values(state, verb, args, out),
    }
}

/// The verbs that say what a stage has, and those that call one by hand.
fn on_stage(
    state: &mut State,
    verb: &[u8],
    args: &[&[u8]],
    out: &mut Lines,
) -> Option<Result<(), Fault>> {
    if let Some(done) = setting_verbs::set(state, verb, args, out) {
        return Some(done);
    }
    if let Some(done) = head_verbs::act(state, verb, args, out) {
        return Some(done);
    }
    if let Some(done) = journal_verbs::act(state, verb, args, out) {
        return Some(done);
    }
    stage_verbs::call(state, verb, args, out)
}

/// The verbs on texts, payloads, digests, series and replies.
fn on_values(
    state: &mut State,
    verb: &[u8],
    args: &[&[u8]],
    out: &mut Lines,
) -> Option<Result<(), Fault>> {
    if let Some(done) = form_verbs::read(state, verb, args, out) {
        return Some(done);
    }
    if let Some(done) = payload_verbs::read(state, verb, args, out) {
        return Some(done);
    }
    if let Some(done) = digest_verbs::make(state, verb, args, out) {
        return Some(done);
    }
    issue_verbs::keep_books(state, verb, args, out)
}
