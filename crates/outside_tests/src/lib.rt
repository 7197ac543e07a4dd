//! Tests of the program's edge over real files and connections: of `mc_door`, `mc_site`, `diagnostics` and `command_help`, by
//! their public items alone. Nothing else stands here, so that those crates are proved without them.
#![tactic(auto)]

#[cfg(test)]
mod book;
#[cfg(test)]
mod caller;
#[cfg(test)]
mod callers;
#[cfg(test)]
mod door;
#[cfg(test)]
mod door_log;
#[cfg(test)]
mod help;
#[cfg(test)]
mod input_faults;
#[cfg(test)]
mod listener;
#[cfg(test)]
mod site;
#[cfg(test)]
mod told;
#[cfg(test)]
mod wrong_words;
