//! The lines of cases that play schedules of houses and wallets. `docs/CASES.md` has the language, and the program `cases` runs it.
#![tactic(auto)]

mod schedule_verbs;

pub use schedule_verbs::Schedules;
