//! The bytes of a wallet's requests, as a site reads them: a law over the definitions, on a function that
//! does nothing.
#![tactic(auto)]

mod law;

pub use law::a_wallet_request_is_one_item;
