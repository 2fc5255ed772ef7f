//! The source's token.rs: a capability token packed into one word, the permissions that its flags hold, and rights.
//! Tokens and rights are types of their own, so that neither is ever taken for the other.
#![tactic(auto)]

mod capability;
mod flags;
mod rights;

pub use capability::CapabilityToken;
pub use flags::CapabilityFlags;
pub use rights::Rights;
