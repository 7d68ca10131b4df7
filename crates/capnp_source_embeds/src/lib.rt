//! Messages that schema sources embed.
#![tactic(auto)]

pub mod embeds;
