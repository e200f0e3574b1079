//! The platform that std gives to a program.
#![tactic(auto)]

mod platform;

pub use platform::StdPlatform;
