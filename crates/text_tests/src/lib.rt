//! Tests of `sip_text`: tables of texts, each with what it is read as.
#![tactic(auto)]

#[cfg(test)]
mod tests;
#[cfg(test)]
mod uris;
#[cfg(test)]
mod wants;
