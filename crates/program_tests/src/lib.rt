//! Tests of `sip_program`, `sip_survey_program` and `sip_platform`: the programs' forms on a platform of known words with a known file, and what std gives.
#![tactic(auto)]

#[cfg(test)]
mod asking;
#[cfg(test)]
mod desk;
#[cfg(test)]
mod forms;
#[cfg(test)]
mod seeds;
#[cfg(test)]
mod std_platform;
#[cfg(test)]
mod surveys;
#[cfg(test)]
mod told;
#[cfg(test)]
mod wants;
