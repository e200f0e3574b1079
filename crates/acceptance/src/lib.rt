//! Tests of the verdict, the listing and the shown text that no form of the program makes: sources and sinks that fail or hand out pieces,
//! judges that take entries one by one, hashers, and memory that is refused. Whole logs stand in `tests/worked`.
#![tactic(auto)]

#[cfg(test)]
mod calls;
#[cfg(test)]
mod forgetting;
#[cfg(test)]
mod growths;
#[cfg(test)]
mod hashers;
#[cfg(test)]
mod listed;
#[cfg(test)]
mod logs;
#[cfg(test)]
mod many;
#[cfg(test)]
mod notation;
#[cfg(test)]
mod pieces;
#[cfg(test)]
mod room;
#[cfg(test)]
mod shown;
#[cfg(test)]
mod shows;
#[cfg(test)]
mod sources;
#[cfg(test)]
mod streams;
#[cfg(test)]
mod surveys;
#[cfg(test)]
mod verdicts;
#[cfg(test)]
mod wants;
#[cfg(test)]
mod words;
