// Examples of the rules, run: the edges of every range on both sides, streams of bytes, dates, texts, cards at doors and the log.
#![tactic(auto)]

#[cfg(test)]
mod cards;
#[cfg(test)]
mod dates;
#[cfg(test)]
mod edges;
#[cfg(test)]
mod frames;
#[cfg(test)]
mod log;
#[cfg(test)]
mod makes;
#[cfg(test)]
mod numbers;
#[cfg(test)]
mod streams;
#[cfg(test)]
mod texts;

// The last user number of the controllers that are tried.
#[cfg(test)]
const MU: u32 = 1000;
