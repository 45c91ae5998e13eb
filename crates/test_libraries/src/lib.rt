//! Tests of what no command shows, and no clause says: what threads do, runs over streams that fail, trees of any depth, the
//! places of refusals in texts that come in pieces, and how refusals are written. And calls of the libraries that neither a
//! command nor `calls` makes are made once. What is a command with its files is a case of the trials (`tests/cases`). The
//! tests stand apart from the libraries, which are then proved once and not once more with their tests.
#![tactic(auto)]

#[cfg(test)]
mod acceptance;
#[cfg(test)]
mod certificates;
#[cfg(test)]
mod dumps;
#[cfg(test)]
mod edits;
#[cfg(test)]
mod gates;
#[cfg(test)]
mod messages;
#[cfg(test)]
mod names;
#[cfg(test)]
mod refusals;
#[cfg(test)]
mod rehearsals;
#[cfg(test)]
mod streams;
#[cfg(test)]
mod workers;
