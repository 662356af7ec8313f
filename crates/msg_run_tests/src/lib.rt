//! Tests of runs: gates that hold one thread until another comes, many sends beside many changes,
//! devices that fail, and memory that is refused.
#![tactic(auto)]

#[cfg(test)]
mod command_line;
#[cfg(test)]
mod devices;
#[cfg(test)]
mod documents;
#[cfg(test)]
mod edits;
#[cfg(test)]
mod holding;
#[cfg(test)]
mod holds;
#[cfg(test)]
mod images;
#[cfg(test)]
mod lists;
#[cfg(test)]
mod memory;
#[cfg(test)]
mod order;
#[cfg(test)]
mod points;
#[cfg(test)]
mod refusals;
#[cfg(test)]
mod runs;
#[cfg(test)]
mod same;
#[cfg(test)]
mod stress;
#[cfg(test)]
mod versions;
