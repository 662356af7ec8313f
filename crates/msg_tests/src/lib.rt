//! Tests of the public calls of the crates that read documents, of class tables, of names and
//! buckets, and of the machine of events.
#![tactic(auto)]

#[cfg(test)]
mod buckets;
#[cfg(test)]
mod documents;
#[cfg(test)]
mod faults;
#[cfg(test)]
mod forms;
#[cfg(test)]
mod host_machine;
#[cfg(test)]
mod images;
#[cfg(test)]
mod lists;
#[cfg(test)]
mod machine;
#[cfg(test)]
mod names;
#[cfg(test)]
mod reaching;
#[cfg(test)]
mod readers;
#[cfg(test)]
mod readings;
#[cfg(test)]
mod same;
#[cfg(test)]
mod sets;
#[cfg(test)]
mod tables;
#[cfg(test)]
mod trees;
#[cfg(test)]
mod ways;
