//! Tests of the caches that threads share, and of the dispatcher: in one thread, in many, and of
//! what other runtimes have got wrong.
#![tactic(auto)]

#[cfg(test)]
mod asker;
#[cfg(test)]
mod counts;
#[cfg(test)]
mod desk;
#[cfg(test)]
mod exchange;
#[cfg(test)]
mod images;
#[cfg(test)]
mod lists;
#[cfg(test)]
mod memory;
#[cfg(test)]
mod noting;
#[cfg(test)]
mod one_thread;
#[cfg(test)]
mod opening;
#[cfg(test)]
mod owners;
#[cfg(test)]
mod rows;
#[cfg(test)]
mod same;
#[cfg(test)]
mod stops;
#[cfg(test)]
mod threads;
