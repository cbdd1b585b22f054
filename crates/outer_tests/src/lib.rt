//! Tests of the outside over real files, children, clocks and writers, of files in memory at each
//! stop, of what threads take, and of an ad that goes to one.
#![tactic(auto)]

#[cfg(test)]
mod ads;
#[cfg(test)]
mod calls;
#[cfg(test)]
mod clock;
#[cfg(test)]
mod locked;
#[cfg(test)]
mod recorded;
#[cfg(test)]
mod sink;
#[cfg(test)]
mod spawner;
#[cfg(test)]
mod stopped;
#[cfg(test)]
mod store;
#[cfg(test)]
mod threads;
#[cfg(test)]
mod written;
