//! Tests of the outside, of doors and of connections over loopback, of the program's words and of the sampler.
#![tactic(auto)]

#[cfg(test)]
mod accepts;
#[cfg(test)]
mod bays;
#[cfg(test)]
mod disks;
#[cfg(test)]
mod doors;
#[cfg(test)]
mod draws;
#[cfg(test)]
mod files_and_streams;
#[cfg(test)]
mod limits;
#[cfg(test)]
mod links;
#[cfg(test)]
mod loopback;
#[cfg(test)]
mod plain_sampler;
#[cfg(test)]
mod samples;
#[cfg(test)]
mod slow;
#[cfg(test)]
mod trials;
#[cfg(test)]
mod words;
