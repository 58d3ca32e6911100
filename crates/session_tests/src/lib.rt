//! Tests of sessions, by `serve` over connections, disks and journals in memory.
#![tactic(auto)]

#[cfg(test)]
mod abreast;
#[cfg(test)]
mod connections;
#[cfg(test)]
mod links;
#[cfg(test)]
mod memory;
#[cfg(test)]
mod serving;
