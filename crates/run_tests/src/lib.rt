//! Tests of several workers, by the top call over files, disks, source, sink and doors in memory: runs and services.
#![tactic(auto)]

#[cfg(test)]
mod blocks;
#[cfg(test)]
mod budgets;
#[cfg(test)]
mod gates;
#[cfg(test)]
mod services;
