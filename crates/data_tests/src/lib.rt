//! Tests of tables, catalogs, parts, bags, distances, lines and replies, charges and records.
#![tactic(auto)]

#[cfg(test)]
mod bags;
#[cfg(test)]
mod catalogs;
#[cfg(test)]
mod charges;
#[cfg(test)]
mod columns;
#[cfg(test)]
mod csv_tables;
#[cfg(test)]
mod distances;
#[cfg(test)]
mod lines_and_replies;
#[cfg(test)]
mod made_parts;
#[cfg(test)]
mod parts;
#[cfg(test)]
mod records;
