//! Tests of the language: fractions, trees, tokens, terms, environments, the checker and runs without data.
#![tactic(auto)]

#[cfg(test)]
mod checks;
#[cfg(test)]
mod derivations;
#[cfg(test)]
mod environments;
#[cfg(test)]
mod fractions;
#[cfg(test)]
mod lines;
#[cfg(test)]
mod plain_grammar;
#[cfg(test)]
mod plans;
#[cfg(test)]
mod programs;
#[cfg(test)]
mod terms;
#[cfg(test)]
mod tokens;
#[cfg(test)]
mod trees;
#[cfg(test)]
mod types_kept;
