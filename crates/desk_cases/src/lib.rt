//! Tests of a desk over the generated disk, whose calls continue after memory ran out; in a separate crate.
#![tactic(auto)]

#[cfg(test)]
mod persisting;
#[cfg(test)]
mod tests;
