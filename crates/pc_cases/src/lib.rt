//! Tests of the front over whole sources, row by row: trees, places of refusal, numbers of names and canonical texts; and of
//! the meaning: what whole programs show tick by tick.
//!
//! There is nothing here but tests and what they call. The helpers promise nothing, so that a test knows no more of a source
//! than what it compares.
#![tactic(auto)]

#[cfg(test)]
mod expression_tests;
#[cfg(test)]
mod limit_tests;
#[cfg(test)]
mod meaning_tests;
#[cfg(test)]
mod name_tests;
#[cfg(test)]
mod parse_tests;
#[cfg(test)]
mod place_tests;
#[cfg(test)]
mod print_tests;
#[cfg(test)]
mod reading;
#[cfg(test)]
mod shown;
#[cfg(test)]
mod sources;
