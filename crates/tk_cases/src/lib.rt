//! Cases of acceptance: certificates for small images, most of them altered in one place, each with the first demand that fails,
//! as models that were written apart gave it. In the crate's proofs they are of the definitions, in its tests of the judge.
#![tactic(auto)]

#[cfg(test)]
mod cases;
#[cfg(test)]
mod judge_tests;
#[cfg(test)]
mod limit_rows;
#[cfg(test)]
mod limit_tests;
#[cfg(test)]
mod number_rows;
#[cfg(test)]
mod shape_rows;
#[cfg(test)]
mod walk_tests;
