//! Cases of flows and of the words of their steps. Whole programs are run by their flow, and it is seen whether it shows in each
//! tick what they mean and stands where they stand; and the words of steps are run on the machine.
//!
//! `walking.rt` walks over a flow as `specs/Flow.antt` of `pc_lower` says, and `drawing.rt` draws programs of every construct.
//! Nothing is proved of them but that they are safe and end. `runs.rt` lays the words of a few steps out in an image with a pause
//! behind them, and runs it with every place in a register and in the memory; what comes of each pair of edge values is compared
//! with what `pt_base` gives.
#![tactic(auto)]

#[cfg(test)]
mod drawing;
#[cfg(test)]
mod element_tests;
#[cfg(test)]
mod operator_tests;
#[cfg(test)]
mod runs;
#[cfg(test)]
mod tests;
#[cfg(test)]
mod walking;
