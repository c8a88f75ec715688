//! Cases of the machine. In the crate's proofs stand ticks of images by the definition, each with what a model of the
//! machine that was written apart from it gave, and that the free tick with the same choices costs the same. The tests
//! run images on the machine itself, and drawn calls and drawn images beside a slow unit and a slow machine, which follow
//! the rules as they are written.
#![tactic(auto)]

#[cfg(test)]
mod drawn_images;
#[cfg(test)]
mod drawn_units;
#[cfg(test)]
mod draws;
#[cfg(test)]
mod machine_tests;
#[cfg(test)]
mod nesting_tests;
#[cfg(test)]
mod runs;
#[cfg(test)]
mod slow_machine;
#[cfg(test)]
mod slow_unit;
#[cfg(test)]
mod tick_tests;
#[cfg(test)]
mod trap_tests;
#[cfg(test)]
mod unit_tests;
