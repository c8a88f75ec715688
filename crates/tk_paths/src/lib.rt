//! Certificates and what their numbers mean: what a certificate asks, and what it is worth; the paths behind its numbers; the
//! certificate of a program; and such numbers in memory.
//!
//! Where all demands hold and a tick may take as many cycles as the bound, no free tick traps or is charged more than the bound,
//! and no tick of a run is charged more than the bound or traps but at a bad address. Read `Words`, `Kinds`, `Sums`, `Shape`,
//! `Acceptance`, `Bounded` and `Walks` in `specs/` in this order; `docs/bounds.md` says the same in words. The functions of
//! `bound_laws` do nothing: their contracts are the theorem.
//!
//! Where each number of a certificate is one that acceptance asks of it, exactly, there is a free tick that costs just the bound.
//! And the certificate of a program, whose numbers are told from how its code lies in the image, is accepted, and its bound is
//! the worst. Read `Passages`, `Reached`, `Tight`, `Regions`, `Greatest`, `Codes`, `Numbers`, `Programs` and `Counts` in `specs/`
//! in this order; `docs/bounds.md`, "Tight certificates" to "Programs", says the same in words. A `Program` is one in memory, and
//! `specs/Trees.antt` says which program of the definition it is. The functions of `path_laws` do nothing: their contracts are
//! the theorems.
//!
//! In memory, `Levels` are the numbers of the definition (`Numbers`), whatever is behind a place, and each function on them is
//! the definition's; `line` is a place's line. `slot_bounds` gives the numbers of all slots just as the definition tells them
//! (`slots_from`), from the highest slot down, and `bound_of` the bound. A sum is exact, or `TooLarge` where it is over
//! 1,000,000,000,000.
#![tactic(auto)]

mod bound_laws;
mod counts;
mod fault;
mod joins;
mod kinds;
mod levels;
mod made;
mod numbers;
mod path_laws;
mod resuming;
mod slots;
mod trees;
mod view;
mod word;

pub use bound_laws::{a_reached_bound_is_worst, a_yes_bounds_free_ticks, a_yes_bounds_runs};
pub use counts::{MOST, greater, more, plus, product, sum};
pub use fault::Fault;
pub use joins::{resumed_ends, resumed_most, resumed_paused};
pub use kinds::{Kind, in_loop, line};
pub use levels::{
    Levels, Pair, added, after, branched, copied, dearer, first_levels, just, level_at, nothing,
    value,
};
pub use made::Made;
pub use numbers::{abort_at, instr_at, number, or_zero, pair_at, start_of, value_at};
pub use path_laws::{
    a_greatest_bound_is_worst, a_program_bound_is_worst, a_program_is_accepted,
    a_program_is_counted, a_program_walk_costs_the_bound, a_program_walk_is_in_form,
    a_region_is_a_passage, a_region_is_crossed, a_small_program_has_small_numbers,
    a_small_program_is_in_form, a_tight_bound_is_worst, greatest_numbers_cover_beginnings,
    greatest_numbers_cover_rests,
};
pub use resuming::{
    best_paused, best_waited, handlers, joined_ended, joined_paused, paused, resting, stays,
    tested_by, waited,
};
pub use slots::{bound_of, greatest_of, slot_bounds};
pub use trees::{Code, Program, Region, Section};
pub use view::{Side, View};
pub use word::Word;
