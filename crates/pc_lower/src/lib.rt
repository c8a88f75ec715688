//! Flows: what programs do in steps over temporaries, from a program to its flow, and what an image does that holds one.
//!
//! A flow is made of pieces that pause, branch, turn, call, start threads and abort. The definition is `specs/Flow.antt`: a node
//! starts and goes on as a statement does, and `run_of` gives the outputs of a run. `specs/Residuals.antt` says what may be left
//! of a node. `Flow` is a whole program with its nodes, and `specs/Trees.antt` says which of the definition it is.
//!
//! `lower` gives the flow of a program, that of `specs/Lowered.antt`, which shows in each tick what the program means, whatever
//! the temporaries hold at first, in 652 temporaries, and in words and passages that are within those that the program is weighed
//! with. The laws say the same of the definition: `a_flow_is_correct` and `lowering_keeps_start_and_resume` of every program that
//! keeps what `specs/Sound.antt` asks, and `a_typed_program_fits` that each program with numbers for names does.
//!
//! The region law: the words of a node, wherever they stand in an image, do what the node means; so each tick of an image that
//! holds a flow does what the flow does in that tick. It is said once over the step of `mb_isa`, for any data and any
//! surroundings. Read `Slots`, `Places`, `Standing`, `Laid`, `StepCounts`, `Law`, `Program`, `Turns`, `Tests`, `Ticks`, `Words`,
//! `Image`, `Bounds`, `Sizing`, `Limits`, `Numbering`, `Layable`, `Slotwise`, `Runs`, `Example` and `RegionLaws` in `specs/` in
//! this order. `Laid` says where the words of a node stand, `Standing` where the slots of a residual do; `Law` says what it is
//! that code does what is meant; `Image` says when an image is that of a flow. What is left to whoever uses it are the laws of
//! the data (`DataLaws`) and that an image is laid out so (`IsImageOf`).
//!
//! And the flow of a program keeps what the region law asks for, so a run of its image is a run of the program. Read `Meant`,
//! `Placing`, `Cells`, `Few` and `FlowLaws` in `specs/` in this order. `Meant` says what an image does that does what a program
//! means; `Placing` is what is chosen for a program beside its words. What is left to whoever uses these laws is that an image
//! holds the flow (`IsImageOf`), which asks that the flow can be laid out, and that registers and memory do the steps
//! (`RunLaws`), which asks that steps keep to their cells.
#![tactic(auto)]

mod conditions;
mod flow;
mod flow_laws;
mod laws;
mod lowering;
mod marks;
mod node_laws;
mod nodes;
mod region_laws;
mod statements;
mod steps;

pub use flow::Flow;
pub use flow_laws::{
    flows_are_within_limits, flows_can_be_laid, flows_keep_to_their_cells, images_do_what_is_meant,
};
pub use laws::{
    a_flow_is_correct, a_passage_is_within_its_number, a_typed_flow_is_correct,
    a_typed_flow_is_few, a_typed_program_fits, aborts_are_listed, lowering_keeps_start_and_resume,
    rules_on_loops_hold_of_the_tree, steps_leave_the_value, temporaries_are_few,
    weights_are_those_of_the_language, words_are_within_the_weight,
};
pub use lowering::lower;
pub use node_laws::{a_node_leaves_its_residuals, a_residual_stays_one};
pub use nodes::{Abort, Node, Place, Step, Test};
pub use region_laws::{
    flows_stand_in_configurations, runs_are_those_of_the_flow, sizes_are_there, slots_are_numbered,
    slots_stand_as_the_residual, the_example_meets_them, ticks_are_limited,
    ticks_are_those_of_the_flow,
};
