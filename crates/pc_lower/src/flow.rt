use crate::nodes::{Abort, Node};

/// A program as flow: its functions in the order of the text and which of them is `main`, its aborts by their numbers, the
/// words that the cells are declared with, and the words that are inputs and outputs.
#[derive(Drop)]
pub struct Flow {
    pub bodies: Vec<Node>,
    pub main: u32,
    pub aborts: Vec<Abort>,
    pub declared: Vec<i32>,
    pub inputs: Vec<u32>,
    pub outputs: Vec<u32>,
}
