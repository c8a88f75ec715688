use pt_base::{BinOp, UnOp};
use sqlite_items::{Boxed, Items};

/// Where a word is kept beside the store: in a temporary, or held for the whole of a function.
#[derive(Clone, Copy)]
pub enum Place {
    Temp(u32),
    Held(u32),
}

/// A step over the words of the store and of the places.
#[derive(Clone, Copy)]
pub enum Step {
    /// A word comes to a place.
    Const {
        to: Place,
        word: i32,
    },
    /// A word of the store, by its number, comes to a place.
    Load {
        to: Place,
        word: u32,
    },
    /// The word of a place goes to the store.
    Save {
        word: u32,
        by: Place,
    },
    /// `to` is `op by`.
    Unary {
        op: UnOp,
        to: Place,
        by: Place,
    },
    /// `to` is `left op right`.
    Binary {
        op: BinOp,
        to: Place,
        left: Place,
        right: Place,
    },
    /// An element of the array of `size` words from `first` on comes to a place, and 0 where the index is outside.
    TakeElement {
        to: Place,
        first: u32,
        size: u32,
        index: Place,
    },
    /// The word of a place goes to an element, and nowhere where the index is outside.
    PutElement {
        first: u32,
        size: u32,
        index: Place,
        by: Place,
    },
    /// The word of a place comes to another.
    Move {
        to: Place,
        by: Place,
    },
}

/// Steps, and the place that is looked at after them.
#[derive(Drop)]
pub struct Test {
    pub steps: Items<Step>,
    pub by: Place,
}

/// A piece of a function.
#[derive(Drop)]
pub enum Node {
    Straight(Items<Step>),
    Sequence(Items<Node>),
    Branch {
        test: Test,
        first: Boxed<Node>,
        second: Boxed<Node>,
    },
    /// A loop without a bound. One without a test is never left.
    Turns {
        test: Option<Test>,
        body: Boxed<Node>,
    },
    Bounded {
        most: u32,
        test: Option<Test>,
        body: Boxed<Node>,
    },
    /// The function of this number is called.
    Call(u32),
    Pause(u32),
    Fork {
        number: u32,
        threads: Items<u32>,
    },
    /// The body of the abort of this number.
    Guard {
        number: u32,
        body: Boxed<Node>,
    },
}

/// An abort: whether it is weak, and its condition.
#[derive(Drop)]
pub struct Abort {
    pub weak: bool,
    pub test: Test,
}
