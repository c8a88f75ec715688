use pc_lower::{Flow, Node, Place, Step, Test};
use pt_base::{Memory, binary, unary};
use sqlite_items::{Boxed, Items};
use std::alloc::Global;

/// What is left of a node. It holds numbers alone, and is read along the node.
#[derive(Drop)]
pub enum Rest {
    /// The pause of this number.
    Here(u32),
    Inside(usize, Boxed<Rest>),
    Beside(Items<Option<Rest>>),
}

#[derive(Drop)]
enum Standing {
    Fresh,
    Waits(Rest),
    Stopped,
}

/// The words of the cells, and those of the temporaries.
#[derive(Drop)]
struct Words {
    store: Vec<i32>,
    temps: Vec<i32>,
}

/// A run of a flow.
#[derive(Drop)]
pub struct Walk<'a> {
    flow: &'a Flow,
    standing: Standing,
    words: Words,
}

// No flow of a test is so deep.
const DEEPEST: u32 = 10_000;

const MOST_TEMPORARIES: usize = 652;

fn word_at(words: &[i32], at: u32) -> i32 {
    match words.get(at as usize) {
        None => 0,
        Some(word) => *word,
    }
}

fn set_word(words: &mut [i32], at: u32, word: i32) {
    if let Some(there) = words.get_mut(at as usize) {
        *there = word;
    }
}

// The place of an element, and none outside of the array.
fn element(first: u32, size: u32, index: i32) -> Option<u32> {
    if index < 0 {
        return None;
    }
    let index = index.cast_unsigned();
    if index < size {
        first.checked_add(index)
    } else {
        None
    }
}

impl Words {
    fn get(&self, place: Place) -> i32 {
        match place {
            Place::Temp(number) => word_at(&self.temps, number),
            Place::Held(_) => 0,
        }
    }

    fn set(&mut self, place: Place, word: i32) {
        match place {
            Place::Temp(number) => set_word(&mut self.temps, number, word),
            Place::Held(_) => {}
        }
    }

    fn step(&mut self, step: Step) {
        match step {
            Step::Const { to, word } => self.set(to, word),
            Step::Load { to, word } => {
                let word = word_at(&self.store, word);
                self.set(to, word);
            }
            Step::Save { word, by } => {
                let value = self.get(by);
                set_word(&mut self.store, word, value);
            }
            Step::Unary { op, to, by } => {
                let value = unary(op, self.get(by));
                self.set(to, value);
            }
            Step::Binary {
                op,
                to,
                left,
                right,
            } => {
                let value = binary(op, self.get(left), self.get(right));
                self.set(to, value);
            }
            Step::TakeElement {
                to,
                first,
                size,
                index,
            } => {
                let value = match element(first, size, self.get(index)) {
                    None => 0,
                    Some(at) => word_at(&self.store, at),
                };
                self.set(to, value);
            }
            Step::PutElement {
                first,
                size,
                index,
                by,
            } => {
                let value = self.get(by);
                if let Some(at) = element(first, size, self.get(index)) {
                    set_word(&mut self.store, at, value);
                }
            }
            Step::Move { to, by } => {
                let value = self.get(by);
                self.set(to, value);
            }
        }
    }

    fn run(&mut self, steps: &[Step]) {
        for step in steps {
            self.step(*step);
        }
    }

    fn decides(&mut self, test: &Test) -> bool {
        self.run(test.steps.as_slice());
        self.get(test.by) != 0
    }

    fn decides_if(&mut self, test: &Option<Test>) -> bool {
        match test {
            None => true,
            Some(test) => self.decides(test),
        }
    }
}

fn inside(alloc: Global, part: usize, rest: Option<Rest>) -> Result<Option<Rest>, Memory> {
    match rest {
        None => Ok(None),
        Some(rest) => Ok(Some(Rest::Inside(part, Boxed::new(alloc, rest)?))),
    }
}

fn beside(rests: Items<Option<Rest>>) -> Option<Rest> {
    for rest in rests.as_slice() {
        if rest.is_some() {
            return Some(Rest::Beside(rests));
        }
    }
    None
}

// A node starts; it is so many nodes deep at most.
#[cycle(go)]
fn go(
    alloc: Global,
    flow: &Flow,
    node: &Node,
    deep: u32,
    words: &mut Words,
) -> Result<Option<Rest>, Memory> {
    if deep == 0 {
        return Err(Memory);
    }
    match node {
        Node::Straight(steps) => {
            words.run(steps.as_slice());
            Ok(None)
        }
        Node::Sequence(all) => go_from(alloc, flow, all.as_slice(), 0, deep - 1, words),
        Node::Branch {
            test,
            first,
            second,
        } => {
            if words.decides(test) {
                let rest = go(alloc, flow, first.get(), deep - 1, words)?;
                inside(alloc, 0, rest)
            } else {
                let rest = go(alloc, flow, second.get(), deep - 1, words)?;
                inside(alloc, 1, rest)
            }
        }
        Node::Turns { test, body } => {
            if !words.decides_if(test) {
                return Ok(None);
            }
            let rest = go(alloc, flow, body.get(), deep - 1, words)?;
            inside(alloc, 0, rest)
        }
        Node::Bounded { most, test, body } => {
            for _turn in 0..*most {
                if !words.decides_if(test) {
                    return Ok(None);
                }
                go(alloc, flow, body.get(), deep - 1, words)?;
            }
            if let Some(test) = test {
                words.decides(test);
            }
            Ok(None)
        }
        Node::Call(function) => {
            start(alloc, flow, *function, deep - 1, words)?;
            Ok(None)
        }
        Node::Pause(number) => Ok(Some(Rest::Here(*number))),
        Node::Fork { number: _, threads } => {
            let mut rests = Items::new(alloc);
            for thread in threads.as_slice() {
                rests.push(start(alloc, flow, *thread, deep - 1, words)?)?;
            }
            Ok(beside(rests))
        }
        Node::Guard { number: _, body } => {
            let rest = go(alloc, flow, body.get(), deep - 1, words)?;
            inside(alloc, 0, rest)
        }
    }
}

#[cycle(go)]
fn go_from(
    alloc: Global,
    flow: &Flow,
    all: &[Node],
    from: usize,
    deep: u32,
    words: &mut Words,
) -> Result<Option<Rest>, Memory> {
    if deep == 0 {
        return Err(Memory);
    }
    for i in from..all.len() {
        if let Some(rest) = go(alloc, flow, &all[i], deep - 1, words)? {
            return inside(alloc, i, Some(rest));
        }
    }
    Ok(None)
}

#[cycle(go)]
fn start(
    alloc: Global,
    flow: &Flow,
    function: u32,
    deep: u32,
    words: &mut Words,
) -> Result<Option<Rest>, Memory> {
    if deep == 0 {
        return Err(Memory);
    }
    match flow.bodies.get(function as usize) {
        None => Ok(None),
        Some(body) => go(alloc, flow, body, deep - 1, words),
    }
}

fn is_weak(flow: &Flow, abort: u32) -> bool {
    match flow.aborts.get(abort as usize) {
        None => false,
        Some(abort) => abort.weak,
    }
}

fn holds(fires: &[bool], abort: u32) -> bool {
    match fires.get(abort as usize) {
        None => false,
        Some(fires) => *fires,
    }
}

// What is left of a node goes on; `fires` says of each abort whether its condition holds.
#[cycle(again)]
fn again(
    alloc: Global,
    flow: &Flow,
    fires: &[bool],
    rest: &Rest,
    node: &Node,
    words: &mut Words,
) -> Result<Option<Rest>, Memory> {
    match (rest, node) {
        (Rest::Here(_), _) => Ok(None),
        (Rest::Inside(i, rest), Node::Sequence(all)) => {
            let Some(part) = all.get(*i) else {
                return Ok(None);
            };
            let rest = again(alloc, flow, fires, rest.get(), part, words)?;
            if rest.is_some() {
                return inside(alloc, *i, rest);
            }
            go_from(alloc, flow, all.as_slice(), *i + 1, DEEPEST, words)
        }
        (
            Rest::Inside(i, rest),
            Node::Branch {
                test: _,
                first,
                second,
            },
        ) => {
            let part = if *i == 0 { first.get() } else { second.get() };
            let rest = again(alloc, flow, fires, rest.get(), part, words)?;
            inside(alloc, *i, rest)
        }
        (Rest::Inside(_, rest), Node::Turns { test: _, body }) => {
            let rest = again(alloc, flow, fires, rest.get(), body.get(), words)?;
            if rest.is_some() {
                return inside(alloc, 0, rest);
            }
            go(alloc, flow, node, DEEPEST, words)
        }
        (Rest::Inside(_, rest), Node::Guard { number, body }) => {
            let fires_now = holds(fires, *number);
            if fires_now && !is_weak(flow, *number) {
                return Ok(None);
            }
            let rest = again(alloc, flow, fires, rest.get(), body.get(), words)?;
            if fires_now {
                return Ok(None);
            }
            inside(alloc, 0, rest)
        }
        (Rest::Beside(rests), Node::Fork { number: _, threads }) => {
            let mut later = Items::new(alloc);
            for (i, rest) in rests.as_slice().iter().enumerate() {
                let body = match threads.get(i) {
                    None => None,
                    Some(thread) => flow.bodies.get(*thread as usize),
                };
                let left = match (rest, body) {
                    (Some(rest), Some(body)) => again(alloc, flow, fires, rest, body, words)?,
                    _ => None,
                };
                later.push(left)?;
            }
            Ok(beside(later))
        }
        _ => Ok(None),
    }
}

// The numbers of the pauses at which a rest stands.
fn push_pauses(rest: &Rest, pauses: &mut Vec<u32>) -> Result<(), Memory> {
    match rest {
        Rest::Here(number) => {
            pauses.push(*number)?;
            Ok(())
        }
        Rest::Inside(_, rest) => push_pauses(rest.get(), pauses),
        Rest::Beside(rests) => {
            for rest in rests.as_slice() {
                if let Some(rest) = rest {
                    push_pauses(rest, pauses)?;
                }
            }
            Ok(())
        }
    }
}

impl<'a> Walk<'a> {
    /// A run before its first tick. The temporaries hold a number that no program sets them to.
    pub fn begin(alloc: Global, flow: &'a Flow) -> Result<Walk<'a>, Memory> {
        let store = flow.declared.clone()?;
        let temps = vec![in alloc; -77; MOST_TEMPORARIES]?;
        Ok(Walk {
            flow,
            standing: Standing::Fresh,
            words: Words { store, temps },
        })
    }

    // Of each abort whether its condition holds.
    fn fires(&self, alloc: Global) -> Result<Vec<bool>, Memory> {
        let flow = self.flow;
        let mut words = Words {
            store: self.words.store.clone()?,
            temps: self.words.temps.clone()?,
        };
        let mut fires = Vec::new(alloc);
        for abort in &flow.aborts {
            let holds = words.decides(&abort.test);
            fires.push(holds)?;
        }
        Ok(fires)
    }

    /// The next tick: the inputs get the words of the row, and the answer has those of the outputs.
    pub fn tick(&mut self, alloc: Global, row: &[i32]) -> Result<Vec<i32>, Memory> {
        let flow = self.flow;
        let fires = self.fires(alloc)?;
        for (input, word) in flow.inputs.iter().zip(row) {
            set_word(&mut self.words.store, *input, *word);
        }
        let rest = match &self.standing {
            Standing::Fresh => start(alloc, flow, flow.main, DEEPEST, &mut self.words)?,
            Standing::Stopped => None,
            Standing::Waits(rest) => match flow.bodies.get(flow.main as usize) {
                None => None,
                Some(body) => again(alloc, flow, &fires, rest, body, &mut self.words)?,
            },
        };
        self.standing = match rest {
            None => Standing::Stopped,
            Some(rest) => Standing::Waits(rest),
        };
        let mut out = Vec::new(alloc);
        for output in &flow.outputs {
            out.push(word_at(&self.words.store, *output))?;
        }
        Ok(out)
    }

    /// The numbers of the pauses at which it stands, thread by thread.
    pub fn pauses(&self, alloc: Global) -> Result<Vec<u32>, Memory> {
        let mut pauses = Vec::new(alloc);
        if let Standing::Waits(rest) = &self.standing {
            push_pauses(rest, &mut pauses)?;
        }
        Ok(pauses)
    }
}
