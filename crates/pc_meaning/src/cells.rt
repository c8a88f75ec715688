ghost use Rattle.std.specs.Prelude.{◌≡◌, List, ℤ, IfOk, OnOk, slice_set};
ghost use Rattle.pc_meaning.specs.Values.{word_at};
ghost use Rattle.pc_meaning.specs.Cells.{copied};

use pt_base::Memory;
use std::alloc::Global;
use std::marker::Model;

/// The word at a place, and 0 where there is none.
pub fn word(store: &[i32], place: usize) -> i32
    ensures { result ≡ word_at store.now place }
{
    match store.get(place) {
        Some(word) => *word,
        None => 0,
    }
}

// The word at a place is set, where there is one.
fn set_word(store: &mut Vec<i32>, place: usize, word: i32)
    ensures { store.new.items ≡ slice_set store.old.items place word }
{
    if place < store.len() {
        store[place] = word;
    }
}

// Words at these places go over from one store into another.
fn copy(places: &[usize], from: &[i32], into: &mut Vec<i32>)
    ensures { into.new.items ≡ copied places.now from.now into.old.items }
{
    for place in places {
        set_word(into, *place, word(from, *place));
    }
}

/// The words of the cells, and those at the end of the last tick. What a tick writes is kept or taken back at the cost of
/// its writes.
#[derive(Drop)]
pub struct Cells {
    current: Vec<i32>,
    before: Vec<i32>,
    /// The places written since the last tick's end.
    written: Vec<usize>,
}

impl Model for Cells {
    ghost use Rattle.pc_meaning.specs.Cells.{Words, DifferAt};

    ghost Value = { Words };

    ghost view = { λ c. record { current = c.current.items; before = c.before.items } };

    ghost invariant = { λ c. DifferAt c.written.items c.current.items c.before.items };
}

impl Cells {
    /// Cells with these words, now and before.
    pub fn of(alloc: Global, words: Vec<i32>) -> Result<Cells, Memory>
        ensures { IfOk result (λ cells. cells ≡ record { current = words.items; before = words.items }) }
    {
        let before = words.to_vec(alloc)?;
        Ok(Cells {
            current: words,
            before,
            written: Vec::new(alloc),
        })
    }

    /// The words now.
    pub fn current(&self) -> &[i32]
        ensures { result.now ≡ self.now.current }
    {
        &self.current
    }

    /// The words at the end of the last tick.
    pub fn before(&self) -> &[i32]
        ensures { result.now ≡ self.now.before }
    {
        &self.before
    }

    /// The word at a place is set, where there is one.
    pub fn set(&mut self, place: usize, word: i32) -> Result<(), Memory>
        ensures current { OnOk result (self.new.current ≡ slice_set self.old.current place word) }
        ensures before { self.new.before ≡ self.old.before }
    {
        self.written.push(place)?;
        set_word(&mut self.current, place, word);
        Ok(())
    }

    /// A tick ends: what was written stays.
    pub fn keep(&mut self)
        ensures { self.new ≡ record { current = self.old.current; before = self.old.current } }
    {
        copy(&self.written, &self.current, &mut self.before);
        self.written.clear();
    }

    /// A tick is given up: the words are those at the end of the last one.
    pub fn take_back(&mut self)
        ensures { self.new ≡ record { current = self.old.before; before = self.old.before } }
    {
        copy(&self.written, &self.before, &mut self.current);
        self.written.clear();
    }
}
