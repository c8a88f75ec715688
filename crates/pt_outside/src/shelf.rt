ghost use Rattle.std.specs.Prelude.{◌≡◌, ◌≤◌, ◌↔◌, List, ℕ, Option, Some, None, OnOk, OnErr, IfOk, IsTrue, Contains, ◌∷◌, take};
ghost use Rattle.std.specs.Option.{option_copied};
ghost use Rattle.std.specs.FinMap.{from_entries, get, find, insert};
ghost use Rattle.std.specs.Ordering.{nat_cmp};
ghost use Rattle.std.specs.Cmp.Lexicographic.{slice_cmp};
ghost use Rattle.pt_outside.specs.Counts.{HasLoadCause, HasStoreCause, Counts, Rose, next, last};
ghost use Rattle.pt_outside.specs.Kept.{entries_of};
ghost use Rattle.pt_outside.specs.Files.{Files, HaveDistinctNames, KeepsFiles, Stores, Tears, Holds, Lacks};

use crate::traits::{Shelf, ShelfFault, StoreFault};
use pt_base::{Many, Memory, Text};
use std::alloc::{AllocError, Global};
use std::marker::Model;

/// A shelf in memory, some of whose calls fail.
#[derive(Drop)]
pub struct MemShelf {
    // what was stored since, the last first
    stored: Option<Vec<(Text, Text)>>,
    first: Many<(Text, Text)>,
    fails: Many<u64>,
    calls: u64,
    load_faults: u64,
    store_faults: u64,
}

impl Model for MemShelf {
    ghost use Rattle.std.specs.Prelude.{◌++◌, ◌≤◌};
    ghost use Rattle.std.specs.FinMap.{from_entries};
    ghost use Rattle.pt_outside.specs.Counts.{last};
    ghost use Rattle.pt_outside.specs.Kept.{Shelved, shelved_code, entries_of};

    ghost Value = { Shelved };

    ghost coded = { shelved_code };

    ghost view = { λ s. record {
      files = from_entries (entries_of s.stored ++ s.first);
      fails = s.fails;
      calls = s.calls;
      load_faults = s.load_faults;
      store_faults = s.store_faults;
    } };

    ghost invariant = { λ s. (s.load_faults ≤ last) × (s.store_faults ≤ last) };
}

// The first file of this name.
fn find_file<'a>(files: &'a [(Text, Text)], name: &[u8]) -> Option<&'a Text>
    ensures { option_copied result ≡ find (slice_cmp nat_cmp) name.now files.now }
{
    for file in files {
        if file.0.bytes() == name {
            return Some(&file.1);
        }
    }
    None
}

// The first file of this name, in a list that may not have been made yet.
fn find_stored<'a>(stored: &'a Option<Vec<(Text, Text)>>, name: &[u8]) -> Option<&'a Text>
    ensures { option_copied result ≡ find (slice_cmp nat_cmp) name.now (entries_of stored.now) }
{
    match stored {
        Some(files) => find_file(files, name),
        None => None,
    }
}

// The files, or a list of none.
fn files_or_none(alloc: Global, stored: Option<Vec<(Text, Text)>>) -> Vec<(Text, Text)>
    ensures { result.items ≡ entries_of stored }
{
    match stored {
        Some(files) => files,
        None => Vec::new(alloc),
    }
}

// The first bytes of a text.
fn front(alloc: Global, text: &Text, most: u64) -> Result<Text, Memory>
    ensures { IfOk result (λ t. t ≡ take most text.now) }
{
    let bytes = text.bytes();
    let count = most.min(bytes.len() as u64) as usize;
    Text::of(alloc, &bytes[..count])
}

// Puts a file before the others.
fn put(
    alloc: Global,
    files: &mut Vec<(Text, Text)>,
    name: &Text,
    bytes: &Text,
) -> Result<(), AllocError>
    ensures ok { OnOk result (files.new.items ≡ (name.now, bytes.now) ∷ files.old.items) }
    ensures err { OnErr result (files.new.items ≡ files.old.items) }
{
    let name = match Text::of(alloc, name.bytes()) {
        Ok(name) => name,
        Err(_) => return Err(AllocError),
    };
    let bytes = match Text::of(alloc, bytes.bytes()) {
        Ok(bytes) => bytes,
        Err(_) => return Err(AllocError),
    };
    files.insert(0, (name, bytes))?;
    Ok(())
}

impl MemShelf {
    /// A shelf of these names and bytes, whose calls of these numbers are to fail. It takes no memory.
    pub fn of(files: Many<(Text, Text)>, fails: Many<u64>) -> MemShelf
        requires { HaveDistinctNames files }
        ensures { result ≡ record { files = from_entries files; fails = fails; calls = 0; load_faults = 0; store_faults = 0 } }
    {
        MemShelf {
            stored: None,
            first: files,
            fails,
            calls: 0,
            load_faults: 0,
            store_faults: 0,
        }
    }

    /// What the file of this name holds.
    pub fn file(&self, name: &Text) -> Option<&Text>
        ensures { option_copied result ≡ get self.now.files name.now }
    {
        match find_stored(&self.stored, name.bytes()) {
            Some(text) => Some(text),
            None => find_file(self.first.items(), name.bytes()),
        }
    }

    /// How many calls failed, loads and stores.
    pub fn faults(&self) -> (u64, u64)
        ensures { (result.0 ≡ self.now.load_faults) × (result.1 ≡ self.now.store_faults) }
    {
        (self.load_faults, self.store_faults)
    }

    // Notes a call, and says whether it is to fail.
    fn is_listed(&mut self) -> bool
        ensures listed { IsTrue result ↔ Contains self.old.fails self.old.calls }
        ensures noted { self.new ≡ record self.old { calls = next self.old.calls } }
        ensures within { (self.new.load_faults ≤ last) × (self.new.store_faults ≤ last) }
    {
        let call = self.calls;
        self.calls = call.saturating_add(1);
        self.fails.items().contains(&call)
    }

    fn fail_load(&mut self)
        ensures noted { self.new ≡ record self.old { load_faults = next self.old.load_faults } }
        ensures later { self.old.load_faults ≤ self.new.load_faults }
        ensures within { self.new.load_faults ≤ last }
        ensures rose { Rose self.old.load_faults self.new.load_faults }
    {
        self.load_faults = self.load_faults.saturating_add(1);
    }

    fn fail_store(&mut self)
        ensures noted { self.new ≡ record self.old { store_faults = next self.old.store_faults } }
        ensures later { self.old.store_faults ≤ self.new.store_faults }
        ensures within { self.new.store_faults ≤ last }
        ensures rose { Rose self.old.store_faults self.new.store_faults }
    {
        self.store_faults = self.store_faults.saturating_add(1);
    }

    fn put(&mut self, alloc: Global, name: &Text, bytes: &Text) -> Result<(), AllocError>
        ensures ok { OnOk result (self.new ≡ record self.old { files = insert self.old.files name.now bytes.now }) }
        ensures err { OnErr result (self.new ≡ self.old) }
    {
        let mut files = files_or_none(alloc, self.stored.take());
        let outcome = put(alloc, &mut files, name, bytes);
        self.stored = Some(files);
        outcome
    }
}

impl Shelf for MemShelf {
    ghost told = { λ s. record { files = Some s.files; load_faults = s.load_faults; store_faults = s.store_faults } };

    fn load(&mut self, alloc: Global, name: &Text, most: u64) -> Result<Text, ShelfFault>
        ensures files { KeepsFiles (Some self.old.files) (Some self.new.files) }
        ensures found { IfOk result (λ text. Holds (Some self.old.files) name.now most text) }
        ensures absent { result ≡ Err ShelfFault.Absent → Lacks (Some self.old.files) name.now }
        ensures cause { HasLoadCause self.old.load_faults self.new.load_faults result }
        ensures store_faults { self.new.store_faults ≡ self.old.store_faults }
        ensures failed_exactly { (result ≡ Err ShelfFault.Failed) ↔ Contains self.old.fails self.old.calls }
        ensures absent_exactly { (result ≡ Err ShelfFault.Absent) ↔
            ((get self.old.files name.now ≡ None) × (¬ Contains self.old.fails self.old.calls)) }
        ensures counted { result ≡ Err ShelfFault.Failed → self.new.load_faults ≡ next self.old.load_faults }
        ensures kept { self.new ≡ record self.old { calls = next self.old.calls; load_faults = self.new.load_faults } }
    {
        if self.is_listed() {
            self.fail_load();
            return Err(ShelfFault::Failed);
        }
        match self.file(name) {
            None => Err(ShelfFault::Absent),
            Some(text) => match front(alloc, text, most) {
                Ok(text) => Ok(text),
                Err(_) => Err(ShelfFault::Memory),
            },
        }
    }

    fn store(&mut self, alloc: Global, name: &Text, bytes: &Text) -> Result<(), StoreFault>
        ensures stored { OnOk result (Stores (Some self.old.files) (Some self.new.files) name.now bytes.now) }
        ensures torn { result ≡ Err StoreFault.Failed → Tears (Some self.old.files) (Some self.new.files) name.now bytes.now }
        ensures memory { result ≡ Err StoreFault.Memory → KeepsFiles (Some self.old.files) (Some self.new.files) }
        ensures cause { HasStoreCause self.old.store_faults self.new.store_faults result }
        ensures load_faults { self.new.load_faults ≡ self.old.load_faults }
        ensures failed_exactly { (result ≡ Err StoreFault.Failed) ↔ Contains self.old.fails self.old.calls }
        ensures counted { result ≡ Err StoreFault.Failed → self.new.store_faults ≡ next self.old.store_faults }
        ensures kept { self.new ≡
            record self.old { files = self.new.files; calls = next self.old.calls; store_faults = self.new.store_faults } }
    {
        if self.is_listed() {
            self.fail_store();
            return Err(StoreFault::Failed);
        }
        match self.put(alloc, name, bytes) {
            Ok(()) => Ok(()),
            Err(_) => Err(StoreFault::Memory),
        }
    }
}
