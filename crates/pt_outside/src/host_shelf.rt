ghost use Rattle.std.specs.Prelude.{◌≡◌, ◌≤◌, Some, None, IfOk, OnOk, IsUtf8, length};
ghost use Rattle.pt_outside.specs.Counts.{HasLoadCause, HasStoreCause, next, last};
ghost use Rattle.pt_outside.specs.Files.{KeepsFiles, Holds, Lacks, Stores, Tears};

use crate::traits::{Shelf, ShelfFault, StoreFault};
use pt_base::Text;
use std::alloc::Global;
use std::io::Read;
use std::marker::Model;
use std::rt::Files;
use std::{fs, io};

/// A shelf over the files of the system. It doesn't tell what they hold.
#[derive(Drop)]
pub struct HostShelf<'a, R: Files> {
    rt: &'a R,
    load_faults: u64,
    store_faults: u64,
}

impl<'a, R: Files> Model for HostShelf<'a, R> {
    ghost use Rattle.std.specs.Prelude.{ℕ, ◌≤◌};
    ghost use Rattle.pt_outside.specs.Counts.{last};

    ghost Value = { ℕ × ℕ };

    ghost view = { λ s. (s.load_faults, s.store_faults) };

    ghost invariant = { λ s. (s.load_faults ≤ last) × (s.store_faults ≤ last) };
}

impl<'a, R: Files> HostShelf<'a, R> {
    /// A shelf over this system's files, with no fault so far.
    pub fn over(rt: &'a R) -> Self
        ensures { result ≡ (0, 0) }
    {
        HostShelf {
            rt,
            load_faults: 0,
            store_faults: 0,
        }
    }
}

// Why the first bytes of a reader can't be had.
enum ReadFault {
    Failed,
    Memory,
}

// The first bytes of a reader.
fn read_front<F: Read>(alloc: Global, file: &mut F, most: u64) -> Result<Text, ReadFault>
    ensures { IfOk result (λ text. length text ≤ most) }
{
    let mut bytes = Vec::new(alloc);
    let mut left = most;
    let mut buffer = [0u8; 4096];
    while left > 0 {
        let room = left.min(4096) as usize;
        match file.read(&mut buffer[..room]) {
            Ok(0) => break,
            Ok(count) => {
                if bytes.extend_from_slice(&buffer[..count]).is_err() {
                    return Err(ReadFault::Memory);
                }
                left -= count as u64;
            }
            Err(_) => return Err(ReadFault::Failed),
        }
    }
    Ok(Text::from_vec(bytes))
}

// The first bytes of the file of this path.
fn read_file<R: Files>(alloc: Global, rt: &R, path: &str, most: u64) -> Result<Text, ShelfFault>
    ensures { IfOk result (λ text. length text ≤ most) }
{
    let mut file = match fs::open(rt, path) {
        Ok(file) => file,
        Err(e) if e.kind() == io::ErrorKind::NotFound => return Err(ShelfFault::Absent),
        Err(_) => return Err(ShelfFault::Failed),
    };
    match read_front(alloc, &mut file, most) {
        Ok(text) => Ok(text),
        Err(ReadFault::Memory) => Err(ShelfFault::Memory),
        Err(ReadFault::Failed) => Err(ShelfFault::Failed),
    }
}

impl<'a, R: Files> Shelf for HostShelf<'a, R> {
    ghost told = { λ s. record { files = None; load_faults = s.0; store_faults = s.1 } };

    fn load(&mut self, alloc: Global, name: &Text, most: u64) -> Result<Text, ShelfFault>
        ensures files { KeepsFiles None None }
        ensures found { IfOk result (λ text. Holds None name.now most text) }
        ensures absent { result ≡ Err ShelfFault.Absent → Lacks None name.now }
        ensures cause { HasLoadCause self.old.0 self.new.0 result }
        ensures store_faults { self.new.1 ≡ self.old.1 }
        ensures at_most { IfOk result (λ text. length text ≤ most) }
        ensures not_utf8 { ¬ IsUtf8 name.now → result ≡ Err ShelfFault.Failed }
        ensures counted { result ≡ Err ShelfFault.Failed → self.new.0 ≡ next self.old.0 }
    {
        let Ok(path) = std::str::from_utf8(name.bytes()) else {
            self.load_faults = self.load_faults.saturating_add(1);
            return Err(ShelfFault::Failed);
        };
        match read_file(alloc, self.rt, path, most) {
            Err(ShelfFault::Failed) => {
                self.load_faults = self.load_faults.saturating_add(1);
                Err(ShelfFault::Failed)
            }
            answer => answer,
        }
    }

    fn store(&mut self, _alloc: Global, name: &Text, bytes: &Text) -> Result<(), StoreFault>
        ensures stored { OnOk result (Stores None None name.now bytes.now) }
        ensures torn { result ≡ Err StoreFault.Failed → Tears None None name.now bytes.now }
        ensures memory { result ≡ Err StoreFault.Memory → KeepsFiles None None }
        ensures cause { HasStoreCause self.old.1 self.new.1 result }
        ensures load_faults { self.new.0 ≡ self.old.0 }
        ensures not_utf8 { ¬ IsUtf8 name.now → result ≡ Err StoreFault.Failed }
        ensures counted { result ≡ Err StoreFault.Failed → self.new.1 ≡ next self.old.1 }
    {
        let Ok(path) = std::str::from_utf8(name.bytes()) else {
            self.store_faults = self.store_faults.saturating_add(1);
            return Err(StoreFault::Failed);
        };
        match fs::write(self.rt, path, bytes.bytes()) {
            Ok(()) => Ok(()),
            Err(_) => {
                self.store_faults = self.store_faults.saturating_add(1);
                Err(StoreFault::Failed)
            }
        }
    }
}
