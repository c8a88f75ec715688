ghost use Rattle.std.specs.Prelude.{◌≡◌, true, OnOk, OnErr, IfOk};
ghost use Rattle.std.specs.Io.{ReadsAtMost};
ghost use Rattle.std.specs.Io.KnownBytes.{Appends, Keeps, ReadConsumes};
ghost use Rattle.pt_outside.specs.Counts.{HasCause, HasLoadCause, HasStoreCause, next};
ghost use Rattle.pt_outside.specs.Told.{ShelfTold, SourceTold, SinkTold};
ghost use Rattle.pt_outside.specs.Files.{KeepsFiles, Stores, Tears, Holds, Lacks, AppendsFront};

use pt_base::Text;
use std::alloc::Global;

/// The outside failed.
#[derive(Clone, Copy, Debug, PartialEq, Eq)]
pub struct Failed;

/// Why a load gave no bytes.
#[derive(Clone, Copy, Debug, PartialEq, Eq)]
pub enum ShelfFault {
    /// There is no file of that name.
    Absent,
    /// The outside failed.
    Failed,
    /// No memory was found.
    Memory,
}

/// Why a store was not done.
#[derive(Clone, Copy, Debug, PartialEq, Eq)]
pub enum StoreFault {
    /// The outside failed.
    Failed,
    /// No memory was found.
    Memory,
}

/// Files by their names. It may tell what it holds, and tells two counts of faults, which never fall and end at
/// 18446744073709551615.
pub trait Shelf {
    ghost told: { Self → ShelfTold };

    /// The first `most` bytes of a file, all of it where it is shorter.
    ///
    /// `Absent` comes only where there is no file of that name, `Failed` only where the count of loads that
    /// failed rose, and with every other answer both counts stay.
    fn load(&mut self, alloc: Global, name: &Text, most: u64) -> Result<Text, ShelfFault>
        ensures files { KeepsFiles (told self.old).files (told self.new).files }
        ensures found { IfOk result (λ text. Holds (told self.old).files name.now most text) }
        ensures absent { result ≡ Err ShelfFault.Absent → Lacks (told self.old).files name.now }
        ensures cause { HasLoadCause (told self.old).load_faults (told self.new).load_faults result }
        ensures store_faults { (told self.new).store_faults ≡ (told self.old).store_faults };

    /// Makes the file of this name hold exactly these bytes.
    ///
    /// `Failed` comes only where the count of stores that failed rose; the other files then stay, and this
    /// name holds what it held or a front of the bytes. After `Memory` nothing has changed. With every other
    /// answer both counts stay.
    fn store(&mut self, alloc: Global, name: &Text, bytes: &Text) -> Result<(), StoreFault>
        ensures stored { OnOk result (Stores (told self.old).files (told self.new).files name.now bytes.now) }
        ensures torn { result ≡ Err StoreFault.Failed → Tears (told self.old).files (told self.new).files name.now bytes.now }
        ensures memory { result ≡ Err StoreFault.Memory → KeepsFiles (told self.old).files (told self.new).files }
        ensures cause { HasStoreCause (told self.old).store_faults (told self.new).store_faults result }
        ensures load_faults { (told self.new).load_faults ≡ (told self.old).load_faults };
}

/// Bytes that come. It may tell what is still to come, and tells a count of faults, which never falls and ends at
/// 18446744073709551615.
pub trait Source {
    ghost told: { Self → SourceTold };

    /// Moves the first bytes that are left into the front of the buffer, and gives their number.
    ///
    /// 0 for a buffer that isn't empty is the end of the input. `Failed` comes only where the count of
    /// faults rose, and nothing is then taken; else the count stays.
    fn pull(&mut self, into: &mut [u8]) -> Result<usize, Failed>
        ensures bound { ReadsAtMost result into.new }
        ensures bytes { ReadConsumes (told self.old).left (told self.new).left result into.new }
        ensures cause { HasCause (told self.old).faults (told self.new).faults result };
}

/// Bytes that go. It may tell what was pushed so far, and tells in how many pushes, whether none of it waits for a
/// flush, and a count of faults. The counts never fall and end at 18446744073709551615.
pub trait Sink {
    ghost told: { Self → SinkTold };

    /// Takes all of the bytes.
    ///
    /// `Failed` comes only where the count of faults rose; a front of the bytes was then taken. Else the count
    /// stays.
    fn push(&mut self, bytes: &[u8]) -> Result<(), Failed>
        ensures ok { OnOk result (Appends (told self.old).written (told self.new).written bytes.now) }
        ensures err { OnErr result (AppendsFront (told self.old).written (told self.new).written bytes.now) }
        ensures pushes { OnOk result ((told self.new).pushes ≡ next (told self.old).pushes) }
        ensures cause { HasCause (told self.old).faults (told self.new).faults result };

    /// Sends on what was pushed. `Failed` comes only where the count of faults rose; else it stays.
    fn flush(&mut self) -> Result<(), Failed>
        ensures written { Keeps (told self.old).written (told self.new).written }
        ensures pushes { (told self.new).pushes ≡ (told self.old).pushes }
        ensures sent { OnOk result ((told self.new).sent ≡ true) }
        ensures cause { HasCause (told self.old).faults (told self.new).faults result };
}
