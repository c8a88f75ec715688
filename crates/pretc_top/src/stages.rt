ghost use Rattle.std.specs.Prelude.{◌≡◌, IfOk, IfErr, OnOk};
ghost use Rattle.pt_outside.specs.Files.{Holds};
ghost use Rattle.pt_image.specs.Text.{text_of};
ghost use Rattle.tk_cert.specs.Text as cert_file;
ghost use Rattle.pc_rules.specs.Sizes.{AreSizes};
ghost use Rattle.pc_rules.specs.Sources.{Breaks};
ghost use Rattle.pc_rules.specs.Verdicts.{BreaksFirst};
ghost use Rattle.pretc_top.specs.Loading.{IsAsBefore, LoadFails, ProgramFails, IsLoaded, IsTaken};
ghost use Rattle.pretc_top.specs.Refusing as spec;
ghost use Rattle.pretc_top.specs.Go.{IsBuilt, IsStored, StoreFails};

use pc_compile::compile;
use pc_grammar::Program;
use pc_rules::{Accepted, judged, source_of};
use pretc_run::Ending;
use pt_base::{Refusal, Text};
use pt_image::Image;
use pt_outside::{Shelf, ShelfFault, StoreFault};
use std::alloc::Global;
use tk_cert::Cert;

/// One byte more than a source may have.
pub const SOURCE_MOST: u64 = 1048577;

/// Loads the first bytes of a file, at most so many.
pub fn load_text<H: Shelf>(
    alloc: Global,
    name: &Text,
    most: u64,
    shelf: &mut H,
) -> Result<Text, Ending>
    ensures held { IfOk result (λ text. Holds (H.told shelf.old).files name.now most text) }
    ensures kept { OnOk result (IsAsBefore (H.told shelf.old) (H.told shelf.new)) }
    ensures failed { IfErr result (λ e. LoadFails name.now (H.told shelf.old) (H.told shelf.new) e) }
{
    match shelf.load(alloc, name, most) {
        Ok(text) => Ok(text),
        Err(ShelfFault::Absent) => Err(Ending::NoFile),
        Err(ShelfFault::Failed) => Err(Ending::ReadFault),
        Err(ShelfFault::Memory) => Err(Ending::WantOfMemory),
    }
}

/// The end of a program that is refused.
pub fn ending_of(refusal: Refusal) -> Ending
    ensures { result ≡ spec.ending_of refusal }
{
    match refusal {
        Refusal::Broken { rule, span } => Ending::Refused { rule, span },
        Refusal::Memory => Ending::WantOfMemory,
    }
}

/// Loads a program and reads its tokens and its grammar.
pub fn load_program<H: Shelf>(alloc: Global, name: &Text, shelf: &mut H) -> Result<Program, Ending>
    ensures loaded { IfOk result (λ tree. IsLoaded name.now (H.told shelf.old).files tree) }
    ensures kept { OnOk result (IsAsBefore (H.told shelf.old) (H.told shelf.new)) }
    ensures failed { IfErr result (λ e. ProgramFails Breaks name.now (H.told shelf.old) (H.told shelf.new) e) }
{
    let text = match load_text(alloc, name, SOURCE_MOST, shelf) {
        Ok(text) => text,
        Err(ending) => return Err(ending),
    };
    match source_of(alloc, &text) {
        Ok(program) => Ok(program),
        Err(refusal) => Err(ending_of(refusal)),
    }
}

/// Loads a program and looks whether it keeps every rule.
pub fn load_accepted<H: Shelf>(
    alloc: Global,
    name: &Text,
    shelf: &mut H,
) -> Result<Accepted, Ending>
    ensures taken { IfOk result (λ a. IsTaken name.now (H.told shelf.old).files a.program a.typed) }
    ensures sizes { IfOk result (λ a. AreSizes a.typed a.sizes) }
    ensures kept { OnOk result (IsAsBefore (H.told shelf.old) (H.told shelf.new)) }
    ensures failed { IfErr result (λ e. ProgramFails BreaksFirst name.now (H.told shelf.old) (H.told shelf.new) e) }
{
    let text = match load_text(alloc, name, SOURCE_MOST, shelf) {
        Ok(text) => text,
        Err(ending) => return Err(ending),
    };
    match judged(alloc, &text) {
        Ok(accepted) => Ok(accepted),
        Err(refusal) => Err(ending_of(refusal)),
    }
}

/// Loads a program that keeps every rule, and compiles it.
pub fn load_image<H: Shelf>(alloc: Global, program: &Text, shelf: &mut H) -> Result<Image, Ending>
    ensures built { IfOk result (λ image. IsBuilt program.now image (H.told shelf.old).files) }
    ensures kept { OnOk result (IsAsBefore (H.told shelf.old) (H.told shelf.new)) }
    ensures failed { IfErr result (λ e. ProgramFails BreaksFirst program.now (H.told shelf.old) (H.told shelf.new) e) }
{
    let accepted = match load_accepted(alloc, program, shelf) {
        Ok(accepted) => accepted,
        Err(ending) => return Err(ending),
    };
    match compile(alloc, &accepted.typed) {
        Ok(compiled) => Ok(compiled.image),
        Err(_) => Err(Ending::WantOfMemory),
    }
}

// Stores a text.
fn store_text<H: Shelf>(
    alloc: Global,
    name: &Text,
    text: &Text,
    shelf: &mut H,
) -> Result<(), Ending>
    ensures stored { OnOk result (IsStored name.now text.now (H.told shelf.old) (H.told shelf.new)) }
    ensures failed { IfErr result (λ e. StoreFails name.now text.now (H.told shelf.old) (H.told shelf.new) e) }
{
    match shelf.store(alloc, name, text) {
        Ok(()) => Ok(()),
        Err(StoreFault::Failed) => Err(Ending::StoreFault),
        Err(StoreFault::Memory) => Err(Ending::WantOfMemory),
    }
}

/// Stores the text of an image.
pub fn store_image<H: Shelf>(
    alloc: Global,
    name: &Text,
    image: &Image,
    shelf: &mut H,
) -> Result<(), Ending>
    ensures stored { OnOk result (IsStored name.now (text_of image.now) (H.told shelf.old) (H.told shelf.new)) }
    ensures failed { IfErr result (λ e. StoreFails name.now (text_of image.now) (H.told shelf.old) (H.told shelf.new) e) }
{
    match image.write(alloc) {
        Ok(text) => store_text(alloc, name, &text, shelf),
        Err(_) => Err(Ending::WantOfMemory),
    }
}

/// Stores the text of a certificate.
pub fn store_cert<H: Shelf>(
    alloc: Global,
    name: &Text,
    cert: &Cert,
    shelf: &mut H,
) -> Result<(), Ending>
    ensures stored { OnOk result (IsStored name.now (cert_file.text_of cert.now) (H.told shelf.old) (H.told shelf.new)) }
    ensures failed { IfErr result (λ e. StoreFails name.now (cert_file.text_of cert.now) (H.told shelf.old) (H.told shelf.new) e) }
{
    match cert.write(alloc) {
        Ok(text) => store_text(alloc, name, &text, shelf),
        Err(_) => Err(Ending::WantOfMemory),
    }
}
