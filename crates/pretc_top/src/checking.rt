ghost use Rattle.std.specs.Prelude.{◌≡◌, ◌↔◌, ◌∷◌, [], IsTrue, IfOk, IfErr, OnOk};
ghost use Rattle.pretc_top.specs.Loading.{IsAsBefore};
ghost use Rattle.pretc_top.specs.Check.{unit_word, IsImageText, ImageFails, IsCertText, CertFails, CostsRead, CostsFail};
ghost use Rattle.pretc_top.specs.Check.{Decided, AreRead, Unread, Judged, CostsHeld, CostsNotLoaded, AreLoaded, LoadsFail, CheckEnds};
ghost use Rattle.pretc_top.specs.Comes.{Concludes};

use crate::saying::{Saying, said};
use crate::stages::load_text;
use mb_isa::{Costs, unit_costs};
use pretc_run::{Ending, finish_with};
use pt_base::Text;
use pt_image::{Image, ImageFault};
use pt_outside::{Shelf, Sink};
use pt_trace::{LineBuffer, yes_line};
use std::alloc::Global;
use tk_cert::{Cert, CertFault, CostFault, read_costs};
use tk_judge::{Answer, check};

// One byte more than an image file may have, than a certificate file may have, and than a table of costs may have.
const IMAGE_MOST: u64 = 16777217;

const CERT_MOST: u64 = 1099511627777;

const COSTS_MOST: u64 = 65537;

/// The image whose text it is.
pub fn read_image(alloc: Global, text: &Text) -> Result<Image, Ending>
    ensures read { IfOk result (λ image. IsImageText text.now image) }
    ensures failed { IfErr result (λ e. ImageFails text.now e) }
{
    match Image::read(alloc, text) {
        Ok(image) => {
            image.ranges();
            Ok(image)
        }
        Err(ImageFault::Form { number }) => Err(Ending::BadImage { number }),
        Err(ImageFault::Memory) => Err(Ending::WantOfMemory),
    }
}

/// The certificate whose text it is.
pub fn read_cert(alloc: Global, text: &Text) -> Result<Cert, Ending>
    ensures read { IfOk result (λ cert. IsCertText text.now cert) }
    ensures failed { IfErr result (λ e. CertFails text.now e) }
{
    match Cert::read(alloc, text) {
        Ok(cert) => Ok(cert),
        Err(CertFault::Form { number }) => Err(Ending::BadCert { number }),
        Err(CertFault::Memory) => Err(Ending::WantOfMemory),
    }
}

/// The costs that a table's text says, or the units where there is no table.
pub fn costs_of(alloc: Global, text: &Option<Text>) -> Result<Costs, Ending>
    ensures read { IfOk result (λ costs. CostsRead text.now costs) }
    ensures failed { IfErr result (λ e. CostsFail text.now e) }
{
    let text = match text {
        None => return Ok(unit_costs()),
        Some(text) => text,
    };
    match read_costs(alloc, text) {
        Ok(costs) => Ok(costs),
        Err(CostFault::Form) => Err(Ending::BadCosts { rule: 1 }),
        Err(CostFault::Missing(class)) => Err(Ending::BadCost { rule: 2, class }),
        Err(CostFault::Range(class)) => Err(Ending::BadCost { rule: 3, class }),
        Err(CostFault::Unknown) => Err(Ending::BadCosts { rule: 4 }),
        Err(CostFault::Memory) => Err(Ending::WantOfMemory),
    }
}

// What the checker says of an image, its certificate and the costs.
fn decided(image: &Image, cert: &Cert, costs: &Costs) -> Saying
    ensures { Decided image.now cert.now costs.now result.line result.ending }
{
    match check(image, cert, costs) {
        Answer::Yes { reached } => {
            let mut line = LineBuffer::empty();
            yes_line(cert.bound(), reached, &mut line);
            Saying {
                ending: Ending::Done,
                line,
            }
        }
        Answer::No {
            condition,
            at,
            level,
            needed,
            given,
        } => said(Ending::NotAccepted {
            condition,
            at,
            level,
            needed,
            given,
        }),
    }
}

/// The texts of the three files; there is none of costs where each class costs 1.
#[derive(Drop)]
pub struct Texts {
    pub image: Text,
    pub cert: Text,
    pub costs: Option<Text>,
}

// What the texts come to.
fn judged(alloc: Global, texts: &Texts) -> Saying
    ensures { Judged texts.now.image texts.now.cert texts.now.costs result.line result.ending }
{
    let image = match read_image(alloc, &texts.image) {
        Ok(image) => image,
        Err(ending) => return said(ending),
    };
    let cert = match read_cert(alloc, &texts.cert) {
        Ok(cert) => cert,
        Err(ending) => return said(ending),
    };
    let costs = match costs_of(alloc, &texts.costs) {
        Ok(costs) => costs,
        Err(ending) => return said(ending),
    };
    decided(&image, &cert, &costs)
}

// Whether the word for the costs says that each class costs 1.
fn is_unit(costs: &Text) -> bool
    ensures { IsTrue result ↔ costs.now ≡ unit_word }
{
    costs.bytes() == b"-".as_slice()
}

/// The bytes of the table of costs, where the word names one.
pub fn load_costs<H: Shelf>(
    alloc: Global,
    costs: &Text,
    shelf: &mut H,
) -> Result<Option<Text>, Ending>
    ensures held { IfOk result (λ t. CostsHeld (H.told shelf.old).files costs.now t) }
    ensures kept { OnOk result (IsAsBefore (H.told shelf.old) (H.told shelf.new)) }
    ensures failed { IfErr result (λ e. CostsNotLoaded costs.now (H.told shelf.old) (H.told shelf.new) e) }
{
    if is_unit(costs) {
        return Ok(None);
    }
    match load_text(alloc, costs, COSTS_MOST, shelf) {
        Ok(text) => Ok(Some(text)),
        Err(ending) => Err(ending),
    }
}

/// The bytes of the files, the image first.
pub fn load_all<H: Shelf>(
    alloc: Global,
    image: &Text,
    cert: &Text,
    costs: &Text,
    shelf: &mut H,
) -> Result<Texts, Ending>
    ensures loaded { IfOk result (λ t. AreLoaded image.now cert.now costs.now (H.told shelf.old) (H.told shelf.new)
        t.image t.cert t.costs) }
    ensures failed { IfErr result (λ e. LoadsFail image.now cert.now costs.now (H.told shelf.old) (H.told shelf.new) e) }
{
    let image = match load_text(alloc, image, IMAGE_MOST, shelf) {
        Ok(text) => text,
        Err(ending) => return Err(ending),
    };
    let cert = match load_text(alloc, cert, CERT_MOST, shelf) {
        Ok(text) => text,
        Err(ending) => return Err(ending),
    };
    match load_costs(alloc, costs, shelf) {
        Ok(costs) => Ok(Texts { image, cert, costs }),
        Err(ending) => Err(ending),
    }
}

// What the words of a check come to.
fn checked<H: Shelf>(
    alloc: Global,
    image: &Text,
    cert: &Text,
    costs: &Text,
    shelf: &mut H,
) -> Saying
    ensures ends { CheckEnds image.now cert.now costs.now (H.told shelf.old) (H.told shelf.new)
        (result.line ∷ []) result.ending }
{
    match load_all(alloc, image, cert, costs, shelf) {
        Ok(texts) => judged(alloc, &texts),
        Err(ending) => said(ending),
    }
}

/// `pretc check`.
pub fn check_files<H: Shelf, O: Sink>(
    alloc: Global,
    image: &Text,
    cert: &Text,
    costs: &Text,
    shelf: &mut H,
    out: &mut O,
) -> u8
    ensures concludes { Concludes (CheckEnds image.now cert.now costs.now (H.told shelf.old) (H.told shelf.new))
        (O.told out.old) (O.told out.new) result }
{
    let said = checked(alloc, image, cert, costs, shelf);
    finish_with(said.ending, said.line.bytes(), out)
}
