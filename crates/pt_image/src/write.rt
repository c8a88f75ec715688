ghost use Rattle.std.specs.Prelude.{◌≡◌, IfOk};
ghost use Rattle.pt_image.specs.Text.{text_of};

use crate::image::Image;
use crate::writing::{put_aborts, put_places, put_points, put_signed, put_words};
use pt_base::{Memory, Text};
use std::alloc::Global;

impl Image {
    /// The one text of the image.
    #[tactic(auto, using(crate::proofs::Putting::in_order), unfolding(crate::specs::Text::text_of, crate::specs::Text::groups))]
    pub fn write(&self, alloc: Global) -> Result<Text, Memory>
        ensures { IfOk result (λ text. text ≡ text_of self.now) }
    {
        let mut out = Vec::new(alloc);
        out.extend_from_slice(b"ARPRET 1\n")?;
        put_words(&mut out, b"code ", self.code())?;
        put_signed(&mut out, b"memory ", self.memory())?;
        put_places(&mut out, b"inputs ", self.inputs())?;
        put_places(&mut out, b"outputs ", self.outputs())?;
        put_places(&mut out, b"slots ", self.slots())?;
        put_aborts(&mut out, b"aborts ", self.aborts())?;
        put_points(&mut out, b"pauses ", self.pauses())?;
        put_points(&mut out, b"forks ", self.forks())?;
        Ok(Text::from_vec(out))
    }
}
