//! What is looked up of each place.

ghost use Rattle.std.specs.Prelude.{◌≡◌, ◌<◌, ℕ, option_map, IfSome, length};
ghost use Rattle.std.specs.Option.{option_to_list};
ghost use Rattle.pt_image.specs.Listed.{is_listed};
ghost use Rattle.tk_paths.specs.Kinds.{points_at, is_asked};
ghost use Rattle.tk_paths.specs.Shape.{weight_in};
ghost use Rattle.tk_shape.specs.Looking.{HasFew, AreTables};

use crate::asked::asked;
use crate::index::{Index, index_of, point_at, weight_at, weights_index};
use crate::marks::Marks;
use pt_image::{Image, Point};
use tk_cert::Cert;

/// Of each place: where the pause and the fork that are listed for it stand, where the weight of its loop stands, and whether
/// its kind is asked.
#[derive(Drop)]
pub struct Tables {
    pub pauses: Index,
    pub forks: Index,
    pub weights: Index,
    pub asked: Marks,
}

impl Tables {
    /// The tables of an image and a certificate, of 832 kilobytes, in time linear in their lists.
    pub fn of(image: &Image, cert: &Cert) -> Tables
        ensures { AreTables image.now cert.now result }
    {
        image.ranges();
        cert.shape();
        Tables {
            pauses: index_of(image.pauses()),
            forks: index_of(image.forks()),
            weights: weights_index(cert.weights()),
            asked: asked(image, cert),
        }
    }
}

/// The pause that is listed for a place, if there is one.
pub fn pause_at<'a>(
    image: &'a Image,
    cert: &Cert,
    tables: &Tables,
    place: usize,
) -> Option<&'a Point>
    requires tables { AreTables image.now cert.now tables.now }
    requires place { place < 65536 }
    ensures point { points_at image.now.pauses place ≡ option_to_list (option_map (λ p. p.now) result) }
    ensures few { IfSome (option_map (λ p. p.now) result) HasFew }
{
    image.ranges();
    point_at(image.pauses(), &tables.pauses, place)
}

/// The fork that is listed for a place, if there is one.
pub fn fork_at<'a>(
    image: &'a Image,
    cert: &Cert,
    tables: &Tables,
    place: usize,
) -> Option<&'a Point>
    requires tables { AreTables image.now cert.now tables.now }
    requires place { place < 65536 }
    ensures point { points_at image.now.forks place ≡ option_to_list (option_map (λ p. p.now) result) }
    ensures few { IfSome (option_map (λ p. p.now) result) HasFew }
{
    image.ranges();
    point_at(image.forks(), &tables.forks, place)
}
