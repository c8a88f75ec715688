ghost use Rattle.std.specs.Prelude.{◌≡◌};
ghost use Rattle.pc_emit.specs.Code.{short, way, upper_half, lower_half};

/// A place in the sixteen bits of a word.
pub fn short(place: usize) -> u16
    ensures { result ≡ short place }
{
    (place % 65536) as u16
}

/// The bits of the way in bytes to a place, from behind another place.
pub fn way(at: usize, to: usize) -> u32
    ensures { result ≡ way at to }
{
    let forward = 4 * u64::from(short(to)) + 4294967296;
    let back = 4 * (u64::from(short(at)) + 1);
    ((forward - back) % 4294967296) as u32
}

/// The upper half of 32 bits.
pub fn upper_half(bits: u32) -> i16
    ensures { result ≡ upper_half bits }
{
    ((bits / 65536) as u16).cast_signed()
}

/// The lower half of 32 bits.
pub fn lower_half(bits: u32) -> i16
    ensures { result ≡ lower_half bits }
{
    ((bits % 65536) as u16).cast_signed()
}
