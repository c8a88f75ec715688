ghost use Rattle.std.specs.Prelude.{◌<◌};

/// Numbers that look drawn, always the same ones.
#[derive(Drop)]
pub(crate) struct Draws {
    state: u32,
}

impl Draws {
    pub(crate) fn from(seed: u32) -> Draws {
        Draws { state: seed }
    }

    pub(crate) fn next(&mut self, below: u32) -> u32
        requires { 0 < below }
        ensures { result < below }
    {
        self.state = self.state.wrapping_mul(1664525).wrapping_add(1013904223);
        (self.state >> 8) % below
    }
}
