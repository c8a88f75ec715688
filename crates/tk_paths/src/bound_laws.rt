ghost use Rattle.tk_paths.specs.Bounded.{FreeTicksAreBounded, RunsAreBounded};
ghost use Rattle.tk_paths.specs.Walks.{ReachedIsWorst};

/// Where all demands hold of an image, a certificate and a cost table, whoever made them, no free tick traps, and none is
/// charged more than the bound, finished or not, whatever its configuration and choices.
pub fn a_yes_bounds_free_ticks()
    ensures { FreeTicksAreBounded }
{}

/// Then no tick of a run is charged more than the bound either, with any limits that are at least the bound, and the only
/// trap is a bad address.
pub fn a_yes_bounds_runs()
    ensures { RunsAreBounded }
{}

/// And where the certificate's walk costs the bound, the bound is the worst of the image.
pub fn a_reached_bound_is_worst()
    ensures { ReachedIsWorst }
{}
