ghost use Rattle.tk_paths.specs.Tight.{TightIsWorst};
ghost use Rattle.tk_paths.specs.Greatest.{BeginningsAreCovered, GreatestIsWorst, RestsAreCovered};
ghost use Rattle.tk_paths.specs.Regions.{RegionsAreCrossed, RegionsArePassages};
ghost use Rattle.tk_paths.specs.Programs.{ProgramBoundsAreWorst, ProgramsAreAccepted};
ghost use Rattle.tk_paths.specs.Counts.{CertificatesAreInForm, NumbersAreCounted, SmallCountsAreKept};
ghost use Rattle.tk_paths.specs.Dearest.{WalksAreInForm, WalksCostTheBound};

/// The bound of a certificate that is accepted and tight is the worst of its image: some free tick costs just as much, and
/// none costs more.
pub fn a_tight_bound_is_worst()
    ensures { TightIsWorst }
{}

/// A region of code in which no slot rests is crossed at the cost of its dearest way, by that way's choices, whatever is round
/// it: its loops turn as often as they say, and its routines return.
pub fn a_region_is_crossed()
    ensures { RegionsAreCrossed }
{}

/// So it is a passage, which tight certificates may be made of.
pub fn a_region_is_a_passage()
    ensures { RegionsArePassages }
{}

/// The bound of a certificate that is accepted and whose numbers are the greatest that is asked of them, each told from those
/// to which it leads, is the worst of its image.
pub fn a_greatest_bound_is_worst()
    ensures { GreatestIsWorst }
{}

/// Such numbers hold the conditions of acceptance on what is resumed and on the bound.
pub fn greatest_numbers_cover_beginnings()
    ensures { BeginningsAreCovered }
{}

/// Where the shape of a certificate holds as well, such numbers hold the conditions of acceptance on pauses and forks.
pub fn greatest_numbers_cover_rests()
    ensures { RestsAreCovered }
{}

/// The certificate of a program, with any walk, is accepted whatever the words cost, and its numbers are the greatest.
pub fn a_program_is_accepted()
    ensures { ProgramsAreAccepted }
{}

/// So its bound is the worst of the image.
pub fn a_program_bound_is_worst()
    ensures { ProgramBoundsAreWorst }
{}

/// And the walk that is told of it costs just that bound: which slots are where as its tick begins, what the conditions answer, and
/// which way each branch goes.
pub fn a_program_walk_costs_the_bound()
    ensures { WalksCostTheBound }
{}

/// That walk is within the ranges of a certificate's file: its states have places of the code, and it has no more choices than it
/// costs.
pub fn a_program_walk_is_in_form()
    ensures { WalksAreInForm }
{}

/// And no number of it is greater than a count of the program's words: so the certificate can be written down, and the bound is
/// within what a walk may cost, where these counts are small enough.
pub fn a_program_is_counted()
    ensures { NumbersAreCounted }
{}

/// So where the counts are small enough the certificate, with any walk of the file's form, is within the ranges of its file.
pub fn a_small_program_is_in_form()
    ensures { CertificatesAreInForm }
{}

/// And no number is greater than 1,000,000,000,000, nor is what the children of a fork come to.
pub fn a_small_program_has_small_numbers()
    ensures { SmallCountsAreKept }
{}
