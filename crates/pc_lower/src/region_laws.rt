ghost use Rattle.pc_lower.specs.RegionLaws.{TicksAreThoseOfTheFlow, SizesAreThere, TicksAreLimited};
ghost use Rattle.pc_lower.specs.RegionLaws.{RunsAreThoseOfTheFlow, FlowsStandInConfigurations, SlotsStandAsTheResidual, SlotsAreNumbered, TheExampleMeetsThem};

/// Each tick of an image of a flow does what the flow does in that tick: it ends where the flow stands then, with data for its
/// state, and is charged at most 255 for each of so many steps; on every row of inputs, from wherever the flow stands, for
/// every cost table and every limit that leaves room for the charge.
pub fn ticks_are_those_of_the_flow()
    ensures { TicksAreThoseOfTheFlow }
{}

/// The sizes that such an image asks for are there, whatever the steps and the tests take.
pub fn sizes_are_there()
    ensures { SizesAreThere }
{}

/// Within the limits of the language that is never more than 1,000,000,000,000 with what the tick itself is charged, for every
/// cost table.
pub fn ticks_are_limited()
    ensures { TicksAreLimited }
{}

/// So for every list of input rows, every cost table and every limit from 1,000,000,000,000 cycles on, such an image never traps,
/// its outputs are the flow's, and after each tick its slots stand where the flow stands.
pub fn runs_are_those_of_the_flow()
    ensures { RunsAreThoseOfTheFlow }
{}

/// Between two ticks the unit is in a configuration, so what is said of all free ticks is said of the ticks of a flow.
pub fn flows_stand_in_configurations()
    ensures { FlowsStandInConfigurations }
{}

/// Where a tree is where a residual stands, slot 0 is paused at the place of its pause or waits at the place of its fork, each
/// child has ended or stands for its member of the group, and all other slots are free.
pub fn slots_stand_as_the_residual()
    ensures { SlotsStandAsTheResidual }
{}

/// Slot 0 runs `main`, and in the next slots run the threads that the slots start, slot after slot in rising order, and of each
/// slot in the order of the text. So the threads of a fork are in slots one after another, above the slot that starts them.
pub fn slots_are_numbered()
    ensures { SlotsAreNumbered }
{}

/// What these laws ask for can be met: an image of a flow with a routine, a bounded loop, a thread and a loop without a bound
/// meets all of it.
pub fn the_example_meets_them()
    ensures { TheExampleMeetsThem }
{}
