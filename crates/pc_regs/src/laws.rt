ghost use Rattle.pc_regs.specs.Laws.{WordsDoTheSteps, WordsAreWork, WordsAreFew, UsedTemporariesAreEnough};

/// The words of steps and tests do them: for every operator and every place of each operand, on every row of inputs.
pub fn words_do_the_steps()
    ensures { WordsDoTheSteps }
{}

/// Each word that is written is an instruction word that the data do, in every image.
pub fn words_are_work()
    ensures { WordsAreWork }
{}

/// And there are no more of them than the table says.
pub fn words_are_few()
    ensures { WordsAreFew }
{}

/// Where a flow's steps are written with some number of temporaries, they are written with those that it uses.
pub fn used_temporaries_are_enough()
    ensures { UsedTemporariesAreEnough }
{}
