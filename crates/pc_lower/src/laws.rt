ghost use Rattle.std.specs.Prelude.{◌≡◌, ℕ, ◌≤◌, ◌+◌, ℤ, List, []};
ghost use Rattle.pc_grammar.specs.Typing.{Typing};
ghost use Rattle.pc_grammar.specs.Keeping.{IsTyped};
ghost use Rattle.pc_rules.specs.Judging.{IsWithin};
ghost use Rattle.pc_meaning.specs.Promises.{RoutinesLast, finishing_of};
ghost use Rattle.pc_lower.specs.Loops.{RoutinesLoopsKept};
ghost use Rattle.pc_rules.specs.Weights.{passages, program_weight};
ghost use Rattle.pc_meaning.specs.Tree.{Expression, Routine, Program};
ghost use Rattle.pc_meaning.specs.Values.{value};
ghost use Rattle.pc_meaning.specs.Runs.{meaning_of};
ghost use Rattle.pc_meaning.specs.Programs.{program_of};
ghost use Rattle.pc_lower.specs.Flow.{State, Temps, run, run_of};
ghost use Rattle.pc_lower.specs.Aborts.{aborts_of};
ghost use Rattle.pc_lower.specs.Lowered.{steps_of, test_of, body_of, bodies_of, conditions_of, flow_of};
ghost use Rattle.pc_lower.specs.Sound.{ProgramFits};
ghost use Rattle.pc_lower.specs.Laws.{Leaves, IsLowered};
ghost use Rattle.pc_lower.specs.Order.{RoutinesInOrder, RoutinesListed};
ghost use Rattle.pc_lower.specs.Counts.{Nested, RoutineNested, NodeWithin, TestWithin, BodiesWithin, ConditionsWithin, bodies_words, conditions_words};
ghost use Rattle.pc_lower.specs.Counts.{count_at, passages_from, singles_from, routines_weight};

/// The steps of an expression leave its word in the temporary that is asked for, and keep those below it.
pub fn steps_leave_the_value()
    ensures { (e : Expression) (k : ℕ) (w : State) → Leaves k (value e w.store) w (run (steps_of e k) w) }
{}

/// Each function, and what is left of it, does in the flow what it does in the tree, whatever the places hold.
pub fn lowering_keeps_start_and_resume()
    ensures { (p : Program) → ProgramFits p → IsLowered p }
{}

/// A program's flow shows in each tick what the program means, whatever the places hold at first.
pub fn a_flow_is_correct()
    ensures { (p : Program) → ProgramFits p → (temps : Temps) (rows : List (List ℤ)) →
        run_of (flow_of p) temps rows ≡ meaning_of p rows }
{}

/// What lowering asks of a program, the rules on names promise: a program with numbers for names keeps it.
pub fn a_typed_program_fits()
    ensures { (t : Typing) → IsTyped t → ProgramFits (program_of t) }
{}

/// So the flow of each shows in each tick what it means, whatever the places hold at first.
pub fn a_typed_flow_is_correct()
    ensures { (t : Typing) → IsTyped t → (temps : Temps) (rows : List (List ℤ)) →
        run_of (flow_of (program_of t)) temps rows ≡ meaning_of (program_of t) rows }
{}

/// Each place of a function's node, and of a condition, is one of 652 temporaries, where expressions are nested as the grammar
/// nests them.
pub fn temporaries_are_few()
    ensures nodes { (routines : List Routine) (r : Routine) → RoutineNested r → NodeWithin 652 (body_of routines r) }
    ensures conditions { (e : Expression) → Nested 0 0 e → TestWithin 652 (test_of e) }
{}

/// And so they are in each program with numbers for names.
pub fn a_typed_flow_is_few()
    ensures nodes { (t : Typing) → IsTyped t → BodiesWithin 652 (flow_of (program_of t)).bodies }
    ensures conditions { (t : Typing) → IsTyped t → ConditionsWithin 652 (flow_of (program_of t)).aborts }
{}

/// The words of a flow, with every place in memory and every number wide, are within the weight of the program.
pub fn words_are_within_the_weight()
    ensures { (routines : List Routine) →
        bodies_words (bodies_of routines routines) + conditions_words (conditions_of (aborts_of routines)) ≤ routines_weight routines }
{}

/// And those of one passage of a function are within its number.
pub fn a_passage_is_within_its_number()
    ensures { (routines : List Routine) (f : ℕ) →
        count_at (passages_from [] (bodies_of routines routines)) f ≤ count_at (singles_from [] routines) f }
{}

/// These weights are those of the language.
pub fn weights_are_those_of_the_language()
    ensures whole { (t : Typing) → routines_weight (program_of t).routines ≡ program_weight t }
    ensures passages { (t : Typing) → singles_from [] (program_of t).routines ≡ passages t.functions }
{}

/// Where no rule on loops is broken, the body of a loop without `#n` can't finish, and that of a loop with `#n` holds no pause.
pub fn rules_on_loops_hold_of_the_tree()
    ensures kept { (t : Typing) → IsWithin t → RoutinesLoopsKept (finishing_of (program_of t).routines) (program_of t).routines }
    ensures last { (t : Typing) → IsTyped t → IsWithin t → RoutinesLast [] (program_of t).routines }
{}

/// Aborts that are numbered in the order of the text stand in the list by their numbers.
pub fn aborts_are_listed()
    ensures { (routines : List Routine) → RoutinesInOrder 0 routines → RoutinesListed (aborts_of routines) routines }
{}
