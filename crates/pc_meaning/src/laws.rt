ghost use Rattle.std.specs.Prelude.{◌≡◌, ◌++◌, ℕ, ◌<◌, false, List, [], length};
ghost use Rattle.pc_grammar.specs.declared.statements.Stmt.{Stmt};
ghost use Rattle.pc_grammar.specs.Typing.{Typing};
ghost use Rattle.pc_grammar.specs.Uses.{holds_pause};
ghost use Rattle.pc_grammar.specs.Finishing.{finishing};
ghost use Rattle.pc_meaning.specs.Tree.{Statement, Routine};
ghost use Rattle.pc_meaning.specs.Values.{Store};
ghost use Rattle.pc_meaning.specs.Statements.{Known, routine_at, known_at, start, start_routine, starts_of};
ghost use Rattle.pc_meaning.specs.Promises.{IsDone, IsPaused, pauses, Below, RoutinesBelow, Lasts, RoutinesLast, finishes, finishing_of};
ghost use Rattle.pc_meaning.specs.declared.places.Room.{Room};
ghost use Rattle.pc_meaning.specs.Programs.{Numbering, statement_of, program_of};

/// A statement that names the first functions alone means the same over any longer list of functions.
pub fn more_functions_change_nothing()
    ensures { (front more : List Routine) → RoutinesBelow 0 front → (s : Statement) → Below (length front) s → (store : Store) →
        start (front ++ more) (starts_of (front ++ more)) s store ≡ start front (starts_of front) s store }
{}

/// A function does from its start what its body does over all functions.
pub fn a_function_does_its_body()
    ensures { (routines : List Routine) → RoutinesBelow 0 routines → (f : ℕ) → f < length routines → (store : Store) →
        known_at (starts_of routines) f store ≡ start_routine routines (starts_of routines) (routine_at routines f) store }
{}

/// A statement that may not finish pauses in the tick in which it starts.
pub fn what_cannot_finish_pauses()
    ensures { (routines : List Routine) → RoutinesLast [] routines → (s : Statement) → Lasts (finishing_of routines) s →
        finishes (finishing_of routines) s ≡ false → (store : Store) → IsPaused (start routines (starts_of routines) s store) }
{}

/// A statement without `EOT`, `PAR` and abort never pauses.
pub fn a_routine_never_pauses()
    ensures { (routines : List Routine) (known : Known) (s : Statement) → pauses s ≡ false → (store : Store) →
        IsDone (start routines known s store) }
{}

/// The statement that the meaning takes holds a pause exactly where that of the program does.
pub fn a_tree_pauses_alike()
    ensures { (rooms : List Room) (n : Numbering) (s : Stmt ℕ) → pauses (statement_of rooms n s) ≡ holds_pause s }
{}

/// And of each function it may finish exactly where that of the program may.
pub fn a_tree_finishes_alike()
    ensures { (t : Typing) → finishing_of (program_of t).routines ≡ finishing t.functions }
{}
