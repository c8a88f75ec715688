ghost use Rattle.std.specs.Prelude.{◌≡◌, ◌≤◌, ◌+◌, ℕ, ℤ, List, [], map, IfOk};
ghost use Rattle.pc_meaning.specs.Lefts.{routines_of};
ghost use Rattle.pc_meaning.specs.Runs.{meaning_of};
ghost use Rattle.pc_meaning.specs.Programs.{program_of};
ghost use Rattle.pc_rules.specs.Known.{known_of};
ghost use Rattle.pc_rules.specs.Weights.{passages, program_weight};
ghost use Rattle.pc_lower.specs.Flow.{Temps, run_of};
ghost use Rattle.pc_lower.specs.Trees.{read, flow_read};
ghost use Rattle.pc_lower.specs.Lowered.{bodies_of, flow_of};
ghost use Rattle.pc_lower.specs.Marks.{AreMarks};
ghost use Rattle.pc_lower.specs.Counts.{BodiesWithin, ConditionsWithin, bodies_words, conditions_words, count_at, passages_from};

use crate::conditions::aborts;
use crate::flow::Flow;
use crate::marks::{Marks, marks_of};
use crate::nodes::Node;
use crate::statements::body;
use pc_grammar::{Function, Typed};
use pc_meaning::{Room, declared, ports, rooms};
use pt_base::Memory;
use std::alloc::Global;

// The nodes of the functions, in the order of the text.
fn bodies(
    alloc: Global,
    functions: &[Function],
    rooms: &[Room],
    marks: &Marks,
) -> Result<Vec<Node>, Memory>
    requires { AreMarks marks.now functions.now }
    ensures { IfOk result (λ bodies.
        let routines = routines_of rooms.now functions.now in map read bodies.items ≡ bodies_of routines routines) }
{
    let mut bodies = Vec::new(alloc);
    for function in functions {
        let body = body(alloc, function, rooms, functions, marks)?;
        bodies.push(body)?;
    }
    Ok(bodies)
}

/// The flow of a program. It shows in each tick what the program means, whatever the temporaries hold; it uses 652 temporaries
/// at most, and its words and passages are within those that the program is weighed with.
pub fn lower(alloc: Global, typed: &Typed) -> Result<Flow, Memory>
    ensures exact { IfOk result (λ flow. flow_read flow ≡ flow_of (program_of typed.now)) }
    ensures correct { IfOk result (λ flow. (temps : Temps) (rows : List (List ℤ)) →
        run_of (flow_read flow) temps rows ≡ meaning_of (program_of typed.now) rows) }
    ensures few { IfOk result (λ flow.
        let f = flow_read flow in BodiesWithin 652 f.bodies × ConditionsWithin 652 f.aborts) }
    ensures words { IfOk result (λ flow.
        let f = flow_read flow in bodies_words f.bodies + conditions_words f.aborts ≤ program_weight typed.now) }
    ensures passages { IfOk result (λ flow. (f : ℕ) →
        count_at (passages_from [] (flow_read flow).bodies) f ≤ known_of (passages typed.now.functions) f) }
{
    let cells = typed.cells();
    let functions = typed.functions();
    let rooms = rooms(alloc, cells)?;
    let rooms = rooms.as_slice();
    let marks = marks_of(alloc, functions)?;
    let bodies = bodies(alloc, functions, rooms, &marks)?;
    let aborts = aborts(alloc, rooms, functions)?;
    let declared = declared(alloc, cells)?;
    let inputs = ports(alloc, cells, rooms, true)?;
    let outputs = ports(alloc, cells, rooms, false)?;
    Ok(Flow {
        bodies,
        main: typed.main(),
        aborts,
        declared,
        inputs,
        outputs,
    })
}
