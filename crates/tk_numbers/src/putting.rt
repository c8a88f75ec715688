//! The lines of a choice and of a bounded loop, but for those of the regions that they are made of.

ghost use Rattle.std.specs.Prelude.{◌≡◌, ◌≤◌, ◌<◌, ◌+◌, ◌*◌, ◌^◌, ◌++◌, ◌∷◌, suc, IfOk};
ghost use Rattle.mb_isa.specs.declared.Class.TheVariants.{Drop, Loop};
ghost use Rattle.tk_paths.specs.Walks.{most_cycles};
ghost use Rattle.tk_paths.specs.Regions.{behind, plain_turn, tested_turn, word_place};
ghost use Rattle.tk_paths.specs.Numbers.{after, branched, cost, inside, jump_lines, jumping, line, test_lines, unit_lines};
ghost use Rattle.tk_paths.specs.Trees.{read_region};
ghost use Rattle.tk_paths.specs.Faults.{OnlyMemory, AllSmall, HasRoom};
ghost use Rattle.tk_numbers.specs.Charges.{routines_in, testing_cost, choice_cost, counted_cost, repeated_cost, calling_cost, opening_cost};
ghost use Rattle.tk_paths.specs.PlaceKinds.{kind_of};
ghost use Rattle.tk_paths.specs.Levels.{numbers_of};

use crate::charges::{behind, word_place};
use crate::crossings::{calling_cost, choice_cost, counted_cost, repeated_cost};
use crate::turns::{plain_turn, tested_turn};
use crate::units::{jump_lines, jumping, put_line, test_lines, unit_lines};
use mb_isa::{Class, Costs};
use pt_image::Image;
use std::alloc::Global;
use tk_paths::{
    Fault, Kind, Levels, Made, Region, Section, after, branched, in_loop, product, sum,
};

// The numbers of a branch.
#[tactic(auto, using(crate::proofs::Tests::branching_is))]
fn branch_of(
    alloc: Global,
    image: &Image,
    costs: &Costs,
    untaken: &Levels,
    taken: &Levels,
) -> Result<Levels, Fault>
    ensures exact { IfOk result (λ l. numbers_of l ≡ branched image.now costs.now (numbers_of untaken.now) (numbers_of taken.now)) }
    ensures fits { AllSmall (branched image.now costs.now (numbers_of untaken.now) (numbers_of taken.now)) → OnlyMemory result }
{
    let _image = image;
    let at = branched(alloc, costs, untaken, taken)?;
    Ok(at)
}

/// Puts the lines of a test whose sides cost so much, before what comes behind them.
pub fn put_test(
    alloc: Global,
    image: &Image,
    costs: &Costs,
    kind: &Kind,
    place: usize,
    count: u32,
    branch: u32,
    untaken: &Levels,
    taken: &Levels,
    made: &mut Made,
) -> Result<(), Fault>
    requires { place < 2 ^ 36 }
    ensures lines { IfOk result (λ done. made.new.lines ≡
        test_lines image.now costs.now (kind_of kind.now) place count branch
        (branched image.now costs.now (numbers_of untaken.now) (numbers_of taken.now)) ++ made.old.lines) }
    ensures weights { made.new.weights ≡ made.old.weights }
    ensures fits { let at = branched image.now costs.now (numbers_of untaken.now) (numbers_of taken.now) in
        HasRoom (testing_cost image.now costs.now place count branch) at → OnlyMemory result }
{
    let at = branch_of(alloc, image, costs, untaken, taken)?;
    test_lines(alloc, image, costs, kind, place, count, branch, &at, made)
}

// Puts the lines of a bounded loop's `loop` and `next`, and its weight; `next` are the numbers at the `next`.
fn put_loop(
    alloc: Global,
    image: &Image,
    costs: &Costs,
    kind: &Kind,
    inner: &Kind,
    from: u32,
    turns: u32,
    weight: u64,
    next: &Levels,
    made: &mut Made,
) -> Result<(), Fault>
    ensures lines { IfOk result (λ done. made.new.lines ≡
        unit_lines image.now costs.now (kind_of kind.now) from
        (after (cost image.now costs.now Loop + suc turns * weight) (numbers_of next.now))
        ++ line (kind_of inner.now) (numbers_of next.now) ∷ made.old.lines) }
    ensures weights { IfOk result (λ done. made.new.weights ≡ (word_place image.now from, weight) ∷ made.old.weights) }
    ensures fits { HasRoom (opening_cost image.now costs.now from turns weight) (numbers_of next.now) → OnlyMemory result }
{
    put_line(alloc, inner, next, made)?;
    let all = product(u64::from(turns) + 1, weight)?;
    let opening = after(alloc, sum(costs.cost(Class::Loop), all)?, next)?;
    unit_lines(alloc, image, costs, kind, from as usize, &opening, made)?;
    made.put_weight(word_place(image, from as usize) as u32, weight)
}

/// Puts the lines of a choice that stand before its sides, which cost so much, and says what its dearest way costs: `back` are the
/// numbers behind the first side, `behind` those behind the second.
pub fn put_choice(
    alloc: Global,
    image: &Image,
    costs: &Costs,
    kind: &Kind,
    from: u32,
    count: u32,
    branch: u32,
    jump: usize,
    first: u64,
    second: u64,
    back: &Levels,
    behind: &Levels,
    made: &mut Made,
) -> Result<u64, Fault>
    ensures exact { IfOk result (λ n. n ≡ choice_cost image.now costs.now from count branch jump first second) }
    ensures lines { IfOk result (λ n. made.new.lines ≡
        test_lines image.now costs.now (kind_of kind.now) from count branch
        (branched image.now costs.now (after first (numbers_of back.now)) (after second (numbers_of behind.now))) ++ made.old.lines) }
    ensures weights { made.new.weights ≡ made.old.weights }
    ensures fits { let at = branched image.now costs.now (after first (numbers_of back.now)) (after second (numbers_of behind.now)) in
        choice_cost image.now costs.now from count branch jump first second ≤ most_cycles
        → HasRoom (testing_cost image.now costs.now from count branch) at → OnlyMemory result }
{
    let untaken = after(alloc, first, back)?;
    let taken = after(alloc, second, behind)?;
    let place = from as usize;
    put_test(
        alloc, image, costs, kind, place, count, branch, &untaken, &taken, made,
    )?;
    choice_cost(image, costs, from, count, branch, jump, first, second)
}

/// Puts the lines of a jump behind a region to a place with these numbers, and gives those at the end of the region.
pub fn put_jump(
    alloc: Global,
    image: &Image,
    costs: &Costs,
    kind: &Kind,
    jump: usize,
    behind: &Levels,
    made: &mut Made,
) -> Result<Levels, Fault>
    ensures numbers { IfOk result (λ l. numbers_of l ≡ jumping image.now costs.now jump (numbers_of behind.now)) }
    ensures lines { IfOk result (λ l. made.new.lines ≡
        jump_lines image.now costs.now (kind_of kind.now) jump (numbers_of behind.now) ++ made.old.lines) }
    ensures weights { made.new.weights ≡ made.old.weights }
    ensures fits { AllSmall (jumping image.now costs.now jump (numbers_of behind.now)) → OnlyMemory result }
{
    jump_lines(alloc, image, costs, kind, jump, behind, made)?;
    jumping(alloc, image, costs, jump, behind)
}

/// Puts the line of a `drop`, and gives its numbers.
pub fn put_drop(
    alloc: Global,
    image: &Image,
    costs: &Costs,
    inner: &Kind,
    behind: &Levels,
    made: &mut Made,
) -> Result<Levels, Fault>
    ensures numbers { IfOk result (λ l. numbers_of l ≡ after (cost image.now costs.now Drop) (numbers_of behind.now)) }
    ensures lines { IfOk result (λ l. made.new.lines ≡
        line (kind_of inner.now) (after (cost image.now costs.now Drop) (numbers_of behind.now)) ∷ made.old.lines) }
    ensures weights { made.new.weights ≡ made.old.weights }
    ensures fits { AllSmall (after (cost image.now costs.now Drop) (numbers_of behind.now)) → OnlyMemory result }
{
    let _image = image;
    let drop = after(alloc, costs.cost(Class::Drop), behind)?;
    put_line(alloc, inner, &drop, made)?;
    Ok(drop)
}

/// Puts the line of a call of a routine that costs so much, and says what the call costs.
pub fn put_call(
    alloc: Global,
    image: &Image,
    costs: &Costs,
    kind: &Kind,
    routine: u64,
    behind: &Levels,
    made: &mut Made,
) -> Result<u64, Fault>
    ensures exact { IfOk result (λ n. n ≡ calling_cost image.now costs.now routine) }
    ensures lines { IfOk result (λ n. made.new.lines ≡
        line (kind_of kind.now) (after (calling_cost image.now costs.now routine) (numbers_of behind.now)) ∷ made.old.lines) }
    ensures weights { made.new.weights ≡ made.old.weights }
    ensures fits { HasRoom (calling_cost image.now costs.now routine) (numbers_of behind.now) → OnlyMemory result }
{
    let cost = calling_cost(image, costs, routine)?;
    let at = after(alloc, cost, behind)?;
    put_line(alloc, kind, &at, made)?;
    Ok(cost)
}

/// The kind of a place inside the loop whose unit is at a place.
pub fn inside_of(alloc: Global, image: &Image, kind: &Kind, from: u32) -> Result<Kind, Fault>
    ensures exact { IfOk result (λ inner. kind_of inner ≡ inside (word_place image.now from) (kind_of kind.now)) }
    ensures fits { OnlyMemory result }
{
    in_loop(alloc, kind, word_place(image, from as usize) as u32)
}

/// Puts the lines of a loop with a test that stand before its body, and its weight: the body costs so much, `next` are the numbers at
/// the `next`, `back` those at the body's end, and `drop` those of the `drop`. Says what the loop's dearest way costs.
pub fn put_counted(
    alloc: Global,
    image: &Image,
    costs: &Costs,
    before: &[Section],
    kind: &Kind,
    inner: &Kind,
    from: u32,
    turns: u32,
    count: u32,
    branch: u32,
    body: &Region,
    through: u64,
    next: &Levels,
    back: &Levels,
    drop: &Levels,
    made: &mut Made,
) -> Result<u64, Fault>
    ensures exact { IfOk result (λ n. n ≡
        counted_cost image.now costs.now from turns count branch (read_region (routines_in before.now) body.now) through) }
    ensures lines { IfOk result (λ n. made.new.lines ≡
        unit_lines image.now costs.now (kind_of kind.now) from
        (after (cost image.now costs.now Loop + suc turns * tested_turn image.now costs.now from count branch
        (read_region (routines_in before.now) body.now) through) (numbers_of next.now))
        ++ line (kind_of inner.now) (numbers_of next.now)
        ∷ test_lines image.now costs.now (kind_of inner.now) (behind image.now from + 1) count branch
        (branched image.now costs.now (after through (numbers_of back.now)) (numbers_of drop.now))
        ++ made.old.lines) }
    ensures weights { IfOk result (λ n. made.new.weights ≡ (
      word_place image.now from,
      tested_turn image.now costs.now from count branch (read_region (routines_in before.now) body.now)
          through,
    ) ∷ made.old.weights) }
    ensures fits { let tree = read_region (routines_in before.now) body.now in
        let weight = tested_turn image.now costs.now from count branch tree through in
        let at = branched image.now costs.now (after through (numbers_of back.now)) (numbers_of drop.now) in
        counted_cost image.now costs.now from turns count branch tree through ≤ most_cycles
        → HasRoom (opening_cost image.now costs.now from turns weight) (numbers_of next.now)
        → HasRoom (testing_cost image.now costs.now (behind image.now from + 1) count branch) at → OnlyMemory result }
{
    let weight = tested_turn(image, costs, before, from, count, branch, body, through)?;
    let test = behind(image, from as usize) + 1;
    let first = after(alloc, through, back)?;
    put_test(
        alloc, image, costs, inner, test, count, branch, &first, drop, made,
    )?;
    put_loop(
        alloc, image, costs, kind, inner, from, turns, weight, next, made,
    )?;
    let cost = counted_cost(
        image, costs, before, from, turns, count, branch, body, through,
    )?;
    Ok(cost)
}

/// The same of a loop without a test.
pub fn put_repeated(
    alloc: Global,
    image: &Image,
    costs: &Costs,
    before: &[Section],
    kind: &Kind,
    inner: &Kind,
    from: u32,
    turns: u32,
    body: &Region,
    through: u64,
    next: &Levels,
    made: &mut Made,
) -> Result<u64, Fault>
    ensures exact { IfOk result (λ n. n ≡
        repeated_cost image.now costs.now from turns (read_region (routines_in before.now) body.now) through) }
    ensures lines { IfOk result (λ n. made.new.lines ≡
        unit_lines image.now costs.now (kind_of kind.now) from
        (after (cost image.now costs.now Loop + suc turns * plain_turn image.now costs.now (read_region (routines_in before.now) body.now)
        through) (numbers_of next.now))
        ++ line (kind_of inner.now) (numbers_of next.now) ∷ made.old.lines) }
    ensures weights { IfOk result (λ n. made.new.weights ≡
        (word_place image.now from, plain_turn image.now costs.now (read_region (routines_in before.now) body.now) through) ∷
        made.old.weights) }
    ensures fits { let tree = read_region (routines_in before.now) body.now in
        let weight = plain_turn image.now costs.now tree through in
        repeated_cost image.now costs.now from turns tree through ≤ most_cycles
        → HasRoom (opening_cost image.now costs.now from turns weight) (numbers_of next.now) → OnlyMemory result }
{
    let weight = plain_turn(image, costs, before, body, through)?;
    put_loop(
        alloc, image, costs, kind, inner, from, turns, weight, next, made,
    )?;
    repeated_cost(image, costs, before, from, turns, body, through)
}
