ghost use Rattle.std.specs.Prelude.{◌≡◌, ◌≤◌, ◌<◌, ℕ, ◌||◌, Some, None, IfOk, IsTrue, option_map, map, length, not, string_bytes, unwrap_or};
ghost use Rattle.std.specs.List.{list_any};
ghost use Rattle.std.specs.BTreeMap.{keys};
ghost use Rattle.toml.specs.Data.{get_member};
ghost use Rattle.toml.specs.View.{view, table_view};
ghost use Rattle.mb_isa.specs.Costs.{IsCosts};
ghost use Rattle.tk_cert.specs.CostTables.{key_of, classes, cost_in, cost_at, missing, wrong, is_key, has_unknown, numbers, costs_of, Reads};

use mb_isa::{Class, Costs};
use pt_base::Text;
use std::alloc::Global;
use toml::{Table, Value};

// The most bytes of a table's text.
const TEXT_MOST: usize = 65536;

// The classes in the order of the table.
const CLASSES: [Class; 22] = [
    Class::Alu,
    Class::Shift,
    Class::Mul,
    Class::Div,
    Class::Imm,
    Class::Load,
    Class::Store,
    Class::Jump,
    Class::Taken,
    Class::Untaken,
    Class::Fork,
    Class::Eot,
    Class::End,
    Class::Abrt,
    Class::Leave,
    Class::Call,
    Class::Ret,
    Class::Loop,
    Class::Next,
    Class::Drop,
    Class::Cend,
    Class::Tick,
];

/// Why a text is no cost table.
#[derive(Clone, Copy)]
pub enum CostFault {
    /// It is no document, or has more than 65,536 bytes.
    Form,
    /// The first class that is no key.
    Missing(Class),
    /// The first class whose value isn't a whole number from 1 to 255.
    Range(Class),
    /// Some key is that of no class.
    Unknown,
    /// No memory was found.
    Memory,
}

/// The key of a class.
pub fn key(class: Class) -> &'static str
    ensures key { result.now ≡ key_of class }
    ensures short { length result.now ≤ 7 }
{
    match class {
        Class::Alu => "alu",
        Class::Shift => "shift",
        Class::Mul => "mul",
        Class::Div => "div",
        Class::Imm => "imm",
        Class::Load => "load",
        Class::Store => "store",
        Class::Jump => "jump",
        Class::Taken => "taken",
        Class::Untaken => "untaken",
        Class::Fork => "fork",
        Class::Eot => "eot",
        Class::End => "end",
        Class::Abrt => "abrt",
        Class::Leave => "leave",
        Class::Call => "call",
        Class::Ret => "ret",
        Class::Loop => "loop",
        Class::Next => "next",
        Class::Drop => "drop",
        Class::Cend => "cend",
        Class::Tick => "tick",
    }
}

// The value at a class's key.
fn find(table: &Table, class: Class) -> Option<&Value>
    ensures { option_map (λ v. view v.now) result ≡ get_member (key_of class) (table_view table.now) }
{
    table.get(key(class))
}

// A whole number from 1 to 255.
fn cost(value: &Value) -> Option<u8>
    ensures { result ≡ cost_in (view value.now) }
{
    match value.as_integer() {
        Some(n) => if n >= 1 && n <= 255 {
            Some(n as u8)
        } else {
            None
        },
        None => None,
    }
}

// The cost of a class.
fn cost_of_class(table: &Table, class: Class) -> Option<u8>
    ensures { result ≡ cost_at (table_view table.now) class }
{
    match find(table, class) {
        Some(value) => cost(value),
        None => None,
    }
}

// The first class that is no key.
fn first_missing(table: &Table, classes: &[Class]) -> Option<Class>
    ensures { result ≡ missing (table_view table.now) classes.now }
{
    for class in classes {
        if find(table, *class).is_none() {
            return Some(*class);
        }
    }
    None
}

// The first class that has no cost.
fn first_wrong(table: &Table, classes: &[Class]) -> Option<Class>
    ensures { result ≡ wrong (table_view table.now) classes.now }
{
    for class in classes {
        if cost_of_class(table, *class).is_none() {
            return Some(*class);
        }
    }
    None
}

// A key is that of a class.
fn is_class(word: &str) -> bool
    ensures { result ≡ is_key word.now }
{
    CLASSES.iter().any(|class| key(*class) == word)
}

// Some key is that of no class.
fn some_other_key(table: &Table) -> bool
    ensures { result ≡ list_any (λ k. not (is_key (string_bytes k))) (keys table.now) }
{
    table.keys().any(|word| !is_class(word.as_str()))
}

// The number of a class, 0 where it has none.
fn number(table: &Table, class: Class) -> u8
    ensures { result ≡ unwrap_or (cost_at (table_view table.now) class) 0 }
{
    match cost_of_class(table, class) {
        Some(number) => number,
        None => 0,
    }
}

// The number of each class, 0 where it has none.
fn all_costs(table: &Table) -> [u8; 22]
    ensures { result ≡ numbers (table_view table.now) classes }
{
    [
        number(table, Class::Alu),
        number(table, Class::Shift),
        number(table, Class::Mul),
        number(table, Class::Div),
        number(table, Class::Imm),
        number(table, Class::Load),
        number(table, Class::Store),
        number(table, Class::Jump),
        number(table, Class::Taken),
        number(table, Class::Untaken),
        number(table, Class::Fork),
        number(table, Class::Eot),
        number(table, Class::End),
        number(table, Class::Abrt),
        number(table, Class::Leave),
        number(table, Class::Call),
        number(table, Class::Ret),
        number(table, Class::Loop),
        number(table, Class::Next),
        number(table, Class::Drop),
        number(table, Class::Cend),
        number(table, Class::Tick),
    ]
}

// What a table says.
fn judge(table: &Table) -> Result<Costs, CostFault>
    ensures { result ≡ costs_of (table_view table.now) }
{
    if let Some(class) = first_missing(table, &CLASSES) {
        return Err(CostFault::Missing(class));
    }
    if let Some(class) = first_wrong(table, &CLASSES) {
        return Err(CostFault::Range(class));
    }
    if some_other_key(table) {
        return Err(CostFault::Unknown);
    }
    let numbers = all_costs(table);
    Ok(Costs::of(&numbers))
}

/// The costs that a text says, or its first fault, exactly by `docs/files.md`, "The cost table".
pub fn read_costs(alloc: Global, text: &Text) -> Result<Costs, CostFault>
    ensures reads { Reads text.now result }
    ensures costs { IfOk result (λ costs. IsCosts costs) }
{
    if text.bytes().len() > TEXT_MOST {
        return Err(CostFault::Form);
    }
    match toml::table_from_slice(alloc, text.bytes()) {
        Ok(table) => judge(&table),
        Err(e) => {
            if e.is_memory() {
                return Err(CostFault::Memory);
            }
            Err(CostFault::Form)
        }
    }
}
