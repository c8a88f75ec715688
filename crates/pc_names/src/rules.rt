ghost use Rattle.std.specs.Prelude.{◌≡◌, length};
ghost use Rattle.pc_grammar.specs.Breaking as breaking;
ghost use Rattle.pc_grammar.specs.Places.{Known};

use crate::threads::Threads;
use pc_grammar::{CellKind, Item, Role, Word};

/// Whether this may not be done with a cell of one word.
pub fn wrong_for_word(role: Role) -> bool
    ensures { result ≡ breaking.wrong_for_word role }
{
    !matches!(role, Role::Reads | Role::Writes)
}

fn wrong_for_array(role: Role) -> bool
    ensures { result ≡ breaking.wrong_for_array role }
{
    !matches!(role, Role::ReadsElement | Role::WritesElement)
}

fn wrong_for_function(thread: bool, gives: bool, parameters: &[Word], role: Role) -> bool
    ensures { result ≡ breaking.wrong_for_function thread gives parameters.now role }
{
    match role {
        Role::Calls { taken, .. } => thread || taken && !gives,
        Role::Starts => gives || !parameters.is_empty(),
        _ => true,
    }
}

/// Whether this may not be done with the item.
pub fn wrong_for_item(threads: &Threads<'_>, item: &Item, role: Role) -> bool
    ensures { result ≡ breaking.wrong_for_item threads.now item.now role }
{
    match item {
        Item::Scalar { .. } => wrong_for_word(role),
        Item::Array { .. } => wrong_for_array(role),
        Item::Function {
            name,
            gives,
            parameters,
            ..
        } => wrong_for_function(threads.is_thread(name), *gives, parameters.as_slice(), role),
    }
}

/// Whether the item is an input.
pub fn is_input(item: &Item) -> bool
    ensures { result ≡ breaking.is_input (Known item.now) }
{
    matches!(
        item,
        Item::Scalar {
            kind: CellKind::Input,
            ..
        }
    )
}

/// Whether the role is that of a target.
pub fn is_written(role: Role) -> bool
    ensures { result ≡ breaking.is_written role }
{
    matches!(role, Role::Writes | Role::WritesElement)
}

/// Whether a call has another number of arguments than the item has parameters.
pub fn is_miscounted(role: Role, item: &Item) -> bool
    ensures { result ≡ breaking.is_miscounted role (Known item.now) }
{
    match (role, item) {
        (Role::Calls { arguments, .. }, Item::Function { parameters, .. }) => {
            arguments != parameters.len()
        }
        _ => false,
    }
}
