use mb_core::{Machine, Trap};
use mb_isa::unit_costs;
use pt_base::{Many, Memory, Text};
use pt_image::Image;
use std::alloc::Global;

// Rows of inputs.
type Rows = Vec<Many<i32>>;

// The image of a text.
fn image_of(alloc: Global, text: &str) -> Option<Image> {
    let text = Text::of(alloc, text.as_bytes()).ok()?;
    Image::read(alloc, &text).ok()
}

// The numbers of a line, up to the first word that is none.
fn numbers_of(alloc: Global, line: &str) -> Result<Vec<i32>, Memory> {
    let mut numbers = Vec::new(alloc);
    for word in line.split_whitespace() {
        let Ok(number) = word.parse::<i32>() else {
            return Ok(numbers);
        };
        numbers.push(number)?;
    }
    Ok(numbers)
}

// The rows, with `;` between two of them.
fn rows_of(alloc: Global, rows: &str) -> Result<Rows, Memory> {
    let mut own = Vec::new(alloc);
    for row in rows.split(';') {
        own.push(Many::of(numbers_of(alloc, row)?))?;
    }
    Ok(own)
}

// What is told of a tick: its cycles and its first output, or its trap and the place.
fn line_of(alloc: Global, did: Result<u64, Trap>, outputs: &[i32]) -> Result<String, Memory> {
    match did {
        Err(trap) => Ok(format!(in alloc; "{:?} {};", trap.kind, trap.at)?),
        Ok(cycles) => match outputs.first() {
            None => Ok(format!(in alloc; "{};", cycles)?),
            Some(output) => Ok(format!(in alloc; "{} {};", cycles, *output)?),
        },
    }
}

// What is told of the ticks of an image, at unit costs, up to a row of another width.
fn told_of(alloc: Global, image: &Image, rows: &[Many<i32>], most: u64) -> Result<String, Memory> {
    let mut machine = Machine::load(alloc, image, &unit_costs())?;
    let mut told = String::new(alloc);
    for row in rows {
        if row.items().len() != image.inputs().len() {
            return Ok(told);
        }
        let mut outputs = vec![in alloc; 0; image.outputs().len()]?;
        let did = machine.tick(row.items(), &mut outputs, most);
        told.push_str(&line_of(alloc, did, &outputs)?)?;
    }
    Ok(told)
}

/// Whether the ticks of an image's text on rows of inputs, with `;` between two of them, come out as told: of each its
/// cycles and its first output, or its trap and the place, and `;`.
pub fn runs_so(
    alloc: Global,
    text: &str,
    rows: &str,
    most: u64,
    told: &str,
) -> Result<bool, Memory> {
    let Some(image) = image_of(alloc, text) else {
        return Ok(false);
    };
    let rows = rows_of(alloc, rows)?;
    let found = told_of(alloc, &image, &rows, most)?;
    Ok(found.as_str() == told)
}

// One line of a table: rows of inputs, the cycles that a tick may take, and what is told, with `,` between two of them.
fn line_runs_so(alloc: Global, text: &str, line: &str) -> Result<bool, Memory> {
    let mut fields = line.split(',');
    let (Some(rows), Some(most), Some(told)) = (fields.next(), fields.next(), fields.next()) else {
        return Ok(false);
    };
    let Ok(most) = most.parse::<u64>() else {
        return Ok(false);
    };
    runs_so(alloc, text, rows, most, told)
}

/// Whether an image's text runs as each line of a table tells.
pub fn all_run_so(alloc: Global, text: &str, table: &str) -> Result<bool, Memory> {
    for line in table.lines() {
        if !line_runs_so(alloc, text, line)? {
            return Ok(false);
        }
    }
    Ok(true)
}
