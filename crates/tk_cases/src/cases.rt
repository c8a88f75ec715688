//! The judge on rows of texts.

use mb_isa::unit_costs;
use pt_base::Text;
use pt_image::Image;
use std::alloc::{AllocError, Global};
use tk_cert::Cert;
use tk_judge::{Refusal, judge};

/// Another line of a section of a certificate: the name of the section, the number of the line, and its text.
#[derive(Clone, Copy)]
pub struct Change<'a> {
    pub section: &'a str,
    pub number: usize,
    pub text: &'a str,
}

// Writes the lines of a section, which commas part.
fn put_lines(out: &mut String, name: &str, lines: &str, change: &Change) -> Result<(), AllocError> {
    for (number, line) in lines.split(',').enumerate() {
        if change.section == name && change.number == number {
            write!(out, "{}\n", change.text)?;
        } else {
            write!(out, "{line}\n")?;
        }
    }
    Ok(())
}

// Writes a section: its name, how many lines it has, and its lines.
fn put_section(
    out: &mut String,
    name: &str,
    lines: &str,
    change: &Change,
) -> Result<(), AllocError> {
    if lines.is_empty() {
        return write!(out, "{name} 0\n");
    }
    write!(out, "{name} {}\n", lines.split(',').count())?;
    put_lines(out, name, lines, change)
}

// Writes the image of the first seven fields of a row.
fn put_image(out: &mut String, row: &str) -> Option<()> {
    let none = Change {
        section: "",
        number: 0,
        text: "",
    };
    let mut fields = row.split('|');
    out.push_str("ARPRET 1\n").ok()?;
    put_section(out, "code", fields.next()?, &none).ok()?;
    put_section(out, "memory", "0,0", &none).ok()?;
    for name in ["inputs", "outputs", "slots", "aborts", "pauses", "forks"].as_slice() {
        put_section(out, *name, fields.next()?, &none).ok()?;
    }
    Some(())
}

fn image_of(alloc: Global, row: &str) -> Option<Image> {
    let mut out = String::new(alloc);
    put_image(&mut out, row)?;
    let text = Text::of(alloc, out.as_bytes()).ok()?;
    Image::read(alloc, &text).ok()
}

// Writes the certificate of the other fields, with a change.
fn put_cert(out: &mut String, row: &str, change: &Change) -> Option<()> {
    let mut fields = row.split('|').skip(7);
    let bound = fields.next()?;
    let bound = if change.section == "bound" {
        change.text
    } else {
        bound
    };
    write!(out, "PRETCERT 1\nbound {bound}\n").ok()?;
    for name in ["at", "loops", "slots"].as_slice() {
        put_section(out, *name, fields.next()?, change).ok()?;
    }
    out.push_str("walk 1\ns\nchoices 0\n\n").ok()
}

fn cert_of(alloc: Global, row: &str, change: &Change) -> Option<Cert> {
    let mut out = String::new(alloc);
    put_cert(&mut out, row, change)?;
    let text = Text::of(alloc, out.as_bytes()).ok()?;
    Cert::read(alloc, &text).ok()
}

fn put_refusal(out: &mut String, r: &Refusal) -> Result<(), AllocError> {
    write!(
        out,
        "no A{} at {} level {} needed {} given ",
        r.condition, r.at, r.level, r.needed
    )?;
    match r.given {
        None => out.push_str("-"),
        Some(given) => write!(out, "{given}"),
    }
}

// What the judge says.
fn put_answer(out: &mut String, image: &Image, cert: &Cert) -> Result<(), AllocError> {
    match judge(image, cert, &unit_costs()) {
        None => out.push_str("accepted"),
        Some(refusal) => put_refusal(out, &refusal),
    }
}

fn answer_of(alloc: Global, image: &Image, cert: &Cert) -> Option<String> {
    let mut out = String::new(alloc);
    put_answer(&mut out, image, cert).ok()?;
    Some(out)
}

// Whether the judge answers so on a row, with a change.
fn answers(alloc: Global, row: &str, change: &Change, wanted: &str) -> Option<bool> {
    let image = image_of(alloc, row)?;
    let cert = cert_of(alloc, row, change)?;
    Some(answer_of(alloc, &image, &cert)?.as_str() == wanted)
}

/// The label of the first row `LABEL: ROW => ANSWER` that isn't so, or an empty text.
pub fn first_wrong<'a>(alloc: Global, rows: &'a str) -> Option<&'a str> {
    let none = Change {
        section: "",
        number: 0,
        text: "",
    };
    for row in rows.lines() {
        let (label, rest) = row.split_once(": ")?;
        let (case, wanted) = rest.split_once(" => ")?;
        if !answers(alloc, case, &none, wanted)? {
            return Some(label);
        }
    }
    Some("")
}

// The first row `SECTION/NUMBER: TEXT => ANSWER` that isn't so where it alters a line of this certificate, or an empty text.
fn first_wrong_change<'a>(alloc: Global, base: &str, rows: &'a str) -> Option<&'a str> {
    for row in rows.lines() {
        let (label, rest) = row.split_once(": ")?;
        let (text, wanted) = rest.split_once(" => ")?;
        let (section, number) = label.split_once('/')?;
        let change = Change {
            section,
            number: number.parse::<usize>().ok()?,
            text,
        };
        if !answers(alloc, base, &change, wanted)? {
            return Some(row);
        }
    }
    Some("")
}

/// The same over groups of rows, each a certificate and rows that alter it.
pub fn first_wrong_of_groups<'a>(alloc: Global, groups: &'a str) -> Option<&'a str> {
    let none = Change {
        section: "",
        number: 0,
        text: "",
    };
    for group in groups.split('%') {
        let (head, rows) = group.split_once('\n')?;
        let (label, rest) = head.split_once(": ")?;
        let (base, wanted) = rest.split_once(" => ")?;
        if !answers(alloc, base, &none, wanted)? {
            return Some(label);
        }
        let wrong = first_wrong_change(alloc, base, rows)?;
        if !wrong.is_empty() {
            return Some(wrong);
        }
    }
    Some("")
}
