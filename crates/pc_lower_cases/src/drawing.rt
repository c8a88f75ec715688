use pt_base::{Memory, Text, put_number};
use std::alloc::Global;

// In a template `@` stands for a value, `$` for a statement, `?` for one that may call, `:` for one that may pause, and `'`
// for a pause before which its number goes to an output. The first of a table, so many, hold none of these.
const LEAVES: usize = 3;

// So often a template stands in another.
const DEPTH: u32 = 3;

const VALUES: [&[u8]; 22] = [
    b"a",
    b"b",
    b"7",
    b"o",
    b"x",
    b"0",
    b"v[@]",
    b"w[@]",
    b"-(@)",
    b"!(@)",
    b"~(@)",
    b"(@ + @ - @)",
    b"(@ * @ / @ % @)",
    b"(@ << @ >> @)",
    b"(@ < @ <= @)",
    b"(@ > @ >= @)",
    b"(@ == @ != @)",
    b"(@ & @)",
    b"(@ ^ @)",
    b"(@ | @)",
    b"(@ && @)",
    b"(@ || @)",
];

const STATEMENTS: [&[u8]; 13] = [
    b"o = a;",
    b"p = p + b;",
    b";",
    b"o = @;",
    b"x = @;",
    b"v[@] = @;",
    b"w[@] = @;",
    b"{ $ $ }",
    b"if (@) { $ } else { $ }",
    b"if (@) { $ }",
    b"while (@) #3 { $ }",
    b"while (1) #2 { $ }",
    b"while (@) #0 { $ }",
];

const CALLING: [&[u8]; 12] = [
    b"note(a);",
    b"o = less(a, b);",
    b"less(b, 1);",
    b"$",
    b"note(@);",
    b"x = less(@, @);",
    b"p = less(@, @);",
    b"v[@] = less(@, @);",
    b"w[@] = less(@, @);",
    b"{ ? ? }",
    b"if (@) { ? } else { ? }",
    b"while (@) #2 { ? }",
];

const TIMED: [&[u8]; 12] = [
    b"o = o + 1;",
    b"p = b;",
    b"note(o);",
    b"'",
    b"{ ' ? ' }",
    b"{ : : }",
    b"if (@) { : } else { : }",
    b"if (@) { : }",
    b"while (@) { : ' }",
    b"while (0) { ' }",
    b"abort { : } when pre (@);",
    b"weak abort { : } when pre (@);",
];

// The parts of a program, each with the output that gets the numbers of its pauses.
const PARTS: [(u8, &[u8]); 8] = [
    (
        b's',
        b"ReactiveInput int a = 0; ReactiveInput int b = 0; ReactiveOutput int o = 0; ReactiveOutput int p = 5; ",
    ),
    (
        b's',
        b"ReactiveOutput int x = 1; ReactiveOutput int s = 0; ReactiveOutput int t = 0; ReactiveOutput int u = 0;
          ReactiveOutput int y = 0; ",
    ),
    (
        b's',
        b"ReactiveOutput int va = 0; ReactiveOutput int vb = 0; ReactiveOutput int vc = 0; ReactiveOutput int wa = 0;
          ReactiveOutput int wb = 0; ",
    ),
    (
        b's',
        b"int v[3]; int w[2]; int less(int c, int d) { int e = c; int k; k = @; $ e = e - d; return e + k * c; }
          void note(int c) { $ p = p ^ c; } ",
    ),
    (b's', b"void f() { int k = @; : k = k + 1; : o = k; } "),
    (b't', b"void h() { : ' ? } void g() { : PAR(h); : } "),
    (
        b'y',
        b"void shows() { int i; while (i < 3) { va = v[0]; vb = v[1]; vc = v[2]; wa = w[0]; wb = w[1]; i = i + 1; ' } } ",
    ),
    (
        b'u',
        b"void main() { ? while (1) { : weak abort { : abort { PAR(f, g, shows); : } when pre (@); ? } when pre (@); ' } }",
    ),
];

/// A text as it is drawn.
#[derive(Drop)]
struct Drawing {
    seed: u32,
    pauses: u32,
    text: Vec<u8>,
}

impl Drawing {
    // The next number, by the rule `seed = seed * 1664525 + 1013904223` of 32 bits, of which the upper 16 are given.
    fn next(&mut self) -> usize {
        self.seed = self
            .seed
            .wrapping_mul(1_664_525)
            .wrapping_add(1_013_904_223);
        (self.seed >> 16) as usize
    }

    fn pause(&mut self, output: u8) -> Result<(), Memory> {
        self.text.push(output)?;
        self.text.extend_from_slice(b" = ")?;
        put_number(&mut self.text, u64::from(self.pauses))?;
        self.text.extend_from_slice(b"; EOT;")?;
        self.pauses = self.pauses.wrapping_add(1);
        Ok(())
    }

    // One of a table, and one of its leaves where it is not to go deeper.
    #[cycle(expand)]
    fn one_of(&mut self, table: &[&[u8]], output: u8, deep: u32) -> Result<(), Memory> {
        let most = if deep == 0 { LEAVES } else { table.len() };
        let Some(number) = self.next().checked_rem(most) else {
            return Ok(());
        };
        match table.get(number) {
            None => Ok(()),
            Some(template) if deep == 0 => {
                self.text.extend_from_slice(template)?;
                Ok(())
            }
            Some(template) => self.expand(template, output, deep - 1),
        }
    }

    #[cycle(expand)]
    fn expand(&mut self, template: &[u8], output: u8, deep: u32) -> Result<(), Memory> {
        for byte in template {
            match *byte {
                b'@' => self.one_of(&VALUES, output, deep)?,
                b'$' => self.one_of(&STATEMENTS, output, deep)?,
                b'?' => self.one_of(&CALLING, output, deep)?,
                b':' => self.one_of(&TIMED, output, deep)?,
                b'\'' => self.pause(output)?,
                byte => self.text.push(byte)?,
            }
        }
        Ok(())
    }
}

/// A program of every construct, drawn from a number: each pause has its number put out before it.
pub fn drawn(alloc: Global, seed: u32) -> Result<Text, Memory> {
    let mut drawing = Drawing {
        seed,
        pauses: 0,
        text: Vec::new(alloc),
    };
    for (output, part) in &PARTS {
        drawing.expand(part, *output, DEPTH)?;
    }
    Ok(Text::from_vec(drawing.text))
}
