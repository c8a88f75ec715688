use pc_print::print;
use pc_rules::source_of;
use pt_base::{Memory, Refusal, Text};
use std::alloc::Global;
use std::test::Fail;

/// The canonical text of a source's program, or nothing where the source is refused.
fn printed(alloc: Global, source: &[u8]) -> Result<Option<Text>, Memory> {
    let text = Text::of(alloc, source)?;
    match source_of(alloc, &text) {
        Ok(program) => Ok(Some(print(alloc, &program)?)),
        Err(Refusal::Memory) => Err(Memory),
        Err(_) => Ok(None),
    }
}

/// Whether a source is printed as this text.
fn prints(alloc: Global, source: &[u8], wanted: &[u8]) -> Result<bool, Memory> {
    match printed(alloc, source)? {
        Some(text) => Ok(text.bytes() == wanted),
        None => Ok(false),
    }
}

/// Whether a row, a source and behind a line `=>` its canonical text, is so, and the canonical text its own.
fn row_is_so(alloc: Global, row: &str) -> Result<bool, Memory> {
    let Some((source, wanted)) = row.split_once("\n=>\n") else {
        return Ok(false);
    };
    let first = prints(alloc, source.as_bytes(), wanted.as_bytes())?;
    Ok(first && prints(alloc, wanted.as_bytes(), wanted.as_bytes())?)
}

/// The first row that isn't so, or an empty text. A line `----` parts two rows.
fn first_wrong<'a>(alloc: Global, rows: &'a str) -> Result<&'a str, Memory> {
    for row in rows.split("----\n") {
        if !row_is_so(alloc, row)? {
            return Ok(row);
        }
    }
    Ok("")
}

const CELLS: &str = "ReactiveInput int a=0;
=>
ReactiveInput int a = 0;
----
ReactiveOutput int a=-5;
=>
ReactiveOutput int a = -5;
----
int a=0;
=>
int a = 0;
----
int a=-1;
=>
int a = -1;
----
int a=2147483647;
=>
int a = 2147483647;
----
int a=-2147483648;
=>
int a = -2147483648;
----
int v[4294967295];
=>
int v[4294967295];
";

#[test]
fn cells_keep_their_words(rt: HostRuntime) -> Result<(), Fail> {
    assert_eq!(rt; first_wrong(rt.alloc(), CELLS)?, "");
    assert!(rt; prints(rt.alloc(), b"", b"")?);
    Ok(())
}

const FUNCTIONS: &str = "int x;void main(){if(x)x=x--x;else;while(x)#2 x=-(-x);EOT;}
=>
int x = 0;
void main() {
  if (x)
    x = x - -x;
  else
    ;
  while (x) #2
    x = - -x;
  EOT;
}
----
int f(int a,int b){int i;int k=a+b;v[i+1]=g(a*b,v[i]);h();return(i);}
=>
int f(int a, int b) {
  int i;
  int k = a + b;
  v[i + 1] = g(a * b, v[i]);
  h();
  return i;
}
----
void main(){while(1)weak abort abort{PAR(t1,out);{}}when pre(b);when pre(a==9);}
=>
void main() {
  while (1)
    weak abort
      abort
        {
          PAR(t1, out);
          {
          }
        }
      when pre (b);
    when pre (a == 9);
}
";

#[test]
fn functions_have_one_text(rt: HostRuntime) -> Result<(), Fail> {
    assert_eq!(rt; first_wrong(rt.alloc(), FUNCTIONS)?, "");
    Ok(())
}

/// A line at this level.
fn put_line(out: &mut Vec<u8>, level: u32, line: &str) -> Result<(), Memory> {
    for _ in 0..level {
        out.extend_from_slice(b"  ")?;
    }
    out.extend_from_slice(line.as_bytes())?;
    out.push(b'\n')?;
    Ok(())
}

/// A `main` of 31 statements `if`, each the part of the one before it.
fn deepest_source(alloc: Global) -> Result<Vec<u8>, Memory> {
    let mut all = Vec::new(alloc);
    all.extend_from_slice(b"void main(){")?;
    for _ in 0..31 {
        all.extend_from_slice(b"if(x)")?;
    }
    all.extend_from_slice(b";}")?;
    Ok(all)
}

/// Its canonical text.
fn deepest_text(alloc: Global) -> Result<Vec<u8>, Memory> {
    let mut all = Vec::new(alloc);
    put_line(&mut all, 0, "void main() {")?;
    for level in 1u32..32 {
        put_line(&mut all, level, "if (x)")?;
    }
    put_line(&mut all, 32, ";")?;
    put_line(&mut all, 0, "}")?;
    Ok(all)
}

/// Whether the deepest statements have their lines.
fn deepest_is_so(alloc: Global) -> Result<bool, Memory> {
    let source = deepest_source(alloc)?;
    let text = deepest_text(alloc)?;
    prints(alloc, &source, &text)
}

#[test]
fn the_deepest_statements(rt: HostRuntime) -> Result<(), Fail> {
    assert!(rt; deepest_is_so(rt.alloc())?);
    Ok(())
}
