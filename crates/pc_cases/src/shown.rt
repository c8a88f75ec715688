use pc_grammar::{CellKind, Expr, Goal, Item, Stmt, Word};
use pt_base::{BinOp, Memory, Span, UnOp, put_number};
use std::alloc::Global;

/// Bytes that are written one behind another, and whether there was no memory for some.
#[derive(Drop)]
pub struct Written {
    bytes: Vec<u8>,
    is_cut: bool,
}

impl Written {
    pub fn nothing(alloc: Global) -> Written {
        Written {
            bytes: Vec::new(alloc),
            is_cut: false,
        }
    }

    pub fn byte(&mut self, byte: u8) {
        if self.bytes.push(byte).is_err() {
            self.is_cut = true;
        }
    }

    pub fn text(&mut self, text: &[u8]) {
        if self.bytes.extend_from_slice(text).is_err() {
            self.is_cut = true;
        }
    }

    fn number(&mut self, number: u64) {
        if put_number(&mut self.bytes, number).is_err() {
            self.is_cut = true;
        }
    }

    /// The bytes, if there was memory for all.
    pub fn bytes(self) -> Result<Vec<u8>, Memory> {
        if self.is_cut {
            return Err(Memory);
        }
        Ok(self.bytes)
    }
}

fn spelled(op: BinOp) -> &'static [u8] {
    match op {
        BinOp::Or => b"||",
        BinOp::And => b"&&",
        BinOp::BitOr => b"|",
        BinOp::BitXor => b"^",
        BinOp::BitAnd => b"&",
        BinOp::Equal => b"==",
        BinOp::NotEqual => b"!=",
        BinOp::Less => b"<",
        BinOp::LessEqual => b"<=",
        BinOp::Greater => b">",
        BinOp::GreaterEqual => b">=",
        BinOp::ShiftLeft => b"<<",
        BinOp::ShiftRight => b">>",
        BinOp::Add => b"+",
        BinOp::Sub => b"-",
        BinOp::Mul => b"*",
        BinOp::Div => b"/",
        BinOp::Rem => b"%",
    }
}

/// Writes the two places of a span, with a mark between them.
pub fn place(out: &mut Written, place: Span, between: u8) {
    out.number(u64::from(place.from));
    out.byte(between);
    out.number(u64::from(place.to))
}

/// Writes a span as `@FROM-TO`.
fn span(out: &mut Written, at: Span) {
    out.byte(b'@');
    place(out, at, b'-')
}

/// Writes a number with its sign.
fn signed(out: &mut Written, number: i32) {
    if number < 0 {
        out.byte(b'-');
    }
    out.number(u64::from(number.unsigned_abs()))
}

/// Writes an expression, with brackets round each chain.
pub fn expression(out: &mut Written, e: &Expr<Word>) {
    match e {
        Expr::Number(n) => out.number(u64::from(*n)),
        Expr::Var(name) => out.text(name.text.bytes()),
        Expr::Elem(name, index) => {
            out.text(name.text.bytes());
            out.byte(b'[');
            expression(out, index.get());
            out.byte(b']');
        }
        Expr::Unary(op, e) => {
            out.byte(match op {
                UnOp::Neg => b'-',
                UnOp::Not => b'!',
                UnOp::Flip => b'~',
            });
            expression(out, e.get());
        }
        Expr::Chain(head, rest) => {
            out.byte(b'(');
            expression(out, head.get());
            for (op, e) in rest.as_slice() {
                out.text(spelled(*op));
                expression(out, e);
            }
            out.byte(b')');
        }
    }
}

/// Writes a goal and `=`, or nothing.
fn goal(out: &mut Written, g: &Goal<Word>) {
    match g {
        Goal::Nothing => return,
        Goal::Var(name) => out.text(name.text.bytes()),
        Goal::Elem(name, index) => {
            out.text(name.text.bytes());
            out.byte(b'[');
            expression(out, index);
            out.byte(b']');
        }
    }
    out.byte(b'=');
}

/// Writes a statement, its parts in `<..>`, and the span behind the word that it has.
pub fn statement(out: &mut Written, s: &Stmt<Word>) {
    match s {
        Stmt::Skip => out.byte(b';'),
        Stmt::Assign { goal: g, value } => {
            goal(out, g);
            expression(out, value);
            out.byte(b';');
        }
        Stmt::Call {
            goal: g,
            function,
            arguments,
        } => {
            goal(out, g);
            out.text(function.text.bytes());
            out.byte(b'(');
            for e in arguments.as_slice() {
                expression(out, e);
                out.byte(b',');
            }
            out.text(b");");
        }
        Stmt::Block(all) => {
            out.byte(b'{');
            for s in all.as_slice() {
                statement(out, s);
            }
            out.byte(b'}');
        }
        Stmt::If { test, yes, no } => {
            out.text(b"if ");
            expression(out, test);
            out.byte(b'<');
            statement(out, yes.get());
            out.byte(b'>');
            if let Some(other) = no {
                out.text(b"else<");
                statement(out, other.get());
                out.byte(b'>');
            }
        }
        Stmt::While {
            span: place,
            test,
            most,
            body,
        } => {
            out.text(b"while");
            span(out, *place);
            out.byte(b' ');
            expression(out, test);
            if let Some(n) = most {
                out.byte(b'#');
                out.number(u64::from(*n));
            }
            out.byte(b'<');
            statement(out, body.get());
            out.byte(b'>');
        }
        Stmt::Eot(place) => {
            out.text(b"EOT");
            span(out, *place);
            out.byte(b';');
        }
        Stmt::Par {
            span: place,
            threads,
        } => {
            out.text(b"PAR");
            span(out, *place);
            for name in threads.as_slice() {
                out.byte(b' ');
                out.text(name.text.bytes());
            }
            out.byte(b';');
        }
        Stmt::Abort {
            span: place,
            weak,
            body,
            test,
        } => {
            if *weak {
                out.text(b"weak ");
            }
            out.text(b"abort");
            span(out, *place);
            out.byte(b'<');
            statement(out, body.get());
            out.byte(b'>');
            expression(out, test);
            out.byte(b';');
        }
    }
}

/// Writes an item.
pub fn item(out: &mut Written, i: &Item) {
    match i {
        Item::Scalar { kind, name, start } => {
            out.byte(match kind {
                CellKind::Input => b'>',
                CellKind::Output => b'<',
                _ => b'.',
            });
            out.text(name.text.bytes());
            signed(out, *start);
        }
        Item::Array { name, size } => {
            out.text(name.text.bytes());
            out.byte(b'[');
            out.number(u64::from(*size));
            out.byte(b']');
        }
        Item::Function {
            name,
            gives,
            parameters,
            locals,
            body,
            result,
        } => {
            out.text(if *gives { b"int " } else { b"void " });
            out.text(name.text.bytes());
            for word in parameters.as_slice() {
                out.byte(b' ');
                out.text(word.text.bytes());
            }
            out.byte(b'{');
            for (word, value) in locals.as_slice() {
                out.text(word.text.bytes());
                if let Some(e) = value {
                    out.byte(b'=');
                    expression(out, e);
                }
                out.byte(b'|');
            }
            for s in body.as_slice() {
                statement(out, s);
            }
            if let Some(e) = result {
                out.text(b"return ");
                expression(out, e);
            }
            out.byte(b'}');
        }
    }
}
