use crate::calls::{Outside, Wanted, comes_so, with};
use pt_base::Memory;
use std::alloc::Global;
use std::test::Fail;

fn wanted<'a>(status: u8, written: &'a str, left: usize) -> Wanted<'a> {
    Wanted {
        status,
        written,
        image: None,
        cert: None,
        left,
    }
}

// Whether a program is printed as this text, which is its own canonical text.
fn prints(alloc: Global, program: &str, text: &str) -> Result<bool, Memory> {
    let first = comes_so(alloc, "print p", with(program, "4\n"), wanted(0, text, 2))?;
    Ok(first && comes_so(alloc, "print p", with(text, "4\n"), wanted(0, text, 2))?)
}

#[test]
fn print_writes_the_canonical_text(rt: HostRuntime) -> Result<(), Fail> {
    let alloc = rt.alloc();
    assert!(rt;
        prints(
            alloc,
            "int x=0;void main(){x=(1+2)*x;EOT;}",
            "int x = 0;\nvoid main() {\n  x = (1 + 2) * x;\n  EOT;\n}\n"
        )?
    );
    assert!(rt;
        prints(
            alloc,
            "int x;void main(){if(x)x=x--x;else;while(x)#2 x=-(-x);EOT;}",
            "int x = 0;\nvoid main() {\n  if (x)\n    x = x - -x;\n  else\n    ;\n  while (x) #2\n    x = - -x;\n  EOT;\n}\n"
        )?
    );
    assert!(rt; prints(alloc, "", "")?);
    assert!(rt;
        prints(
            alloc,
            "ReactiveInput int a = -1; int v[0x10]; // end",
            "ReactiveInput int a = -1;\nint v[16];\n"
        )?
    );
    Ok(())
}

#[test]
fn a_failed_push_leaves_a_front_of_the_text(rt: HostRuntime) -> Result<(), Fail> {
    let outside = Outside {
        sink_fails: &[1],
        ..with("int x;\nint y;", "")
    };
    assert!(rt; comes_so(rt.alloc(), "print p", outside, wanted(4, "int x = 0;\n", 0))?);
    Ok(())
}
