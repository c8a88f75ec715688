use crate::calls::{Outside, Wanted, comes_so, with};
use pt_base::Memory;
use std::alloc::Global;
use std::test::Fail;

// Whether `rules` says this of a program, and touches nothing.
fn says(alloc: Global, program: &str, status: u8, written: &str) -> Result<bool, Memory> {
    let wanted = Wanted {
        status,
        written,
        image: None,
        cert: None,
        left: 2,
    };
    comes_so(alloc, "rules p", with(program, "4\n"), wanted)
}

// Whether `rules` and `go` refuse a program by this rule at this place, and touch nothing.
fn breaks(alloc: Global, program: &str, rule: &str) -> Result<bool, Memory> {
    let line = format!(in alloc; "refused {}\n", rule)?;
    let wanted = Wanted {
        status: 1,
        written: &line,
        image: None,
        cert: None,
        left: 2,
    };
    let gone = comes_so(alloc, "go p im", with(program, "4\n"), wanted)?;
    Ok(gone && says(alloc, program, 1, &line)?)
}

// The first row `RULE FROM TO <= PROGRAM` that isn't so.
fn first_not_broken<'a>(alloc: Global, rows: &'a str) -> Result<&'a str, Memory> {
    for row in rows.lines() {
        let Some((rule, program)) = row.split_once(" <= ") else {
            return Ok(row);
        };
        if !breaks(alloc, program, rule)? {
            return Ok(row);
        }
    }
    Ok("none")
}

// A program that assigns to its variable so many times, with this behind.
fn assignments(alloc: Global, count: u32, behind: &str) -> Result<String, Memory> {
    let mut source = String::new(alloc);
    source.push_str("int x = 0;\nvoid main() { ")?;
    for _ in 0..count {
        source.push_str("x = 1; ")?;
    }
    source.push_str(behind)?;
    source.push_str("}")?;
    Ok(source)
}

#[test]
fn a_program_that_keeps_every_rule_gives_its_counts(rt: HostRuntime) -> Result<(), Fail> {
    let alloc = rt.alloc();
    assert!(rt;
        says(
            alloc,
            "ReactiveInput int a = 0;\nReactiveOutput int o = 0;\nvoid main() { o = a + 1; EOT; }",
            0,
            "accepted threads 1 words 2 weight 40 single 40\n"
        )?
    );
    assert!(rt;
        says(
            alloc,
            "int v[3]; int f(int a) { int b; int c = a + 1; return b; } void main() { int i = 2; while (i) #5 { v[i] = f(v[0]); i = i - 1; } if (i) EOT; else ; }",
            0,
            "accepted threads 1 words 7 weight 196 single 1004\n"
        )?
    );
    assert!(rt;
        says(
            alloc,
            "ReactiveOutput int o = 0; void f() { EOT; } void g() { while (1) EOT; } void main() { PAR(f, g); o = 1; }",
            0,
            "accepted threads 3 words 1 weight 56 single 56\n"
        )?
    );
    Ok(())
}

const COUNTS: &str =
    "threads 1 words 2 weight 52 single 52 <= ReactiveInput int i = 0; ReactiveOutput int o = 0; void main() { while (1) { o = i + 1; EOT; } }
threads 1 words 6 weight 212 single 960 <= int v[3]; int f(int a) { int b = a * 2; v[a] = b; return b + 1; } void main() { int x; while (x < 3) #5 { x = f(x); } v[0] = -x; }
threads 3 words 0 weight 44 single 44 <= void t() { EOT; } void u() { } void main() { while (1) PAR(t, u); }
threads 1 words 1 weight 40 single 40 <= int x; void main() { while (1) { if (x) EOT; else EOT; } }
threads 1 words 0 weight 36 single 36 <= void main() { while (1) { while (2) EOT; } }
threads 1 words 1 weight 24 single 2000000 <= int x; void main() { while (x) #166664 ; }
threads 1 words 1 weight 108 single 108 <= int x; void main() { abort abort abort abort abort abort abort abort EOT; when pre(x); when pre(x); when pre(x); when pre(x); when pre(x); when pre(x); when pre(x); when pre(x); }
threads 1 words 1 weight 136 single 9188 <= int x; void main() { while (x) #1 while (x) #1 while (x) #1 while (x) #1 while (x) #1 while (x) #1 while (x) #1 while (x) #1 ; }
threads 1 words 0 weight 264 single 264 <= void a() {} void b() {a();} void c() {b();} void d() {c();} void e() {d();} void f() {e();} void g() {f();} void h() {g();} void i() {h();} void j() {i();} void k() {j();} void l() {k();} void m() {l();} void n() {m();} void o() {n();} void p() {o();} void main() {p();}
threads 1 words 15000 weight 8 single 8 <= int v[15000]; void main() { }
threads 1 words 3 weight 24 single 24 <= int v[2]; void main() { int v; v = 1; }";

// The first row `COUNTS <= PROGRAM` that isn't so.
fn first_other_counts<'a>(alloc: Global, rows: &'a str) -> Result<&'a str, Memory> {
    for row in rows.lines() {
        let Some((counts, program)) = row.split_once(" <= ") else {
            return Ok(row);
        };
        let line = format!(in alloc; "accepted {}\n", counts)?;
        if !says(alloc, program, 0, &line)? {
            return Ok(row);
        }
    }
    Ok("none")
}

#[test]
fn programs_at_a_limit_are_accepted(rt: HostRuntime) -> Result<(), Fail> {
    assert_eq!(rt; first_other_counts(rt.alloc(), COUNTS)?, "none");
    Ok(())
}

#[test]
fn the_weight_has_a_limit(rt: HostRuntime) -> Result<(), Fail> {
    let alloc = rt.alloc();
    let most = assignments(alloc, 7499, "")?;
    assert!(rt;
        says(
            alloc,
            &most,
            0,
            "accepted threads 1 words 1 weight 60000 single 60000\n"
        )?
    );
    let more = assignments(alloc, 7499, "EOT; ")?;
    assert!(rt; breaks(alloc, &more, "Z7 52524 52524")?);
    Ok(())
}

const NAMES: &str = "N1 25 26 <= void main() { int a; int a; }
N5 32 33 <= void f(int p) { } void main() { f(); }
N3 35 36 <= void f() { } void main() { PAR(f); f(); }
N2 14 15 <= void main() { x = 1; }
N2 15 16 <= void f() { PAR(f); } void main() { }
N2 11 12 <= void f() { f(); } void main() { }
N2 18 19 <= int f() { int y = y; return y; } void main() { }
N8 5 6 <= void f() { EOT; } void main() { int f; PAR(f); }
N8 5 6 <= void f() { EOT; } void main() { f(); }
N1 15 19 <= int main; void main() { }
N1 11 12 <= int o; int o; void main() { o = 1; }
N1 18 19 <= void f(int a, int a) { } void main() { }
N1 27 28 <= void f(int a) { int b; int a; } void main() { }
N6 6 6 <= int x;
N6 4 8 <= int main() { return 1; }
N3 39 40 <= ReactiveInput int a = 0; void main() { a[0] = 1; }
N4 39 40 <= ReactiveInput int a = 0; void main() { a = 1; }
N3 24 25 <= int v[2]; void main() { v = 1; }
N3 35 36 <= int x; int v[2]; void main() { x = v + 1; }
N3 34 35 <= int x; void f() { } void main() { x(); }
N3 38 39 <= int x; void f() { } void main() { x = f(); }
N3 42 43 <= int x; void f() { } void main() { x = 1 + f; }
N3 24 25 <= void f() { } void g() { f(); } void main() { PAR(f); }
N3 40 41 <= int f() { return 1; } void main() { PAR(f); }
N5 52 53 <= int f(int a) { return a; } int x; void main() { x = f(); }
N8 21 22 <= void main() { } void f() { PAR(main); }
N7 31 35 <= void main() { } void f() { PAR(main); } void g() { PAR(f); }
N7 34 35 <= void f() { } void main() { PAR(f, f); }
N2 49 50 <= int v[2]; void f(int v) { v = 1; } void main() { w = v; }";

#[test]
fn the_first_rule_on_names_counts(rt: HostRuntime) -> Result<(), Fail> {
    let alloc = rt.alloc();
    assert_eq!(rt; first_not_broken(alloc, NAMES)?, "none");
    assert!(rt; breaks(alloc, "", "N6 0 0")?);
    assert!(rt;
        breaks(
            alloc,
            "void f() { EOT; }\nvoid main() { PAR(f); PAR(f); }",
            "N7 44 45"
        )?
    );
    Ok(())
}

const LIMITS: &str = "Z8 42 42 <= int x; void main() { while (x) #166665 ; }
Z3 43 43 <= int v[14999]; void main() { int x; int y; }
E1 21 26 <= int x; void main() { while (x) ; while (x) #2 EOT; }
E1 40 45 <= void t() { } void u() { } void main() { while (1) PAR(t, u); }
E2 21 26 <= int x; void main() { while (x) #3 EOT; }
E1 21 26 <= int x; void main() { while (1) { x = 1; } }
E1 28 33 <= int x; int y; void main() { while (x) { if (y) EOT; } }
E1 21 26 <= int x; void main() { while (x) { while (0) EOT; } }
E1 88 93 <= int x; void f() { } void g() { EOT; } void main() { while (1) PAR(f, g); while (x) EOT; while (1) x = 2; }
Z3 29 29 <= int v[15001]; void main() { }
Z4 62 67 <= void main() { abort abort abort abort abort abort abort abort abort EOT; when pre (1); when pre (1); when pre (1); when pre (1); when pre (1); when pre (1); when pre (1); when pre (1); when pre (1); }
Z5 288 293 <= void main() { weak abort abort abort abort abort abort abort abort EOT; when pre (1); when pre (1); when pre (1); when pre (1); when pre (1); when pre (1); when pre (1); when pre (1); while (0) #1 while (0) #1 while (0) #1 while (0) #1 while (0) #1 while (0) #1 while (0) #1 while (0) #1 while (0) #1 ; }
Z8 51 51 <= int x; void main() { while (x) #4294967295 ; EOT; }
Z6 330 333 <= void f0() { } void f1() { f0(); } void f2() { f1(); } void f3() { f2(); } void f4() { f3(); } void f5() { f4(); } void f6() { f5(); } void f7() { f6(); } void f8() { f7(); } void f9() { f8(); } void f10() { f9(); } void f11() { f10(); } void f12() { f11(); } void f13() { f12(); } void f14() { f13(); } void f15() { f14(); } void f16() { f15(); } void main() { f16(); }
Z2 1280 1280 <= void f0() { } void f1() { } void f2() { } void f3() { } void f4() { } void f5() { } void f6() { } void f7() { } void f8() { } void f9() { } void f10() { } void f11() { } void f12() { } void f13() { } void f14() { } void f15() { } void f16() { } void f17() { } void f18() { } void f19() { } void f20() { } void f21() { } void f22() { } void f23() { } void f24() { } void f25() { } void f26() { } void f27() { } void f28() { } void f29() { } void f30() { } void f31() { } void f32() { } void f33() { } void f34() { } void f35() { } void f36() { } void f37() { } void f38() { } void f39() { } void f40() { } void f41() { } void f42() { } void f43() { } void f44() { } void f45() { } void f46() { } void f47() { } void f48() { } void f49() { } void f50() { } void f51() { } void f52() { } void f53() { } void f54() { } void f55() { } void f56() { } void f57() { } void f58() { } void f59() { } void f60() { } void f61() { } void f62() { } void f63() { } void main() { PAR(f0, f1, f2, f3, f4, f5, f6, f7, f8, f9, f10, f11, f12, f13, f14, f15, f16, f17, f18, f19, f20, f21, f22, f23, f24, f25, f26, f27, f28, f29, f30, f31, f32, f33, f34, f35, f36, f37, f38, f39, f40, f41, f42, f43, f44, f45, f46, f47, f48, f49, f50, f51, f52, f53, f54, f55, f56, f57, f58, f59, f60, f61, f62, f63); }
Z9 1760 1760 <= ReactiveInput int a0 = 0; ReactiveInput int a1 = 0; ReactiveInput int a2 = 0; ReactiveInput int a3 = 0; ReactiveInput int a4 = 0; ReactiveInput int a5 = 0; ReactiveInput int a6 = 0; ReactiveInput int a7 = 0; ReactiveInput int a8 = 0; ReactiveInput int a9 = 0; ReactiveInput int a10 = 0; ReactiveInput int a11 = 0; ReactiveInput int a12 = 0; ReactiveInput int a13 = 0; ReactiveInput int a14 = 0; ReactiveInput int a15 = 0; ReactiveInput int a16 = 0; ReactiveInput int a17 = 0; ReactiveInput int a18 = 0; ReactiveInput int a19 = 0; ReactiveInput int a20 = 0; ReactiveInput int a21 = 0; ReactiveInput int a22 = 0; ReactiveInput int a23 = 0; ReactiveInput int a24 = 0; ReactiveInput int a25 = 0; ReactiveInput int a26 = 0; ReactiveInput int a27 = 0; ReactiveInput int a28 = 0; ReactiveInput int a29 = 0; ReactiveInput int a30 = 0; ReactiveInput int a31 = 0; ReactiveInput int a32 = 0; ReactiveInput int a33 = 0; ReactiveInput int a34 = 0; ReactiveInput int a35 = 0; ReactiveInput int a36 = 0; ReactiveInput int a37 = 0; ReactiveInput int a38 = 0; ReactiveInput int a39 = 0; ReactiveInput int a40 = 0; ReactiveInput int a41 = 0; ReactiveInput int a42 = 0; ReactiveInput int a43 = 0; ReactiveInput int a44 = 0; ReactiveInput int a45 = 0; ReactiveInput int a46 = 0; ReactiveInput int a47 = 0; ReactiveInput int a48 = 0; ReactiveInput int a49 = 0; ReactiveInput int a50 = 0; ReactiveInput int a51 = 0; ReactiveInput int a52 = 0; ReactiveInput int a53 = 0; ReactiveInput int a54 = 0; ReactiveInput int a55 = 0; ReactiveInput int a56 = 0; ReactiveInput int a57 = 0; ReactiveInput int a58 = 0; ReactiveInput int a59 = 0; ReactiveInput int a60 = 0; ReactiveInput int a61 = 0; ReactiveInput int a62 = 0; ReactiveInput int a63 = 0; ReactiveInput int a64 = 0; void main() { }
E1 21 26 <= int x; void main() { while (1) x = 1; while (x) #1 EOT; }";

#[test]
fn loops_and_limits_are_judged(rt: HostRuntime) -> Result<(), Fail> {
    let alloc = rt.alloc();
    assert_eq!(rt; first_not_broken(alloc, LIMITS)?, "none");
    assert!(rt;
        breaks(
            alloc,
            "int x = 0;\nvoid main() { while (1) { x = 1; } }",
            "E1 25 30"
        )?
    );
    assert!(rt;
        breaks(
            alloc,
            "int x = 0;\nint y = 0;\nvoid main() { while (x) { if (y) EOT; } }",
            "E1 36 41"
        )?
    );
    Ok(())
}

#[test]
fn a_failed_push_of_the_counts_is_a_write_fault(rt: HostRuntime) -> Result<(), Fail> {
    let outside = Outside {
        sink_fails: &[0],
        ..with("void main() { }", "")
    };
    let wanted = Wanted {
        status: 4,
        written: "",
        image: None,
        cert: None,
        left: 0,
    };
    assert!(rt; comes_so(rt.alloc(), "rules p", outside, wanted)?);
    Ok(())
}
