use crate::cases::first_wrong;
use crate::limit_rows::LIMITS;
use mb_isa::unit_costs;
use pt_base::Text;
use pt_image::Image;
use std::alloc::{AllocError, Global};
use std::test::Fail;
use tk_cert::Cert;
use tk_judge::{Refusal, judge};

// Writes an image of so many sums and an end.
fn put_long_image(out: &mut String, sums: u32) -> Result<(), AllocError> {
    write!(out, "ARPRET 1\ncode {}\n", u64::from(sums) + 1)?;
    for _ in 0..sums {
        out.push_str("30630001\n")?;
    }
    out.push_str(
        "fc400000\nmemory 0\ninputs 0\noutputs 0\nslots 1\n0\naborts 0\npauses 0\nforks 0\n",
    )
}

fn long_image(alloc: Global, sums: u32) -> Option<Image> {
    let mut out = String::new(alloc);
    put_long_image(&mut out, sums).ok()?;
    let text = Text::of(alloc, out.as_bytes()).ok()?;
    Image::read(alloc, &text).ok()
}

// Writes its certificate, with this number at the end.
fn put_long_cert(out: &mut String, sums: u32, last: u32) -> Result<(), AllocError> {
    let most = u64::from(sums) + 1;
    write!(out, "PRETCERT 1\nbound {}\nat {most}\n", most + 1)?;
    for place in 0..sums {
        write!(out, "T 0 0 0 - {}\n", most - u64::from(place))?;
    }
    write!(
        out,
        "T 0 0 0 - {last}\nloops 0\nslots 1\n- -\nwalk 1\ns\nchoices 0\n\n"
    )
}

fn long_cert(alloc: Global, sums: u32, last: u32) -> Option<Cert> {
    let mut out = String::new(alloc);
    put_long_cert(&mut out, sums, last).ok()?;
    let text = Text::of(alloc, out.as_bytes()).ok()?;
    Cert::read(alloc, &text).ok()
}

// What the judge says of so many sums.
fn judged(alloc: Global, sums: u32, last: u32) -> Option<Option<Refusal>> {
    let image = long_image(alloc, sums)?;
    let cert = long_cert(alloc, sums, last)?;
    Some(judge(&image, &cert, &unit_costs()))
}

#[test]
fn a_code_of_65536_words(rt: HostRuntime) -> Result<(), Fail> {
    assert_eq!(rt; judged(rt.alloc(), 65535, 1), Some(None));
    let refusal = Refusal {
        condition: 3,
        at: 65535,
        level: 0,
        needed: 1,
        given: Some(0),
    };
    assert_eq!(rt; judged(rt.alloc(), 65535, 0), Some(Some(refusal)));
    Ok(())
}

#[test]
fn slots_aborts_and_loops_at_their_limits(rt: HostRuntime) -> Result<(), Fail> {
    assert_eq!(rt; first_wrong(rt.alloc(), LIMITS), Some(""));
    Ok(())
}
