use super::*;
use pt_base::Text;
use std::alloc::Global;
use std::test::*;

const COUNTER: &[u8] =
    b"PRETCERT 1\nbound 14\nat 5\nT 0 0 0 10 -\nT 0 0 0 9 -\nT 0 0 0 8 -\nT 0 0 0 7 -\nT 0 0 0 11 -\nloops 0\nslots 1\n11 -\nwalk 1\np 3\nchoices 0\n\n";

const TWO_FORKS: &[u8] =
    b"PRETCERT 1\nbound 6\nat 4\nT 0 0 0 - 5\nT 0 0 0 - 3\nT 0 0 0 - 1\nT 1 0 0 - 1\nloops 0\nslots 2\n- -\n- -\nwalk 2\ns\nf\nchoices 0\n\n";

const JOIN: &[u8] =
    b"PRETCERT 1\nbound 4\nat 7\nT 0 0 0 3 -\nT 0 0 0 2 -\nT 0 0 0 1 -\nT 0 0 0 - 1\nT 1 0 0 1 -\nT 1 0 0 - 1\nT 2 0 0 - 1\nloops 0\nslots 3\n3 1\n- 1\n- -\nwalk 3\nw 0\np 4\ne\nchoices 0\n\n";

const FAR_LOAD: &[u8] =
    b"PRETCERT 1\nbound 4\nat 3\nT 0 0 0 2 -\nT 0 0 0 1 -\nT 0 0 0 3 -\nloops 0\nslots 1\n3 -\nwalk 1\np 1\nchoices 0\n\n";

const GREATEST: &[u8] =
    b"PRETCERT 1\nbound 1000000000000\nat 4\n-\nT 63 2 4294967295 0 1 65535 1 2 3 - - 4\nR 16 2 0 65535 0\nC 1000000000000\nloops 2\n0 0\n65535 7\nslots 1\n- 0\nwalk 5\nf\ns\np 65535\nw 0\ne\nchoices 3\n010\n";

// The number of the fault, and 0 for a certificate.
fn fault_of(alloc: Global, bytes: &[u8]) -> Option<u8> {
    let text = Text::of(alloc, bytes).ok()?;
    match Cert::read(alloc, &text) {
        Ok(_) => Some(0),
        Err(CertFault::Form { number }) => Some(number),
        Err(CertFault::Memory) => None,
    }
}

// The text of the certificate that a text is read as.
fn copy_of(alloc: Global, bytes: &[u8]) -> Option<Text> {
    let text = Text::of(alloc, bytes).ok()?;
    let cert = Cert::read(alloc, &text).ok()?;
    cert.write(alloc).ok()
}

#[test]
fn certificates_are_written_as_they_were_read(rt: HostRuntime) -> Result<(), Fail> {
    for bytes in [COUNTER, TWO_FORKS, JOIN, FAR_LOAD, GREATEST] {
        let copy = copy_of(rt.alloc(), bytes).ok_or("a certificate")?;
        assert_eq!(rt; copy.bytes(), bytes);
    }
    Ok(())
}

#[test]
fn a_front_is_at_fault_in_its_first_group_that_is_not_whole(rt: HostRuntime) -> Result<(), Fail> {
    let ends = [11, 20, 87, 95, 108, 130];
    for length in 0..130 {
        let mut whole = 1;
        for end in ends {
            if end <= length && whole < 7 {
                whole += 1;
            }
        }
        let number = fault_of(rt.alloc(), &COUNTER[..length]).ok_or("memory")?;
        assert_eq!(rt; number, whole, "at {length}");
    }
    Ok(())
}

const GROUPS: [&[u8]; 6] = [
    b"PRETCERT 1\n",
    b"bound 9\n",
    b"at 2\n-\nT 0 1 7 0 1 2 - 3\n",
    b"loops 2\n3 1\n5 2\n",
    b"slots 1\n4 -\n",
    b"walk 1\ns\nchoices 2\n01\n",
];

// The fault of a small certificate's text with another text in the place of one of its groups.
fn fault_with(alloc: Global, number: usize, group: &[u8]) -> Option<u8> {
    let mut bytes = Vec::new(alloc);
    for k in 0..GROUPS.len() {
        bytes
            .extend_from_slice(if k + 1 == number { group } else { GROUPS[k] })
            .ok()?;
    }
    fault_of(alloc, &bytes)
}

#[test]
fn each_group_has_its_faults(rt: HostRuntime) -> Result<(), Fail> {
    let cases: [(usize, &[u8], u8); 44] = [
        (1, b"PRETCERT 2\n", 1),
        (1, b"ARPRET 1\n", 1),
        (2, b"bound 1000000000000\n", 0),
        (2, b"bound 1000000000001\n", 2),
        (2, b"bound -\n", 2),
        (2, b"bound -1\n", 2),
        (3, b"at 0\n", 3),
        (3, b"at 1\nT 0 1 7 0 1 2\n", 3),
        (3, b"at 1\nT 0 0 0 1 2 3 4\n", 3),
        (3, b"at 1\nT 64 0 0 1 2\n", 3),
        (3, b"at 1\nT 63 0 0 - -\n", 0),
        (3, b"at 1\nT - 0 0 1 2\n", 3),
        (3, b"at 1\nR 0 0 1\n", 3),
        (3, b"at 1\nR 16 0 1\n", 0),
        (3, b"at 1\nR 17 0 1\n", 3),
        (3, b"at 1\nR 1 0 -\n", 3),
        (3, b"at 1\nC -\n", 3),
        (3, b"at 1\nC 1000000000001\n", 3),
        (3, b"at 1\nT 0 1 4294967296 0 1 2 3 4\n", 3),
        (3, b"at 1\nT 0 0 1 65536 1 2\n", 3),
        (3, b"at 1\nT 0 0 9 1 1 1 1 1 1 1 1 1 1 2\n", 3),
        (3, b"at 1\n- \n", 3),
        (3, b"at 1\nX 0\n", 3),
        (4, b"loops 0\n", 0),
        (4, b"loops 2\n3 1\n3 2\n", 4),
        (4, b"loops 2\n5 1\n3 2\n", 4),
        (4, b"loops 1\n65535 1\n", 0),
        (4, b"loops 1\n65536 1\n", 4),
        (4, b"loops 1\n3 -\n", 4),
        (5, b"slots 0\n", 5),
        (5, b"slots 1\n- -\n", 0),
        (5, b"slots 1\n4\n", 5),
        (5, b"slots 1\n- - \n", 5),
        (6, b"walk 0\nchoices 0\n\n", 6),
        (6, b"walk 1\np 65535\nchoices 0\n\n", 0),
        (6, b"walk 1\np 65536\nchoices 0\n\n", 6),
        (6, b"walk 1\np -\nchoices 0\n\n", 6),
        (6, b"walk 1\nS\nchoices 0\n\n", 6),
        (6, b"walk 1\ns\nchoices 2\n0\n", 6),
        (6, b"walk 1\ns\nchoices 2\n012\n", 6),
        (6, b"walk 1\ns\nchoices 2\n02\n", 6),
        (6, b"walk 1\ns\nchoices 0\n", 6),
        (6, b"walk 1\ns\nchoices 0\n\n", 0),
        (6, b"walk 1\ns\nchoices 2\n01\n\n", 7),
    ];
    for (number, group, want) in cases {
        let found = fault_with(rt.alloc(), number, group).ok_or("memory")?;
        assert_eq!(rt; found, want, "at {number}");
    }
    Ok(())
}
