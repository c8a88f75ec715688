use super::*;
use pt_base::{Text, put_number_then};
use std::alloc::Global;
use std::test::*;

const COUNTER: &[u8] =
    b"ARPRET 1\ncode 5\ne8600000\n30630001\nf8600004\nfc200000\nb800fff0\nmemory 2\n0\n0\ninputs 1\n0\noutputs 1\n1\nslots 1\n0\naborts 0\npauses 1\n3 0 0\nforks 0\n";

const TWO_FORKS: &[u8] =
    b"ARPRET 1\ncode 4\nfc000101\nfc000101\nfc400000\nfc400000\nmemory 0\ninputs 0\noutputs 0\nslots 2\n0\n3\naborts 0\npauses 0\nforks 2\n0 0 0\n1 0 0\n";

const JOIN: &[u8] =
    b"ARPRET 1\ncode 7\nfc000102\n30600001\nfc200000\nfc400000\nfc200000\nfc400000\nfc400000\nmemory 0\ninputs 0\noutputs 0\nslots 3\n0\n4\n6\naborts 0\npauses 2\n2 0 0\n4 1 0\nforks 1\n0 0 0\n";

const FAR_LOAD: &[u8] =
    b"ARPRET 1\ncode 3\ne8600008\nfc200000\nb800fff8\nmemory 2\n0\n0\ninputs 0\noutputs 0\nslots 1\n0\naborts 0\npauses 1\n1 0 0\nforks 0\n";

const NESTED: &[u8] =
    b"ARPRET 1\ncode 2\n00000000\nffffffff\nmemory 3\n-2147483648\n2147483647\n-1\ninputs 2\n2\n2\noutputs 0\nslots 2\n1\n0\naborts 2\nw 0 1\ns 1 0\npauses 2\n1 1 8 0 1 0 1 0 1 0 1\n0 0 1 1\nforks 1\n1 0 0\n";

// The number of the fault, and 0 for an image.
fn fault_of(alloc: Global, bytes: &[u8]) -> Option<u8> {
    let text = Text::of(alloc, bytes).ok()?;
    match Image::read(alloc, &text) {
        Ok(_) => Some(0),
        Err(ImageFault::Form { number }) => Some(number),
        Err(ImageFault::Memory) => None,
    }
}

// The text of the image that a text is read as.
fn copy_of(alloc: Global, bytes: &[u8]) -> Option<Text> {
    let text = Text::of(alloc, bytes).ok()?;
    let image = Image::read(alloc, &text).ok()?;
    image.write(alloc).ok()
}

#[test]
fn images_are_written_as_they_were_read(rt: HostRuntime) -> Result<(), Fail> {
    for bytes in [COUNTER, TWO_FORKS, JOIN, FAR_LOAD, NESTED] {
        let copy = copy_of(rt.alloc(), bytes).ok_or("an image")?;
        assert_eq!(rt; copy.bytes(), bytes);
    }
    Ok(())
}

#[test]
fn a_front_is_at_fault_in_its_first_group_that_is_not_whole(rt: HostRuntime) -> Result<(), Fail> {
    let ends = [9, 61, 74, 85, 97, 107, 116, 131, 139];
    for length in 0..139 {
        let mut whole = 1;
        for end in ends {
            if end <= length && whole < 10 {
                whole += 1;
            }
        }
        let number = fault_of(rt.alloc(), &COUNTER[..length]).ok_or("memory")?;
        assert_eq!(rt; number, whole, "at {length}");
    }
    Ok(())
}

const GROUPS: [&[u8]; 9] = [
    b"ARPRET 1\n",
    b"code 2\n00000000\nffffffff\n",
    b"memory 1\n0\n",
    b"inputs 1\n0\n",
    b"outputs 1\n0\n",
    b"slots 2\n0\n1\n",
    b"aborts 2\ns 0 0\nw 1 1\n",
    b"pauses 1\n0 0 0\n",
    b"forks 1\n1 1 2 1 0\n",
];

// The fault of a small image's text with another text in the place of one of its groups.
fn fault_with(alloc: Global, number: usize, group: &[u8]) -> Option<u8> {
    let mut bytes = Vec::new(alloc);
    for k in 0..GROUPS.len() {
        bytes
            .extend_from_slice(if k + 1 == number { group } else { GROUPS[k] })
            .ok()?;
    }
    fault_of(alloc, &bytes)
}

#[test]
fn each_group_has_its_faults(rt: HostRuntime) -> Result<(), Fail> {
    let cases: [(usize, &[u8], u8); 48] = [
        (1, b"ARPRET 1", 1),
        (1, b"ARPRET 2\n", 1),
        (1, b"ARPRET 1\r\n", 1),
        (1, b"", 1),
        (2, b"code 0\n", 2),
        (2, b"code 02\n00000000\nffffffff\n", 2),
        (2, b"code  2\n00000000\nffffffff\n", 2),
        (2, b"code 2\n00000000\nFFFFFFFF\n", 2),
        (2, b"code 2\n00000000\n0ffffffff\n", 2),
        (2, b"code 2\n00000000\nfffffff\n", 2),
        (2, b"code 1\n00000000\nffffffff\n", 3),
        (2, b"memory 1\n0\n", 2),
        (3, b"memory 1\n-2147483648\n", 0),
        (3, b"memory 1\n2147483647\n", 0),
        (3, b"memory 1\n-2147483649\n", 3),
        (3, b"memory 1\n2147483648\n", 3),
        (3, b"memory 1\n-0\n", 3),
        (3, b"memory 1\n+1\n", 3),
        (3, b"memory 1\n00\n", 3),
        (3, b"memory 1\n-\n", 3),
        (3, b"memory 0\n", 4),
        (4, b"inputs 0\n", 0),
        (4, b"inputs 1\n1\n", 4),
        (4, b"outputs 1\n0\n", 4),
        (5, b"outputs 1\n1\n", 5),
        (5, b"outputs 1\n-0\n", 5),
        (6, b"slots 0\n", 6),
        (6, b"slots 2\n0\n2\n", 6),
        (6, b"slots 1\n0\n", 9),
        (7, b"aborts 2\ns 0 2\nw 1 1\n", 7),
        (7, b"aborts 2\ns 2 0\nw 1 1\n", 7),
        (7, b"aborts 2\nS 0 0\nw 1 1\n", 7),
        (7, b"aborts 2\ns 0 0 \nw 1 1\n", 7),
        (7, b"aborts 1\ns 0 0\n", 9),
        (8, b"pauses 1\n1 1 8 0 0 0 0 1 1 1 1\n", 0),
        (8, b"pauses 1\n1 1 9 0 0 0 0 1 1 1 1 1\n", 8),
        (8, b"pauses 1\n2 0 0\n", 8),
        (8, b"pauses 1\n0 2 0\n", 8),
        (8, b"pauses 1\n0 0 1 2\n", 8),
        (8, b"pauses 1\n0 0 1\n", 8),
        (8, b"pauses 1\n0 0 0 \n", 8),
        (8, b"pauses 2\n0 0 0\n1 0 0\n", 0),
        (8, b"pauses 2\n0 0 0\n0 1 0\n", 8),
        (8, b"forks 1\n1 1 2 1 0\n", 8),
        (9, b"forks 1\n0 0 0\n", 0),
        (9, b"forks 2\n0 0 0\n0 0 0\n", 9),
        (9, b"forks 1\n0 0 0", 9),
        (9, b"forks 1\n0 0 0\n\n", 10),
    ];
    for (number, group, want) in cases {
        let found = fault_with(rt.alloc(), number, group).ok_or("memory")?;
        assert_eq!(rt; found, want, "at {number}");
    }
    Ok(())
}

// A line with a count, and a line repeated as often, in the place of one group.
fn fault_repeated(
    alloc: Global,
    number: usize,
    name: &[u8],
    count: usize,
    line: &[u8],
) -> Option<u8> {
    let mut group = Vec::new(alloc);
    group.extend_from_slice(name).ok()?;
    for _ in 0..count {
        group.extend_from_slice(line).ok()?;
    }
    fault_with(alloc, number, &group)
}

#[test]
fn the_largest_counts(rt: HostRuntime) -> Result<(), Fail> {
    let cases: [(usize, &[u8], usize, &[u8], u8); 10] = [
        (2, b"code 65536\n", 65_536, b"fc200000\n", 0),
        (2, b"code 65537\n", 65_537, b"fc200000\n", 2),
        (3, b"memory 16384\n", 16_384, b"-1\n", 0),
        (3, b"memory 16385\n", 16_385, b"-1\n", 3),
        (4, b"inputs 64\n", 64, b"0\n", 0),
        (5, b"outputs 65\n", 65, b"0\n", 5),
        (6, b"slots 64\n", 64, b"1\n", 0),
        (6, b"slots 65\n", 65, b"1\n", 6),
        (7, b"aborts 65536\n", 65_536, b"w 1 0\n", 0),
        (7, b"aborts 65537\n", 65_537, b"w 1 0\n", 7),
    ];
    for (number, name, count, line, want) in cases {
        let found = fault_repeated(rt.alloc(), number, name, count, line).ok_or("memory")?;
        assert_eq!(rt; found, want, "at {number}");
    }
    Ok(())
}

// The text of an image with a pause at each of 65,536 places, the last of them at this one.
fn paused_everywhere(alloc: Global, last: u64) -> Option<Vec<u8>> {
    let mut bytes = Vec::new(alloc);
    bytes.extend_from_slice(b"ARPRET 1\ncode 65536\n").ok()?;
    for _ in 0..65_536u64 {
        bytes.extend_from_slice(b"fc200000\n").ok()?;
    }
    bytes
        .extend_from_slice(b"memory 0\ninputs 0\noutputs 0\nslots 1\n0\naborts 0\npauses 65536\n")
        .ok()?;
    for at in 0..65_535u64 {
        put_number_then(&mut bytes, at, b' ').ok()?;
        bytes.extend_from_slice(b"0 0\n").ok()?;
    }
    put_number_then(&mut bytes, last, b' ').ok()?;
    bytes.extend_from_slice(b"0 0\nforks 0\n").ok()?;
    Some(bytes)
}

#[test]
fn a_pause_at_every_place(rt: HostRuntime) -> Result<(), Fail> {
    for (last, want) in [(65_535, 0), (65_534, 8), (0, 8), (65_536, 8)] {
        let bytes = paused_everywhere(rt.alloc(), last).ok_or("memory")?;
        let found = fault_of(rt.alloc(), &bytes).ok_or("memory")?;
        assert_eq!(rt; found, want, "at {last}");
    }
    Ok(())
}
