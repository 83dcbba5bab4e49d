//! The texts of some cases, compared with those that another program made by the same rules.

use cases::generate;
use std::alloc::Global;
use std::process::Abort;
use std::str;

/// The text of a case: its bytes as digits of base 31, modulo 2^32, and some of its lines, by their places from 0.
struct Expected {
    number: u32,
    length: usize,
    checksum: u32,
    lines: &'static [(usize, &'static str)],
}

const CASES: &[Expected] = &[
    Expected {
        number: 0,
        length: 37_386,
        checksum: 2_444_998_422,
        lines: &[
            (0, "node n1"),
            (60, "primitive r1 Dummy meta priority=8"),
            (480, "location l101 r101 785: n59"),
            (780, "colocation c1 91: r201 r101"),
            (980, "order o51 Mandatory: r151 r251"),
            (1094, "lost n1"),
        ],
    },
    Expected {
        number: 7,
        length: 37_391,
        checksum: 3_948_790_238,
        lines: &[
            (
                61,
                "primitive r2 Dummy meta priority=8 op monitor interval=10s",
            ),
            (460, "group g1 r1 r2 r3 r4 r5"),
            (480, "location l101 r101 595: n12"),
            (780, "colocation c1 59: r201 r101"),
            (981, "order o52 Optional: r152 r252"),
            (1094, "lost n5"),
        ],
    },
    Expected {
        number: 8,
        length: 37_395,
        checksum: 3_220_761_135,
        lines: &[
            (
                61,
                "primitive r2 Dummy meta priority=4 op monitor interval=10s",
            ),
            (479, "group g20 r96 r97 r98 r99 r100"),
            (480, "location l101 r101 173: n41"),
            (780, "colocation c1 93: r201 r101"),
            (1030, "%status"),
            (1094, "lost n35"),
        ],
    },
];

fn checksum(text: &[u8]) -> u32 {
    text.iter().fold(0u32, |sum, byte| {
        sum.wrapping_mul(31).wrapping_add(u32::from(*byte))
    })
}

fn has(text: &str, place: usize, line: &str) -> bool {
    text.lines().nth(place) == Some(line)
}

fn has_lines(text: &str, lines: &[(usize, &str)]) -> bool {
    text.lines().count() == 1095 && lines.iter().all(|line| has(text, line.0, line.1))
}

fn is_expected(text: &[u8], expected: &Expected) -> bool {
    text.len() == expected.length
        && checksum(text) == expected.checksum
        && match str::from_utf8(text) {
            Ok(text) => has_lines(text, expected.lines),
            Err(_) => false,
        }
}

fn assert_case(rt: &impl Abort, alloc: Global, expected: &Expected) {
    let number = expected.number;
    let text = generate(alloc, number).expect(rt, "memory");
    assert!(rt; is_expected(&text, expected), "case {number}");
}

#[test]
fn cases_of_some_numbers(rt: HostRuntime) {
    for expected in CASES {
        assert_case(&rt, rt.alloc(), expected);
    }
}

#[test]
fn numbers_are_taken_modulo_2_to_31(rt: HostRuntime) {
    let alloc = rt.alloc();
    let low = generate(alloc, 7).expect(&rt, "memory");
    let high = generate(alloc, 2_147_483_648 + 7).expect(&rt, "memory");
    assert!(rt; low == high);
}
