// Whole inputs of the program and the texts that they give.
use crate::program::{Program, Template};
use crate::walk::numbers;
use std::io;
use std::rt::Files;

// First lines that are not readable: of another shape, with another letter, with other numbers.
static UNREADABLE: [&str; 39] = [
    "",
    "\n",
    "\n1100\n",
    "S",
    "S ",
    "S 4",
    "S 4 ",
    "S 4 \n",
    "S  4 1",
    "S 4  1",
    " S 4 1",
    "S 4 1 ",
    "S 4 1\r\n1100\n",
    "S4 1",
    "S 4,1",
    "S\t4 1",
    "SS 4 1",
    "S 4 1 1",
    "s 4 1",
    "X 4 1",
    "t 4 1",
    "1 4 1",
    "  4 1",
    "S 04 1",
    "S 4 01",
    "S 00 1",
    "S 4 00",
    "S 10000 1",
    "S 4 10000",
    "S 0004 1",
    "S 4 0001",
    "S +4 1",
    "S -4 1",
    "S 4 -1",
    "S x 1",
    "S 4 x",
    "S 4x 1",
    "S 4 1x",
    "S 4. 1",
];

// Openings that are refused: by the width, by the tree's width, by the picks.
static OPENINGS: [(&str, &str); 30] = [
    ("S 0 1", "0 refused 1 0\n"),
    ("S 1025 1", "0 refused 1 0\n"),
    ("S 9999 9", "0 refused 1 0\n"),
    ("S 0 0\n1\n", "0 refused 1 0\n"),
    ("T 0 1", "0 refused 1 0\n"),
    ("T 1025 2", "0 refused 1 0\n"),
    ("P 0 9", "0 refused 1 0\n"),
    ("P 1300 1", "0 refused 1 0\n"),
    ("B 0 1", "0 refused 1 0\n"),
    ("B 1025 2", "0 refused 1 0\n"),
    ("T 1 1", "0 refused 2 0\n"),
    ("T 3 1", "0 refused 2 0\n"),
    ("T 6 2", "0 refused 2 0\n"),
    ("T 257 1", "0 refused 2 0\n"),
    ("T 1023 1\n0\n", "0 refused 2 0\n"),
    ("S 4 0", "0 refused 3 0\n"),
    ("S 4 5", "0 refused 3 0\n"),
    ("S 4 9", "0 refused 3 0\n"),
    ("S 2 3", "0 refused 3 0\n"),
    ("S 4 100", "0 refused 3 0\n"),
    ("S 4 1000", "0 refused 3 0\n"),
    ("S 1024 9", "0 refused 3 0\n"),
    ("P 4 0", "0 refused 3 0\n"),
    ("P 7 8", "0 refused 3 0\n"),
    ("P 16 9", "0 refused 3 0\n"),
    ("T 4 2", "0 refused 3 0\n"),
    ("T 2 0", "0 refused 3 0\n"),
    ("B 4 2", "0 refused 3 0\n"),
    ("B 1 0", "0 refused 3 0\n"),
    ("B 4 2\n1100 1\n", "0 refused 3 0\n"),
];

// The lines of the first lines.
pub(crate) fn first_lines(rt: &impl Print, program: &mut Program) -> io::Result<()> {
    numbers(
        rt,
        "program, first lines that are not readable",
        UNREADABLE.len(),
        |i| Some(program.gives(UNREADABLE.get(i)?, "0 refused 11 0\n")),
    )?;
    numbers(
        rt,
        "program, openings refused",
        OPENINGS.len(),
        |i| program.gives_listed(&OPENINGS, i),
    )?;
    numbers(
        rt,
        "program, every byte at each place of the first line",
        256 * FIRST_LINE.len(),
        |i| program.gives_filled(&FIRST_LINE, i),
    )
}

// Every byte at each place of the first line: before it, its letter, its spaces, its digits, its end.
static FIRST_LINE: [Template; 20] = [
    Template {
        input: "@S 4 1\n",
        sets: &[],
        others: "0 refused 11 0\n",
    },
    Template {
        input: "@ 4 2\n1101\n",
        sets: &[("SP", "1 1100 2\n"), ("TB", "0 refused 3 0\n")],
        others: "0 refused 11 0\n",
    },
    Template {
        input: "@ 6 1\n",
        sets: &[("T", "0 refused 2 0\n"), ("SPB", "")],
        others: "0 refused 11 0\n",
    },
    Template {
        input: "S@4 1\n",
        sets: &[(" ", "")],
        others: "0 refused 11 0\n",
    },
    Template {
        input: "S 4@1\n",
        sets: &[(" ", "")],
        others: "0 refused 11 0\n",
    },
    Template {
        input: "S @ 1\n",
        sets: &[("123456789", ""), ("0", "0 refused 1 0\n")],
        others: "0 refused 11 0\n",
    },
    Template {
        input: "S 0@ 1\n",
        sets: &[],
        others: "0 refused 11 0\n",
    },
    Template {
        input: "S 1@ 1\n",
        sets: &[("0123456789", "")],
        others: "0 refused 11 0\n",
    },
    Template {
        input: "S 10@ 1\n",
        sets: &[("0123456789", "")],
        others: "0 refused 11 0\n",
    },
    Template {
        input: "S 102@ 1\n",
        sets: &[("01234", ""), ("56789", "0 refused 1 0\n")],
        others: "0 refused 11 0\n",
    },
    Template {
        input: "S 100@ 1\n",
        sets: &[("0123456789", "")],
        others: "0 refused 11 0\n",
    },
    Template {
        input: "S 1000@ 1\n",
        sets: &[],
        others: "0 refused 11 0\n",
    },
    Template {
        input: "S 9 @\n",
        sets: &[("12345678", ""), ("09", "0 refused 3 0\n")],
        others: "0 refused 11 0\n",
    },
    Template {
        input: "S 9 0@\n",
        sets: &[("\n", "0 refused 3 0\n")],
        others: "0 refused 11 0\n",
    },
    Template {
        input: "S 9 1@\n",
        sets: &[("\n", "1 refused 5 0\n"), ("0123456789", "0 refused 3 0\n")],
        others: "0 refused 11 0\n",
    },
    Template {
        input: "S 9 10@\n",
        sets: &[("\n0123456789", "0 refused 3 0\n")],
        others: "0 refused 11 0\n",
    },
    Template {
        input: "S 9 100@\n",
        sets: &[("\n0123456789", "0 refused 3 0\n")],
        others: "0 refused 11 0\n",
    },
    Template {
        input: "S 9 1000@\n",
        sets: &[("\n", "0 refused 3 0\n")],
        others: "0 refused 11 0\n",
    },
    Template {
        input: "S 4 1@1000\n",
        sets: &[("\n", "1 1000 1\n")],
        others: "0 refused 11 0\n",
    },
    Template {
        input: "S 4 1@",
        sets: &[("\n", ""), ("0123456789", "0 refused 3 0\n")],
        others: "0 refused 11 0\n",
    },
];

// Cycle lines of scan, tree and thermometer arbiter: the first line alone, served lines, 01's example, and wide lines.
static SERVED: [(&str, &str); 12] = [
    ("S 4 1", ""),
    ("S 4 1\n", ""),
    ("T 1024 1\n", ""),
    ("P 8 8", ""),
    ("S 257 1\n", ""),
    ("B 1024 1\n", ""),
    ("B 1 1\n", ""),
    (
        "S 4 1\n1100\n1100\n0000\n",
        "1 1000 1\n2 0100 2\n3 0000 2\n",
    ),
    (
        "T 4 1\n0000\n1001\n1001\n",
        "1 0000 3\n2 0001 0\n3 1000 1\n",
    ),
    (
        "P 4 2\n1101\n0001\n0000\n1011\n10x1\n",
        "1 1100 2\n2 0001 0\n3 0000 0\n4 1010 3\n5 refused 8 2\n",
    ),
    (
        "S 10 8\n1111111111\n1111111111\n0000000001\n",
        "1 1111111100 8\n2 1111110011 6\n3 0000000001 0\n",
    ),
    ("P 12 1\n000000000010", "1 000000000010 11\n"),
];

// Cycle lines that are refused, by their length or their characters, and lines that end otherwise.
static REFUSED: [(&str, &str); 8] = [
    (
        "S 4 1\n110\n11000\n\n1100\n",
        "1 refused 5 0\n2 refused 5 0\n3 refused 5 0\n4 1000 1\n",
    ),
    ("S 4 1\n\n", "1 refused 5 0\n"),
    (
        "T 4 1\n1x00\n12x0\n 100\n0110\nxxxx\n",
        "1 refused 8 1\n2 refused 8 1\n3 refused 8 0\n4 0100 2\n5 refused 8 0\n",
    ),
    (
        "S 4 1\n1100\r\n110\r\n\r\n",
        "1 refused 5 0\n2 refused 8 3\n3 refused 5 0\n",
    ),
    ("S 4 1\n1100", "1 1000 1\n"),
    ("S 4 1\n1100\n\n", "1 1000 1\n2 refused 5 0\n"),
    ("S 4 1\n110", "1 refused 5 0\n"),
    ("P 1 1\n1\n0\n1", "1 1 0\n2 0 0\n3 1 0\n"),
];

// Cycle lines of the bus: served, of another length, without the space, with other characters.
static BUS: [(&str, &str); 4] = [
    (
        "B 4 1\n1100 1\n1100 0\n0100 1\n0000 1\n0001 1\n1000 1",
        "1 1000 1\n2 0100 1\n3 0100 2\n4 0000 2\n5 0001 3\n6 1000 0\n",
    ),
    (
        "B 4 1\n1100\n1100 \n1100 11\n1100  1\n\n110 1\n",
        "1 refused 5 0\n2 refused 5 0\n3 refused 5 0\n4 refused 5 0\n5 refused 5 0\n6 refused 5 0\n",
    ),
    (
        "B 4 1\n1100-1\n110x-1\n110011\n1100 1\n",
        "1 refused 5 0\n2 refused 5 0\n3 refused 5 0\n4 1000 1\n",
    ),
    (
        "B 4 1\n110x 1\n110x x\n1100 x\n1100 2\n1100  \nxx00 0\n1100 0\n",
        "1 refused 8 3\n2 refused 8 3\n3 refused 9 0\n4 refused 9 0\n5 refused 9 0\n6 refused 8 0\n7 1000 0\n",
    ),
];

// Every byte at each place of a cycle line: a station of each engine, the bus's space and acknowledge, the ends of a line.
static CYCLE_LINE: [Template; 20] = [
    Template {
        input: "S 4 1\n@000\n",
        sets: &[
            ("0", "1 0000 3\n"),
            ("1", "1 1000 1\n"),
            ("\n", "1 refused 5 0\n2 refused 5 0\n"),
        ],
        others: "1 refused 8 0\n",
    },
    Template {
        input: "S 4 1\n0@00\n",
        sets: &[
            ("0", "1 0000 3\n"),
            ("1", "1 0100 2\n"),
            ("\n", "1 refused 5 0\n2 refused 5 0\n"),
        ],
        others: "1 refused 8 1\n",
    },
    Template {
        input: "S 4 1\n000@\n",
        sets: &[
            ("0", "1 0000 3\n"),
            ("1", "1 0001 0\n"),
            ("\n", "1 refused 5 0\n2 refused 5 0\n"),
        ],
        others: "1 refused 8 3\n",
    },
    Template {
        input: "T 4 1\n@000\n",
        sets: &[
            ("0", "1 0000 3\n"),
            ("1", "1 1000 1\n"),
            ("\n", "1 refused 5 0\n2 refused 5 0\n"),
        ],
        others: "1 refused 8 0\n",
    },
    Template {
        input: "T 4 1\n0@00\n",
        sets: &[
            ("0", "1 0000 3\n"),
            ("1", "1 0100 2\n"),
            ("\n", "1 refused 5 0\n2 refused 5 0\n"),
        ],
        others: "1 refused 8 1\n",
    },
    Template {
        input: "T 4 1\n000@\n",
        sets: &[
            ("0", "1 0000 3\n"),
            ("1", "1 0001 0\n"),
            ("\n", "1 refused 5 0\n2 refused 5 0\n"),
        ],
        others: "1 refused 8 3\n",
    },
    Template {
        input: "P 4 2\n@000\n",
        sets: &[
            ("0", "1 0000 3\n"),
            ("1", "1 1000 1\n"),
            ("\n", "1 refused 5 0\n2 refused 5 0\n"),
        ],
        others: "1 refused 8 0\n",
    },
    Template {
        input: "P 4 2\n0@00\n",
        sets: &[
            ("0", "1 0000 3\n"),
            ("1", "1 0100 2\n"),
            ("\n", "1 refused 5 0\n2 refused 5 0\n"),
        ],
        others: "1 refused 8 1\n",
    },
    Template {
        input: "P 4 2\n000@\n",
        sets: &[
            ("0", "1 0000 3\n"),
            ("1", "1 0001 0\n"),
            ("\n", "1 refused 5 0\n2 refused 5 0\n"),
        ],
        others: "1 refused 8 3\n",
    },
    Template {
        input: "B 4 1\n@000 1\n",
        sets: &[
            ("0", "1 0000 0\n"),
            ("1", "1 1000 1\n"),
            ("\n", "1 refused 5 0\n2 refused 5 0\n"),
        ],
        others: "1 refused 8 0\n",
    },
    Template {
        input: "B 4 1\n0@00 1\n",
        sets: &[
            ("0", "1 0000 0\n"),
            ("1", "1 0100 1\n"),
            ("\n", "1 refused 5 0\n2 refused 5 0\n"),
        ],
        others: "1 refused 8 1\n",
    },
    Template {
        input: "B 4 1\n000@ 1\n",
        sets: &[
            ("0", "1 0000 0\n"),
            ("1", "1 0001 1\n"),
            ("\n", "1 refused 5 0\n2 refused 5 0\n"),
        ],
        others: "1 refused 8 3\n",
    },
    Template {
        input: "B 4 1\n1000@1\n",
        sets: &[
            (" ", "1 1000 1\n"),
            ("\n", "1 refused 5 0\n2 refused 5 0\n"),
        ],
        others: "1 refused 5 0\n",
    },
    Template {
        input: "B 4 1\n1000 @\n",
        sets: &[
            ("0", "1 1000 0\n"),
            ("1", "1 1000 1\n"),
            ("\n", "1 refused 5 0\n2 refused 5 0\n"),
        ],
        others: "1 refused 9 0\n",
    },
    Template {
        input: "S 4 1\n1000@0100\n",
        sets: &[("\n", "1 1000 1\n2 0100 2\n")],
        others: "1 refused 5 0\n",
    },
    Template {
        input: "B 4 1\n1000 1@0100 1\n",
        sets: &[("\n", "1 1000 1\n2 0100 2\n")],
        others: "1 refused 5 0\n",
    },
    Template {
        input: "S 4 1\n1000@",
        sets: &[("\n", "1 1000 1\n")],
        others: "1 refused 5 0\n",
    },
    Template {
        input: "B 4 1\n1000 1@",
        sets: &[("\n", "1 1000 1\n")],
        others: "1 refused 5 0\n",
    },
    Template {
        input: "S 1 1\n@\n",
        sets: &[
            ("0", "1 0 0\n"),
            ("1", "1 1 0\n"),
            ("\n", "1 refused 5 0\n2 refused 5 0\n"),
        ],
        others: "1 refused 8 0\n",
    },
    Template {
        input: "S 1 1\n@",
        sets: &[
            ("0", "1 0 0\n"),
            ("1", "1 1 0\n"),
            ("\n", "1 refused 5 0\n"),
        ],
        others: "1 refused 8 0\n",
    },
];

// The lines of the cycle lines.
pub(crate) fn cycle_lines(rt: &impl Print, program: &mut Program) -> io::Result<()> {
    for (name, list) in [
        ("program, cycle lines", SERVED.as_slice()),
        ("program, refused lines and line ends", REFUSED.as_slice()),
        ("program, bus lines", BUS.as_slice()),
    ] {
        numbers(rt, name, list.len(), |i| program.gives_listed(list, i))?;
    }
    numbers(
        rt,
        "program, every byte at each place of a cycle line",
        256 * CYCLE_LINE.len(),
        |i| program.gives_filled(&CYCLE_LINE, i),
    )
}

// Inputs of 65,536 bytes, which are served, and of more, each with no first line to read and then with one. They have zeros up to
// that length.
static LONG: [(&str, usize, &str); 8] = [
    ("", 65536, "0 refused 11 0\n"),
    ("", 65537, "0 refused 12 0\n"),
    ("", 65538, "0 refused 12 0\n"),
    ("", usize::MAX, "0 refused 12 0\n"),
    ("S 1 1\n", 65536, "1 refused 5 0\n"),
    ("S 1 1\n", 65537, "0 refused 12 0\n"),
    ("S 1 1\n", 65538, "0 refused 12 0\n"),
    ("S 1 1\n", usize::MAX, "0 refused 12 0\n"),
];

// Runs that are kept in files, by the names of the files that hold the input and the text: those that are shown to readers, two of
// 1,024 stations, one with many refusals, and one of two stations.
static FILES: [(&str, &str); 7] = [
    ("morning_peak.in", "morning_peak.out"),
    ("channels.in", "channels.out"),
    ("bus.in", "bus.out"),
    ("wide.in", "wide.out"),
    ("wide_tree.in", "wide_tree.out"),
    ("mixed.in", "mixed.out"),
    ("narrow.in", "narrow.out"),
];

// The lines of the long inputs and of those in files.
pub(crate) fn long_inputs(
    rt: &(impl Print + Files + AllocGlobal),
    program: &mut Program,
) -> io::Result<()> {
    numbers(rt, "program, 65536 and 65537 bytes", LONG.len(), |i| {
        let (input, length, text) = LONG.get(i)?;
        Some(program.gives_long(input, *length, text))
    })?;
    numbers(rt, "program, examples in files", FILES.len(), |i| {
        let (input, text) = FILES.get(i)?;
        Some(program.gives_file(rt, input, text))
    })
}
