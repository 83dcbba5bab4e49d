//! What `crm_lex` cuts a text into, and the first fault of a text.

use crate::checked::assert_number;
use crate::reading::LINES;
use crm_lex::{LexCause, LexFault, Line, WordBuf, lex_one, line_count, logical_lines};
use std::alloc::Global;
use std::process::Abort;
use std::str;

/// A text, and what is read of it: each line as its number and its words in brackets, or the line and cause of a fault.
type Row = (&'static [u8], &'static str);

fn print_word(rt: &impl Abort, out: &mut String, word: &[u8]) {
    let text = str::from_utf8(word).unwrap_or("?");
    write!(out, "[{text}]").expect(rt, "memory");
}

fn print_line(rt: &impl Abort, out: &mut String, line: &Line) {
    let number = line.line;
    write!(out, "{number}").expect(rt, "memory");
    for word in line.words.iter() {
        print_word(rt, out, word.bytes());
    }
}

fn print_fault(rt: &impl Abort, out: &mut String, fault: LexFault) {
    match fault {
        LexFault::At { line, cause } => write!(out, "{line} {cause:?}").expect(rt, "memory"),
        LexFault::NoMemory => panic!(rt; "memory"),
    }
}

fn print_read(rt: &impl Abort, out: &mut String, read: Result<Vec<Line>, LexFault>) {
    match read {
        Ok(lines) => {
            for line in &lines {
                print_line(rt, out, line);
            }
        }
        Err(fault) => print_fault(rt, out, fault),
    }
}

fn read(rt: &impl Abort, alloc: Global, text: &[u8]) -> String {
    assert!(rt; text.len() < LINES);
    let mut out = String::new(alloc);
    print_read(rt, &mut out, logical_lines(alloc, text));
    out
}

/// Whether this is read of a text.
fn is_read(rt: &impl Abort, alloc: Global, text: &[u8], want: &str) -> bool {
    read(rt, alloc, text).as_str() == want
}

fn assert_read(rt: &impl Abort, alloc: Global, rows: &[Row]) {
    for (text, want) in rows {
        assert!(rt; is_read(rt, alloc, text, want), "{text:?}");
    }
}

const PHYSICAL_LINES: &[Row] = &[
    (b"", ""),
    (b"\n", ""),
    (b"a", "1[a]"),
    (b"a\n", "1[a]"),
    (b"a\nb", "1[a]2[b]"),
    (b"a\nb\n", "1[a]2[b]"),
    (b"a\r\nb\r\n", "1[a]2[b]"),
    (b"\n\r\n \t\nb", "4[b]"),
    (b"a\rb\n", "1 ControlByte"),
    (b"a\r\r\n", "1 ControlByte"),
    (b"a\nb\r", "2 ControlByte"),
    (b"\r", "1 ControlByte"),
];

#[test]
fn physical_lines(rt: HostRuntime) {
    assert_read(&rt, rt.alloc(), PHYSICAL_LINES);
}

const UTF8: &[Row] = &[
    (
        b"\xc3\xa9\xe2\x82\xac\xf0\x9f\x98\x80",
        "1[\u{e9}\u{20ac}\u{1f600}]",
    ),
    (b"\xc2\x80", "1[\u{80}]"),
    (b"\xdf\xbf\xe0\xa0\x80", "1[\u{7ff}\u{800}]"),
    (b"\xed\x9f\xbf\xee\x80\x80", "1[\u{d7ff}\u{e000}]"),
    (b"\xef\xbf\xbf\xf0\x90\x80\x80", "1[\u{ffff}\u{10000}]"),
    (b"\xf4\x8f\xbf\xbf", "1[\u{10ffff}]"),
    (b"\xf4\x90\x80\x80", "1 NotUtf8"),
    (b"\xf5\x80\x80\x80", "1 NotUtf8"),
    (b"\xc0\x80", "1 NotUtf8"),
    (b"\xc1\xbf", "1 NotUtf8"),
    (b"\xe0\x9f\xbf", "1 NotUtf8"),
    (b"\xf0\x8f\xbf\xbf", "1 NotUtf8"),
    (b"\xed\xa0\x80", "1 NotUtf8"),
    (b"\xed\xbf\xbf", "1 NotUtf8"),
    (b"\x80", "1 NotUtf8"),
    (b"a\xff", "1 NotUtf8"),
    (b"a\nb\xc3", "2 NotUtf8"),
    (b"\xe2\x82", "1 NotUtf8"),
    (b"\xf0\x9f\x98", "1 NotUtf8"),
    (b"\xc3\n\xa9", "1 NotUtf8"),
    (b"a\xc3\\\n\xa9", "1 NotUtf8"),
    (b"a\\\n\xa9", "2 NotUtf8"),
    (b"# \xff", "1 NotUtf8"),
    (b"' \xff'", "1 NotUtf8"),
    (b"a\n\nb \xe2\x82 c\nd\xff", "3 NotUtf8"),
];

#[test]
fn utf8(rt: HostRuntime) {
    assert_read(&rt, rt.alloc(), UTF8);
}

const COMMENTS: &[Row] = &[
    (b"# a b\nc", "2[c]"),
    (b"#", ""),
    (b" \t # a\nb", "2[b]"),
    (b"a #b", "1[a][#b]"),
    (b"'#'", "1[#]"),
    (b"# a 'b", ""),
    (b"# a\\\nb", "2[b]"),
    (b" #\\\r\nb", "2[b]"),
    (b"#\\", ""),
    (b"#\x01", "1 ControlByte"),
];

#[test]
fn comments(rt: HostRuntime) {
    assert_read(&rt, rt.alloc(), COMMENTS);
}

const JOINTS: &[Row] = &[
    (b"a\\\nb", "1[a][b]"),
    (b"a\\\r\nb\r\n", "1[a][b]"),
    (b"a \\\n b\nc", "1[a][b]3[c]"),
    (b"a\\\n\\\nb\nc", "1[a][b]4[c]"),
    (b"a\\\n\nb", "1[a]3[b]"),
    (b"\\\n\\\na", "1[a]"),
    (b"a\\\\\nb", "1[a\\][b]"),
    (b"a\\ \nb", "1[a\\]2[b]"),
    (b"a\\\n#b", "1[a][#b]"),
    (b"\\\n #b", "1[#b]"),
    (b"a\\\n#b\\\nc", "1[a][#b][c]"),
    (b"\"a\\\nb\"", "1[a b]"),
    (b"'a\\\nb'", "1[a b]"),
    (b"\"a\\\\\nb\"", "1[a\\ b]"),
    (b"a\\", "1[a]"),
    (b"a\\\n", "1[a]"),
    (b"a\\\r\n", "1[a]"),
    (b"a\\\\", "1[a\\]"),
    (b"\\", ""),
    (b"a\\\r", "1 ControlByte"),
    (b"a\\\rb", "1 ControlByte"),
    (b"a\\\r\r\nb", "1 ControlByte"),
];

#[test]
fn joints(rt: HostRuntime) {
    assert_read(&rt, rt.alloc(), JOINTS);
}

const WORDS: &[Row] = &[
    (b" a  b\tc ", "1[a][b][c]"),
    (b"\"a b\"", "1[a b]"),
    (b"'a b'", "1[a b]"),
    (b"a\"b c\"d", "1[ab cd]"),
    (b"a'b c'd", "1[ab cd]"),
    (b"\"a\"'b'\"c\"", "1[abc]"),
    (b"\"a\" 'b'", "1[a][b]"),
    (b"\"\"", "1[]"),
    (b"''", "1[]"),
    (b"a \"\" b", "1[a][][b]"),
    (b"\"\" ''", "1[][]"),
    (b"\"\"''", "1[]"),
    (b"\"\"a", "1[a]"),
    (b"k=\"v w\"", "1[k=v w]"),
    (b"\"a\\\"b\"", "1[a\"b]"),
    (b"\"a\\\\b\"", "1[a\\b]"),
    (b"\"a\\nb\"", "1[a\\nb]"),
    (b"\"a\\'b\"", "1[a\\'b]"),
    (b"\"a\\\\\\\"b\"", "1[a\\\"b]"),
    (b"\"\\\\\" b", "1[\\][b]"),
    (b"\"\\\\\\\\\"", "1[\\\\]"),
    (b"'a\\'", "1[a\\]"),
    (b"'a\\' b", "1[a\\][b]"),
    (b"'a\\\\b'", "1[a\\\\b]"),
    (b"'a\"b'", "1[a\"b]"),
    (b"\"a'b\"", "1[a'b]"),
    (b"a\\\"b c\"", "1[a\\b c]"),
    (b"a\\'b c'", "1[a\\b c]"),
    (b"a\\ b", "1[a\\][b]"),
    (b"\\\\a", "1[\\\\a]"),
    (b"a\\nb", "1[a\\nb]"),
    (b"\"\t\"", "1[\t]"),
    (b"\"\xc3\xa9\\\"\"", "1[\u{e9}\"]"),
    (b"'#' #", "1[#][#]"),
    (b"a=\"\" 'b'c\"d\"", "1[a=][bcd]"),
];

#[test]
fn words(rt: HostRuntime) {
    assert_read(&rt, rt.alloc(), WORDS);
}

const OPEN_QUOTES: &[Row] = &[
    (b"\"", "1 OpenQuote"),
    (b"'", "1 OpenQuote"),
    (b"a \"b", "1 OpenQuote"),
    (b"\"a\\\"", "1 OpenQuote"),
    (b"\"a\\", "1 OpenQuote"),
    (b"\"a\\\\\\\"", "1 OpenQuote"),
    (b"'a\\'b'", "1 OpenQuote"),
    (b"\"a'", "1 OpenQuote"),
    (b"a\n\"b\nc\"", "2 OpenQuote"),
    (b"a\n'b\\\nc\nd", "2 OpenQuote"),
    (b"a\\\n\"b", "1 OpenQuote"),
    (b"a\\\"b", "1 OpenQuote"),
];

#[test]
fn open_quotes(rt: HostRuntime) {
    assert_read(&rt, rt.alloc(), OPEN_QUOTES);
}

/// Texts with several faults.
const FIRST_FAULTS: &[Row] = &[
    (b"\"\x01", "1 ControlByte"),
    (b"\"\x01\xff", "1 NotUtf8"),
    (b"\x01\n\xff", "1 ControlByte"),
    (b"\"\n\xff", "1 OpenQuote"),
    (b"a\n\"\n\x01", "2 OpenQuote"),
    (b"\"a\\\n\x01", "1 OpenQuote"),
    (b"\"a\\\n\xff\"", "2 NotUtf8"),
    (b"a\\\nb\x01\\\n\xff", "2 ControlByte"),
    (b"a\\\nb\\\n\xff\x01", "3 NotUtf8"),
    (b"\"a\x01\\\n\xff", "1 ControlByte"),
    (b"a\\\nb\n'\x7f", "3 ControlByte"),
];

#[test]
fn first_faults(rt: HostRuntime) {
    assert_read(&rt, rt.alloc(), FIRST_FAULTS);
}

/// Whether a byte may not stand in a line.
fn is_control(byte: u8) -> bool {
    byte < 32 && byte != b'\t' && byte != b'\n' || byte == 127
}

#[test]
fn control_bytes_are_refused(rt: HostRuntime) {
    for byte in 0..128u8 {
        let text = [b'a', b'\n', byte, b'b'];
        let refused = is_read(&rt, rt.alloc(), &text, "2 ControlByte");
        assert_number(&rt, refused == is_control(byte), i64::from(byte));
    }
}

fn lex(rt: &impl Abort, line: u32, raw: &[u8], into: &mut WordBuf) -> Result<(), LexFault> {
    let lines = line_count(raw);
    assert!(rt; lines < LINES && line as usize + lines <= LINES);
    lex_one(line, raw, into)
}

fn print_words(rt: &impl Abort, out: &mut String, words: &WordBuf) {
    let count = words.count();
    write!(out, "({count})").expect(rt, "memory");
    for index in 0..count {
        if let Some(word) = words.word(index) {
            print_word(rt, out, word);
        }
    }
}

fn read_one(rt: &impl Abort, line: u32, raw: &[u8], into: &mut WordBuf, alloc: Global) -> String {
    let mut out = String::new(alloc);
    if let Err(fault) = lex(rt, line, raw, into) {
        print_fault(rt, &mut out, fault);
    }
    print_words(rt, &mut out, into);
    out
}

/// The number of a line, the line, and what is read of it.
type OneLine = (u32, &'static [u8], &'static str);

const ONE_BY_ONE: &[OneLine] = &[
    (7, b"", "(0)"),
    (7, b"a 'b c'\\\r\nd\n", "(3)[a][b c][d]"),
    (1, b"1 2 3 4 5 6 7 8", "(8)[1][2][3][4][5][6][7][8]"),
    (
        1,
        b"1 2 3 4 5 6 7 8 \"\" 10\n",
        "(10)[1][2][3][4][5][6][7][8]",
    ),
    (7, b"'' \"\"\n", "(2)[][]"),
    (7, b"# a\\\n", "(0)"),
    (7, b" \t\r\n", "(0)"),
    (7, b"a\\", "(1)[a]"),
    (7, b"a\\\n\"b\\\nc\\\n", "7 OpenQuote(0)"),
    (7, b"a\\\nb\\\n\x01", "9 ControlByte(0)"),
    (4_294_967_294, b"a\\\n\xff", "4294967295 NotUtf8(0)"),
    (4_294_967_295, b"a\n", "(1)[a]"),
];

/// Whether this is read of the line, with a buffer that may hold another.
fn is_read_alone(rt: &impl Abort, alloc: Global, into: &mut WordBuf, row: &OneLine) -> bool {
    let (line, raw, want) = *row;
    read_one(rt, line, raw, into, alloc).as_str() == want
}

#[test]
fn lines_are_read_one_by_one(rt: HostRuntime) {
    let mut into = WordBuf::new(rt.alloc()).expect(&rt, "memory");
    assert!(rt; into.count() == 0);
    for row in ONE_BY_ONE {
        assert!(rt; is_read_alone(&rt, rt.alloc(), &mut into, row));
    }
}

/// The count of letters before and after a middle.
fn long_line(
    rt: &impl Abort,
    alloc: Global,
    before: usize,
    middle: &[u8],
    after: usize,
) -> Vec<u8> {
    let mut text = vec![in alloc; b'a'; before].expect(rt, "memory");
    text.extend_from_slice(middle).expect(rt, "memory");
    let rest = vec![in alloc; b'a'; after].expect(rt, "memory");
    text.extend_from_slice(rest.as_slice()).expect(rt, "memory");
    text
}

fn is_too_long(rt: &impl Abort, alloc: Global, text: &[u8]) -> bool {
    assert!(rt; text.len() < LINES);
    matches!(
        logical_lines(alloc, text),
        Err(LexFault::At {
            line: 1,
            cause: LexCause::LineTooLong,
        })
    )
}

/// How many letters stand before and after which middle, and whether that line is too long.
type LongLine = (usize, &'static [u8], usize, bool);

const LONG_LINES: &[LongLine] = &[
    (1_048_576, b"", 0, false),
    (1_048_577, b"", 0, true),
    (1_048_576, b"\r\n", 3, false),
    (1_048_577, b"\xff\"", 0, true),
    (1_048_576, b"\n\xff", 0, false),
    (0, b"#", 1_048_575, false),
    (0, b"#", 1_048_576, true),
    (0, b"\\\n\\\n", 1_048_574, false),
    (1_048_574, b"\\\r\n", 1, false),
    (1_048_574, b"\\\r\n", 2, true),
    (524_288, b"\\\n\\\n", 524_286, false),
    (524_288, b"\\\n\\\n", 524_287, true),
];

/// Whether such a line is refused as too long.
fn is_refused(rt: &impl Abort, alloc: Global, (before, middle, after, _): &LongLine) -> bool {
    let text = long_line(rt, alloc, *before, middle, *after);
    is_too_long(rt, alloc, text.as_slice())
}

#[test]
fn long_lines_are_refused(rt: HostRuntime) {
    for row in LONG_LINES {
        assert!(rt; is_refused(&rt, rt.alloc(), row) == row.3);
    }
}

/// Reads the longest line that isn't too long.
fn read_longest(rt: &impl Abort, alloc: Global, into: &mut WordBuf) {
    let text = long_line(rt, alloc, 1_048_574, b" b", 0);
    assert!(rt; lex(rt, 1, text.as_slice(), into).is_ok());
    assert!(rt; matches!(into.word(0), Some(word) if word.len() == 1_048_574));
    assert!(rt; into.word(1) == Some(b"b".as_slice()));
}

/// Reads the shortest line that is too long.
fn read_too_long(rt: &impl Abort, alloc: Global, into: &mut WordBuf) {
    let text = long_line(rt, alloc, 1_048_576, b" ", 0);
    let fault = LexFault::At {
        line: 7,
        cause: LexCause::LineTooLong,
    };
    assert!(rt; lex(rt, 7, text.as_slice(), into) == Err(fault));
    assert!(rt; into.count() == 0);
}

#[test]
fn the_longest_line_is_read_alone(rt: HostRuntime) {
    let mut into = WordBuf::new(rt.alloc()).expect(&rt, "memory");
    read_longest(&rt, rt.alloc(), &mut into);
    read_too_long(&rt, rt.alloc(), &mut into);
}

/// Whether this is shown of a fault.
fn is_shown(rt: &impl Abort, alloc: Global, fault: LexFault, want: &str) -> bool {
    let shown = format!(in alloc; "{fault}").expect(rt, "memory");
    shown.as_str() == want
}

#[test]
fn faults_print_their_line(rt: HostRuntime) {
    let fault = LexFault::At {
        line: 7,
        cause: LexCause::OpenQuote,
    };
    let shown =
        "line 7: A quote is opened and not closed on its line; a line goes on only when it ends in a backslash.";
    assert!(rt; is_shown(&rt, rt.alloc(), fault, shown));
    assert!(rt; is_shown(&rt, rt.alloc(), LexFault::NoMemory, "out of memory"));
}
