//! Cases for every act and every fault, and for the bytes and sizes at the edges.
use request::act::{Act, Request};
use request::fault::RunFault;
use request::layer::Layer;
use request::reader::{MOST_BYTES, read_text};
use std::alloc::Global;
use std::process::Abort;
use std::test::Fail;
use text::answers::{Row, table};
use text::check::check_text;
use text::input::read_input;

const NAMES: &[u8] = b"op session from to limit\n";

/// Checks the rows of the table for a text.
fn check_whole(rt: &impl Abort, alloc: Global, text: &[u8], rows: &str) -> Result<(), Fail> {
    let found = check_text(alloc, text)?;
    let expected = format!(in alloc; "line answer layer word wavelength moves\n{rows}")?;
    assert_eq!(rt; found.as_str(), expected.as_str());
    Ok(())
}

/// Checks the rows for lines that stand behind the names line.
fn check_lines(rt: &impl Abort, alloc: Global, lines: &[u8], rows: &str) -> Result<(), Fail> {
    let mut text = Vec::from_slice(alloc, NAMES)?;
    text.extend_from_slice(lines)?;
    check_whole(rt, alloc, text.as_slice(), rows)
}

/// A text whose only request has a number of `count` bytes `digit` with `last` behind them.
fn long_number(alloc: Global, digit: u8, count: usize, last: &[u8]) -> Result<Vec<u8>, Fail> {
    let mut text = Vec::from_slice(alloc, NAMES)?;
    text.extend_from_slice(b"find ")?;
    let digits = vec![in alloc; digit; count]?;
    text.extend_from_slice(digits.as_slice())?;
    text.extend_from_slice(last)?;
    text.extend_from_slice(b" - - -\n")?;
    Ok(text)
}

/// What the first line behind the names line reads as.
fn first_outcome(
    rt: &impl Abort,
    alloc: Global,
    text: &[u8],
) -> Result<Result<Request, RunFault>, Fail> {
    let entries = read_text(alloc, text)?;
    assert!(rt; entries.len() > 0);
    Ok(entries[0].outcome)
}

const WHOLE: [(&[u8], &str); 7] = [
    (b"", "1 72 text - - -\n"),
    (b"op session from to limit", "1 72 text - - -\n"),
    (
        b"op session from to limit\r\nadd 1 2 3 4\n",
        "1 72 text - - -\n",
    ),
    (
        b"op session from to limit \nadd 1 2 3 4\n",
        "1 72 text - - -\n",
    ),
    (b"add 1 2 3 4\n", "1 72 text - - -\n"),
    (b"\nop session from to limit\n", "1 72 text - - -\n"),
    (b"op session from to limit\n", ""),
];

const LINES: [(&[u8], &str); 31] = [
    (b"add 1 2 3 4\n", "2 0 - - - -\n"),
    (b"drop 1 - - -\n", "2 0 - - - -\n"),
    (b"quote 1 2 3 -\n", "2 0 - - - -\n"),
    (b"find 1 - - -\n", "2 0 - - - -\n"),
    (b"add 1 2 3 4", "2 73 line - - -\n"),
    (b" ", "2 73 line - - -\n"),
    (b"\n", "2 74 line - - -\n"),
    (b" \n", "2 74 line - - -\n"),
    (b"add 1 2 3\n", "2 74 line - - -\n"),
    (b"add 1 2 3 4 5\n", "2 74 line - - -\n"),
    (b"add 1  2 3 4\n", "2 74 line - - -\n"),
    (b" add 1 2 3 4\n", "2 74 line - - -\n"),
    (b"add 1 2 3 4 \n", "2 74 line - - -\n"),
    (b"add\t1 2 3 4\n", "2 74 line - - -\n"),
    (b"Add 1 2 3 4\n", "2 75 line 1 - -\n"),
    (b"ad\0 1 2 3 4\n", "2 75 line 1 - -\n"),
    (b"- - - - -\n", "2 75 line 1 - -\n"),
    (b"find - - - -\n", "2 76 line 2 - -\n"),
    (b"add x - 0 3\n", "2 76 line 3 - -\n"),
    (b"drop 1 2 3 4\n", "2 76 line 3 - -\n"),
    (b"quote 1 2 - -\n", "2 76 line 4 - -\n"),
    (b"drop 1 - - -\r\n", "2 76 line 5 - -\n"),
    (b"quote 1 2 3 4\n", "2 76 line 5 - -\n"),
    (b"add 4294967296 x 1 3\n", "2 82 number 2 - -\n"),
    (b"add 1 -- 2 3\n", "2 81 number 3 - -\n"),
    (b"add 1 2 -1 3\n", "2 81 number 4 - -\n"),
    (b"add 1 2 3 4\t\n", "2 81 number 5 - -\n"),
    (b"add 1 2 3 4\0\n", "2 81 number 5 - -\n"),
    (b"add \xff1 2 3 4\n", "2 81 number 2 - -\n"),
    (b"add 1 2 3 4294967295\n", "2 0 - - - -\n"),
    (
        b"mul\nadd 0 0 0 0\n\n ",
        "2 74 line - - -\n3 0 - - - -\n4 74 line - - -\n5 73 line - - -\n",
    ),
];

#[test]
fn whole_texts(rt: HostRuntime) -> Result<(), Fail> {
    for (text, rows) in WHOLE {
        check_whole(&rt, rt.alloc(), text, rows)?;
    }
    Ok(())
}

#[test]
fn single_lines(rt: HostRuntime) -> Result<(), Fail> {
    for (lines, rows) in LINES {
        check_lines(&rt, rt.alloc(), lines, rows)?;
    }
    Ok(())
}

#[test]
fn long_numbers(rt: HostRuntime) -> Result<(), Fail> {
    let alloc = rt.alloc();
    let nines = long_number(alloc, b'9', 60_000, b"")?;
    check_whole(&rt, alloc, nines.as_slice(), "2 82 number 2 - -\n")?;
    let stray = long_number(alloc, b'9', 60_000, b"x")?;
    check_whole(&rt, alloc, stray.as_slice(), "2 81 number 2 - -\n")?;
    let zeros = long_number(alloc, b'0', 60_000, b"7")?;
    let act = Act::Find { session: 7 };
    assert_eq!(rt;
        first_outcome(&rt, alloc, zeros.as_slice())?,
        Ok(Request { line: 2, act })
    );
    Ok(())
}

#[test]
fn largest_text(rt: HostRuntime) -> Result<(), Fail> {
    let alloc = rt.alloc();
    let fits = long_number(alloc, b'0', 65_498, b"7")?;
    assert!(rt; fits.len() == MOST_BYTES);
    check_whole(&rt, alloc, fits.as_slice(), "2 0 - - - -\n")?;
    let past = long_number(alloc, b'0', 65_499, b"7")?;
    check_whole(&rt, alloc, past.as_slice(), "1 71 text - - -\n")
}

#[test]
fn input_ends_or_stops(rt: HostRuntime) -> Result<(), Fail> {
    let alloc = rt.alloc();
    let text = long_number(alloc, b'1', 9_000, b"")?;
    let mut source: &[u8] = text.as_slice();
    let whole = read_input(alloc, &mut source)?;
    assert!(rt; whole.as_slice() == text.as_slice());
    let more = vec![in alloc; b'1'; 70_000]?;
    let mut source: &[u8] = more.as_slice();
    let front = read_input(alloc, &mut source)?;
    assert!(rt; front.len() == MOST_BYTES + 1);
    assert!(rt; source.len() == 70_000 - (MOST_BYTES + 1));
    Ok(())
}

#[test]
fn numbers_in_order(rt: HostRuntime) -> Result<(), Fail> {
    let alloc = rt.alloc();
    let add = first_outcome(&rt, alloc, b"op session from to limit\nadd 01 2 003 4\n")?;
    let act = Act::Add {
        session: 1,
        from: 2,
        to: 3,
        limit: 4,
    };
    assert_eq!(rt; add, Ok(Request { line: 2, act }));
    let quote = first_outcome(&rt, alloc, b"op session from to limit\nquote 5 6 7 -\n")?;
    let act = Act::Quote {
        session: 5,
        from: 6,
        to: 7,
    };
    assert_eq!(rt; quote, Ok(Request { line: 2, act }));
    Ok(())
}

#[test]
fn answered_rows(rt: HostRuntime) -> Result<(), Fail> {
    let alloc = rt.alloc();
    let taken = Row {
        line: 2,
        answer: 0,
        layer: None,
        word: None,
        wavelength: Some(0),
        moves: Some(12),
    };
    let refused = Row {
        line: 3,
        answer: 41,
        layer: Some(Layer::Session),
        word: None,
        wavelength: None,
        moves: None,
    };
    let found = table(alloc, &[taken, refused])?;
    assert_eq!(rt;
        found.as_str(),
        "line answer layer word wavelength moves\n2 0 - - 0 12\n3 41 session - - -\n"
    );
    Ok(())
}
