//! Texts served on the star of four sites: what each is answered with, and which sessions stand at the end.
use std::alloc::Global;
use std::process::Abort;
use std::test::Fail;
use text::star::star_text;

const NAMES: &[u8] = b"op session from to limit\n";

/// Checks the rows of the table and the lines of the list for a whole text.
fn check_served(
    rt: &impl Abort,
    alloc: Global,
    text: &[u8],
    rows: &str,
    list: &str,
) -> Result<(), Fail> {
    let found = star_text(alloc, text)?;
    let expected = format!(in alloc;
        "line answer layer word wavelength moves\n{rows}session from to wavelength\n{list}"
    )?;
    assert_eq!(rt; found.as_str(), expected.as_str());
    Ok(())
}

/// Checks what stands behind the names line.
fn check_lines(
    rt: &impl Abort,
    alloc: Global,
    lines: &[u8],
    rows: &str,
    list: &str,
) -> Result<(), Fail> {
    let mut text = Vec::from_slice(alloc, NAMES)?;
    text.extend_from_slice(lines)?;
    check_served(rt, alloc, text.as_slice(), rows, list)
}

#[test]
fn nothing_served(rt: HostRuntime) -> Result<(), Fail> {
    let alloc = rt.alloc();
    check_served(&rt, alloc, b"", "1 72 text - - -\n", "")?;
    check_served(&rt, alloc, b"add 1 0 1 3\n", "1 72 text - - -\n", "")?;
    check_served(&rt, alloc, NAMES, "", "")?;
    let long = vec![in alloc; b'1'; 65_537]?;
    check_served(&rt, alloc, long.as_slice(), "1 71 text - - -\n", "")
}

#[test]
fn faults_between(rt: HostRuntime) -> Result<(), Fail> {
    let alloc = rt.alloc();
    check_lines(
        &rt,
        alloc,
        b"add 1 0 1 3\nadd 2 1  2 3\nfind 1 - - -\n",
        "2 0 - - 0 0\n3 74 line - - -\n4 0 - - 0 0\n",
        "1 0 1 0\n",
    )?;
    check_lines(
        &rt,
        alloc,
        b"add 4294967295 3 0 0\nadd 2 0 1 3",
        "2 0 - - 0 0\n3 73 line - - -\n",
        "4294967295 3 0 0\n",
    )
}

#[test]
fn numbers_refused(rt: HostRuntime) -> Result<(), Fail> {
    let alloc = rt.alloc();
    check_lines(
        &rt,
        alloc,
        b"find 9 - - -\ndrop 9 - - -\nfind 0 - - -\nadd 0 0 1 3\n",
        "2 15 session - - -\n3 15 session - - -\n4 11 session - - -\n5 11 session - - -\n",
        "",
    )?;
    check_lines(
        &rt,
        alloc,
        b"add 1 0 4 3\nquote 1 2 2 -\nadd 1 2 3 0\nquote 1 0 1 -\n",
        "2 12 session - - -\n3 13 session - - -\n4 0 - - 0 0\n5 14 session - - -\n",
        "1 2 3 0\n",
    )
}

#[test]
fn listed_in_order(rt: HostRuntime) -> Result<(), Fail> {
    check_lines(
        &rt,
        rt.alloc(),
        b"add 7 2 3 0\nadd 5 2 1 0\nadd 9 0 1 0\ndrop 7 - - -\nadd 3 1 0 0\n",
        "2 0 - - 0 0\n3 0 - - 1 0\n4 0 - - 0 0\n5 0 - - 0 0\n6 0 - - 0 0\n",
        "9 0 1 0\n3 1 0 0\n5 2 1 1\n",
    )
}
