//! A request, read from its line.
ghost use Rattle.request.specs.Lines.{line_of, read_line};
ghost use Rattle.request.specs.Requests.{act_of, dash_at, dashes, no_limit, no_sites, verb_of};
ghost use Rattle.request.specs.Words.{five_of};
ghost use Rattle.std.specs.Prelude.{◌≡◌};

use crate::fault::LineFault;
use crate::lines::Line;
use crate::number::read_number;
use crate::words::{Words, split_words};

/// What a request asks for.
#[derive(Clone, Copy, PartialEq, Eq, Debug)]
pub enum Act {
    Add {
        session: u32,
        from: u32,
        to: u32,
        limit: u32,
    },
    Drop {
        session: u32,
    },
    Quote {
        session: u32,
        from: u32,
        to: u32,
    },
    Find {
        session: u32,
    },
}

/// A request, with the number of its line.
#[derive(Clone, Copy, PartialEq, Eq, Debug)]
pub struct Request {
    pub line: u32,
    pub act: Act,
}

/// The acts by name alone.
#[derive(Clone, Copy)]
enum Verb {
    Add,
    Drop,
    Quote,
    Find,
}

impl Verb {
    fn no_sites(self) -> bool
        ensures { result ≡ no_sites self }
    {
        matches!(self, Verb::Drop | Verb::Find)
    }

    fn no_limit(self) -> bool
        ensures { result ≡ no_limit self }
    {
        !matches!(self, Verb::Add)
    }
}

fn read_verb(word: &[u8]) -> Result<Verb, LineFault>
    ensures { result ≡ verb_of word.now }
{
    match word {
        b"add" => Ok(Verb::Add),
        b"drop" => Ok(Verb::Drop),
        b"quote" => Ok(Verb::Quote),
        b"find" => Ok(Verb::Find),
        _ => Err(LineFault::UnknownAct),
    }
}

/// Whether word `word` is `-` where it should be, and only there.
fn check_dash(word: u32, bytes: &[u8], dash: bool) -> Result<(), LineFault>
    ensures { result ≡ dash_at word bytes.now dash }
{
    if matches!(bytes, b"-") == dash {
        Ok(())
    } else {
        Err(LineFault::Dash { word })
    }
}

fn check_dashes(verb: Verb, words: Words) -> Result<(), LineFault>
    ensures { result ≡ dashes verb (five_of words.entry) }
{
    check_dash(2, words.session, false)?;
    check_dash(3, words.from, verb.no_sites())?;
    check_dash(4, words.to, verb.no_sites())?;
    check_dash(5, words.limit, verb.no_limit())
}

fn read_act(verb: Verb, words: Words) -> Result<Act, LineFault>
    ensures { result ≡ act_of verb (five_of words.entry) }
{
    let session = read_number(2, words.session)?;
    match verb {
        Verb::Add => {
            let from = read_number(3, words.from)?;
            let to = read_number(4, words.to)?;
            let limit = read_number(5, words.limit)?;
            Ok(Act::Add {
                session,
                from,
                to,
                limit,
            })
        }
        Verb::Drop => Ok(Act::Drop { session }),
        Verb::Quote => {
            let from = read_number(3, words.from)?;
            let to = read_number(4, words.to)?;
            Ok(Act::Quote { session, from, to })
        }
        Verb::Find => Ok(Act::Find { session }),
    }
}

/// The request of a line.
pub(crate) fn read_line(number: u32, line: Line) -> Result<Request, LineFault>
    ensures { result ≡ read_line number (line_of line.entry) }
{
    if !line.ended {
        return Err(LineFault::Unended);
    }
    let words = split_words(line.bytes)?;
    let verb = read_verb(words.act)?;
    check_dashes(verb, words)?;
    let act = read_act(verb, words)?;
    Ok(Request { line: number, act })
}
