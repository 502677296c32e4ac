//! The lines of a text.
ghost use Rattle.std.specs.Iterator.{YieldsFirstBy, item_count};
ghost use Rattle.request.specs.Lines.{line_of, lines_of};

use crate::bytes::split_once;

/// A line without its byte 10, and whether it has one.
#[derive(Clone, Copy)]
pub(crate) struct Line<'a> {
    pub(crate) bytes: &'a [u8],
    pub(crate) ended: bool,
}

/// The lines of a text, in turn.
#[derive(Clone, Copy)]
pub(crate) struct Lines<'a> {
    pub(crate) rest: &'a [u8],
}

impl<'a> Iterator for Lines<'a> {
    type Item = Line<'a>;

    ghost next_gives = { YieldsFirstBy line_of (λ s. lines_of s.rest.now) };

    ghost remaining = { item_count (λ s. lines_of s.rest.now) };

    fn next(&mut self) -> Option<Line<'a>> {
        match split_once(self.rest, b'\n') {
            Some((bytes, rest)) => {
                self.rest = rest;
                Some(Line { bytes, ended: true })
            }
            None if self.rest.is_empty() => None,
            None => {
                let bytes = self.rest;
                self.rest = &[];
                Some(Line {
                    bytes,
                    ended: false,
                })
            }
        }
    }
}
