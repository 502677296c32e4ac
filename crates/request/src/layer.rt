//! The layers that may refuse a request.
ghost use Rattle.std.specs.Prelude.{Some};
ghost use Rattle.request.specs.Faults.{layer_bytes};

use std::fmt;

/// The part that gives an answer other than 0.
#[derive(Clone, Copy, PartialEq, Eq, Debug)]
pub enum Layer {
    Text,
    Line,
    Number,
    Session,
}

impl fmt::Display for Layer {
    ghost output = { λ x. Some (layer_bytes x) };

    fn fmt<W: fmt::Write>(&self, f: &mut fmt::Formatter<W>) -> fmt::Result {
        f.write_str(match self {
            Layer::Text => "text",
            Layer::Line => "line",
            Layer::Number => "number",
            Layer::Session => "session",
        })
    }
}
