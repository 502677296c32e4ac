//! Does a wavelength table exist? Decided by backtracking, from fibres alone.
use network::layout::Layout;
use reckoning::session::Session;
use std::alloc::{AllocError, Global};

/// A session by its two sites.
#[derive(Clone, Copy, PartialEq, Eq, PartialOrd, Ord)]
pub(crate) struct Ends {
    pub(crate) source: u8,
    pub(crate) destination: u8,
}

impl From<Session> for Ends {
    fn from(s: Session) -> Ends {
        Ends {
            source: s.source,
            destination: s.destination,
        }
    }
}

/// Sessions, each with its wavelength.
pub(crate) type Table = Vec<(u8, Ends)>;

/// Do the two light a common fibre?
pub(crate) fn meet<L: Layout>(layout: &L, a: Ends, b: Ends) -> bool {
    (0..layout.fibres()).any(|f| {
        layout.lights(a.source, a.destination, f) && layout.lights(b.source, b.destination, f)
    })
}

// Tries each wavelength for the first that waits, and all that follow from it.
fn place<L: Layout>(
    layout: &L,
    waves: u8,
    table: &mut Table,
    waiting: &[Ends],
) -> Result<bool, AllocError> {
    let Some((next, rest)) = waiting.split_first() else {
        return Ok(true);
    };
    for w in 0..waves {
        if table
            .iter()
            .all(|(v, other)| *v != w || !meet(layout, *other, *next))
        {
            table.push((w, *next))?;
            if place(layout, waves, table, rest)? {
                return Ok(true);
            }
            table.pop();
        }
    }
    Ok(false)
}

/// Is there a wavelength below `waves` for each of the sessions, so that two that light a common fibre differ?
pub(crate) fn table_exists<L: Layout>(
    alloc: Global,
    layout: &L,
    sessions: &[Ends],
    waves: u8,
) -> Result<bool, AllocError> {
    let mut table = Vec::with_capacity(alloc, sessions.len())?;
    place(layout, waves, &mut table, sessions)
}
