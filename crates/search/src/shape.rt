//! A small star or splitter by its lists, and the number of wavelengths of its plant.

#[derive(Clone, Copy)]
pub(crate) struct Shape<'a> {
    /// How many ports each site has.
    pub(crate) ports: &'a [u8],
    pub(crate) form: Form<'a>,
    pub(crate) waves: u8,
}

#[derive(Clone, Copy)]
pub(crate) enum Form<'a> {
    Star,
    /// The branch of each site.
    Splitter { entries: &'a [u8], branches: u8 },
}

impl<'a> Shape<'a> {
    pub(crate) fn sites(&self) -> u8 {
        u8::try_from(self.ports.len()).unwrap_or(u8::MAX)
    }

    pub(crate) fn ports_of(&self, site: u8) -> u8 {
        self.ports.get(usize::from(site)).copied().unwrap_or(0)
    }
}
