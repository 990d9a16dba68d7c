use sequence::Text;

/// What a file is started for.
#[derive(Clone, Copy, Debug, PartialEq, Eq)]
pub enum Purpose {
    Reading,
    Writing,
}

/// A file that was asked for.
#[derive(Drop, Debug)]
pub struct Start {
    pub name: Text,
    pub purpose: Purpose,
}
