use sequence::Text;

/// A file: bytes under a name.
#[derive(Drop, Debug)]
pub struct Entry {
    pub name: Text,
    pub bytes: Text,
}
