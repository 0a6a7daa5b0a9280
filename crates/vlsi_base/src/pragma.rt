// Pragmas: comments that name something for a tool.

use crate::{Listed, Text};

/// A comment `-- pragma KEY NAME`: both words in lower case, and the line of the comment, counted from 1.
#[derive(Drop)]
pub struct Pragma {
    pub key: Text,
    pub name: Text,
    pub line: u32,
}

/// Pragmas in file order.
pub type Pragmas = Listed<Pragma>;
