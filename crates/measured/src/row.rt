// One row of a measured surface.

// A station: its place in mm, and its ordinate at each path.
// Of fixed size: rows are lent, and a surface takes no memory.
#[derive(Clone, Copy, Debug, PartialEq, Eq)]
pub struct Row {
    pub place: u32,
    pub ordinates: [i32; 8],
}

impl Row {
    // A row that nothing was written in.
    pub const BLANK: Row = Row {
        place: 0,
        ordinates: [0; 8],
    };
}
