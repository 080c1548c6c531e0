// One station of a line.

// A place in mm, and the ordinate there.
#[derive(Clone, Copy, Debug, Default, PartialEq, Eq)]
pub struct Station {
    pub place: i32,
    pub ordinate: i32,
}
