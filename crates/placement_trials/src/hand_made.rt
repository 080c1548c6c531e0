// Parts whose worths are written by hand, a row for each slice at which a part may begin.

ghost use Rattle.std.specs.Prelude.{◌≤◌, length};

#[derive(Clone, Copy)]
pub struct Row {
    pub remaining: u64,
    pub lane1: u64,
    pub lane2: u64,
    pub lane3: u64,
    pub other: u64,
}

#[derive(Drop)]
pub struct HandMade<'a> {
    pub lane: usize,
    pub rows: &'a [Row],
    ghost wide: { 1 ≤ lane },
    ghost narrow: { lane ≤ 60 },
    ghost few: { length rows.now ≤ 300 },
}
