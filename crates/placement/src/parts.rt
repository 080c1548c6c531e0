// Where the worths of a carriageway's parts come from.

ghost use Rattle.std.specs.Prelude.{◌≡◌, ◌+◌, ◌≤◌};
ghost use Rattle.placing.specs.Placing.{Road, width};

use model::owners::Owner;

// A carriageway by what its parts are worth. A part is one lane, or one remaining slice.
pub trait Parts<W> {
    ghost road: { Self → Road W };

    // How many slices the carriageway has.
    fn slices(&self) -> usize
        ensures { result ≡ (road self.now).slices };

    // How many slices a lane has.
    fn lane(&self) -> usize
        ensures { result ≡ (road self.now).lane };

    // What the part of an owner is worth that begins at slice `at`.
    fn part(&self, owner: Owner, at: usize) -> W
        requires { at + width (road self.now).lane owner ≤ (road self.now).slices }
        ensures { result ≡ (road self.now).part owner at };
}

// The owners, in the order that decides between placements of one worth.
pub const OWNERS: [Owner; 5] = [
    Owner::Remaining,
    Owner::Lane1,
    Owner::Lane2,
    Owner::Lane3,
    Owner::Other,
];

// How many slices a part of an owner has.
pub fn width_of(lane: usize, owner: Owner) -> usize
    ensures { result ≡ width lane owner }
{
    match owner {
        Owner::Remaining => 1,
        _ => lane,
    }
}
