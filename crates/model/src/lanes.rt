// The notional lanes of a carriageway by EN 1991-2, Table 4.1, and the wheels in a lane.

ghost use Rattle.std.specs.Prelude.{◌≡◌};
ghost use Rattle.model.specs.Lanes.{breadth, lanes_in, lane_slices, mirror, wheels};

// Where the carriageway lies on the deck: its first slice, and its width in decimetres.
#[derive(Clone, Copy, PartialEq, Eq, Debug)]
pub struct Carriageway {
    pub first: u32,
    pub width: u32,
}

impl Carriageway {
    // How many slices it has, each 50 mm wide.
    pub fn slices(self) -> usize
        ensures { result ≡ breadth self }
    {
        2 * self.width as usize
    }

    // How many notional lanes it has.
    pub fn lane_count(self) -> usize
        ensures { result ≡ lanes_in self.width }
    {
        if self.width < 54 {
            1
        } else if self.width < 60 {
            2
        } else {
            self.width as usize / 30
        }
    }

    // How many slices each lane has.
    pub fn lane_slices(self) -> usize
        ensures { result ≡ lane_slices self.width }
    {
        if self.width < 54 || self.width >= 60 {
            60
        } else {
            self.width as usize
        }
    }

    // How it lies on a deck of this many slices that is turned side for side.
    pub fn mirrored(self, deck: u32) -> Carriageway
        ensures { result ≡ mirror deck self }
    {
        let beyond = self.first as u64 + 2 * self.width as u64;
        let first = (deck as u64).saturating_sub(beyond) as u32;
        Carriageway {
            first,
            width: self.width,
        }
    }
}

// The slices of a lane of this many slices on which the wheels of an axle stand; a repeated one counts twice.
pub fn wheel_slices(lane: usize) -> [usize; 4]
    ensures { result ≡ wheels lane }
{
    let g = lane.saturating_sub(1) / 2;
    let h = lane / 2;
    [g.saturating_sub(20), h.saturating_sub(20), g + 20, h + 20]
}
