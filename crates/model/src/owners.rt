// Who owns a slice of the carriageway: the remaining area, one of lanes 1 to 3, or another lane.

ghost use Rattle.std.specs.Prelude.{◌≡◌, min};
ghost use Rattle.model.specs.Owners.{number_of};

#[derive(Clone, Copy, PartialEq, Eq, Debug)]
pub enum Owner {
    Remaining,
    Lane1,
    Lane2,
    Lane3,
    Other,
}

// 0 for the remaining area, 1 to 3 for the lane of that number, 4 for any other lane.
impl From<Owner> for u8 {
    ghost from_gives = { λ o n. n ≡ number_of o };

    fn from(owner: Owner) -> u8 {
        match owner {
            Owner::Remaining => 0,
            Owner::Lane1 => 1,
            Owner::Lane2 => 2,
            Owner::Lane3 => 3,
            Owner::Other => 4,
        }
    }
}

impl Owner {
    // The owner that the lane of this number is; 0 stands for the remaining area.
    // No From: every lane from 4 up gives the same owner.
    pub fn of_lane(lane: usize) -> Owner
        ensures { number_of result ≡ min lane 4 }
    {
        match lane {
            0 => Owner::Remaining,
            1 => Owner::Lane1,
            2 => Owner::Lane2,
            3 => Owner::Lane3,
            _ => Owner::Other,
        }
    }
}
