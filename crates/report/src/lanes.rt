// What owners and tandems show of lanes 1 to 3: where each begins, and where its tandem stands.
ghost use Rattle.std.specs.Prelude.{◌≡◌, ◌<◌, Some, None};
ghost use Rattle.report.specs.Shown.{place_from, StartsAt};

use model::tandems::Tandem;

// The first slice that the lane of this number owns. By number, as a rule of the project asks of the owners' list.
fn lane_start(owners: &[u8; 300], lane: u8) -> Option<u32>
    ensures { StartsAt owners.now lane result }
{
    let slice = owners.iter().position(|number| *number == lane)?;
    Some(slice as u32)
}

// The rear place of the tandem of a lane that begins there.
fn rear_place(tandems: &[Tandem; 300], start: Option<u32>) -> Option<u32>
    requires { elim start [ Some j ↦ j < 300 | None ↦ Unit {0} ] }
    ensures { result ≡ place_from tandems.now start }
{
    tandems[start? as usize].place
}

// What a line shows of a lane: its first slice and its tandem's rear place.
#[derive(Clone, Copy, PartialEq, Eq, Debug)]
pub struct ShownLane {
    pub start: Option<u32>,
    pub place: Option<u32>,
}

// Lane 1, 2 or 3 as the owners and tandems show it. Any number is taken, as ever: a lane that no slice has shows nothing.
pub fn shown_lane(owners: &[u8; 300], tandems: &[Tandem; 300], lane: u8) -> ShownLane
    ensures { (StartsAt owners.now lane result.start) × (result.place ≡ place_from tandems.now result.start) }
{
    let start = lane_start(owners, lane);
    ShownLane {
        start,
        place: rear_place(tandems, start),
    }
}
