// The stations of a surface, as they are held.

ghost use Rattle.loads.specs.Held.{Places};

// The most stations that a surface has.
pub(crate) const STATIONS: usize = 64;

// The places of so many stations; those after them are 0.
// A count beside an array of fixed size: what fills it cannot fail for want of memory.
#[derive(Drop)]
pub(crate) struct Stations {
    pub count: usize,
    pub places: [u32; STATIONS],
    ghost placed: { Places count places },
}
