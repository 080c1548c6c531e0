// The tandem of a lane, as a plain record.

ghost use Rattle.std.specs.Prelude.{◌≡◌};
ghost use Rattle.model.specs.Tandems.{no_tandem};

// 10,000 times the greatest sum under both axles, rounded up, and the rear axle's place in mm.
#[derive(Clone, Copy, PartialEq, Eq, Debug)]
pub struct Tandem {
    pub t: u64,
    pub place: Option<u32>,
}

impl Tandem {
    // No tandem stands: it counts for nothing.
    pub fn none() -> Tandem
        ensures { result ≡ no_tandem }
    {
        Tandem { t: 0, place: None }
    }
}
