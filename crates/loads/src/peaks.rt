// The sum under both axles at one place.

// `sum` over `span`, with the rear axle at `place`.
#[derive(Clone, Copy, PartialEq, Eq, Debug)]
pub(crate) struct Peak {
    pub sum: i64,
    pub span: u32,
    pub place: u32,
}
