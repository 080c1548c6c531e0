// The sign duty: handed out by a reduction, and ended by posting the sign or withdrawing the reduction.

// Must be spent by `posted` or `withdraw`: it cannot be let go, and only a job makes one.
pub struct SignDuty {
    pub(crate) number: u32,
    pub(crate) serial: u32,
}
