// Worked facts of the measured surface.
use crate::measured::{Draft, Measured};
use crate::row::Row;
use std::test::Fail;
use surface::Surface;
use surface::fault::SurfaceFault;

// Two stations with the ordinates 0 and -1 at the paths 30 and 89.
fn sloped(rows: &mut [Row]) -> Result<Draft, SurfaceFault> {
    let mut draft = Draft::new(120, &[30, 89])?;
    draft.station(rows, 0, &[0, -1])?;
    draft.station(rows, 1000, &[0, -1])?;
    Ok(draft)
}

// The ordinate of a slice at the first station, once the draft is sealed over its rows.
fn first_ordinate(draft: Draft, rows: &[Row], slice: usize) -> Result<i32, SurfaceFault> {
    let mut surface = Measured::level();
    match draft.seal(rows, &mut surface) {
        Ok(()) => surface.ordinate(slice, 0),
        Err(back) => Err(back.1),
    }
}

#[test]
fn ordinates_are_rounded_down(rt: HostRuntime) -> Result<(), Fail> {
    let mut rows = [Row::BLANK; 64];
    let draft = sloped(&mut rows)?;
    assert_eq!(rt; first_ordinate(draft, &rows, 31), Ok(-1));
    Ok(())
}
