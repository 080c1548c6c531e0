// Worked answers.
use crate::text::sheet_text;
use std::test::Fail;

#[test]
fn a_second_row_at_place_0_is_refused(rt: HostRuntime) -> Result<(), Fail> {
    let text = sheet_text(rt.alloc(), b"mm,30,89\r\n0,0,0\r\n0,1,1\r\n")?;
    assert_eq!(rt; text.as_str(), "refused,3,surface,3,1\n");
    Ok(())
}

#[test]
fn a_deck_that_only_lifts_has_lanes_and_no_tandem(rt: HostRuntime) -> Result<(), Fail> {
    let text = sheet_text(rt.alloc(), b"mm,30\r\n0,-1\r\n5000,-1\r\n")?;
    assert_eq!(rt;
        text.as_str(),
        "kind,figure,lane1,lane2,lane3,place1,place2,place3\ncharacteristic,0,0,,,,,\nfrequent,0,0,,,,,\n"
    );
    Ok(())
}
