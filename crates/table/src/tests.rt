// A record with a quoted number, the greatest natural number, a record that a bare CR breaks, and the line of a refusal.
use crate::cursor::Cursor;
use crate::fault::{Report, TextFault};
use std::test::Fail;

// The byte `at` of an input, in the record of this number.
fn cursor(input: &[u8], at: usize, record: u32) -> Cursor<'_> {
    Cursor { input, at, record }
}

#[test]
fn a_number_may_stand_in_quotes(rt: HostRuntime) -> Result<(), Fail> {
    let line = cursor(b"mm,\"-0\"\r\n1", 0, 1).line()?;
    assert_eq!(rt; (line.fields, line.end, line.next), (2, 7, 9));
    let second = cursor(b"mm,\"-0\"\r\n1", 3, 1).field(2)?;
    assert_eq!(rt; second.field.value::<i32>()?, 0);
    Ok(())
}

#[test]
fn a_natural_number_fits_32_bits(rt: HostRuntime) -> Result<(), Fail> {
    let greatest = cursor(b"4294967295,4294967296", 0, 1).field(1)?;
    assert_eq!(rt; greatest.field.value::<u32>()?, 4_294_967_295);
    let beyond = cursor(b"4294967295,4294967296", 11, 1).field(2)?;
    assert_eq!(rt;
        beyond.field.value::<u32>(),
        Err(TextFault::Malformed {
            record: 1,
            field: 2,
        })
    );
    Ok(())
}

#[test]
fn a_bare_return_ends_no_record(rt: HostRuntime) -> Result<(), Fail> {
    assert_eq!(rt;
        cursor(b"1,2\r3", 0, 4).line(),
        Err(TextFault::Malformed {
            record: 4,
            field: 2,
        })
    );
    Ok(())
}

#[test]
fn a_refusal_is_told_in_a_line(rt: HostRuntime) -> Result<(), Fail> {
    let fault = TextFault::Malformed {
        record: 2,
        field: 3,
    };
    let line = Report::from(fault).line(rt.alloc())?;
    assert_eq!(rt; line.as_str(), "refused,1,text,2,3\n");
    Ok(())
}
