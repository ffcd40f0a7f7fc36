// What is written of a name whose last token is no number, in columns of steps of one byte; worked
// out by hand.
use crate::pieces::{Cursor, START, put_row, put_typed_row};

// Each column has room for the eight bytes of its start.
const SECOND: Cursor = Cursor {
    last: None,
    place: 8,
};

#[test]
fn writes_no_number(rt: HostRuntime) {
    let mut cursors = [START, SECOND];
    let mut out = [255u8; 16];
    put_row(b"7x", &[1, 2], &[4, 4], &mut cursors, &mut out);
    assert_eq!(rt;
        out,
        [7, 0, 0, 0, 0, 0, 0, 0, 120, 0, 255, 255, 255, 255, 255, 255]
    );
    assert_eq!(rt; cursors[0].last, Some(7));
    assert_eq!(rt; cursors[0].place, 8);
    assert_eq!(rt; cursors[1].last, None);
    assert_eq!(rt; cursors[1].place, 10);

    let mut typed = [START, SECOND];
    put_typed_row(b"7x", &[1, 2], &[4, 4], &mut typed, &mut out);
    assert_eq!(rt;
        out,
        [7, 0, 0, 0, 0, 0, 0, 0, 0, 0, 100, 167, 179, 182, 224, 13]
    );
    assert_eq!(rt; typed[1].last, Some(1_000_000_000_000_000_000));
    assert_eq!(rt; typed[1].place, 16);
}
