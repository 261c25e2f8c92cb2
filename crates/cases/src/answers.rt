//! What inquiries are answered by a fresh dome and a fresh block, and into a buffer that is short.

use heads::{Block, Dome};
use rows::{Inquiry, answer, read_inquiry};
use std::test::Fail;

// Category and code, and the bytes of the answer.
const ANSWERS: [([u8; 2], &[u8]); 7] = [
    ([0x04, 0x00], &[0x90, 0x50, 0x02, 0xff]),
    ([0x04, 0x38], &[0x90, 0x50, 0x02, 0xff]),
    ([0x04, 0x75], &[0x90, 0x50, 0x03, 0xff]),
    ([0x04, 0x43], &[0x90, 0x50, 0, 0, 0, 0, 0xff]),
    ([0x04, 0x47], &[0x90, 0x50, 0, 0, 0, 0, 0xff]),
    ([0x04, 0x22], &[0x90, 0x50, 0, 0, 0, 0, 0xff]),
    ([0x06, 0x12], &[0x90, 0x50, 0, 0, 0, 0, 0, 0, 0, 0, 0xff]),
];

fn asked(body: &[u8]) -> Result<Inquiry, Fail> {
    let (_, inquiry) = read_inquiry(body).ok().ok_or("no such inquiry")?;
    Ok(inquiry)
}

#[test]
fn a_dome_answers(rt: HostRuntime) -> Result<(), Fail> {
    let dome = Dome::new(false);
    for (body, bytes) in ANSWERS {
        let mut out = [7; 12];
        let count = answer(&dome, asked(&body)?, 0x90, &mut out);
        assert_eq!(rt; count, Some(bytes.len()));
        assert!(rt; out.starts_with(bytes));
        assert!(rt; out.iter().skip(bytes.len()).all(|byte| *byte == 7));
    }
    Ok(())
}

#[test]
fn a_block_has_no_pan_and_tilt(rt: HostRuntime) -> Result<(), Fail> {
    let block = Block::new();
    let mut out = [7; 6];
    assert_eq!(rt;
        answer(&block, asked(&[0x06, 0x12])?, 0xa0, &mut out),
        Some(4)
    );
    assert_eq!(rt; out, [0xa0, 0x60, 0x41, 0xff, 7, 7]);
    let mut short = [7; 3];
    assert_eq!(rt;
        answer(&block, asked(&[0x06, 0x12])?, 0xa0, &mut short),
        None
    );
    assert_eq!(rt; short, [7, 7, 7]);
    Ok(())
}
