//! What `explain` does where reading or printing fails; its stored run has the packets.

use crate::called::{Called, Cut};
use captures::explain_capture;
use std::test::Fail;

#[test]
fn an_error_of_reading_is_the_answer(rt: HostRuntime) -> Result<(), Fail> {
    let explain = Called::new(rt.alloc(), &[]);
    let explained = explain_capture(&explain, Cut::new(b"90 41 FF\n90 51 FF", 0));
    assert!(rt; explained.is_err());
    assert_eq!(rt;
        explain.printed().as_str(),
        "90 41 FF  from camera 1: acknowledgement, socket 1\n"
    );
    assert_eq!(rt; explain.told().as_str(), "");
    Ok(())
}

// A line of each kind.
const EACH: &str = "zoom
81
FF
81 01 00 01 FF
81 21 FF
81 09 04 47 FF
81 05 FF
88 30 01 FF
90 41 FF
98 41 FF
";

#[test]
fn an_error_of_printing_is_the_answer(rt: HostRuntime) -> Result<(), Fail> {
    // Ten lines: the bytes and what they are, but where they are none.
    for prints in 0..19 {
        let explain = Called::failing(rt.alloc(), &[], prints);
        assert!(rt;
            explain_capture(&explain, EACH.as_bytes()).is_err(),
            "at {prints}"
        );
    }
    explain_capture(&Called::failing(rt.alloc(), &[], 19), EACH.as_bytes())?;
    Ok(())
}
