//! Scripts on a block and on a dome, and where reading or printing fails; the bench's stored run has a dome that is
//! stalled.

use crate::called::{Called, Cut};
use scripts::play_script;
use std::test::Fail;

const BLOCK: &str = "head block
send 88 30 01 FF
send 81 09 06 12 FF
send 81 01 04 47 01 00 00 00 FF
slots
tick
look 1
";

const OF_BLOCK: &str = "made
sent 88 30 02 FF
sent 90 60 41 FF
sent 90 41 FF
slots 1 0
sent 90 51 FF
setting 1 is 4096
";

const DOME: &str = "head dome
send 88 30 01 FF
send 81 09 06 12 FF
send 81 01 04 47 01 00 00 00 FF
slots
tick 7
look 1
tick
look 1
";

const OF_DOME: &str = "made
sent 88 30 02 FF
sent 90 50 00 00 00 00 00 00 00 00 FF
sent 90 41 FF
slots 8 0
sent nothing
setting 1 is 3584
sent 90 51 FF
setting 1 is 4096
";

#[test]
fn the_words_for_a_head_make_it(rt: HostRuntime) -> Result<(), Fail> {
    for (script, written) in [(BLOCK, OF_BLOCK), (DOME, OF_DOME)] {
        let bench = Called::new(rt.alloc(), &[]);
        play_script(&bench, script.as_bytes())?;
        assert_eq!(rt; bench.printed().as_str(), written);
        assert_eq!(rt; bench.told().as_str(), "");
    }
    Ok(())
}

#[test]
fn an_error_of_reading_is_the_answer(rt: HostRuntime) -> Result<(), Fail> {
    let bench = Called::new(rt.alloc(), &[]);
    let played = play_script(&bench, Cut::new(b"head block\nopen\nslots", 0));
    assert!(rt; played.is_err());
    assert_eq!(rt; bench.printed().as_str(), "made\nopen none\n");
    assert_eq!(rt; bench.told().as_str(), "");
    Ok(())
}

// A line of each kind, and one that is not understood, before the head and behind it.
const EACH: &str = "moon
open
head block
moon
head dome
send FF
byte FF
tick
tick 2 15
open
look 1
look 22
slots
take-off
";

#[test]
fn an_error_of_printing_is_the_answer(rt: HostRuntime) -> Result<(), Fail> {
    // Fourteen lines, of which one has two answers.
    for prints in 0..15 {
        let bench = Called::failing(rt.alloc(), &[], prints);
        assert!(rt;
            play_script(&bench, EACH.as_bytes()).is_err(),
            "at {prints}"
        );
    }
    play_script(&Called::failing(rt.alloc(), &[], 15), EACH.as_bytes())?;
    Ok(())
}
