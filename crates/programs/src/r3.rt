//! What `r3` does for its words, for what comes over the line, and where something fails.

use crate::called::{Called, Cut, Stepping};
use serial::{Streams, run_and_tell};
use std::alloc::Global;
use std::fmt::InlineText;
use std::io::{Read, Write};
use std::process::ExitCode;
use std::test::Fail;
use std::time::Clock;

// How the program is called.
const USAGE: &str = "usage: r3 HEAD [TICK_MS [QUIET]]
  HEAD     block, dome or stalled (a dome that is stalled)
  TICK_MS  how long a tick is, in milliseconds: 1 to 60000, or 20 if it is left out
  QUIET    after how many quiet reads in a row to end; never, if it is left out
";

const NO_HEAD: &str = "r3: a head is missing\n";

const NO_SUCH_HEAD: &str = "r3: there is no such head\n";

const NO_TICK: &str = "r3: TICK_MS is a number from 1 to 60000\n";

const NO_COUNT: &str = "r3: QUIET is a number from 1 to 4294967295\n";

const TOO_MANY: &str = "r3: there is a word too many\n";

// Words that are refused, and what is told of them in front of the usage.
const REFUSED: [(&[&str], &str); 20] = [
    (&[], NO_HEAD),
    (&["moon"], NO_SUCH_HEAD),
    (&["Dome"], NO_SUCH_HEAD),
    (&["domes"], NO_SUCH_HEAD),
    (&["block "], NO_SUCH_HEAD),
    (&["moon", "0"], NO_SUCH_HEAD),
    (&["dome", "0"], NO_TICK),
    (&["dome", "60001"], NO_TICK),
    (&["dome", "65556"], NO_TICK),
    (&["dome", "4294967316"], NO_TICK),
    (&["dome", "+20"], NO_TICK),
    (&["dome", "-1"], NO_TICK),
    (&["dome", ""], NO_TICK),
    (&["dome", "0", "0"], NO_TICK),
    (&["dome", "20", "0"], NO_COUNT),
    (&["dome", "20", "+1"], NO_COUNT),
    (&["dome", "20", "4294967296"], NO_COUNT),
    (&["dome", "20", "4294967297"], NO_COUNT),
    (&["dome", "20", "1", "1"], TOO_MANY),
    (&["moon", "0", "0", "0"], TOO_MANY),
];

// An address, where pan and tilt are, and a zoom of two ticks at the usual pace.
const ASKED: &[u8] = &[
    0x88, 0x30, 0x01, 0xff, 0x81, 0x09, 0x06, 0x12, 0xff, 0x81, 0x01, 0x04, 0x47, 0x00, 0x04, 0x00,
    0x00, 0xff,
];

const ADDRESS_SET: &[u8] = &[0x88, 0x30, 0x02, 0xff];

const NOT_EXECUTABLE: &[u8] = &[0x90, 0x60, 0x41, 0xff];

const AT_REST: &[u8] = &[0x90, 0x50, 0, 0, 0, 0, 0, 0, 0, 0, 0xff];

const ACKNOWLEDGED: &[u8] = &[0x90, 0x41, 0xff];

const DONE: &[u8] = &[0x90, 0x51, 0xff];

const JAMMED: &[u8] = &[0x90, 0x61, 0x41, 0xff];

// What the program told, its status, and whether the line got just these replies, one behind the other, and nothing was
// printed.
fn called<R: Read + Drop, C: Clock + Drop>(
    heap: Global,
    words: &[&str],
    input: R,
    clock: C,
    replies: &[&[u8]],
) -> Result<(InlineText<1024>, ExitCode, bool), Fail> {
    let program = Called::new(heap, words);
    let mut line = Vec::new(heap);
    let status = run_and_tell(&program, &mut Streams::new(input, &mut line, clock));
    let mut wanted = Vec::new(heap);
    for reply in replies {
        wanted.write_all(reply)?;
    }
    let is_so = line == wanted && program.printed().as_str().is_empty();
    Ok((program.told(), status, is_so))
}

#[test]
fn wrong_words_are_told_and_nothing_is_written(rt: HostRuntime) -> Result<(), Fail> {
    for (words, what) in REFUSED {
        let (told, status, is_so) = called(rt.alloc(), words, ASKED, Stepping::new(20), &[])?;
        assert!(rt; told.as_str().starts_with(what));
        assert_eq!(rt; told.as_str().strip_prefix(what), Some(USAGE));
        assert!(rt; status == ExitCode::FAILURE);
        assert!(rt; is_so);
    }
    Ok(())
}

#[test]
fn the_word_for_a_head_makes_it(rt: HostRuntime) -> Result<(), Fail> {
    let block: &[&[u8]] = &[ADDRESS_SET, NOT_EXECUTABLE, ACKNOWLEDGED, DONE];
    let dome: &[&[u8]] = &[ADDRESS_SET, AT_REST, ACKNOWLEDGED, DONE];
    let stalled: &[&[u8]] = &[ADDRESS_SET, AT_REST, ACKNOWLEDGED, JAMMED];
    for (head, replies) in [("block", block), ("dome", dome), ("stalled", stalled)] {
        let words = [head, "20", "2"];
        let (told, status, is_so) = called(rt.alloc(), &words, ASKED, Stepping::new(20), replies)?;
        assert_eq!(rt; told.as_str(), "");
        assert!(rt; status == ExitCode::SUCCESS);
        assert!(rt; is_so, "at {head}");
    }
    Ok(())
}

#[test]
fn ticks_are_as_long_as_asked(rt: HostRuntime) -> Result<(), Fail> {
    let begun: &[&[u8]] = &[ADDRESS_SET, AT_REST, ACKNOWLEDGED];
    let done: &[&[u8]] = &[ADDRESS_SET, AT_REST, ACKNOWLEDGED, DONE];
    // By the third quiet read 80 ms have passed.
    for (length, quiet, replies) in [
        ("40", "2", begun),
        ("40", "3", done),
        ("41", "3", begun),
        ("1", "1", done),
    ] {
        let words = ["dome", length, quiet];
        let (_, status, is_so) = called(rt.alloc(), &words, ASKED, Stepping::new(20), replies)?;
        assert!(rt; status == ExitCode::SUCCESS);
        assert!(rt; is_so, "at {length}");
    }
    Ok(())
}

#[test]
fn a_line_that_has_gone_is_told(rt: HostRuntime) -> Result<(), Fail> {
    let begun: &[&[u8]] = &[ADDRESS_SET, AT_REST, ACKNOWLEDGED];
    let (told, status, is_so) = called(rt.alloc(), &["dome"], ASKED, Stepping::new(0), begun)?;
    assert_eq!(rt;
        told.as_str(),
        "r3: the line has gone: reads end at once, with nothing read\n"
    );
    assert!(rt; status == ExitCode::FAILURE);
    assert!(rt; is_so);
    Ok(())
}

#[test]
fn an_error_of_the_line_is_told(rt: HostRuntime) -> Result<(), Fail> {
    let done: &[&[u8]] = &[ADDRESS_SET, AT_REST, ACKNOWLEDGED, DONE];
    let begun: &[&[u8]] = &[ADDRESS_SET, AT_REST, ACKNOWLEDGED];
    // Without TICK_MS a tick is 20 ms.
    for (quiet, replies) in [(0, begun), (1, done)] {
        let input = Cut::new(ASKED, quiet);
        let (told, status, is_so) = called(
            rt.alloc(),
            &["dome"],
            input,
            Stepping::new(20),
            replies,
        )?;
        assert_eq!(rt; told.as_str(), "r3: the cable is cut\n");
        assert!(rt; status == ExitCode::FAILURE);
        assert!(rt; is_so, "at {quiet}");
    }
    Ok(())
}

#[test]
fn a_reply_that_does_not_fit_is_told(rt: HostRuntime) -> Result<(), Fail> {
    let program = Called::new(rt.alloc(), &["dome"]);
    let mut line = [0u8; 6];
    let status = run_and_tell(
        &program,
        &mut Streams::new(ASKED, line.as_mut_slice(), Stepping::new(20)),
    );
    assert_eq!(rt;
        program.told().as_str(),
        "r3: nothing more can be written\n"
    );
    assert!(rt; status == ExitCode::FAILURE);
    assert_eq!(rt; line, [0x88, 0x30, 0x02, 0xff, 0x90, 0x50]);
    Ok(())
}
