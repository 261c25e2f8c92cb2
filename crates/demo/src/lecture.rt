//! The lecture as a table: what is said of it, what the joystick sends, and how long the room then
//! waits or watches.

use Step::{Say, Send, Wait, Watch};

/// A step of the lecture.
#[derive(Clone, Copy, Debug, PartialEq, Eq)]
pub enum Step {
    Say(&'static str),
    /// A packet from the joystick, and what it asks for.
    Send(&'static [u8], &'static str),
    /// So many ticks.
    Wait(u32),
    /// So many ticks, and then where the camera looks.
    Watch(u32),
}

/// In the room.
pub const LECTURE: &[Step] = &[
    Say("The joystick hands out addresses."),
    Send(
        &[0x88, 0x30, 0x01, 0xff],
        "address 1 is for the first camera",
    ),
    Say("The lecture begins: to the lectern, and closer. The two orders run side by side."),
    Send(
        &[
            0x81, 0x01, 0x06, 0x02, 0x0c, 0x08, 0x0f, 0x0b, 0x05, 0x00, 0x00, 0x00, 0x0f, 0x00,
            0xff,
        ],
        "pan to -1200, tilt to 240",
    ),
    Send(
        &[0x81, 0x01, 0x04, 0x47, 0x00, 0x0a, 0x00, 0x00, 0xff],
        "zoom to 2560",
    ),
    Watch(4),
    Watch(3),
    Say("The packet that our earlier box took for another position: its first digit is a speed."),
    Send(
        &[0x81, 0x01, 0x04, 0x47, 0x02, 0x01, 0x00, 0x00, 0x00, 0xff],
        "zoom to 4096 with speed 2, which is lens pace 3",
    ),
    Watch(2),
    Wait(2),
    Send(&[0x81, 0x09, 0x04, 0x47, 0xff], "where is the zoom?"),
    Say("The speaker walks, and the camera follows until it is told to stop."),
    Send(
        &[0x81, 0x01, 0x06, 0x01, 0x06, 0x01, 0x02, 0x03, 0xff],
        "pan drive to 6, to the right",
    ),
    Watch(4),
    Send(
        &[0x81, 0x01, 0x06, 0x01, 0x06, 0x01, 0x03, 0x03, 0xff],
        "pan and tilt drive to 0: stop",
    ),
    Watch(5),
    Say("The operator has a second thought: all the way in - no, stop."),
    Send(
        &[0x81, 0x01, 0x04, 0x47, 0x04, 0x00, 0x00, 0x00, 0xff],
        "zoom to 16384",
    ),
    Watch(3),
    Send(&[0x81, 0x01, 0x04, 0x07, 0x00, 0xff], "zoom stop"),
    Watch(2),
    Say("And another: home - no, cancel that."),
    Send(&[0x81, 0x01, 0x06, 0x04, 0xff], "home"),
    Wait(1),
    Send(&[0x81, 0x21, 0xff], "cancel socket 1"),
    Watch(2),
    Say("A break: with the power off, only a power command is heard."),
    Send(&[0x81, 0x01, 0x04, 0x00, 0x03, 0xff], "power off"),
    Wait(1),
    Send(&[0x81, 0x01, 0x04, 0x07, 0x02, 0xff], "zoom in"),
    Send(&[0x81, 0x01, 0x04, 0x00, 0x02, 0xff], "power on"),
    Wait(1),
];

/// Next door, where the dome is stalled.
pub const NEXT_DOOR: &[Step] = &[
    Say("Next door the dome is stalled. It never moves, and the box says so in the end."),
    Send(
        &[0x88, 0x30, 0x01, 0xff],
        "address 1 is for the first camera",
    ),
    Send(
        &[0x81, 0x01, 0x04, 0x47, 0x01, 0x00, 0x00, 0x00, 0xff],
        "zoom to 4096",
    ),
    Watch(7),
    Watch(1),
];
