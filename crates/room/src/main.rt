//! A lecture room, the heads alone: a dome is sent to the lectern and follows the speaker by its
//! drive, a dome that is stalled jams, and a block zooms.

#![tactic(auto)]

use head::{Ending, Endings, Head, Look, Order, Paces, Setting, Target, Targets};
use heads::{Block, Dome};
use std::io;

// What the room's operator asks for.
const TO_THE_LECTERN: Targets = Targets::Three([
    Target {
        setting: Setting::Pan,
        value: -1200,
    },
    Target {
        setting: Setting::Tilt,
        value: 240,
    },
    Target {
        setting: Setting::Zoom,
        value: 6144,
    },
]);

fn to(setting: Setting, value: i32) -> Targets {
    Targets::One([Target { setting, value }])
}

// Starts an order and says what came of it.
fn start<H: Head>(
    rt: &impl Print,
    head: &mut H,
    slot: u8,
    targets: Targets,
    paces: Paces,
) -> io::Result<()> {
    let Some(order) = Order::new(targets, paces) else {
        return println!(rt; "  no order: it names a setting twice");
    };
    match head.start(slot, &order) {
        Ok(()) => {
            let left = head.ticks_left(slot);
            println!(rt; "  slot {slot} takes the order, ticks left: {left}")
        }
        Err(refusal) => {
            let number = refusal.number();
            println!(rt; "  slot {slot} turns the order down: {number}, {refusal}")
        }
    }
}

fn show<H: Head>(rt: &impl Print, head: &H, setting: Setting) -> io::Result<()> {
    match head.look(setting.number()) {
        Some(value) => print!(rt; "  {setting} {value}"),
        None => print!(rt; "  {setting} has no value"),
    }
}

fn show_end(rt: &impl Print, slot: u8, ending: Option<Ending>) -> io::Result<()> {
    match ending {
        Some(Ending::Done) => print!(rt; "  slot {slot} done"),
        Some(Ending::Jammed) => print!(rt; "  slot {slot} jammed"),
        None => Ok(()),
    }
}

// Ticks the head so often, and shows a few of its settings after each tick.
fn run<H: Head>(rt: &impl Print, head: &mut H, ticks: u16, shown: &[Setting]) -> io::Result<()> {
    for tick in 1..=ticks {
        let Endings { one, two } = head.tick();
        print!(rt; "  tick {tick}:")?;
        for setting in shown {
            show(rt, head, *setting)?;
        }
        show_end(rt, 1, one)?;
        show_end(rt, 2, two)?;
        println!(rt; "")?;
    }
    Ok(())
}

fn lectern(rt: &impl Print, dome: &mut Dome) -> io::Result<()> {
    println!(rt;
        "To the lectern: pan to -1200, tilt to 240 and zoom to 6144, at paces 12, 8 and 4."
    )?;
    let paces = Paces {
        lens: 4,
        pan: 12,
        tilt: 8,
    };
    start(rt, dome, 1, TO_THE_LECTERN, paces)?;
    println!(rt; "The chair wants pan too, in slot 2.")?;
    start(rt, dome, 2, to(Setting::Pan, 0), paces)?;
    println!(rt; "And a zoom past its range.")?;
    start(rt, dome, 2, to(Setting::Zoom, 0x4001), paces)?;
    let ticks = dome.ticks_left(1);
    run(
        rt,
        dome,
        ticks,
        &[Setting::Pan, Setting::Tilt, Setting::Zoom],
    )
}

fn follow(rt: &impl Print, dome: &mut Dome) -> io::Result<()> {
    let paces = Paces {
        lens: 0,
        pan: 0,
        tilt: 0,
    };
    println!(rt; "The speaker walks: pan drive to 6, and after three ticks to 0.")?;
    start(rt, dome, 1, to(Setting::PanDrive, 6), paces)?;
    run(rt, dome, 4, &[Setting::PanDrive, Setting::Pan])?;
    start(rt, dome, 1, to(Setting::PanDrive, 0), paces)?;
    run(rt, dome, 2, &[Setting::PanDrive, Setting::Pan])
}

fn jam(rt: &impl Print, dome: &mut Dome) -> io::Result<()> {
    println!(rt; "A stalled dome: pan to 400 and freeze on, at pan pace 10.")?;
    let targets = Targets::Two([
        Target {
            setting: Setting::Pan,
            value: 400,
        },
        Target {
            setting: Setting::Freeze,
            value: 2,
        },
    ]);
    let paces = Paces {
        lens: 0,
        pan: 10,
        tilt: 0,
    };
    start(rt, dome, 1, targets, paces)?;
    let ticks = dome.ticks_left(1);
    run(rt, dome, ticks, &[Setting::Pan, Setting::Freeze])
}

fn still(rt: &impl Print, block: &mut Block) -> io::Result<()> {
    println!(rt; "The block at the back has no pan and tilt, and zooms in one tick.")?;
    let paces = Paces {
        lens: 4,
        pan: 0,
        tilt: 0,
    };
    start(rt, block, 1, to(Setting::Tilt, 5), paces)?;
    start(rt, block, 1, to(Setting::Zoom, 0x4000), paces)?;
    run(rt, block, 1, &[Setting::Zoom])
}

fn main(rt: HostRuntime) -> io::Result<()> {
    let mut dome = Dome::new(false);
    lectern(&rt, &mut dome)?;
    follow(&rt, &mut dome)?;
    let mut stalled = Dome::new(true);
    jam(&rt, &mut stalled)?;
    let mut block = Block::new();
    still(&rt, &mut block)
}
