//! Calls made with little around them, for a clock outside.

ghost use Rattle.std.specs.Prelude.{◌≡◌, List, map};
ghost use Rattle.end.specs.declared.call.Call.TheVariants.{Tick as Ticks};
ghost use Rattle.end.specs.Records.{Record};
ghost use Rattle.heads.specs.declared.any.HeadKind.TheVariants.{Block as Blocks};
ghost use Rattle.end_c.specs.Asked.{asked_in_full, call_of, dome_kind, kind_numbered};
ghost use Rattle.end_c.specs.Calls.{AskedRun, CallCounted};
ghost use Rattle.end_c.specs.Played.{IsSum};
ghost use Rattle.end_c.specs.Sums.{sum_of};

use crate::kinds::kind;
use end::{End, bytes_sent};
use head::Head;
use heads::{Block, Dome, HeadKind};

// A tick, kept apart from the loop so that a profile tells ticks from bytes.
#[inline(never)]
fn tick<H: Head>(end: &mut End<H>, buffer: &mut [u8; 16]) -> usize
    ensures { CallCounted Ticks end.old buffer.old buffer.new result end.new }
{
    bytes_sent(end.tick(buffer))
}

#[inline(always)]
fn call<H: Head>(end: &mut End<H>, number: u16, buffer: &mut [u8; 16]) -> usize
    ensures { CallCounted (call_of number) end.old buffer.old buffer.new result end.new }
{
    // The numbers of `Asked`, read here since a clock sees every step.
    let asked = number % 512;
    if asked < 256 {
        bytes_sent(end.byte(asked as u8, buffer))
    } else if asked == 256 {
        tick(end, buffer)
    } else {
        usize::from(end.open().one)
    }
}

fn play<H: Head>(head: H, calls: &[u16]) -> (End<H>, u64)
    ensures { (run : List Record) × AskedRun head (map asked_in_full calls.now) run result.0
        × (result.1 ≡ sum_of run) }
{
    let mut end = End::make(head);
    let mut buffer = [0; 16];
    let mut sum: u64 = 0;
    for number in calls {
        let count = call(&mut end, *number, &mut buffer);
        sum = sum
            .wrapping_mul(31)
            .wrapping_add(count as u64)
            .wrapping_add(u64::from(buffer[1]));
    }
    (end, sum)
}

fn time_block(calls: &[u16]) -> u64
    ensures { IsSum Blocks calls.now result }
{
    play(Block::new(), calls).1
}

fn time_dome(stalled: bool, calls: &[u16]) -> u64
    ensures { IsSum (dome_kind stalled) calls.now result }
{
    play(Dome::new(stalled), calls).1
}

/// Plays calls on a fresh end over a head as `r3_log` does, each with a buffer of 16 bytes, and tells a sum
/// over the counts and what stood in the buffer, so that no call can be left out. The sum means nothing.
#[unsafe(no_mangle)]
pub extern "C" fn r3_time(head: u8, calls: &[u16]) -> u64
    ensures { IsSum (kind_numbered head) calls.now result }
{
    match kind(head) {
        HeadKind::Block => time_block(calls),
        HeadKind::Dome => time_dome(false, calls),
        HeadKind::StalledDome => time_dome(true, calls),
    }
}
