//! What each call answers, logged for a comparison.

ghost use Rattle.std.specs.Prelude.{◌≡◌, ◌+◌, ◌≤◌, List, ◌++◌, length, map, take, drop};
ghost use Rattle.end.specs.declared.call.Call.TheVariants.{Byte, Tick, Open as Opens};
ghost use Rattle.end.specs.Faults.{answered, count_told, opens};
ghost use Rattle.end.specs.Records.{Record};
ghost use Rattle.heads.specs.declared.any.HeadKind.TheVariants.{Block as Blocks};
ghost use Rattle.end_c.specs.Asked.{asked_of, dome_kind, kind_numbered};
ghost use Rattle.end_c.specs.Calls.{AskedRun, CallLogged};
ghost use Rattle.end_c.specs.Logs.{answer_logged, appended, log_of};
ghost use Rattle.end_c.specs.Played.{IsLog};

use crate::asked::Asked;
use crate::kinds::kind;
use end::{Call, End, Fault, OpenSockets, ROOM, bytes_sent};
use fault::FaultCode;
use head::Head;
use heads::{Block, Dome, HeadKind};
use wire::send_at;

// The count of bytes sent, and the fault by number, layer and place; 0 for none.
fn answer_bytes(answer: Result<usize, Fault>) -> [u8; 4]
    requires { count_told answer ≤ 255 }
    ensures { result ≡ answer_logged (answered answer) }
{
    let count = bytes_sent(answer) as u8;
    match answer {
        Ok(_) => [count, 0, 0, 0],
        Err(fault) => {
            let code = FaultCode::from(fault);
            [count, code.number, code.layer.number(), code.place]
        }
    }
}

// Puts bytes into the log behind the first `count`.
fn append(log: &mut [u8], count: usize, bytes: &[u8])
    requires { count + length bytes.now ≤ length log.old }
    ensures front { take (count + length bytes.now) log.new ≡ take count log.old ++ bytes.now }
    ensures untouched { drop (count + length bytes.now) log.new ≡ drop (count + length bytes.now) log.old }
{
    send_at(log, count, bytes).unwrap();
}

// Puts an answer and what was sent into the log behind the first `count` bytes, and tells how many more stand in it
// then: none where they do not fit.
fn put(log: &mut [u8], count: usize, answer: &[u8], sent: &[u8]) -> usize
    requires within { count ≤ length log.old }
    requires few { length answer.now + length sent.now ≤ 20 }
    ensures within { count + result ≤ length log.new }
    ensures logged { take (count + result) log.new
        ≡ appended (length log.old) (take count log.old) (answer.now ++ sent.now) }
    ensures untouched { drop (count + result) log.new ≡ drop (count + result) log.old }
{
    let more = answer.len() + sent.len();
    if log.len() - count < more {
        return 0;
    }
    append(log, count, answer);
    append(log, count + answer.len(), sent);
    more
}

fn log_byte<H: Head>(end: &mut End<H>, byte: u8, room: usize, log: &mut [u8], count: usize) -> usize
    requires within { count ≤ length log.old }
    requires few { room ≤ 16 }
    ensures within { count + result ≤ length log.new }
    ensures logged { CallLogged (Byte byte) room (length log.old) end.old (take count log.old)
        (take (count + result) log.new) end.new }
    ensures untouched { drop (count + result) log.new ≡ drop (count + result) log.old }
{
    let mut buffer = [0; ROOM];
    let out = &mut buffer[..room];
    let answer = end.byte(byte, out);
    put(
        log,
        count,
        &answer_bytes(answer),
        &out[..bytes_sent(answer)],
    )
}

fn log_tick<H: Head>(end: &mut End<H>, room: usize, log: &mut [u8], count: usize) -> usize
    requires within { count ≤ length log.old }
    requires few { room ≤ 16 }
    ensures within { count + result ≤ length log.new }
    ensures logged { CallLogged Tick room (length log.old) end.old (take count log.old)
        (take (count + result) log.new) end.new }
    ensures untouched { drop (count + result) log.new ≡ drop (count + result) log.old }
{
    let mut buffer = [0; ROOM];
    let out = &mut buffer[..room];
    let answer = end.tick(out);
    put(
        log,
        count,
        &answer_bytes(answer),
        &out[..bytes_sent(answer)],
    )
}

// Which sockets are open: 1 or 0 for each.
fn open_bytes(sockets: OpenSockets) -> [u8; 2]
    ensures { result ≡ answer_logged (opens sockets.one sockets.two) }
{
    [u8::from(sockets.one), u8::from(sockets.two)]
}

fn log_open<H: Head>(end: &End<H>, log: &mut [u8], count: usize) -> usize
    requires within { count ≤ length log.old }
    ensures within { count + result ≤ length log.new }
    ensures logged { CallLogged Opens 0 (length log.old) end.now (take count log.old)
        (take (count + result) log.new) end.now }
    ensures untouched { drop (count + result) log.new ≡ drop (count + result) log.old }
{
    put(log, count, &open_bytes(end.open()), &[])
}

// Makes a call, logs it behind the first `count` bytes, and tells how many more stand in the log then.
fn log_call<H: Head>(end: &mut End<H>, asked: Asked, log: &mut [u8], count: usize) -> usize
    requires within { count ≤ length log.old }
    requires few { asked.room ≤ 16 }
    ensures within { count + result ≤ length log.new }
    ensures logged { CallLogged asked.call asked.room (length log.old) end.old (take count log.old)
        (take (count + result) log.new) end.new }
    ensures untouched { drop (count + result) log.new ≡ drop (count + result) log.old }
{
    match asked.call {
        Call::Byte(byte) => log_byte(end, byte, asked.room, log, count),
        Call::Tick => log_tick(end, asked.room, log, count),
        Call::Open => log_open(end, log, count),
    }
}

fn play<H: Head>(head: H, calls: &[u16], log: &mut [u8]) -> (End<H>, usize)
    ensures within { result.1 ≤ length log.new }
    ensures logged { (run : List Record) × AskedRun head (map asked_of calls.now) run result.0
        × (take result.1 log.new ≡ log_of (length log.old) run) }
    ensures untouched { drop result.1 log.new ≡ drop result.1 log.old }
{
    let mut end = End::make(head);
    let mut count = 0;
    for number in calls {
        count += log_call(&mut end, Asked::from(*number), log, count);
    }
    (end, count)
}

fn log_block(calls: &[u16], log: &mut [u8]) -> usize
    ensures within { result ≤ length log.new }
    ensures logged { IsLog Blocks calls.now (length log.old) (take result log.new) }
    ensures untouched { drop result log.new ≡ drop result log.old }
{
    play(Block::new(), calls, log).1
}

fn log_dome(stalled: bool, calls: &[u16], log: &mut [u8]) -> usize
    ensures within { result ≤ length log.new }
    ensures logged { IsLog (dome_kind stalled) calls.now (length log.old) (take result log.new) }
    ensures untouched { drop result log.new ≡ drop result log.old }
{
    play(Dome::new(stalled), calls, log).1
}

/// Plays calls on a fresh end over a block (0), a dome (1) or a dome that is stalled (any other number), and
/// logs what each answers, record behind record: of a byte or tick the count sent, the fault's number, layer
/// and place, and the bytes sent; of the question which sockets are open, a byte for each. A record that
/// does not fit is left out. It tells how many bytes are logged.
#[unsafe(no_mangle)]
pub extern "C" fn r3_log(head: u8, calls: &[u16], log: &mut [u8]) -> usize
    ensures within { result ≤ length log.new }
    ensures logged { IsLog (kind_numbered head) calls.now (length log.old) (take result log.new) }
    ensures untouched { drop result log.new ≡ drop result log.old }
{
    match kind(head) {
        HeadKind::Block => log_block(calls, log),
        HeadKind::Dome => log_dome(false, calls, log),
        HeadKind::StalledDome => log_dome(true, calls, log),
    }
}
