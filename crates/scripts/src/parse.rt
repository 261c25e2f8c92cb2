//! Text to lines of a script. A line that is not understood is none.

ghost use Rattle.std.specs.Prelude.{◌≡◌, ◌≤◌, IfSome, map};
ghost use Rattle.scripts.specs.Scripts.{head_in_script, two_words};

use crate::line::{Line, Room, USUAL};
use heads::HeadKind;
use hexadecimal::byte;
use std::alloc::{AllocError, Global};
use std::str::from_utf8;

// The text in front of a comment.
fn without_comment(text: &[u8]) -> &[u8] {
    text.split(|byte| *byte == b'#').next().unwrap_or_default()
}

// A decimal number, with leading zeros or without, if it is at most this high. A number has no sign.
fn at_most(high: u32, word: &str) -> Option<u32>
    ensures { IfSome result (λ n. n ≤ high) }
{
    if word.starts_with('+') {
        return None;
    }
    word.parse().ok().filter(|number| *number <= high)
}

// The length of a buffer.
fn room(word: &str) -> Option<Room> {
    Some(Room {
        len: at_most(64, word)? as usize,
    })
}

// How many ticks.
fn times(word: &str) -> Option<u32>
    ensures { IfSome result (λ n. (1 ≤ n) × (n ≤ 10000)) }
{
    at_most(10000, word).filter(|times| *times > 0)
}

// Both words of a stalled dome.
fn stalled(head: &str, mark: &str) -> Option<HeadKind>
    ensures { result ≡ two_words head.now mark.now }
{
    if head == "dome" && mark == "stalled" {
        return Some(HeadKind::StalledDome);
    }
    None
}

// The head that the words behind `head` name.
fn head(words: &[&str]) -> Option<HeadKind>
    ensures { result ≡ head_in_script (map (λ w. w.now) words.now) }
{
    match words {
        [head] if *head != "stalled" => head.parse().ok(),
        [head, mark] => stalled(head, mark),
        _ => None,
    }
}

// Any line but one of bytes to send.
fn call(words: &[&str]) -> Option<Line> {
    match words {
        [] => Some(Line::Blank),
        ["head", words @ ..] => Some(Line::Head(head(words)?)),
        ["byte", value] => Some(Line::Byte(byte(value)?, USUAL)),
        ["byte", value, len] => Some(Line::Byte(byte(value)?, room(len)?)),
        ["tick"] => Some(Line::Tick(1, USUAL)),
        ["tick", n] => Some(Line::Tick(times(n)?, USUAL)),
        ["tick", n, len] => Some(Line::Tick(times(n)?, room(len)?)),
        ["open"] => Some(Line::Open),
        ["look", number] => Some(Line::Look(at_most(255, number)? as u8)),
        ["slots"] => Some(Line::Slots),
        ["take-off"] => Some(Line::TakeOff),
        _ => None,
    }
}

// One or more bytes to send.
fn send(heap: Global, words: &[&str]) -> Result<Option<Line>, AllocError> {
    let bytes: Option<Vec<u8>> = words.iter().map(|word| byte(word)).collect(heap)?;
    Ok(bytes.filter(|bytes| !bytes.is_empty()).map(Line::Send))
}

/// A line of a script, if the text is one.
pub fn parse(heap: Global, text: &[u8]) -> Result<Option<Line>, AllocError> {
    // No word of the language is other than text.
    let Ok(text) = from_utf8(without_comment(text)) else {
        return Ok(None);
    };
    // Only spaces separate words.
    let words: Vec<&str> = text
        .split(' ')
        .filter(|word| !word.is_empty())
        .collect(heap)?;
    match words.as_slice() {
        ["send", bytes @ ..] => send(heap, bytes),
        words => Ok(call(words)),
    }
}
