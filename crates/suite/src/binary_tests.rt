//! The texts that binary proofs stand for, by the decoder and by a plain one, over random bytes.
use lrat_binary::Decoder;
use std::alloc::Global;
use std::process::Abort;

/// How many end marks are to come behind a number that begins a step, and what is written for it.
fn begun(number: u64) -> (u8, &'static str) {
    match number {
        97 => (2, ""),
        100 => (1, "0 d "),
        _ => (0, "? "),
    }
}

fn push(rt: &impl Abort, text: &mut Vec<u8>, word: &str) {
    text.extend_from_slice(word.as_bytes()).expect(rt, "memory");
}

/// Appends a number's word, where so many end marks are to come.
fn push_number(rt: &impl Abort, alloc: Global, ends: u8, number: u64, text: &mut Vec<u8>) {
    let sign = if number % 2 == 1 { "-" } else { "" };
    let half = number / 2;
    let end = if number == 0 && ends == 1 { "\n" } else { " " };
    let word = format!(in alloc; "{sign}{half}{end}").expect(rt, "memory");
    push(rt, text, word.as_str());
}

/// Appends a number's word, or what begins a step, where so many end marks are to come; answers how
/// many are then.
fn push_next(rt: &impl Abort, alloc: Global, ends: u8, number: u64, text: &mut Vec<u8>) -> u8 {
    if ends == 0 {
        let (ends, word) = begun(number);
        push(rt, text, word);
        return ends;
    }
    push_number(rt, alloc, ends, number, text);
    if number == 0 { ends - 1 } else { ends }
}

/// Appends the text of bytes, number by number.
fn push_plain(rt: &impl Abort, alloc: Global, bytes: &[u8], text: &mut Vec<u8>) {
    let mut ends = 0u8;
    let mut value = 0u64;
    let mut scale = 1u64;
    for byte in bytes {
        value = value.saturating_add(scale.saturating_mul(u64::from(*byte % 128)));
        if *byte >= 128 {
            scale = scale.saturating_mul(128);
        } else {
            ends = push_next(rt, alloc, ends, value, text);
            value = 0;
            scale = 1;
        }
    }
}

/// The same by the decoder, which is handed so many bytes at a time.
fn push_by_blocks(rt: &impl Abort, bytes: &[u8], size: usize, text: &mut Vec<u8>) {
    let mut decoder = Decoder::new();
    for block in bytes.chunks(size.max(1)) {
        decoder.append(block, text).expect(rt, "memory");
    }
}

/// Appends the bytes of a number, the lowest seven bits first.
pub fn push_number_bytes(rt: &impl Abort, bytes: &mut Vec<u8>, number: u64) {
    let mut left = number;
    for _ in 0..10u32 {
        if left < 128 {
            bytes.push(left as u8).expect(rt, "memory");
            return;
        }
        bytes.push((left % 128) as u8 + 128).expect(rt, "memory");
        left /= 128;
    }
}

/// A byte that a number stands for: many begin or end a step.
fn drawn(word: u64) -> u8 {
    match word % 8 {
        0 => 0,
        1 => b'a',
        2 => b'd',
        _ => (word / 8 % 256) as u8,
    }
}

/// Appends so many bytes by a linear congruential generator.
pub fn push_random(rt: &impl Abort, state: &mut u64, count: usize, bytes: &mut Vec<u8>) {
    for _ in 0..count {
        *state = state
            .wrapping_mul(6364136223846793005)
            .wrapping_add(1442695040888963407);
        bytes.push(drawn(*state >> 33)).expect(rt, "memory");
    }
}

/// Ends the test where the decoder, which is handed so many bytes at a time, gives another text.
fn need_text(rt: &impl Abort, alloc: Global, bytes: &[u8], size: usize) {
    let mut plain = Vec::new(alloc);
    push_plain(rt, alloc, bytes, &mut plain);
    let mut text = Vec::new(alloc);
    push_by_blocks(rt, bytes, size, &mut text);
    assert!(rt; plain.len() > 4096 && text == plain, "{size}");
}

/// The same over so many random bytes, twenty times.
fn need_texts(rt: &impl Abort, alloc: Global, state: &mut u64, size: usize) {
    for _ in 0..20u32 {
        let mut bytes = Vec::new(alloc);
        push_random(rt, state, 8000, &mut bytes);
        need_text(rt, alloc, &bytes, size);
    }
}

// A text has more bytes than a page of the decoder, and a number may go on in the next block.
#[test]
fn texts_of_random_bytes(rt: HostRuntime) {
    let mut state = 5;
    for size in [1usize, 2, 7, 100, 4096] {
        need_texts(&rt, rt.alloc(), &mut state, size);
    }
}
