// Calls of the writer, each printed with its arguments, which are a style, a day and the length of the
// lent buffer: then the number of bytes or the refusal's number, and then the whole buffer, which
// held `#` before, so that it is seen which bytes are changed. What cannot be printed is dropped, and the status stays 0.
#![tactic(auto)]

use dating::writer::write_date;

const JULIAN: u64 = 1;

const GREGORIAN: u64 = 2;

const OLD_EASTER: u64 = 3;

// One more than the largest 32-bit number: a number that is cut on its way in loses it.
const CUT: u64 = 1 << 32;

fn ask_with(rt: &impl Print, style: u64, day: u64, buffer: &mut [u8]) {
    let answer = match write_date(style, day, buffer) {
        Ok(count) => count,
        Err(refusal) => u32::from(refusal) as usize,
    };
    let gap = if buffer.is_empty() { "" } else { " " };
    let _ = print!(rt; "write {style} {day} {}: {answer}{gap}", buffer.len());
    let _ = rt.write_all(buffer);
    let _ = println!(rt);
}

fn ask(rt: &impl Print, style: u64, day: u64) {
    ask_with(rt, style, day, &mut [b'#'; 16]);
}

// A day and its neighbours.
fn ask_around(rt: &impl Print, style: u64, day: u64) {
    for near in day.wrapping_sub(1)..=day.wrapping_add(1) {
        ask(rt, style, near);
    }
}

fn span_ends(rt: &impl Print) {
    for day in [1721424, 5373557] {
        ask_around(rt, JULIAN, day);
    }
    for style in [GREGORIAN, OLD_EASTER] {
        for day in [2299161, 5373484] {
            ask_around(rt, style, day);
        }
    }
}

// The Julian dates of the Gregorian style's first day and of the day before.
fn october_1582(rt: &impl Print) {
    for day in [2299160, 2299161] {
        ask(rt, JULIAN, day);
    }
}

// Dates of 7 to 12 bytes.
fn date_lengths(rt: &impl Print) {
    for (style, day) in [
        (JULIAN, 1724597),
        (JULIAN, 1721433),
        (JULIAN, 1721706),
        (JULIAN, 1724993),
        (JULIAN, 1757866),
        (GREGORIAN, 2300796),
        (GREGORIAN, 2451544),
        (OLD_EASTER, 2300796),
        (OLD_EASTER, 2460436),
    ] {
        ask(rt, style, day);
    }
}

// 29 February, and in the Gregorian 1900 the days about the place where it is left out.
fn leap_days(rt: &impl Print) {
    for (style, day) in [
        (JULIAN, 1722578),
        (JULIAN, 2415092),
        (GREGORIAN, 2415079),
        (GREGORIAN, 2415080),
        (GREGORIAN, 2451604),
        (GREGORIAN, 2460370),
        (OLD_EASTER, 2415079),
        (OLD_EASTER, 2415080),
        (OLD_EASTER, 2460370),
    ] {
        ask(rt, style, day);
    }
}

// The shortest date, the longest, and a day outside the span.
fn buffers(rt: &impl Print) {
    for (style, day) in [
        (JULIAN, 1721424),
        (GREGORIAN, 5373484),
        (GREGORIAN, 5373485),
        (OLD_EASTER, 5373484),
        (OLD_EASTER, 5373485),
    ] {
        for length in [0, 7, 11, 12, 13] {
            ask_with(rt, style, day, &mut [b'#'; 13][..length]);
        }
    }
}

// A good rest, a day outside the span, a short buffer, and both.
fn bad_styles(rt: &impl Print) {
    for style in [0, 4, u64::MAX] {
        ask(rt, style, 2460370);
        ask(rt, style, 0);
        ask_with(rt, style, 2460370, &mut [b'#'; 11]);
        ask_with(rt, style, 0, &mut [b'#'; 0]);
    }
}

// The last day looks like a day of every span once it is cut to 32 bits.
fn bad_days(rt: &impl Print) {
    for style in [JULIAN, GREGORIAN, OLD_EASTER] {
        for day in [0, u64::MAX, CUT + 2460370] {
            ask(rt, style, day);
        }
    }
}

fn main(rt: HostRuntime) {
    span_ends(&rt);
    october_1582(&rt);
    date_lengths(&rt);
    leap_days(&rt);
    buffers(&rt);
    bad_styles(&rt);
    bad_days(&rt);
}
