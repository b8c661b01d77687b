// The console: a line of hexadecimal in, an answer out, a line for a line but for outlines.
//
//   check R            ok, or refused N WORDS
//   sound R            sound, unsound, or refused N WORDS
//   show R             an outline, a line for each item at every level, or refused N WORDS; show.rt says more
//   chars R            chars N - N of an array, chars N:N N:- of an object, absent, or refused N WORDS: how many characters each name
//                      and each string has; chars.rt says more
//   get R ; PATH       result HEX, absent, or refused N WORDS: what the path finds in the record R
//   pointer R ; POINTER
//                      the same by a JSON Pointer, as it stands where it starts with a slash, else its bytes in hexadecimal
//   delete R ; PATH    result HEX, or refused N WORDS: the record R without what the path finds in it
//   concat L ; R       result HEX, or refused N WORDS: the record L overlaid with the record R
//   strip R            result HEX, or refused N WORDS: the record R without the members whose value is null, at every level
//   append A ; R       result HEX, or refused N WORDS: the record R, as one item, at the end of the array A
//   build N ; V        result HEX, or refused N WORDS: an object of the names in the array N with the values in the array V
//   preview EDIT ..    length N, or refused N WORDS: what delete, concat, strip, append or build would give, written as above but
//                      without the buffer's length
//   flight R           ok, or refused N WORDS: whether the record R is one that the board's loader takes
//   flight EDIT ..     result HEX, or refused N WORDS: delete, concat or strip of flight records, written as above; the result is
//                      one too
//   grade CANDIDATE ; EXPECTED
//                      right, other bytes, same value, other value, or damaged N WORDS: whether two records are the same, or have
//                      one value
//   same R ; R         same, other, or refused N WORDS: whether two records have one value
//   make i N, make u N, make f BITS, make d VALUE SCALE
//                      result HEX, or refused 10 WORDS: the payload of a signed number, of an unsigned one, of a float by its
//                      bits, or of a decimal
//   number PAYLOAD     signed N, unsigned N, float BITS, decimal VALUE SCALE, wide BYTES, nan, infinity, -infinity, or
//                      refused 4 WORDS: the number that a payload stands for
//   step array JENTRY ITEM LEFT ; SLICE
//                      item KIND PLACE LENGTH then JENTRY ITEM LEFT, end, or refused N WORDS: a step in any bytes of a walk
//                      that is given by its places and by how many items are left, and the walk behind it; a string's length has
//                      how many characters it has behind it
//   step object KEY_JENTRY VAL_JENTRY KEY VAL LEFT ; SLICE
//                      member PLACE LENGTH COUNT KIND PLACE LENGTH then KEY_JENTRY VAL_JENTRY KEY VAL LEFT, end, or
//                      refused N WORDS: the same for an object, where the name's place, length and characters stand first
//   run R ; R : CALL : CALL
//                      ENDING : ENDING : shelf R ; R ; R: the calls one after the other, with places for records; run.rt says more
//
// A record stands in hexadecimal, and so do a path, which is one, a pointer that does not start with a slash, a payload and a
// slice; spaces in it are ignored, and an empty one is -. Behind the arguments of a call that gives a result may stand one more, as
// in `append A ; R ; 100`: the length of the result's buffer in decimal; where it is left out, one that serves, of 65,536 bytes at
// most. An empty line and a line that starts with # are copied. A line that is none of these gets `? WHY`, and the next one is
// answered as ever. A read, a write or an allocation that fails ends the program with its error.
#![tactic(auto)]

mod aboard;
mod calls;
mod chars;
mod decimal;
mod fault;
mod grade;
mod hex;
mod make;
mod pointer;
mod preview;
mod run;
mod say;
mod shelf;
mod show;
mod spell;
mod step;
mod taken;
mod text;
mod walk;
mod writing;

ghost use Rattle.std.specs.Prelude.{◌+◌, ◌≤◌, IfOk, length};

use calls::answer;
use fault::Fault;
use std::alloc::Global;
use std::io;
use std::io::{ErrorKind, Read, Write};

// The longest line, its end included: two records with spaces between their groups have less.
const LINE_LIMIT: usize = 524_288;

// What is kept of the input in front of the line's array: how many bytes of the next line, and whether all up to a line's end is passed
// over, of which none is kept.
#[derive(Clone, Copy)]
struct Held {
    bytes: usize,
    skips: bool,
    ghost inside: { bytes ≤ 524288 },
}

// Where no line ends among so many bytes, they are the beginning of one, or all of one that is too long.
fn keep_unended<W: Write>(out: &mut W, bytes: usize, skips: bool) -> io::Result<Held>
    requires { bytes ≤ 524288 }
{
    if skips {
        return Ok(Held { bytes: 0, skips });
    }
    if bytes < LINE_LIMIT {
        return Ok(Held { bytes, skips });
    }
    writeln!(out, "? {}", Fault::TooLong)?;
    Ok(Held {
        bytes: 0,
        skips: true,
    })
}

// Answers the lines that end among the bytes that came behind those held, and keeps the beginning of the next one.
fn take_lines<W: Write>(
    alloc: Global,
    out: &mut W,
    line: &mut [u8],
    held: Held,
    came: usize,
) -> io::Result<Held>
    requires came { held.bytes + came ≤ length line.old }
    requires room { length line.old ≤ 524288 }
{
    let end = held.bytes + came;
    let Some(last) = line[held.bytes..end].iter().rposition(|c| *c == b'\n') else {
        return keep_unended(out, end, held.skips);
    };
    let last = held.bytes + last;
    for text in line[..last]
        .split(|c| *c == b'\n')
        .skip(usize::from(held.skips))
    {
        answer(alloc, out, text)?;
    }
    line.copy_within(last + 1..end, 0);
    Ok(Held {
        bytes: end - (last + 1),
        skips: false,
    })
}

// The last line, where the input does not end with a line's end.
fn answer_last<W: Write>(alloc: Global, out: &mut W, line: &[u8]) -> io::Result<()> {
    if line.is_empty() {
        return Ok(());
    }
    answer(alloc, out, line)
}

// Answers the input line by line. A line that is too long is passed over. The line stands in an array that the input is read into, and
// in no vector behind a reader's buffer: with a buffer of 64 KiB these took 250 KiB more of the address space before the first line, and
// 120 KiB more with the longest one. The input ends long before the count does.
fn answer_input<R: Read, W: Write>(alloc: Global, input: &mut R, out: &mut W) -> io::Result<()> {
    let mut line = [0; LINE_LIMIT];
    let mut held = Held {
        bytes: 0,
        skips: false,
    };
    for _ in 0..u64::MAX {
        let came = match input.read(&mut line[held.bytes..]) {
            Ok(came) => came,
            Err(error) if error.kind() == ErrorKind::Interrupted => continue,
            Err(error) => return Err(error),
        };
        if came == 0 {
            return answer_last(alloc, out, &line[..held.bytes]);
        }
        held = take_lines(alloc, out, &mut line, held, came)?;
    }
    Ok(())
}

fn main(rt: HostRuntime) -> io::Result<()> {
    let mut input = rt.reader();
    let mut out = io::writer(&rt);
    answer_input(rt.alloc(), &mut input, &mut out)
}
