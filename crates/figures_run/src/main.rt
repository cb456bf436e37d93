// The figures of document 01 that are run and not proved, each by a function of its own, which writes its lines.
#![tactic(auto)]

ghost use Rattle.std.specs.Prelude.{◌+◌, ◌≤◌, length, IfOk};

use held::Held;
use host::Answer;
use pack::Shape;
use std::io::{self, Read, Write};

fn main(rt: HostRuntime) -> io::Result<()> {
    let mut input = rt.stdin();
    let mut out = rt.stdout();
    figure_10(&mut input, &mut out)?;
    figure_11(&mut out)?;
    figure_12(&mut out)
}

// The pack of a single track.
const ONE_TRACK: Shape = Shape {
    cylinders: 1,
    heads: 1,
};

// The check over a text: the text is standard input. Texts, tracks and storage, here and below, are arrays: there is no heap.
fn figure_10<R: Read, W: Write>(input: &mut R, out: &mut W) -> io::Result<()> {
    // A byte more than the longest text, so that one that is too long is seen.
    let mut buffer = [0u8; 65];
    let n = read_full(input, &mut buffer)?;
    if n == 0 {
        return writeln!(out, "10. Refused: no text on standard input.");
    }
    if n > 64 {
        return writeln!(out, "10. Refused: more than 64 bytes on standard input.");
    }
    let mut track = [0u16; 66];
    check_line(out, &buffer[..n], &mut track)
}

// Reads until the buffer is full or the input ends: how many bytes were read. A read that was interrupted fails like any other, which std's copying would try
// again.
fn read_full<R: Read>(input: &mut R, buffer: &mut [u8]) -> io::Result<usize>
    ensures { IfOk result (λ n. n ≤ length buffer.new) }
{
    let mut done = 0;
    while done < buffer.len() {
        let n = input.read(&mut buffer[done..])?;
        if n == 0 {
            break;
        }
        done += n;
    }
    Ok(done)
}

fn check_line<W: Write>(out: &mut W, text: &[u8], track: &mut [u16]) -> io::Result<()>
    requires { length text.now + 2 ≤ length track.old }
{
    let check = recorded_check(text, track);
    write!(out, "10. Check over the text ")?;
    // The text may be no UTF-8.
    out.write_all(text)?;
    writeln!(out, " is {check:04X}.")
}

// The check that the writer records behind a text.
fn recorded_check(text: &[u8], track: &mut [u16]) -> u16
    requires { length text.now + 2 ≤ length track.old }
{
    let n = text.len();
    recording::write_area(track, 0, text, n);
    cells::pair_at(track, n)
}

// Three records, the head at place 0, and a Search ID that none of them satisfies, with a TIC back to it.
fn figure_11<W: Write>(out: &mut W) -> io::Result<()> {
    let mut cells = [0u16; cells::TRACK_CELLS];
    lay_track(&mut cells);
    let mut storage = [0u8; 160];
    lay_chain(&mut storage);
    let started = host::start(ONE_TRACK, Held::fresh(), &mut storage, &cells);
    // Eight searches and the TICs between them; then a TIC, and the ninth.
    let eighth = host::go(ONE_TRACK, started.held, &mut storage, &mut cells, 15);
    search_line(out, 8, eighth.held, &storage)?;
    let ninth = host::go(ONE_TRACK, eighth.held, &mut storage, &mut cells, 2);
    search_line(out, 9, ninth.held, &storage)
}

// Home address, R0 with eight bytes of data, and three records of one byte.
fn lay_track(track: &mut [u16; cells::TRACK_CELLS]) {
    recording::write_area(track, 0, &[], 5);
    recording::write_count(track, 7, 0x00, &[0, 0, 0, 0, 0, 0, 0, 8]);
    recording::write_area(track, 18, &[], 8);
    lay_record(track, 28, 0x80, 1);
    lay_record(track, 43, 0x00, 2);
    lay_record(track, 58, 0x80, 3);
}

// A record of one byte, its number, from its marker on: `recording` takes the track and a cell's number, and so does this.
fn lay_record(track: &mut [u16], marker: usize, flag: u8, number: u8)
    requires { marker + 15 ≤ length track.old }
{
    recording::write_count(track, marker + 1, flag, &[0, 0, 0, 0, number, 0, 0, 1]);
    recording::write_area(track, marker + 12, &[number], 1);
    track[marker] = cells::MARKER;
}

// At 72 the address word; at 128 the Search ID, with five bytes at 144 that are in no count; at 136 the TIC.
fn lay_chain(storage: &mut [u8; 160]) {
    storage[75] = 128;
    storage[128] = 0x31;
    storage[131] = 144;
    storage[132] = 0x40;
    storage[135] = 5;
    storage[136] = 0x08;
    storage[139] = 128;
    storage[144] = 0xFF;
}

fn search_line<W: Write>(out: &mut W, nth: u8, held: Held, storage: &[u8; 160]) -> io::Result<()> {
    let end = if held.channel.going {
        "goes on"
    } else {
        "ends the chain"
    };
    let sense = held.position.sense;
    write!(
        out,
        "11. The {nth}th Search ID in a row: {end}, sense {:02X}{:02X}, status word",
        sense.byte0, sense.byte1,
    )?;
    // The status word's pairs, from 64 on.
    for pair in storage.chunks_exact(2).skip(32).take(4) {
        write!(out, " {:02X}{:02X}", pair[0], pair[1])?;
    }
    writeln!(out, ".")
}

// Storage of 79 and of 80 bytes, all zero: the least storage is 80, and there a start finds a word with count 0.
fn figure_12<W: Write>(out: &mut W) -> io::Result<()> {
    answer_line(out, &mut [0u8; 79])?;
    answer_line(out, &mut [0u8; 80])
}

fn answer_line<W: Write>(out: &mut W, storage: &mut [u8]) -> io::Result<()> {
    let answer = host::number_of(start_answer(storage));
    writeln!(
        out,
        "12. Storage of {} bytes: answer {answer}.",
        storage.len()
    )
}

// What a start is answered: a fresh box, and a pack of one track.
fn start_answer(storage: &mut [u8]) -> Answer {
    let cells = [0u16; cells::TRACK_CELLS];
    let heard = host::start(ONE_TRACK, Held::fresh(), storage, &cells);
    heard.answer
}
