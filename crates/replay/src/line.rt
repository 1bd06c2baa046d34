// Lines of an input, in a buffer.
ghost use Rattle.std.specs.Prelude.{◌≡◌, ◌≤◌, IfOk, IfSome, OnErr, length};
ghost use Rattle.replay.specs.Lines.{Within};

use std::io;
use std::io::Read;

// The bytes of the buffer from `from` up to `to`.
#[derive(Clone, Copy)]
pub struct Line {
    pub from: usize,
    pub to: usize,
}

// What is read and not yet answered, the bytes of the buffer from start up to end; the next line, if
// one is found; and whether the input has ended.
#[derive(Clone, Copy)]
pub struct Held {
    pub start: usize,
    pub end: usize,
    pub line: Option<Line>,
    pub ended: bool,
}

// The index of the first line's end among the bytes from start up to end, or end.
fn line_end(buf: &[u8], start: usize, end: usize) -> usize
    requires { (start ≤ end) × (end ≤ length buf.now) }
    ensures { (start ≤ result) × (result ≤ end) }
{
    for i in start..end {
        if buf[i] == b'\n' {
            return i;
        }
    }
    end
}

// Moves the bytes from start up to end to the front, and answers how many they are.
fn to_front(buf: &mut [u8], start: usize, end: usize) -> usize
    requires { (start ≤ end) × (end ≤ length buf.old) }
    ensures { result ≤ end }
{
    let n = end - start;
    for i in 0..n {
        buf[i] = buf[start + i];
    }
    n
}

// Reads once, to behind the first n bytes, and answers how many there are then: as many as before
// where the input has ended or the buffer is full.
fn read_more<R: Read>(reader: &mut R, buf: &mut [u8], n: usize) -> io::Result<usize>
    requires { n ≤ length buf.old }
    ensures ok { IfOk result (λ m. (n ≤ m) × (m ≤ length buf.new)) }
    ensures failed { OnErr result (length buf.new ≡ length buf.old) }
{
    let got = reader.read(&mut buf[n..])?;
    Ok(n + got)
}

// Where the input has ended, the kept bytes at the front are the last line, if there are any.
fn last_line(ended: bool, kept: usize) -> Option<Line>
    ensures { IfSome result (λ line. (line.from ≤ line.to) × (line.to ≤ kept)) }
{
    if ended && 0 < kept {
        return Some(Line { from: 0, to: kept });
    }
    None
}

// Finds the next line, or reads more where none is whole. What the input ends with, or what fills the
// buffer, is the last line.
pub fn next_line<R: Read>(
    reader: &mut R,
    buf: &mut [u8],
    start: usize,
    end: usize,
) -> io::Result<Held>
    requires { (start ≤ end) × (end ≤ length buf.old) }
    ensures ok { IfOk result (λ held. Within held (length buf.new)) }
    ensures failed { OnErr result (length buf.new ≡ length buf.old) }
{
    let stop = line_end(buf, start, end);
    if stop < end {
        return Ok(Held {
            start: stop + 1,
            end,
            line: Some(Line {
                from: start,
                to: stop,
            }),
            ended: false,
        });
    }
    let kept = to_front(buf, start, end);
    let filled = read_more(reader, buf, kept)?;
    let ended = filled <= kept;
    Ok(Held {
        start: 0,
        end: filled,
        line: last_line(ended, kept),
        ended,
    })
}
