// Replays a list of queries: each line of standard input is a query, and each line of standard
// output the reply to one, or `malformed`. A query is its kind, one or two letters, then its fields,
// each behind a space. An f64 is the 16 hex digits of its bits, in lower case. A list stands after
// the count of its numbers, 4 hex digits, at most 1,024; so does k, the size of a builder's space.
//     r x                       the root of x
//     h a b                     the hypot of a and b
//     p n s.. x y z             the distance of a point from the section s
//     s n s.. x y z radius      of a sphere
//     b n s.. z0 z1 r0 r1       of a box
//     c n convex.. m section..  of a convex body
//     y n s.. ax ay az bx by bz radius
//                               of a cylinder from a to b
//     vs, vb, vc, vy            the verdict on such a body: the same fields, then the clearance
//     S n points.. k            the builder of a section
//     P n points.. k            the builder of a polygon
//     w n s.. ax ay az bx by bz radius tolerance most intervals
//                               the distance of a cylinder with settings; the digits of most and of
//                               intervals are the whole number itself
// A distance is replied with its witness's z and radius and, in decimal, the number of the witness's
// edge, a cylinder's also with how many boxes were measured, how many pieces waited at most, and 1
// where the walk was cut, else 0, in decimal; a verdict with 1, a collision, or 0; a builder with the
// count of the numbers that it keeps, in decimal, and these, or with `damaged` where it changed any
// other number of its space. What is turned down is `refused` and the number. A read or a write that
// fails ends the program with its error.
#![tactic(auto)]

ghost use Rattle.std.specs.Prelude.{◌≡◌, ◌≤◌, IfOk, OnErr, length};
ghost use Rattle.replay.specs.Lines.{Within};
ghost use Rattle.replay.specs.Replies.{kept};

mod ask;
mod bits;
mod line;
mod parse;
mod table;

use ask::{BLANK, Reply, ask};
use bits::pattern;
use bodies::Verdict;
use line::{Held, next_line};
use parse::parse;
use section::{CollisionHit, Refusal};
use std::io;
use std::io::{Read, Write};
use walk::CountedHit;

fn print_text<W: Write>(writer: &mut W, text: &[u8]) -> io::Result<()> {
    writer.write_all(text)
}

fn print_number<W: Write>(writer: &mut W, x: f64) -> io::Result<()> {
    write!(writer, "{:016x}", pattern(x))
}

// A number behind a space.
fn print_next<W: Write>(writer: &mut W, x: f64) -> io::Result<()> {
    print_text(writer, b" ")?;
    print_number(writer, x)
}

fn print_count<W: Write>(writer: &mut W, n: u64) -> io::Result<()> {
    write!(writer, "{n}")
}

fn print_next_count<W: Write>(writer: &mut W, n: usize) -> io::Result<()> {
    print_text(writer, b" ")?;
    print_count(writer, n as u64)
}

fn print_flag<W: Write>(writer: &mut W, flag: bool) -> io::Result<()> {
    if flag {
        print_text(writer, b"1")
    } else {
        print_text(writer, b"0")
    }
}

fn print_hit<W: Write>(writer: &mut W, hit: CollisionHit) -> io::Result<()> {
    let witness = hit.witness;
    print_number(writer, hit.distance)?;
    print_next(writer, witness.z)?;
    print_next(writer, witness.r)?;
    print_next_count(writer, witness.edge)
}

fn print_walked<W: Write>(writer: &mut W, walked: CountedHit) -> io::Result<()> {
    print_hit(writer, walked.hit)?;
    print_next_count(writer, walked.boxes)?;
    print_next_count(writer, walked.waiting)?;
    print_text(writer, b" ")?;
    print_flag(writer, walked.cut)
}

// How many numbers a builder keeps, and these.
fn print_kept<W: Write>(writer: &mut W, kept: &[f64]) -> io::Result<()> {
    print_count(writer, kept.len() as u64)?;
    for x in kept {
        print_next(writer, *x)?;
    }
    Ok(())
}

fn print_refused<W: Write>(writer: &mut W, refusal: Refusal) -> io::Result<()> {
    print_text(writer, b"refused ")?;
    print_count(writer, refusal.number() as u64)
}

fn print<W: Write>(writer: &mut W, reply: Reply, kept: &[f64]) -> io::Result<()> {
    match reply {
        Reply::Number(x) => print_number(writer, x),
        Reply::Hit(hit) => print_hit(writer, hit),
        Reply::Walked(walked) => print_walked(writer, walked),
        Reply::Verdict(verdict) => print_flag(writer, verdict == Verdict::Collision),
        Reply::Kept(_) => print_kept(writer, kept),
        Reply::Refused(refusal) => print_refused(writer, refusal),
        Reply::Damaged => print_text(writer, b"damaged"),
        Reply::Malformed => print_text(writer, b"malformed"),
    }
}

// How many numbers of its space a builder keeps.
fn kept_by(reply: Reply) -> usize
    ensures { result ≤ kept reply }
{
    match reply {
        Reply::Kept(n) => n,
        _ => 0,
    }
}

fn reply_to(line: &[u8], space: &mut [f64]) -> Reply
    requires { 1024 ≤ length space.old }
    ensures { kept result ≤ length space.new }
{
    let mut first = [0.0; 1024];
    let mut second = [0.0; 1024];
    let mut numbers = [0.0; 16];
    let Some(query) = parse(line, &mut first, &mut second, &mut numbers) else {
        return Reply::Malformed;
    };
    let s = &first[..query.n];
    let t = &second[..query.m];
    ask(query.kind, s, t, &numbers, &mut space[..query.k])
}

fn reply<W: Write>(writer: &mut W, line: &[u8]) -> io::Result<()> {
    let mut space = [BLANK; 1024];
    let reply = reply_to(line, &mut space);
    let n = kept_by(reply);
    print(writer, reply, &space[0..n])?;
    print_text(writer, b"\n")
}

// One turn: answers the next line, if one is found.
fn turn<R: Read, W: Write>(
    reader: &mut R,
    writer: &mut W,
    buf: &mut [u8],
    start: usize,
    end: usize,
) -> io::Result<Held>
    requires { (start ≤ end) × (end ≤ length buf.old) }
    ensures ok { IfOk result (λ held. Within held (length buf.new)) }
    ensures failed { OnErr result (length buf.new ≡ length buf.old) }
{
    let held = next_line(reader, buf, start, end)?;
    if let Some(line) = held.line {
        reply(writer, &buf[line.from..line.to])?;
    }
    Ok(held)
}

// A proved loop has to end, and nothing says that the input does: it takes no more turns than a
// number that no run uses up.
fn replay<R: Read, W: Write>(reader: &mut R, writer: &mut W, buf: &mut [u8]) -> io::Result<()> {
    let mut start = 0;
    let mut end = 0;
    for _ in 0..u64::MAX {
        let held = turn(reader, writer, buf, start, end)?;
        if held.ended {
            return Ok(());
        }
        start = held.start;
        end = held.end;
    }
    Ok(())
}

fn main(rt: HostRuntime) -> io::Result<()> {
    let mut buf = [0u8; 65536];
    replay(&mut rt.reader(), &mut io::writer(&rt), &mut buf)
}
