// Parses a line into what the table says that its kind holds. Each part is read with the index past
// it, where the next one is looked for.
ghost use Rattle.std.specs.Prelude.{◌+◌, ◌≤◌, IfSome, length};

use super::bits::float;
use super::table::Kind;

const SPACE: u8 = b' ';

// The largest count.
const MOST: u64 = 1024;

// How many numbers the two lists have, and the size of a builder's space.
#[derive(Clone, Copy)]
pub struct Query {
    pub kind: Kind,
    pub n: usize,
    pub m: usize,
    pub k: usize,
}

// The number of a field, and the index past it.
#[derive(Clone, Copy)]
struct Field {
    value: u64,
    next: usize,
}

// A byte of the line, and a space past its end.
fn byte_at(line: &[u8], at: usize) -> u8 {
    if at < line.len() { line[at] } else { SPACE }
}

// What a hex digit stands for.
fn digit(b: u8) -> Option<u64> {
    if b'0' <= b && b <= b'9' {
        return Some((b - b'0') as u64);
    }
    if b'a' <= b && b <= b'f' {
        return Some((b - b'a') as u64 + 10);
    }
    None
}

// The number of k hex digits from an index on.
fn digits_at(line: &[u8], at: usize, k: usize) -> Option<Field>
    requires { at + k ≤ length line.now }
{
    let mut value = 0;
    for b in &line[at..at + k] {
        value = (value << 4) | digit(*b)?;
    }
    Some(Field {
        value,
        next: at + k,
    })
}

// The field at an index: a space, then k hex digits.
fn field_at(line: &[u8], at: usize, k: usize) -> Option<Field> {
    if line.len() <= at {
        return None;
    }
    if line.len() - at <= k {
        return None;
    }
    if line[at] == SPACE {
        return digits_at(line, at + 1, k);
    }
    None
}

// The count at an index, if it is at most `most`; where the kind has none there, 0.
fn count_at(line: &[u8], at: usize, has: bool, most: u64) -> Option<Field>
    ensures { IfSome result (λ field. field.value ≤ most) }
{
    if has {
        let n = field_at(line, at, 4)?;
        if n.value <= most {
            return Some(n);
        }
        return None;
    }
    Some(Field { value: 0, next: at })
}

// The n numbers from an index on, to the front of list; answers the index past them.
fn numbers_at(line: &[u8], at: usize, n: usize, list: &mut [f64]) -> Option<usize>
    requires { n ≤ length list.old }
{
    let mut next = at;
    for i in 0..n {
        let x = field_at(line, next, 16)?;
        list[i] = float(x.value);
        next = x.next;
    }
    Some(next)
}

// The count of the list at an index, if it fits, and the index past the list; its numbers go to the
// front of list.
fn list_at(line: &[u8], at: usize, has: bool, list: &mut [f64]) -> Option<Field>
    ensures { IfSome result (λ field. field.value ≤ length list.new) }
{
    let n = count_at(line, at, has, list.len() as u64)?;
    let value = n.value;
    let next = numbers_at(line, n.next, value as usize, list)?;
    Some(Field { value, next })
}

// The query of a line that is whole: nothing is missing, and nothing follows. The lists go to the front
// of first and second, the numbers beside them to that of numbers.
pub fn parse(
    line: &[u8],
    first: &mut [f64],
    second: &mut [f64],
    numbers: &mut [f64],
) -> Option<Query>
    requires { 16 ≤ length numbers.old }
    ensures { IfSome result (λ q. (q.n ≤ length first.new) × (q.m ≤ length second.new) × (q.k ≤ 1024)) }
{
    let kind = Kind::of(byte_at(line, 0), byte_at(line, 1))?;
    let row = kind.row();
    let s = list_at(line, kind.letters(), 0 < row.lists, first)?;
    let t = list_at(line, s.next, 1 < row.lists, second)?;
    let next = numbers_at(line, t.next, row.numbers, numbers)?;
    let size = count_at(line, next, row.sized, MOST)?;
    if size.next == line.len() {
        return Some(Query {
            kind,
            n: s.value as usize,
            m: t.value as usize,
            k: size.value as usize,
        });
    }
    None
}
