// The lines of a listing.
ghost use mathlib.Core.List.{flat_map};
ghost use Rattle.std.specs.Prelude.{◌+◌, ◌≤◌, length};
ghost use Rattle.section.specs.profile.Replies.{told};
ghost use Rattle.listings.specs.store_listing.Listing.{answer_text, field_text, edge_text, hit_text, body_line, record_line};
ghost use Rattle.listings.specs.store_listing.Listing.{section_line, refusal_line};
ghost use Rattle.listings.specs.store_listing.Steps.{Written};

use super::bodies::body_answer;
use crate::store_listing::{put_bits, put_decimal, put_word};
use section::{CollisionHit, Refusal};
use store::{Kind, is_kind};

// A space, and the bits of x.
fn put_field(text: &mut [u8], at: usize, x: f64) -> usize
    requires { at + 17 ≤ length text.old }
    ensures { Written text.old at (field_text x) text.new result }
{
    let a = put_word(text, at, b" ");
    put_bits(text, a, x)
}

// A space, and the number of an edge.
fn put_edge(text: &mut [u8], at: usize, k: usize) -> usize
    requires { at + length (edge_text k) ≤ length text.old }
    ensures { Written text.old at (edge_text k) text.new result }
{
    let a = put_word(text, at, b" ");
    put_decimal(text, a, k as u64)
}

// Distance, witness z, witness radius, edge.
fn put_hit(text: &mut [u8], at: usize, hit: CollisionHit) -> usize
    requires { at + length (hit_text hit) ≤ length text.old }
    ensures { Written text.old at (hit_text hit) text.new result }
{
    let witness = hit.witness;
    let a = put_field(text, at, hit.distance);
    let b = put_field(text, a, witness.z);
    let c = put_field(text, b, witness.r);
    put_edge(text, c, witness.edge)
}

fn put_answer(text: &mut [u8], at: usize, answer: Result<CollisionHit, Refusal>) -> usize
    requires { at + length (answer_text (told answer)) ≤ length text.old }
    ensures { Written text.old at (answer_text (told answer)) text.new result }
{
    match answer {
        Ok(hit) => put_hit(text, at, hit),
        Err(refusal) => {
            let a = put_word(text, at, b" refused ");
            put_decimal(text, a, refusal.number() as u64)
        }
    }
}

fn put_body_line(store: &[u8], s: &[f64], k: u32, text: &mut [u8], at: usize) -> usize
    requires { at + length (body_line store.now s.now k) ≤ length text.old }
    ensures { Written text.old at (body_line store.now s.now k) text.new result }
{
    let answer = body_answer(store, s, k);
    let a = put_decimal(text, at, k as u64);
    let b = put_answer(text, a, answer);
    put_word(text, b, b"\n")
}

// Records that are no bodies have no line.
fn put_record_line(store: &[u8], s: &[f64], k: u32, text: &mut [u8], at: usize) -> usize
    requires { at + length (record_line store.now s.now k) ≤ length text.old }
    ensures { Written text.old at (record_line store.now s.now k) text.new result }
{
    if is_kind(store, k, Kind::Sphere) || is_kind(store, k, Kind::Box) {
        return put_body_line(store, s, k, text, at);
    }
    at
}

pub fn put_lines(store: &[u8], s: &[f64], order: &[u32], text: &mut [u8], from: usize) -> usize
    requires { from + length (flat_map (record_line store.now s.now) order.now) ≤ length text.old }
    ensures { let lines = flat_map (record_line store.now s.now) order.now in
        Written text.old from lines text.new result }
{
    let mut at = from;
    for k in order {
        at = put_record_line(store, s, *k, text, at);
    }
    at
}

pub fn put_section_line(s: &[f64], text: &mut [u8]) -> usize
    requires { length (section_line s.now) ≤ length text.old }
    ensures { Written text.old 0 (section_line s.now) text.new result }
{
    let count = s.len() / 2;
    let a = put_word(text, 0, b"section ");
    let b = put_decimal(text, a, count as u64);
    put_word(text, b, b"\n")
}

pub fn put_refusal_line(number: u32, k: u32, text: &mut [u8]) -> usize
    requires { length (refusal_line number k) ≤ length text.old }
    ensures { Written text.old 0 (refusal_line number k) text.new result }
{
    let a = put_word(text, 0, b"refused ");
    let b = put_decimal(text, a, number as u64);
    let c = put_word(text, b, b" at ");
    let d = put_decimal(text, c, k as u64);
    put_word(text, d, b"\n")
}
