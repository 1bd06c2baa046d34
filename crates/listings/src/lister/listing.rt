// The listing of a store, and the line of a refusal.
ghost use Rattle.std.specs.Prelude.{◌≤◌, length};
ghost use Rattle.listings.specs.store_listing.Listing as listing_specs;
ghost use Rattle.listings.specs.store_listing.Listing.{accepted_text, refusal_line, input_listing, StoreListed, Prints};
ghost use Rattle.listings.specs.store_listing.Steps.{Written};

use super::lines::{put_lines, put_refusal_line, put_section_line};
use store::{RefusedStore, length_answer, read_chain, read_section};

fn put_accepted(store: &[u8], s: &[f64], order: &[u32], text: &mut [u8]) -> usize
    requires { length (accepted_text store.now s.now order.now) ≤ length text.old }
    ensures { let l = accepted_text store.now s.now order.now in
        Written text.old 0 l text.new result }
{
    let from = put_section_line(s, text);
    put_lines(store, s, order, text, from)
}

// How many bytes the listing has, at the front of the text, or the refusal, with the text as it
// was. No listing is longer than the text: 500 bodies beside 11 vertices, with the longest indices and
// edge 10.
pub fn list_store(store: &[u8], text: &mut [u8; 28923]) -> Result<usize, RefusedStore>
    ensures { StoreListed store.now text.old result text.new }
{
    let mut order = [0u32; 512];
    let mut space = [0.0; 512];
    let n = read_chain(store, &mut order)?;
    let m = read_section(store, &order[..n], &mut space)?;
    Ok(put_accepted(store, &space[..m], &order[..n], text))
}

// Puts the line of a refusal at the front of the text, and says how many bytes it has.
pub fn refusal_line(number: u32, k: u32, text: &mut [u8; 33]) -> usize
    ensures { Prints (refusal_line number k) text.old text.new result }
{
    put_refusal_line(number, k, text)
}

// Puts what the listing program prints of a store: its listing, or the line of its refusal.
fn put_listing(store: &[u8], text: &mut [u8; 28923]) -> usize
    ensures { Prints (listing_specs.listing store.now) text.old text.new result }
{
    match list_store(store, text) {
        Ok(n) => n,
        Err(refused) => put_refusal_line(refused.refusal.number(), refused.at, text),
    }
}

// The same of an input of n bytes that went into the buffer as far as it reaches. The buffer holds
// the largest store, so that what is longer is none.
pub fn list_input(buffer: &[u8; 20480], n: usize, text: &mut [u8; 28923]) -> usize
    ensures { Prints (input_listing n buffer.now) text.old text.new result }
{
    let room: &[u8] = buffer;
    match length_answer(n) {
        Ok(()) => put_listing(&room[..n], text),
        Err(length) => put_refusal_line(length.refusal.number(), length.at, text),
    }
}
