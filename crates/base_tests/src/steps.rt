//! Steps that are counted, and steps that are not.
ghost use Rattle.std.specs.Prelude.{◌≡◌, ◌+◌, ◌*◌, ◌<◌, ◌≤◌, length};

use sim_base::Steps;
use std::marker::Brand;
use std::sync::ledger::{Blank, Book, Ledger, Share};

/// How many zeros there are, in one step for each byte.
fn zeros_in<L: Ledger>(bytes: &[u8], steps: &mut Steps<L>) -> usize
    ensures within { result ≤ length bytes.now }
    ensures cost { steps.new ≡ steps.old + length bytes.now }
{
    let mut count = 0;
    for byte in bytes {
        steps.tick();
        if *byte == 0 {
            count += 1;
        }
    }
    count
}

/// A caller that counts.
fn zeros_twice<L: Ledger>(bytes: &[u8], steps: &mut Steps<L>) -> usize
    ensures cost { steps.new ≡ steps.old + 2 * length bytes.now }
{
    zeros_in(bytes, steps).max(zeros_in(bytes, steps))
}

/// A caller that counts nothing, with a ledger that stands for nothing else.
fn zeros_uncounted<L: Ledger>(bytes: &[u8], blank: Blank) -> usize
    requires name { blank.name ≡ L.name }
    requires parts { blank.parts ≡ L.parts }
    requires some { 0 < blank.parts }
{
    zeros_twice(bytes, &mut Steps::<L>::new(blank))
}

#[test]
fn steps_are_counted_or_not(rt: HostRuntime) {
    assert_eq!(rt; zeros_uncounted::<Brand>(&[0, 1, 0], Blank::new(1)), 2);
}

/// How many zeros there are, with the steps in a book.
fn zeros_by_book<L: Ledger>(bytes: &[u8], book: Book<L>, share: Share<L>) -> (usize, Book<L>)
    requires { 0 < share.parts }
    ensures { result.1.total ≡ book.total + 2 * length bytes.now }
{
    let mut steps = Steps::of(book, share);
    let count = zeros_twice(bytes, &mut steps);
    let (book, _) = steps.into_book();
    (count, book)
}

/// A caller that has a book of its own.
fn zeros_in_new_book<L: Ledger>(bytes: &[u8], blank: Blank) -> usize
    requires name { blank.name ≡ L.name }
    requires parts { blank.parts ≡ L.parts }
    requires some { 0 < blank.parts }
{
    let (book, share) = blank.open::<L>();
    zeros_by_book(bytes, book, share).0
}

#[test]
fn steps_go_on_in_a_book(rt: HostRuntime) {
    assert_eq!(rt; zeros_in_new_book::<Brand>(&[0, 1, 0], Blank::new(1)), 2);
}
