ghost use Rattle.std.specs.Prelude.{◌≡◌, ◌+◌, ◌≤◌, length};

use dim_signature::{Add, Catalogue, SigFault, Signature, sort_stacks};
use dim_stack::{Frame, Stack};
use std::alloc::Global;
use std::process::Abort;

const LEFT: u32 = 0;

const RIGHT: u32 = 1;

// A stack of one frame.
fn at(func: u32, at: u32) -> Stack {
    Stack::new(&[Frame { func, at }])
}

// The stacks of a deadlock of two threads, which numbers above 0 keep apart.
fn pair(number: u32) -> [Stack; 2] {
    [at(LEFT, number), at(RIGHT, number)]
}

// Both numbers are the same.
fn same(rt: &impl Abort, number: u32, expected: u32) {
    assert_eq!(rt; number, expected);
}

fn signature(rt: &impl Abort, alloc: Global, depth: u8, stacks: [Stack; 2]) -> Signature {
    Signature::new(alloc, depth, &stacks).expect(rt, "a signature")
}

// The number that a catalogue gives the signature of these stacks.
fn added(rt: &impl Abort, alloc: Global, catalogue: &mut Catalogue, stacks: [Stack; 2]) -> u32
    ensures { catalogue.new.spare ≡ catalogue.old.spare }
{
    let sig = signature(rt, alloc, 4, stacks);
    catalogue.add(sig).expect(rt, "a place")
}

// A catalogue gives the signature of these stacks this number.
fn adds(rt: &impl Abort, alloc: Global, catalogue: &mut Catalogue, stacks: [Stack; 2], number: u32)
    ensures { catalogue.new.spare ≡ catalogue.old.spare }
{
    same(rt, added(rt, alloc, catalogue, stacks), number);
}

// A catalogue does not take the signature of these stacks, because of this.
fn refuses(
    rt: &impl Abort,
    alloc: Global,
    catalogue: &mut Catalogue,
    depth: u8,
    stacks: [Stack; 2],
    cause: Add,
) {
    let sig = signature(rt, alloc, depth, stacks);
    let found = catalogue.add(sig).expect_err(rt, "a refusal");
    assert_eq!(rt; found, cause);
}

// A catalogue of signatures with these numbers.
fn catalogue_of(rt: &impl Abort, alloc: Global, numbers: &[u32]) -> Catalogue {
    let mut catalogue = Catalogue::new(alloc);
    for number in numbers {
        added(rt, alloc, &mut catalogue, pair(*number));
    }
    catalogue
}

// The catalogue is done with.
fn close(_catalogue: Catalogue) {}

// The signature of these stacks, which no signature has yet, is learnt with this number.
fn learns(rt: &impl Abort, catalogue: &mut Catalogue, depth: u8, stacks: &mut [Stack], number: u32)
    requires room { 1 ≤ catalogue.old.spare }
    requires low { 1 ≤ depth }
    requires high { depth ≤ 32 }
    requires some { 2 ≤ length stacks.old }
    requires few { length stacks.old ≤ 32 }
    ensures { catalogue.old.spare ≤ catalogue.new.spare + 1 }
{
    sort_stacks(stacks);
    assert!(rt; catalogue.len() < 4096);
    assert!(rt; catalogue.find(stacks).is_none());
    same(rt, catalogue.learn(depth, stacks), number);
}

// The signature of these stacks is not made, because of this.
fn has_fault(rt: &impl Abort, alloc: Global, depth: u8, stacks: &[Stack], fault: SigFault)
    requires { length stacks.now ≤ 33 }
{
    let found = Signature::new(alloc, depth, stacks).expect_err(rt, "a fault");
    assert_eq!(rt; found, fault);
}

#[test]
fn a_signature_has_two_to_32_stacks_and_a_depth(rt: HostRuntime) {
    let alloc = rt.alloc();
    let s = at(LEFT, 0);
    let few = SigFault::TooFew { count: 1 };
    has_fault(&rt, alloc, 4, &[s], few);
    has_fault(&rt, alloc, 33, &[s], few);
    has_fault(&rt, alloc, 0, &[s; 33], SigFault::TooMany { count: 33 });
    has_fault(&rt, alloc, 33, &[s, s], SigFault::BadDepth { depth: 33 });
    has_fault(&rt, alloc, 0, &[s; 32], SigFault::BadDepth { depth: 0 });
    let most = Signature::new(alloc, 32, &[s; 32]).expect(&rt, "a signature");
    same(&rt, most.len(), 32);
    has_depth(&rt, &most, 32);
}

fn has_depth(rt: &impl Abort, sig: &Signature, depth: u8) {
    same(rt, sig.depth() as u32, depth as u32);
}

// The stacks of a signature are these, in this order.
fn has_stacks(rt: &impl Abort, sig: &Signature, stacks: &[Stack]) {
    assert!(rt; sig.as_slice() == stacks);
}

// The stack of a signature at a position.
fn stands_at(rt: &impl Abort, sig: &Signature, i: u32, stack: Stack) {
    assert!(rt; i < sig.len());
    assert!(rt; *sig.stack(i) == stack);
}

#[test]
fn a_signature_puts_its_stacks_in_order(rt: HostRuntime) {
    let deep = Stack::new(&[Frame { func: LEFT, at: 5 }, Frame { func: RIGHT, at: 0 }]);
    let given = [at(RIGHT, 0), deep, at(LEFT, 5), at(LEFT, 0), deep];
    let sorted = [at(LEFT, 0), at(LEFT, 5), deep, deep, at(RIGHT, 0)];
    let sig = Signature::new(rt.alloc(), 4, &given).expect(&rt, "a signature");
    has_stacks(&rt, &sig, &sorted);
    stands_at(&rt, &sig, 4, at(RIGHT, 0));
}

#[test]
fn a_known_signature_is_not_added_again(rt: HostRuntime) {
    let alloc = rt.alloc();
    let mut catalogue = Catalogue::new(alloc);
    let [left, right] = pair(0);
    let known = Add::Known { index: 0 };
    adds(&rt, alloc, &mut catalogue, [left, right], 0);
    refuses(&rt, alloc, &mut catalogue, 7, [right, left], known);
    adds(&rt, alloc, &mut catalogue, [left, left], 1);
    assert!(rt; catalogue.len() == 2);
    has_depth(&rt, catalogue.get(0), 4);
    close(catalogue);
}

// The place of the signature with a number.
fn finds(rt: &impl Abort, catalogue: &Catalogue, number: u32, place: Option<u32>) {
    assert_eq!(rt; catalogue.find(&pair(number)), place, "{number}");
}

fn finds_all(rt: &impl Abort, catalogue: &Catalogue, places: &[(u32, Option<u32>)]) {
    for (number, place) in places {
        finds(rt, catalogue, *number, *place);
    }
}

// No signature has these stacks in this order.
fn finds_none(rt: &impl Abort, catalogue: &Catalogue, stacks: &[Stack]) {
    assert!(rt; catalogue.find(stacks).is_none());
}

const PLACES: [(u32, Option<u32>); 11] = [
    (7, Some(0)),
    (2, Some(1)),
    (9, Some(2)),
    (4, Some(3)),
    (0, Some(4)),
    (8, Some(5)),
    (1, None),
    (3, None),
    (5, None),
    (6, None),
    (10, None),
];

#[test]
fn signatures_are_found_whatever_their_order(rt: HostRuntime) {
    let catalogue = catalogue_of(&rt, rt.alloc(), &[7, 2, 9, 4, 0, 8]);
    finds_all(&rt, &catalogue, &PLACES);
    let [left, right] = pair(7);
    finds_none(&rt, &catalogue, &[right, left]);
    finds_none(&rt, &catalogue, &[left]);
    close(catalogue);
}

const LEARNT: [(u32, Option<u32>); 4] = [(3, Some(0)), (1, Some(1)), (2, Some(2)), (4, Some(3))];

#[test]
fn a_signature_is_learnt_in_the_room_that_was_made(rt: HostRuntime) {
    let alloc = rt.alloc();
    let mut catalogue = catalogue_of(&rt, alloc, &[3, 1]);
    catalogue.reserve(2).expect(&rt, "room");
    learns(&rt, &mut catalogue, 5, &mut pair(2), 2);
    adds(&rt, alloc, &mut catalogue, pair(4), 3);
    learns(&rt, &mut catalogue, 6, &mut [at(LEFT, 9); 32], 4);
    finds_all(&rt, &catalogue, &LEARNT);
    assert!(rt; catalogue.len() == 5);
    has_depth(&rt, catalogue.get(2), 5);
    has_stacks(&rt, catalogue.get(4), &[at(LEFT, 9); 32]);
    close(catalogue);
}

// The first three signatures of both are the same.
fn are_same(rt: &impl Abort, copy: &Catalogue, catalogue: &Catalogue) {
    assert!(rt; copy.len() == 3);
    assert!(rt; catalogue.len() == 3);
    for i in 0..3 {
        has_depth(rt, copy.get(i), catalogue.get(i).depth());
        has_stacks(rt, copy.get(i), catalogue.get(i).as_slice());
    }
}

#[test]
fn a_copy_has_the_same_signatures(rt: HostRuntime) {
    let alloc = rt.alloc();
    let mut catalogue = catalogue_of(&rt, alloc, &[6, 5]);
    catalogue.reserve(1).expect(&rt, "room");
    learns(&rt, &mut catalogue, 9, &mut pair(7), 2);
    let copy = catalogue.copy(alloc).expect(&rt, "a copy");
    are_same(&rt, &copy, &catalogue);
    finds(&rt, &copy, 7, Some(2));
    close(copy);
    close(catalogue);
}

// The signature with a number is in this state, and has so many yields.
fn stands(rt: &impl Abort, catalogue: &Catalogue, i: u32, on: bool, yields: u32) {
    assert!(rt; i < catalogue.len());
    assert!(rt; catalogue.get(i).on() == on);
    same(rt, catalogue.get(i).yields(), yields);
}

fn switch(rt: &impl Abort, catalogue: &mut Catalogue, i: u32, on: bool) {
    assert!(rt; i < catalogue.len());
    catalogue.switch(i, on);
}

fn count(rt: &impl Abort, catalogue: &mut Catalogue, i: u32, more: u32) {
    assert!(rt; i < catalogue.len());
    catalogue.count(i, more);
}

#[test]
fn one_signature_is_switched_and_counted(rt: HostRuntime) {
    let alloc = rt.alloc();
    let mut catalogue = catalogue_of(&rt, alloc, &[6, 5]);
    same(&rt, catalogue.len(), 2);
    stands(&rt, &catalogue, 1, true, 0);
    switch(&rt, &mut catalogue, 1, false);
    count(&rt, &mut catalogue, 1, 7);
    count(&rt, &mut catalogue, 1, 4294967287);
    stands(&rt, &catalogue, 1, false, 4294967294);
    count(&rt, &mut catalogue, 1, 9);
    stands(&rt, &catalogue, 1, false, 4294967295);
    stands(&rt, &catalogue, 0, true, 0);
    finds(&rt, &catalogue, 5, Some(1));
    let copy = catalogue.copy(alloc).expect(&rt, "a copy");
    same(&rt, copy.len(), 2);
    stands(&rt, &copy, 1, false, 4294967295);
    close(copy);
    switch(&rt, &mut catalogue, 1, true);
    stands(&rt, &catalogue, 1, true, 4294967295);
    close(catalogue);
}

// A catalogue of the signatures with the numbers below 4,096.
fn full(rt: &impl Abort, alloc: Global) -> Catalogue {
    let mut catalogue = Catalogue::new(alloc);
    for number in 0..4096 {
        adds(rt, alloc, &mut catalogue, pair(number), number);
    }
    catalogue
}

#[test]
fn a_catalogue_has_room_for_4096_signatures(rt: HostRuntime) {
    let alloc = rt.alloc();
    let mut catalogue = full(&rt, alloc);
    let known = Add::Known { index: 17 };
    refuses(&rt, alloc, &mut catalogue, 4, pair(4096), Add::Full);
    refuses(&rt, alloc, &mut catalogue, 9, pair(17), known);
    same(&rt, catalogue.len(), 4096);
    finds(&rt, &catalogue, 4095, Some(4095));
    finds(&rt, &catalogue, 4096, None);
    close(catalogue);
}
