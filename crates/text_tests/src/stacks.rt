ghost use Rattle.std.specs.Prelude.{◌≡◌, ◌≤◌, ◌<◌, ◌^◌, length};

use dim_base::Word;
use dim_stack::{Frame, Names, Stack, agree, compare};
use dim_text::is_name;
use std::alloc::Global;
use std::cmp::Ordering;
use std::process::Abort;

const TAKE: u32 = 0;

const ONE: u32 = 1;

const TWO: u32 = 2;

fn frame(func: u32, at: u32) -> Frame {
    Frame { func, at }
}

/// A call of `take` at its first instruction, by this instruction of a caller.
fn take_from(func: u32, at: u32) -> Stack {
    Stack::new(&[frame(TAKE, 0), frame(func, at)])
}

/// Two stacks agree at a depth, or not.
fn agrees(rt: &impl Abort, depth: u8, a: &Stack, b: &Stack, want: bool)
    requires low { 1 ≤ depth }
    requires high { depth ≤ 32 }
{
    assert_eq!(rt; agree(depth, a, b), want, "{a:?} and {b:?} at {depth}");
}

#[test]
fn stacks_agree_as_far_as_the_depth(rt: HostRuntime) {
    let alone = Stack::new(&[frame(TAKE, 0)]);
    let (one, two) = (take_from(ONE, 0), take_from(TWO, 0));
    agrees(&rt, 1, &one, &two, true);
    agrees(&rt, 2, &one, &two, false);
    agrees(&rt, 2, &one, &take_from(ONE, 1), false);
    agrees(&rt, 32, &one, &take_from(ONE, 0), true);
    agrees(&rt, 1, &alone, &one, true);
    agrees(&rt, 2, &alone, &one, false);
    agrees(&rt, 2, &one, &alone, false);
    agrees(&rt, 4, &alone, &alone, true);
}

/// Two stacks are in this order.
fn compares(rt: &impl Abort, a: &Stack, b: &Stack, order: Ordering) {
    assert_eq!(rt; compare(a, b), order, "{a:?} and {b:?}");
}

/// Each stack comes before those behind it.
fn ascend(rt: &impl Abort, stacks: &[Stack]) {
    for i in 0..stacks.len() {
        for j in 0..stacks.len() {
            compares(rt, &stacks[i], &stacks[j], i.cmp(&j));
        }
    }
}

#[test]
fn stacks_are_ordered_frame_by_frame(rt: HostRuntime) {
    let ascending = [
        Stack::new(&[frame(TAKE, 0)]),
        take_from(TAKE, 0),
        take_from(ONE, 0),
        take_from(ONE, 1),
        take_from(TWO, 0),
        Stack::new(&[frame(TAKE, 7)]),
        Stack::new(&[frame(ONE, 0)]),
    ];
    ascend(&rt, &ascending);
}

/// Both frames are the same.
fn same(rt: &impl Abort, frame: Frame, expected: Frame) {
    assert_eq!(rt; frame, expected);
}

#[test]
fn frames_are_read_innermost_first(rt: HostRuntime) {
    let stack = take_from(TWO, 5);
    assert!(rt; stack.len() == 2);
    same(&rt, stack.frame(0), frame(TAKE, 0));
    same(&rt, stack.frame(1), frame(TWO, 5));
    assert!(rt; stack.as_slice() == [frame(TAKE, 0), frame(TWO, 5)].as_slice());
    compares(&rt, &stack, &stack, Ordering::Equal);
}

fn word(rt: &impl Abort, alloc: Global, text: &str) -> Word
    ensures { result ≡ text.now }
{
    Word::of(alloc, text).expect(rt, "a word")
}

/// The table of those texts that are names.
fn table(rt: &impl Abort, alloc: Global, texts: &[&str]) -> Names
    requires { length texts.now < 2 ^ 32 }
{
    let mut words = Vec::new(alloc);
    for text in texts {
        if is_name(text.as_bytes()) {
            words.push(word(rt, alloc, *text)).expect(rt, "room");
        }
    }
    Names::of(alloc, &words).expect(rt, "a table")
}

/// The table is done with.
fn done(_names: Names) {}

fn spells(rt: &impl Abort, name: &Word, text: &str) {
    assert!(rt; name.as_str() == text, "{text}");
}

/// The names of a table are these, in this order.
fn has_names(rt: &impl Abort, names: &Names, texts: &[&str]) {
    assert!(rt; names.len() as usize == texts.len());
    for i in 0..names.len() {
        spells(rt, names.name(i), texts[i as usize]);
    }
}

/// The number of a name in a table, which is told of a word and of a text.
fn is_numbered(rt: &impl Abort, alloc: Global, names: &Names, name: &str, number: Option<u32>) {
    let word = word(rt, alloc, name);
    assert!(rt; names.number(&word) == number, "{name}");
    assert!(rt; names.find(name.as_bytes()) == number, "{name}");
}

const NUMBERS: [(&str, Option<u32>); 9] = [
    ("B", Some(0)),
    ("b2", Some(1)),
    ("left", Some(2)),
    ("lefts", Some(3)),
    ("right", Some(4)),
    ("", None),
    ("b", None),
    ("lef", None),
    ("zoo", None),
];

fn are_numbered(rt: &impl Abort, alloc: Global, names: &Names) {
    for (name, number) in &NUMBERS {
        is_numbered(rt, alloc, names, *name, *number);
    }
}

#[test]
fn names_are_numbered_in_the_order_of_their_bytes(rt: HostRuntime) {
    let alloc = rt.alloc();
    let texts = ["right", "left", "b2", "B", "right", "lefts", "left"];
    let names = table(&rt, alloc, &texts);
    has_names(&rt, &names, &["B", "b2", "left", "lefts", "right"]);
    are_numbered(&rt, alloc, &names);
    done(names);
    let none = table(&rt, alloc, &[]);
    assert!(rt; none.len() == 0);
    done(none);
}

/// The table of the names of both.
fn merged(rt: &impl Abort, alloc: Global, ours: &Names, theirs: &Names) -> Names {
    assert!(rt; ours.len() <= 9);
    assert!(rt; theirs.len() <= 9);
    Names::merge(alloc, ours, theirs).expect(rt, "a table")
}

#[test]
fn a_merged_table_has_the_names_of_both(rt: HostRuntime) {
    let alloc = rt.alloc();
    let ours = table(&rt, alloc, &["zoo", "lost"]);
    let theirs = table(&rt, alloc, &["left", "lost", "right"]);
    let both = merged(&rt, alloc, &ours, &theirs);
    has_names(&rt, &both, &["left", "lost", "right", "zoo"]);
    done(ours);
    done(theirs);
    done(both);
}
