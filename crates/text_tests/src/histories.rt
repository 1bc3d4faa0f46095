ghost use Rattle.dim_stack.specs.Names.{HasNames};

use dim_history_file::{History, ReadFault, read, rename, write};
use dim_stack::Names;
use std::alloc::Global;
use std::process::Abort;

// A deadlock of two threads that was avoided once.
const PAIR: &str = "dim history 2
signature 4 2 on 1
left:0
right:0
end 1
";

// One that nobody avoids.
const PAIR_OFF: &str = "dim history 2
signature 4 2 off 0
left:0
right:0
end 1
";

// One of an older text.
const OLD_PAIR: &str = "dim history 1
signature 4 2
left:0
right:0
end 1
";

// The history of a text.
fn history_of(rt: &impl Abort, alloc: Global, text: &str) -> History {
    read(alloc, text.as_bytes()).expect(rt, "a history")
}

// A history has this text.
fn has_text(rt: &impl Abort, alloc: Global, h: &History, text: &str) {
    let written = write(alloc, h).expect(rt, "a text");
    assert_eq!(rt; written.as_slice(), text.as_bytes());
}

// What is written of a text that was read is this.
fn is_written(rt: &impl Abort, alloc: Global, text: &str, want: &str) {
    let h = history_of(rt, alloc, text);
    has_text(rt, alloc, &h, want);
}

// The line and the number of the kind of a text's fault.
fn fault(alloc: Global, text: &str) -> Option<(u32, u32)> {
    match read(alloc, text.as_bytes()) {
        Err(ReadFault::Bad(fault)) => Some((fault.line, fault.kind.number())),
        _ => None,
    }
}

#[test]
fn a_history_is_read_and_written_again(rt: HostRuntime) {
    let h = history_of(&rt, rt.alloc(), PAIR);
    assert_eq!(rt; (h.names.len(), h.catalogue.len()), (2, 1));
    assert_eq!(rt; h.names.find(b"right"), Some(1));
    assert_eq!(rt; PAIR.len(), 54);
    has_text(&rt, rt.alloc(), &h, PAIR);
}

#[test]
fn states_and_yields_stay(rt: HostRuntime) {
    let h = history_of(&rt, rt.alloc(), PAIR_OFF);
    assert_eq!(rt; h.catalogue.len(), 1);
    assert_eq!(rt;
        (h.catalogue.get(0).on(), h.catalogue.get(0).yields()),
        (false, 0)
    );
    assert_eq!(rt; PAIR_OFF.len(), 55);
    has_text(&rt, rt.alloc(), &h, PAIR_OFF);
    let most = "dim history 2\nsignature 32 2 off 4294967295\na:0\na:0\nend 1\n";
    is_written(&rt, rt.alloc(), most, most);
}

#[test]
fn what_an_older_text_has_is_on_with_no_yields(rt: HostRuntime) {
    let want = "dim history 2\nsignature 4 2 on 0\nleft:0\nright:0\nend 1\n";
    is_written(&rt, rt.alloc(), OLD_PAIR, want);
}

const SIGNATURE_LINES: [(&str, u32); 11] = [
    ("dim history 3\nend 0\n", 1),
    ("dim history 1\nsignature 4 2 on 0\n", 2),
    ("dim history 2\nsignature 4 2\n", 2),
    ("dim history 2\nsignature 4 2 on\n", 2),
    ("dim history 2\nsignature 4 2 on 0 0\n", 2),
    ("dim history 2\nsignature 4 2 on  0\n", 2),
    ("dim history 2\nsignature 0 2 no 0\n", 2),
    ("dim history 2\nsignature 4 2 ON x\n", 2),
    ("dim history 2\nsignature 4 2 on 00\n", 4),
    ("dim history 2\nsignature 4 2 off 4294967296\n", 4),
    ("dim history 2\nsignature 4 1 off 0\n", 4),
];

#[test]
fn each_version_has_a_signature_line_of_its_own(rt: HostRuntime) {
    for (text, kind) in &SIGNATURE_LINES {
        let line = if *kind == 1 { 1 } else { 2 };
        assert_eq!(rt; fault(rt.alloc(), text), Some((line, *kind)));
    }
}

#[test]
fn the_empty_history_has_twenty_bytes(rt: HostRuntime) {
    let h = History::empty(rt.alloc()).expect(&rt, "a history");
    has_text(&rt, rt.alloc(), &h, "dim history 2\nend 0\n");
}

const BAD_HISTORIES: [(&str, u32, u32); 3] = [
    ("dim history 1\nsignature 4 2\nleft:0\nright:0\nend 1", 5, 2),
    (
        "dim history 1\nsignature 4 2\nleft:0\nright:0\nend 1\n\n",
        6,
        8,
    ),
    (
        "dim history 1\nsignature 4 2\nright:0\nleft:0\nend 1\n",
        4,
        5,
    ),
];

#[test]
fn bad_histories_are_told_apart(rt: HostRuntime) {
    for (text, line, kind) in &BAD_HISTORIES {
        assert_eq!(rt; fault(rt.alloc(), text), Some((*line, *kind)));
    }
}

#[test]
fn the_head_is_judged_first(rt: HostRuntime) {
    assert_eq!(rt; fault(rt.alloc(), ""), Some((1, 1)));
    assert_eq!(rt; fault(rt.alloc(), "dim history 1"), Some((1, 1)));
    assert_eq!(rt; fault(rt.alloc(), "dim  history 1\n"), Some((1, 1)));
}

const FORMS: [(&str, u32); 7] = [
    ("dim history 1\n", 2),
    ("dim history 1\nend 0", 2),
    ("dim history 1\nend 0 0\n", 2),
    ("dim history 1\nsignature 4  2\n", 2),
    ("dim history 1\nsignature 4 2\n\n", 3),
    ("dim history 1\nsignature 4 2\nleft\n", 3),
    ("dim history 1\nsignature 4 2\nleft:0 \n", 3),
];

#[test]
fn a_line_has_its_form_and_its_end(rt: HostRuntime) {
    for (text, line) in &FORMS {
        assert_eq!(rt; fault(rt.alloc(), text), Some((*line, 2)));
    }
}

const WORDS: [(&str, u32, u32); 8] = [
    ("dim history 1\nsignature 0 2\n", 2, 4),
    ("dim history 1\nsignature 4 33\n", 2, 4),
    ("dim history 1\nend x\n", 2, 4),
    ("dim history 1\nend 1\n", 2, 7),
    ("dim history 1\nsignature 4 2\n1x:0\n", 3, 3),
    ("dim history 1\nsignature 4 2\na:65536 :0\n", 3, 4),
    ("dim history 1\nsignature 4 2\n:0 a:65536\n", 3, 3),
    ("dim history 1\nsignature 4 2\nb:0\na:0\n", 4, 5),
];

#[test]
fn words_are_judged_from_left_to_right(rt: HostRuntime) {
    for (text, line, kind) in &WORDS {
        assert_eq!(rt; fault(rt.alloc(), text), Some((*line, *kind)));
    }
}

#[test]
fn nothing_stands_behind_the_end(rt: HostRuntime) {
    assert_eq!(rt; fault(rt.alloc(), "dim history 1\nend 0\nx"), Some((3, 8)));
    assert_eq!(rt; fault(rt.alloc(), "dim history 1\nend 0\n\n"), Some((3, 8)));
}

#[test]
fn no_two_signatures_have_the_same_stacks(rt: HostRuntime) {
    let text = "dim history 1\nsignature 4 2\na:0\na:0\nsignature 7 2\na:0\na:0\nend 2\n";
    assert_eq!(rt; fault(rt.alloc(), text), Some((7, 6)));
}

#[test]
fn a_stack_has_at_most_32_frames(rt: HostRuntime) {
    let text =
        "dim history 1\nsignature 4 2\n0:0 a:0 a:0 a:0 a:0 a:0 a:0 a:0 a:0 a:0 a:0 a:0 a:0 a:0 a:0 a:0 a:0 a:0 a:0 a:0 a:0 a:0 a:0 a:0 a:0 a:0 a:0 a:0 a:0 a:0 a:0 a:0 a:0\n";
    assert_eq!(rt; fault(rt.alloc(), text), Some((3, 9)));
}

// A table of the names of a history and two more.
fn wider(rt: &impl Abort, alloc: Global, h: &History) -> Names
    ensures { HasNames result h.now.names }
{
    let more = history_of(
        rt,
        alloc,
        "dim history 1\nsignature 4 2\na:0\nzoo:0\nend 1\n",
    );
    assert!(rt; more.names.len() <= 9 && h.names.len() <= 9);
    Names::merge(alloc, &more.names, &h.names).expect(rt, "names")
}

#[test]
fn a_history_has_the_same_text_in_a_wider_table(rt: HostRuntime) {
    let h = history_of(&rt, rt.alloc(), PAIR);
    let names = wider(&rt, rt.alloc(), &h);
    let wide = rename(rt.alloc(), h, &names).expect(&rt, "a history");
    assert_eq!(rt; wide.names.find(b"right"), Some(2));
    has_text(&rt, rt.alloc(), &wide, PAIR);
}
