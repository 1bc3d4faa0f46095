use crate::given::log;
use dim_base::Bytes;
use dim_log::{Event, Spot};
use std::process::Abort;
use std::rt::HostRuntime;

const EACH: &[u8] = b"main start w-1\n\
w-1 lock 0x7f std::sync::Mutex<T>::lock:12 Foo::~Foo():0\n\
main trylock b 0 left:7\n\
main trylock 0x7f 1 Foo::~Foo():0 left:4294967295\n\
w-1 unlock 0x7f std::sync::Mutex<T>::lock:12 Foo::~Foo():0\n\
main join w-1\n";

/// Whether these are the words of a table.
fn has_words(table: &[Bytes], words: &[&[u8]]) -> bool {
    table.len() == words.len() && table.iter().zip(words).all(|(a, b)| a.as_slice() == *b)
}

#[test]
fn each_line_is_an_event(rt: HostRuntime) {
    let log = log(&rt, rt.alloc(), EACH);
    assert!(rt;
        log.events.as_slice()
            == [
                Event::Start {
                    thread: 0,
                    other: 1
                },
                Event::Lock {
                    thread: 1,
                    lock: 0,
                    stack: 0
                },
                Event::Try {
                    thread: 0,
                    lock: 1,
                    stack: 1,
                    took: false
                },
                Event::Try {
                    thread: 0,
                    lock: 0,
                    stack: 2,
                    took: true
                },
                Event::Unlock {
                    thread: 1,
                    lock: 0,
                    stack: 0
                },
                Event::Join {
                    thread: 0,
                    other: 1
                },
            ]
            .as_slice()
    );
    assert!(rt; !log.cut);
}

#[test]
fn tables_are_in_the_order_of_the_lines(rt: HostRuntime) {
    let log = log(&rt, rt.alloc(), EACH);
    assert!(rt; has_words(&log.threads, &[b"main", b"w-1"]));
    assert!(rt; has_words(&log.locks, &[b"0x7f", b"b"]));
    assert!(rt;
        has_words(
            &log.functions,
            &[b"std::sync::Mutex<T>::lock", b"Foo::~Foo()", b"left"]
        )
    );
    assert!(rt; log.stacks.len() == 3);
    assert!(rt;
        log.stacks[0].as_slice()
            == [
                Spot {
                    function: 0,
                    line: 12
                },
                Spot {
                    function: 1,
                    line: 0
                },
            ]
            .as_slice()
    );
    assert!(rt;
        log.stacks[1].as_slice()
            == [Spot {
                function: 2,
                line: 7
            }]
            .as_slice()
    );
    assert!(rt;
        log.stacks[2].as_slice()
            == [
                Spot {
                    function: 1,
                    line: 0
                },
                Spot {
                    function: 2,
                    line: 4294967295
                },
            ]
            .as_slice()
    );
}

#[test]
fn a_log_may_be_cut_off(rt: HostRuntime) {
    let cases: [(&[u8], usize, bool); 5] = [
        (b"", 0, false),
        (b"t lo", 0, true),
        (b"t lock l f:1\n", 1, false),
        (b"t lock l f:1\nt lock l f", 1, true),
        (b"t lock l f:1\nt unlock l f:2\n ", 2, true),
    ];
    for (text, events, cut) in &cases {
        assert!(rt; text.len() < 100);
        let log = log(&rt, rt.alloc(), *text);
        assert!(rt; log.events.len() == *events && log.cut == *cut);
    }
}

#[test]
fn words_may_have_any_bytes(rt: HostRuntime) {
    let log = log(
        &rt,
        rt.alloc(),
        b"\xff lock \x80: ::f:3 f:1:2 \xc3\x28\t:4\nlock join join\n",
    );
    assert!(rt; has_words(&log.threads, &[b"\xff", b"lock", b"join"]));
    assert!(rt; has_words(&log.locks, &[b"\x80:"]));
    assert!(rt; has_words(&log.functions, &[b"::f", b"f:1", b"\xc3\x28\t"]));
}
