use crate::given::fault;
use std::rt::HostRuntime;

#[test]
fn a_line_without_its_words_is_short(rt: HostRuntime) {
    let texts: [&[u8]; 12] = [
        b"\n",
        b"t\n",
        b"t \n",
        b"t lock\n",
        b"t lock l\n",
        b"t  lock l f:1\n",
        b"t lock  f:1\n",
        b"t lock l f:1 \n",
        b"t unlock l\n",
        b"t trylock l 1\n",
        b"t start\n",
        b"t join \n",
    ];
    for text in &texts {
        assert!(rt; text.len() < 100);
        assert_eq!(rt; fault(rt.alloc(), *text), Some((1, 1)));
    }
}

#[test]
fn each_kind_of_fault_comes_with_its_line(rt: HostRuntime) {
    let cases: [(&[u8], (u32, u32)); 14] = [
        (b"t lock l f:1\n\nt\n", (2, 1)),
        (b"t take l f:1\n", (1, 2)),
        (b"t Lock l\n", (1, 2)),
        (b"t start u\nt join u\nt trylock l 2 f:1\n", (3, 3)),
        (b"t trylock l f:1\n", (1, 3)),
        (b"t trylock l 2\n", (1, 3)),
        (b"t lock l f\n", (1, 4)),
        (b"t lock l :1\n", (1, 4)),
        (b"t lock l f:\n", (1, 4)),
        (b"t unlock l f:1 g:01\n", (1, 4)),
        (b"t unlock l f:4294967296\n", (1, 4)),
        (b"t lock l f:1 g:2:x h:3 \n", (1, 4)),
        (b"t start u v\n", (1, 5)),
        (b"t lock l f:1\nt join u \n", (2, 5)),
    ];
    for (text, want) in &cases {
        assert!(rt; text.len() < 100);
        assert_eq!(rt; fault(rt.alloc(), *text), Some(*want));
    }
}
