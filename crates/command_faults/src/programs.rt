//! Programs that are refused.
use crate::calls::answers;

// Programs, and the line that is put of each.
const BAD: [(&[u8], &str); 3] = [
    (
        b"dim program 1\nlock a\nlock b\nfunc left 0\nLOCK q\nLOCK b\nUNLOCK b\nUNLOCK a\nRET\nend\nfunc right 0\nLOCK b\nLOCK a\nUNLOCK a\nUNLOCK b\nRET\nend\nthread left 0\nthread right 0\nend program\n",
        "program line 5 kind 5\n",
    ),
    (
        b"dim program 1\nlock a\nlock b\nfunc left 0\nLOCK q\nLOCK b\nUNLOCK b\nUNLOCK a\nRET\nend\nfunc right 0\nLOCK b\nLOCK a\nUNLOCK a\nUNLOCK b\nRET\nend\nthread left 0\nthread right x\nend program\n",
        "program line 19 kind 2\n",
    ),
    (
        b"dim program 1\nlock a\nlock b\nfunc left 0\nLOCK a\nLOCK b\nUNLOCK b\nUNLOCK a\nRET\nend\nfunc right 0\nLOCK b\nLOCK a\nUNLOCK a\nUNLOCK b\nRET\nend\nthread left 0\nthread right 0\n",
        "program line 20 kind 1\n",
    ),
];

#[test]
fn a_program_may_be_bad(rt: HostRuntime) {
    for &(program, put) in &BAD {
        let given = [("p", program)];
        answers(&rt, rt.alloc(), "run p - h t", &given, 5, put);
    }
}
