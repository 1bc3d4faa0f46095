/// Where a thread starts: its function, and its argument, which is its one operand then.
#[derive(Clone, Copy, Debug, PartialEq, Eq)]
pub struct Start {
    pub func: u32,
    pub argument: i64,
}
