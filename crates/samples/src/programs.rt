//! Programs.

/// One thread that ends at once.
pub const SMALLEST: &[u8] = b"dim program 1\nfunc main 0\nRET\nend\nthread main 0\nend program\n";

/// Two threads that take two locks in opposite orders.
pub const CROSSED: &[u8] =
    b"dim program 1\nlock a\nlock b\nfunc left 0\nLOCK a\nLOCK b\nUNLOCK b\nUNLOCK a\nRET\nend\nfunc right 0\nLOCK b\nLOCK a\nUNLOCK a\nUNLOCK b\nRET\nend\nthread left 0\nthread right 0\nend program\n";

/// Two threads that starve once `INTERLEAVED` is known.
pub const CHAINED: &[u8] =
    b"dim program 1\nlock a\nlock b\nlock c\nfunc left 0\nLOCK a\nLOCK c\nUNLOCK c\nUNLOCK a\nRET\nend\nfunc right 0\nLOCK c\nLOCK b\nUNLOCK b\nUNLOCK c\nRET\nend\nthread left 0\nthread right 0\nend program\n";

/// Two threads that starve once `INTERLEAVED` is known, and after a break wait for each other.
pub const LEADS_ON: &[u8] =
    b"dim program 1\nlock a\nlock b\nlock c\nfunc left 0\nLOCK a\nLOCK c\nLOCK b\nUNLOCK b\nUNLOCK c\nUNLOCK a\nRET\nend\nfunc right 0\nLOCK c\nLOCK b\nUNLOCK c\nLOCK a\nUNLOCK a\nUNLOCK b\nRET\nend\nthread left 0\nthread right 0\nend program\n";

/// The first thread ends with a lock because of which the second one yields.
pub const ENDS_HOLDING: &[u8] =
    b"dim program 1\nlock a\nlock b\nfunc left 0\nLOCK a\nRET\nend\nfunc right 0\nLOCK b\nUNLOCK b\nRET\nend\nthread left 0\nthread right 0\nend program\n";

/// The first thread ends with a lock that the second one waits for.
pub const NEVER_FREED: &[u8] =
    b"dim program 1\nlock a\nfunc left 0\nLOCK a\nRET\nend\nfunc right 0\nLOCK a\nUNLOCK a\nRET\nend\nthread left 0\nthread right 0\nend program\n";

/// Five threads that each take the lock of their number and then the next one.
pub const PHILOSOPHERS: &[u8] =
    b"dim program 1\nlock f0\nlock f1\nlock f2\nlock f3\nlock f4\nfunc phil 1\nPUTL 0\nGETL 0\nLOCKX\nGETL 0\nPUSH 4\nEQ\nJZ 9\nPUSH 0\nJMP 12\nGETL 0\nPUSH 1\nADD\nDUP\nLOCKX\nUNLOCKX\nGETL 0\nUNLOCKX\nRET\nend\nthread phil 0\nthread phil 1\nthread phil 2\nthread phil 3\nthread phil 4\nend program\n";

/// Two functions that take their lock in the same function.
pub const NESTED: &[u8] =
    b"dim program 1\nlock a\nlock b\nfunc take 0\nLOCKX\nRET\nend\nfunc one 0\nCALL take\nPUSH 0\nUNLOCKX\nRET\nend\nfunc two 0\nCALL take\nPUSH 1\nUNLOCKX\nRET\nend\nthread one 0\nthread two 1\nend program\n";

/// The first thread only tries to take its second lock.
pub const TRIES: &[u8] =
    b"dim program 1\nlock a\nlock b\nfunc left 0\nLOCK a\nTRYLOCK b\nPOP\nUNLOCK a\nRET\nend\nfunc right 0\nLOCK b\nLOCK a\nUNLOCK a\nUNLOCK b\nRET\nend\nthread left 0\nthread right 0\nend program\n";

/// Two threads that take a lock twice and free it twice.
pub const TAKEN_TWICE: &[u8] =
    b"dim program 1\nlock a\nfunc main 0\nLOCK a\nLOCK a\nUNLOCK a\nUNLOCK a\nRET\nend\nthread main 0\nthread main 0\nend program\n";

/// A lock taken twice, and one freed that is not held.
pub const TRAPPED: &[u8] =
    b"dim program 1\nlock a\nfunc re 0\nLOCK a\nLOCK a\nRET\nend\nfunc un 0\nUNLOCK a\nRET\nend\nthread re 0\nthread un 0\nend program\n";

/// Two plain instructions, and then a lock that is taken and freed.
pub const PLAIN: &[u8] =
    b"dim program 1\nlock a\nfunc main 0\nPUSH 1\nPOP\nLOCK a\nUNLOCK a\nRET\nend\nthread main 0\nend program\n";

/// A function that frees its caller's lock, takes it again, and then frees one that is not held.
pub const FREES_AND_TAKES: &[u8] =
    b"dim program 1\nlock l0\nlock l1\nlock l2\nfunc f0 0\nUNLOCK l2\nLOCK l2\nUNLOCK l0\nLOCK l1\nUNLOCK l1\nLOCK l0\nUNLOCK l0\nUNLOCK l1\nUNLOCK l2\nRET\nend\nfunc f1 0\nLOCK l2\nCALL f0\nUNLOCK l2\nRET\nend\nfunc f2 0\nCALL f1\nLOCK l0\nRET\nend\nthread f2 1\nthread f1 3\nthread f1 7\nend program\n";

/// Two threads that take b before d, and one between them that takes d before b.
pub const THREE_CROSSED: &[u8] =
    b"dim program 1\nlock a\nlock b\nlock c\nlock d\nfunc take 0\nLOCK a\nRET\nend\nfunc w0 0\nLOCK b\nLOCK d\nUNLOCK d\nUNLOCK b\nLOCK b\nLOCK d\nUNLOCK d\nUNLOCK b\nRET\nend\nfunc w1 0\nLOCK d\nLOCK b\nCALL take\nUNLOCK a\nUNLOCK b\nUNLOCK d\nRET\nend\nthread w0 0\nthread w1 0\nthread w0 0\nend program\n";

/// Two threads that take c before a, and one between them that takes a before c.
pub const ONE_AGAINST_TWO: &[u8] =
    b"dim program 1\nlock a\nlock b\nlock c\nfunc w0 0\nLOCK c\nLOCK a\nLOCK b\nUNLOCK b\nUNLOCK a\nUNLOCK c\nRET\nend\nfunc w1 0\nLOCK a\nLOCK c\nUNLOCK c\nUNLOCK a\nRET\nend\nthread w0 0\nthread w1 0\nthread w0 0\nend program\n";
