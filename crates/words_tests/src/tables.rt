//! Lines of words: those of a command, and those of none.
use crate::reading::is_command;
use std::test::Fail;

const COMMANDS: &str = "\
run p - h t\n\
run --fuel 8192 p --quantum 1024 g --depth 32 h --seed 4294967295 t\n\
run p - h t --fuel 1 --quantum 1 --depth 1 --seed 0\n\
run run - help dim\n\
live p g h t --workers 16\n\
live p - h t --fuel 7\n\
immunize p - h t\n\
immunize --attempts 64 p g --seed 4294967295 h --depth 32 t --quantum 1024 --fuel 8192\n\
immunize p - h t --attempts 1\n\
immunize immunize - depths predict\n\
check p g t\n\
check p - p\n\
why p g t\n\
why p - p\n\
why why - check\n\
depths p g t\n\
depths p - p\n\
depths depths - depths\n\
predict p - t h\n\
predict p g t h --depth 32\n\
predict --depth 1 p - t h\n\
predict p p p h\n\
predict predict - why immunize\n\
show -\n\
show help\n\
generate 4294967295 p\n\
switch g 0 off h\n\
switch - 4294967295 on h\n\
switch on 7 on off\n\
";

const OTHERS: &str = "\
run p\n\
run p - h h\n\
run p - p t\n\
run p t h t\n\
run p - h t --fuel 0\n\
run p - h t --fuel=5\n\
run p - h t --fuel 5 --fuel 5\n\
run - - h t\n\
halt\n\
run p - h t --workers 2\n\
live p - h t --seed 1\n\
--help\n\
help\n\
--version\n\
run --help\n\
run p - h t x\n\
run p - h t --fuel\n\
run p - h t --fuel 8193\n\
run p - h t --fuel 05\n\
run p - h t --fuel -\n\
run p - h t --quantum 1025\n\
run p - h t --depth 33\n\
run p - h t --seed 4294967296\n\
live p - h t --workers 17\n\
run p - h t --attempts 8\n\
live p - h t --attempts 8\n\
immunize\n\
immunize p - h\n\
immunize p - h t x\n\
immunize p - h t --attempts\n\
immunize p - h t --attempts 0\n\
immunize p - h t --attempts 65\n\
immunize p - h t --attempts 08\n\
immunize p - h t --attempts=8\n\
immunize p - h t --attempts 8 --attempts 8\n\
immunize p - h t --attempts -\n\
immunize p - h t --workers 4\n\
immunize p - h h\n\
immunize p - p t\n\
immunize p g g t\n\
immunize p g h p\n\
immunize p g h g\n\
immunize - g h t\n\
run p - h t -- 5\n\
run p dim dim t\n\
check p - t --fuel 5\n\
why\n\
why p -\n\
why p - -\n\
why - g t\n\
why p g t h\n\
why p - t --depth 4\n\
depths\n\
depths p g\n\
depths p g t h\n\
depths - g t\n\
depths p g -\n\
depths p g t --depth 4\n\
depth p g t\n\
predict p - t\n\
predict p - t h x\n\
predict p - t -\n\
predict - g t h\n\
predict p g - h\n\
predict p - t p\n\
predict p g t g\n\
predict p - t t\n\
predict p - t h --depth 0\n\
predict p - t h --depth 33\n\
predict p - t h --depth 4 --depth 4\n\
predict p - t h --fuel 8192\n\
predict p - t h --attempts 8\n\
check - p t\n\
show\n\
show - -\n\
generate 4294967296 p\n\
generate 5 -\n\
switch g 0 yes h\n\
switch g 0 On h\n\
switch g 0 on g\n\
switch - 0 on -\n\
switch g 0 on -\n\
switch g 0 - h\n\
switch g - on h\n\
switch g 4294967296 on h\n\
switch g 00 on h\n\
switch g +0 on h\n\
switch g -1 on h\n\
switch g 0 on\n\
switch g 0 on h x\n\
switch g 0 on h --depth 4\n\
switch g on 0 h\n\
";

#[test]
fn words_may_be_a_command(rt: HostRuntime) -> Result<(), Fail> {
    for text in COMMANDS.lines() {
        assert!(rt; is_command(rt.alloc(), text)?);
    }
    Ok(())
}

#[test]
fn words_may_be_none(rt: HostRuntime) -> Result<(), Fail> {
    for text in OTHERS.lines() {
        assert!(rt; !is_command(rt.alloc(), text)?);
    }
    Ok(())
}

#[test]
fn no_words_are_no_command(rt: HostRuntime) -> Result<(), Fail> {
    assert!(rt; !is_command(rt.alloc(), "")?);
    Ok(())
}
