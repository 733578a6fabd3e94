//! What is wrong with a script that is too long, and that nothing is told of lines that keep every rule. What is told of
//! bad lines stands in a file of `test_texts`.

use crate::tests::comparing::{holds, same, same_at, shows};
use brc_mistakes::{Mistake, mistake_of, put_mistake};
use brc_script::parse;
use std::test::*;

/// Each line is one of a script, and as near to its limits as can be.
const AT_THE_LIMITS: &str = "\
# a comment with a \t, a \r and  spaces \n\
\n\
section abcdefghijklmnopqrstuvwxyz012345\n\
int r0 9223372036854775807\n\
int r15 -9223372036854775808\n\
text r1 \n\
text r2   \" ~ \n\
list r3\n\
set r3 4294967295 r0\n\
dict r4\n\
put r4 -1 r0\n\
put r4 '' r0\n\
share ~ r0\n\
repeat 0\n\
add r0 r1 r2\n\
end\n\
repeat 1000000\n\
end\n\
section z\n\
unshare r9 0";

#[test]
fn too_long(rt: HostRuntime) -> Result<(), Fail> {
    let mut text = Vec::with_capacity(rt.alloc(), 16_777_217)?;
    text.extend_from_slice(b"section a\n")?;
    text.resize(16_777_217, b'#')?;
    let told = mistake_of(text.as_slice(), 0);
    same(&rt, "one byte too long", told, Some(Mistake::TooLong));
    Ok(())
}

#[test]
fn nothing_is_told(rt: HostRuntime) {
    let text = AT_THE_LIMITS.as_bytes();
    same(&rt, "a script", parse(rt.alloc(), text).is_ok(), true);
    for line in 0..30 {
        same_at(&rt, line as usize, mistake_of(text, line), None);
    }
}

#[test]
fn a_mistake_is_written(rt: HostRuntime) -> Result<(), Fail> {
    let mut text = Vec::new(rt.alloc());
    let mistake = Mistake::Twice(15);
    put_mistake(&mut text, &mistake).map_err(|_fault| "not written")?;
    holds(
        &rt,
        "its text",
        text.as_slice() == b"r15 stands twice in it".as_slice(),
    );
    shows(&rt, "its name", &mistake, "Twice(15)");
    Ok(())
}
