// What no clause says of `run`: that it succeeds where nothing fails. A `run` that always failed would meet its contract.
use crate::run;
use std::test::Fail;

#[test]
fn writes_the_text(rt: HostRuntime) -> Result<(), Fail> {
    let mut input = b"P 4 2\n1101\n0001\n0000\n1011\n10x1\n".as_slice();
    let mut output = Vec::new(rt.alloc());
    assert!(rt; run(&mut input, &mut output).is_ok());
    let text = b"line granted next\n1 1100 2\n2 0001 0\n3 0000 0\n4 1010 3\n5 refused 8 2\n";
    assert_eq!(rt; output.as_slice(), text.as_slice());
    Ok(())
}
