// The program's text, and writing text.
use std::test::Fail;
use text::Output;

#[test]
fn prints_a_run(rt: HostRuntime) -> Result<(), Fail> {
    let mut output = [b'.'; transcript::LIMIT];
    let length = transcript::run(b"P 4 2\n1101", &mut output);
    assert!(rt; &output[..length] == b"line granted next\n1 1100 2\n".as_slice());
    Ok(())
}

#[test]
fn puts_pieces(rt: HostRuntime) -> Result<(), Fail> {
    let mut buffer = [b'.'; 4];
    let mut out = Output {
        bytes: &mut buffer,
        at: 0,
    };
    out.put_all(b"on");
    assert!(rt; out.at == 2);
    out.put(b'!');
    out.put(b'!');
    assert!(rt; out.at == 4);
    out.put(b'!');
    assert!(rt; out.at == 4);
    assert!(rt; buffer.as_slice() == b"on!!".as_slice());
    Ok(())
}

#[test]
fn puts_numbers_and_bits(rt: HostRuntime) -> Result<(), Fail> {
    let mut buffer = [b'.'; 9];
    let mut out = Output {
        bytes: &mut buffer,
        at: 0,
    };
    out.put_number(1024);
    out.put_number(0);
    out.put_bits(&[1, 0, 2]);
    assert!(rt; out.at == 8);
    assert!(rt; buffer.as_slice() == b"10240100.".as_slice());
    Ok(())
}
