use crate::{Arguments, Buffers};
use call_words::{Fault, Words};
use std::test::Fail;

// A list whose word fills the longest line: 32,768 numbers. `Buffers` has no room for it, and a list of the caller's has.
#[test]
fn longest_list(rt: HostRuntime) -> Result<(), Fail> {
    let mut line = [b'1'; 65536];
    for i in 0..32767 {
        line[2 * i + 1] = b',';
    }
    let arguments = Arguments::new(Words::new(&line));
    let mut buffers = Buffers {
        bytes: [0; 32768],
        numbers: [0; 16384],
        signed: [0; 32768],
    };
    let mut refused = arguments;
    assert_eq!(rt; refused.signed(&mut buffers), Err(Fault::OutOfMemory));
    let mut words = arguments.words();
    let mut list = [0; 32769];
    assert_eq!(rt; words.signed(&mut list)?, 32768);
    assert_eq!(rt; list[32766], 1);
    assert_eq!(rt; list[32767], 11);
    Arguments::new(words).finish()?;
    Ok(())
}

// An argument is read to a buffer of the caller's, and the next one behind it.
#[test]
fn own_buffer(rt: HostRuntime) -> Result<(), Fail> {
    let mut arguments = Arguments::new(Words::new(b"7 01ff 0"));
    assert_eq!(rt; arguments.number()?, 7);
    let mut words = arguments.words();
    let mut bytes = [0; 2];
    assert_eq!(rt; words.bytes(2, &mut bytes)?, 2);
    assert_eq!(rt; bytes, [1, 255]);
    let mut arguments = Arguments::new(words);
    assert_eq!(rt; arguments.number()?, 0);
    arguments.finish()?;
    Ok(())
}
