ghost use Rattle.std.specs.Prelude.{◌++◌, OnOk, codes, decimal};
ghost use Rattle.std.specs.Io.KnownBytes.{Appends};

use crate::{Fault, Reply};
use std::alloc::{AllocError, AllocFailed};
use std::io;
use std::io::Write;
use std::test::Fail;

// The reasons; `oracle/notation.py` has all but the last.
#[test]
fn reasons(rt: HostRuntime) -> Result<(), Fail> {
    for (fault, reason) in [
        (Fault::TooLong, "too long"),
        (Fault::UnknownCall, "unknown call"),
        (Fault::WrongCount, "wrong count"),
        (Fault::BadDigit, "bad digit"),
        (Fault::OddCount, "odd count"),
        (Fault::TooLarge, "too large"),
        (Fault::OutOfMemory, "out of memory"),
    ] {
        let text = format!(in rt.alloc(); "{fault}")?;
        assert_eq!(rt; text.as_str(), reason);
    }
    Ok(())
}

#[test]
fn failed_allocations(rt: HostRuntime) {
    assert_eq!(rt; Fault::from(AllocError), Fault::OutOfMemory);
    let refused = AllocFailed { value: 0u8 };
    assert_eq!(rt; Fault::from(refused), Fault::OutOfMemory);
}

// A caller knows what its reply has written, once the writer is its own again.
fn number_line<W: Write>(to: &mut W, x: u64) -> io::Result<()>
    ensures { OnOk result (Appends (W.contents to.old) (W.contents to.new) (decimal x ++ codes "\n")) }
{
    let mut reply = Reply::new(to, &mut []);
    reply.number(x)?;
    reply.finish()
}

// Words as `oracle/notation.py` writes them.
#[test]
fn replies(rt: HostRuntime) -> Result<(), Fail> {
    let mut line = Vec::new(rt.alloc());
    let mut text = [0; 64];
    let mut reply = Reply::new(&mut line, &mut text);
    reply.number(0)?;
    reply.optional(Some(7))?;
    reply.optional(None)?;
    reply.three_missing()?;
    reply.bytes(b"\x01\xff")?;
    reply.bytes(b"")?;
    reply.list(&[4, 0x1234])?;
    reply.signed(&[0, -4, 4])?;
    reply.finish()?;
    let mut reply = Reply::new(&mut line, &mut text);
    reply.error(Fault::OddCount)?;
    reply.finish()?;
    Reply::new(&mut line, &mut text).too_long()?;
    number_line(&mut line, 9)?;
    let expected = b"0 7 - - - - 01ff - 00041234 0,-4,4\nerror odd count\nerror too long\n9\n";
    assert_eq!(rt; line.as_slice(), expected.as_slice());
    Ok(())
}
