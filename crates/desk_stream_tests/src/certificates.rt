//! Certificates' texts that are written again, and at their limits.

use certificate::{CertificateError, CertificateFault, read, write};
use std::alloc::{AllocError, Global};
use std::process::Abort;
use std::test::Fail;

/// A client held the prefix for almost an hour, by one grant.
const HELD: &[u8] = b"pd-certificate 1
holder 00030001020000000001
prefix 2001:0db8:0000:0000:0000:0000:0000:0000/56
interval 12000 3608000
piece A3 12000 3608000 latest A3 earliest A3
end
";

/// A release that cuts no part of the piece off.
const CLEARED: &[u8] = b"pd-certificate 1
holder 00030001020000000001
prefix 2001:0db8:0000:0000:0000:0000:0000:0000/56
interval 12000 18000
piece A3 12000 18000 latest A3 earliest A3
clear A4 after A4
end
";

/// Another client's grant that was given back at the other side, by a chain.
const RELEASED: &[u8] = b"pd-certificate 1
holder 00030001020000000001
prefix 2001:0db8:0000:0000:0000:0000:0000:0000/56
interval 12200 3608200
piece A6 12200 3608200 latest A6 earliest A6
foreign A3 released B4 chain B3>A4>A3 latest B4
end
";

/// The same by two chains and the clocks.
const RELEASED_BY_CLOCKS: &[u8] = b"pd-certificate 1
holder 00030001020000000001
prefix 2001:0db8:0000:0000:0000:0000:0000:0000/56
interval 12200 3608200
piece A6 12200 3608200 latest A6 earliest A6
foreign A3 released B4 clock A3 B4 latest B4
end
";

/// Two pieces, of which the first has two releases behind it, and other clients' grants of each kind.
const MANY_LINES: &[u8] = b"pd-certificate 1
holder 00030001020000000001
prefix 2001:0db8:0000:0000:0000:0000:0000:0000/56
interval 12000 24000
piece A3 12000 18000 latest A3>B2 earliest B1>A3
clear A2 before chain A2>A3
clear A4 before clock A4>B5 B6>A3
piece B9 18000 24000 latest B9 earliest B9
clear B10 after A11>B10
foreign A1 early A1
foreign A12 late B11>A12
foreign B3 released B4 chain B3>B4 latest B4>A5
end
";

/// That the text is a certificate, and is written as it was read.
fn check_round_trip(rt: &impl Abort, alloc: Global, text: &[u8]) -> Result<(), Fail> {
    let certificate = read(alloc, text)?;
    assert_eq!(rt; write(alloc, &certificate)?.as_slice(), text);
    Ok(())
}

#[test]
fn writes_what_it_read(rt: HostRuntime) -> Result<(), Fail> {
    for text in [HELD, CLEARED, RELEASED, RELEASED_BY_CLOCKS, MANY_LINES] {
        check_round_trip(&rt, rt.alloc(), text)?;
    }
    Ok(())
}

/// The lines before the first piece, and the first reference of a chain in the fifth.
const OPENING: &[u8] = b"pd-certificate 1
holder 00030001020000000001
prefix 2001:0db8:0000:0000:0000:0000:0000:0000/56
interval 12000 3608000
foreign A1 early A1";

/// One line of another client's grant with a chain of so many references, and the end line.
fn with_chain(alloc: Global, references: u32) -> Result<Vec<u8>, AllocError> {
    let mut text = OPENING.to_vec(alloc)?;
    for _ in 1..references {
        text.extend_from_slice(b">B1048576")?;
    }
    text.extend_from_slice(b"\nend\n")?;
    Ok(text)
}

#[test]
fn takes_as_many_references_as_there_may_be(rt: HostRuntime) -> Result<(), Fail> {
    let text = with_chain(rt.alloc(), 1_024)?;
    check_round_trip(&rt, rt.alloc(), &text)?;
    let text = with_chain(rt.alloc(), 1_025)?;
    let fault = CertificateError::Fault(CertificateFault::Form { line: 5 });
    assert_eq!(rt; read(rt.alloc(), &text).err(), Some(fault));
    Ok(())
}
