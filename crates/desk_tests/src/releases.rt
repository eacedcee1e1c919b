//! Each source gives the same releases of a delegation.

use crate::pairs::{index_of, pair_of, plain_of};
use attribution::{Delegation, Lasting};
use auditor::LineSource;
use causal_order::Ref;
use client_id::{Duid, Iaid};
use prefix_range::read_canonical;
use std::alloc::{AllocError, Global};
use std::test::Fail;

/// The lines that a source gives for a delegation.
fn returned<S: LineSource>(
    alloc: Global,
    source: &S,
    delegation: &Delegation,
) -> Result<Vec<Ref>, AllocError> {
    let mut refs = Vec::new(alloc);
    let mut walk = source.releases(delegation);
    while let Some(at) = source.next_release(delegation, &mut walk) {
        refs.push(at)?;
    }
    Ok(refs)
}

/// Returns whether two sources give the same lines for a delegation, so many.
fn are_same<P: LineSource, I: LineSource>(
    alloc: Global,
    plain: &P,
    index: &I,
    delegation: &Delegation,
    count: usize,
) -> Result<bool, AllocError> {
    let walked = returned(alloc, plain, delegation)?;
    let found = returned(alloc, index, delegation)?;
    Ok(walked.len() == count && found.len() == count && walked.iter().all(|at| found.contains(at)))
}

/// A delegation to a client, by the text of each part.
fn delegation_of(client: &str, iaid: u32, prefix: &str) -> Result<Delegation, Fail> {
    Ok(Delegation {
        client: Duid::from_hex(client.as_bytes())?,
        iaid: Iaid(iaid),
        prefix: read_canonical(prefix.as_bytes())?,
        lasting: Lasting::For(3600),
    })
}

/// Grants and releases of two prefixes by clients that an index can't tell apart by their last octets and identity
/// associations alone.
const PRIMARY: &str = "pd-journal 1 A
1 5 release 000300 00000001 2001:0db8:0000:0100:0000:0000:0000:0000/56
2 5 release 000301 00000000 2001:0db8:0000:0100:0000:0000:0000:0000/56
3 5 release 000300 00000001 2001:0db8:0000:0200:0000:0000:0000:0000/56
4 5 grant 000300 00000001 2001:0db8:0000:0100:0000:0000:0000:0000/56 3600
5 5 release 000300 00000001 2001:0db8:0000:0100:0000:0000:0000:0000/56
6 5 release 000300 00010000 2001:0db8:0000:0100:0000:0000:0000:0000/56
7 5 close
end 7
";

const SECONDARY: &str = "pd-journal 1 B
1 5 release 000301 00000000 2001:0db8:0000:0100:0000:0000:0000:0000/56
2 5 release 000300 00000001 2001:0db8:0000:0100:0000:0000:0000:0000/56
3 5 release 000300 00000001 2001:0db8:0000:0100:0000:0000:0000:0000/64
4 5 close
end 4
";

const UNIT: &str = "2001:0db8:0000:0100:0000:0000:0000:0000/56";

/// A client, its identity association and a prefix, and how many lines give that back.
type Asked = (&'static str, u32, &'static str, usize);

const ASKED: [Asked; 6] = [
    ("000300", 1, UNIT, 3),
    ("000301", 0, UNIT, 2),
    ("000300", 65_536, UNIT, 1),
    ("000300", 0, UNIT, 0),
    ("000302", 1, UNIT, 0),
    ("000300", 1, "2001:0db8:0000:0000:0000:0000:0000:0000/48", 0),
];

/// Returns whether two sources give the same lines for what is asked, as many as said.
fn are_found<P: LineSource, I: LineSource>(
    alloc: Global,
    plain: &P,
    index: &I,
    asked: &Asked,
) -> Result<bool, Fail> {
    let (client, iaid, prefix, count) = asked;
    let delegation = delegation_of(client, *iaid, prefix)?;
    let _lasting = delegation.lasting;
    Ok(are_same(alloc, plain, index, &delegation, *count)?)
}

#[test]
fn finds_the_releases(rt: HostRuntime) -> Result<(), Fail> {
    let pair = pair_of(rt.alloc(), PRIMARY.as_bytes(), SECONDARY.as_bytes())?;
    let index = index_of(&rt, rt.alloc(), &pair)?;
    let plain = plain_of(&pair);
    for asked in &ASKED {
        assert!(rt; are_found(rt.alloc(), &plain, &index, asked)?);
    }
    Ok(())
}
