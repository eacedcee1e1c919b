//! Certificates' texts, one after another, and what they are read to.

ghost use Rattle.std.specs.Prelude.{◌≡◌, ◌<◌, [], IfOk};
ghost use Rattle.attribution_desk.specs.Batch.{AreTexts};
ghost use Rattle.attribution_desk.specs.Claims.{texts_of, IsReadTo, AreRead, AreGathered};
ghost use Rattle.attribution_desk.specs.Input.{text_length};

use crate::end_line::end_in;
use causal_order::{Certificate, CertificateFault};
use certificate::CertificateError;
use std::alloc::{AllocError, Global};
use std::thread;
use std::thread::Threads;

/// A certificate's text, and what it was read to, once it was.
#[derive(Drop)]
pub struct CertificateText<'a> {
    pub text: &'a [u8],
    pub parsed: Option<Result<Certificate, CertificateError>>,
}

/// The certificates that texts were read to, in order, and for each text its fault, if it has one.
#[derive(Drop)]
pub(crate) struct ReadCertificates {
    pub(crate) faults: Vec<Option<CertificateFault>>,
    pub(crate) certificates: Vec<Certificate>,
}

/// Returns how many octets the first of some texts has.
fn first_length(alloc: Global, rest: &[u8]) -> Result<usize, AllocError>
    ensures { IfOk result (λ length. length ≡ text_length rest.now) }
{
    let mut line = Vec::new(alloc);
    match end_in(&mut line, rest)? {
        Some(length) => Ok(length),
        None => Ok(rest.len()),
    }
}

/// The texts of certificates that stand one after another, none of which is read yet. `AllocError` where a growth was
/// refused.
pub fn texts_in<'a>(alloc: Global, rest: &'a [u8]) -> Result<Vec<CertificateText<'a>>, AllocError>
    ensures { IfOk result (λ claims. AreTexts rest.now (texts_of claims.items)) }
{
    let mut claims = Vec::new(alloc);
    let mut rest = rest;
    while !rest.is_empty() {
        let (text, behind) = rest.split_at(first_length(alloc, rest)?);
        claims.push(CertificateText { text, parsed: None })?;
        rest = behind;
    }
    Ok(claims)
}

/// Reads each of the texts, by this many threads at most.
pub(crate) fn read_all<T: Threads + Sync>(
    rt: &T,
    alloc: Global,
    claims: &mut [CertificateText],
    workers: usize,
)
    requires { 0 < workers }
    ensures texts { texts_of claims.new ≡ texts_of claims.old }
    ensures read { AreRead claims.new }
{
    let read = |_place: usize, claim: &mut CertificateText|
        ensures { (claim.exit.now.text ≡ claim.entry.now.text)
            × IsReadTo claim.exit.now.text.now claim.exit.now.parsed }
    { claim.parsed = Some(certificate::read(alloc, claim.text)) };
    thread::for_each_mut(rt, claims, workers, &read);
}

/// The certificates and the faults of texts that were read; an error where memory was refused.
pub(crate) fn gather(
    alloc: Global,
    claims: Vec<CertificateText>,
) -> Result<ReadCertificates, AllocError>
    requires { AreRead claims.items }
    ensures { IfOk result (λ g. AreGathered (texts_of claims.entry.items) g.faults.items g.certificates.items) }
{
    let mut faults = Vec::new(alloc);
    let mut certificates = Vec::new(alloc);
    for claim in claims {
        match claim.parsed {
            Some(Ok(certificate)) => {
                faults.push(None)?;
                certificates.push(certificate)?;
            }
            Some(Err(CertificateError::Fault(fault))) => faults.push(Some(fault))?,
            _ => return Err(AllocError),
        }
    }
    Ok(ReadCertificates {
        faults,
        certificates,
    })
}
