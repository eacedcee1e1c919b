//! What other clients had of a prefix, found once for those certificates of one holder that ask of it.
//!
//! Which place is a certificate's only says how fast its audit is: whose holder and prefix stand there is asked before
//! what is kept there counts.

ghost use Rattle.std.specs.Prelude.{◌≡◌, ◌<◌, IfOk, IfSome};
ghost use Rattle.causal_order.specs.Journals.{Journals};
ghost use Rattle.auditor.specs.Known.{AreOthers};
ghost use Rattle.parallel_check.specs.Sharing.{IsKnown, AreKnown, asked_by, unknown};

use auditor::{LineSource, others_of};
use causal_order::{Certificate, Ref};
use client_id::Duid;
use prefix_range::Prefix;
use std::alloc::{AllocError, Global};
use std::collections::BTreeMap;
use std::thread;
use std::thread::Threads;

/// The most lines that are kept of what other clients had of one prefix.
const MOST_OTHERS: usize = 1024;

/// A holder and a prefix, how many certificates ask of them, and what other clients had of the prefix where that is
/// kept.
#[derive(Debug, Drop)]
pub struct SharedForeign {
    pub holder: Duid,
    pub prefix: Prefix,
    pub askers: usize,
    pub others: Option<Vec<Ref>>,
}

/// What is known for certificates, and for each of them which of it.
#[derive(Debug, Drop)]
pub struct Sharing {
    pub known: Vec<SharedForeign>,
    pub places: Vec<usize>,
}

impl SharedForeign {
    /// What the certificate asks of, where nothing is kept yet.
    fn new(certificate: &Certificate) -> SharedForeign
        ensures { result ≡ unknown certificate.now }
    {
        SharedForeign {
            holder: certificate.holder,
            prefix: certificate.prefix,
            askers: 0,
            others: None,
        }
    }

    /// Finds what other clients had where several certificates ask, and keeps it where it is short.
    fn find<S: LineSource>(&mut self, alloc: Global, source: &S)
        ensures { IsKnown (S.journals source.now) self.new }
    {
        self.others = None;
        if self.askers < 2 {
            return;
        }
        if let Ok(others) = others_of(alloc, source, &self.holder, &self.prefix, MOST_OTHERS) {
            self.others = others;
        }
    }
}

/// What certificates ask of alike, as octets: the prefix's address and length, and the holder.
fn asked_by(alloc: Global, certificate: &Certificate) -> Result<Vec<u8>, AllocError>
    ensures { IfOk result (λ asked. asked.items ≡ asked_by certificate.now) }
{
    let mut asked = Vec::new(alloc);
    asked.extend_from_slice(&certificate.prefix.first().to_be_bytes())?;
    asked.push(certificate.prefix.len())?;
    asked.extend_from_slice(certificate.holder.as_bytes())?;
    Ok(asked)
}

/// Returns which of what is known the certificate asks of; it is put there where nothing is known of it yet.
fn place_of(
    alloc: Global,
    places: &mut BTreeMap<Vec<u8>, usize>,
    known: &mut Vec<SharedForeign>,
    certificate: &Certificate,
) -> Result<usize, AllocError> {
    let asked = asked_by(alloc, certificate)?;
    if let Some(place) = places.get(asked.as_slice()) {
        return Ok(*place);
    }
    let place = known.len();
    known.push(SharedForeign::new(certificate))?;
    places.insert(asked, place)?;
    Ok(place)
}

/// Returns who asks of what.
fn askers_of(alloc: Global, certificates: &[Certificate]) -> Result<Sharing, AllocError> {
    let mut place_by_asked = BTreeMap::new(alloc);
    let mut known: Vec<SharedForeign> = Vec::new(alloc);
    let mut places = Vec::new(alloc);
    for certificate in certificates {
        let place = place_of(alloc, &mut place_by_asked, &mut known, certificate)?;
        if let Some(asked) = known.get_mut(place) {
            asked.askers = asked.askers.saturating_add(1);
        }
        places.push(place)?;
    }
    Ok(Sharing { known, places })
}

/// Finds what is to be known, by so many threads at most.
fn find_all<S: LineSource + Sync, T: Threads + Sync>(
    rt: &T,
    alloc: Global,
    source: &S,
    known: &mut [SharedForeign],
    workers: usize,
)
    requires { 0 < workers }
    ensures { AreKnown (S.journals source.now) known.new }
{
    let find = |_place: usize, known: &mut SharedForeign|
        ensures { IsKnown (S.journals source.entry.now) known.exit.now }
    { known.find(alloc, source) };
    thread::for_each_mut(rt, known, workers, &find);
}

/// What is known for these certificates.
pub fn sharing_of<S: LineSource + Sync, T: Threads + Sync>(
    rt: &T,
    alloc: Global,
    source: &S,
    certificates: &[Certificate],
    workers: usize,
) -> Result<Sharing, AllocError>
    requires { 0 < workers }
    ensures { IfOk result (λ sharing. AreKnown (S.journals source.now) sharing.known.items) }
{
    let mut sharing = askers_of(alloc, certificates)?;
    find_all(rt, alloc, source, &mut sharing.known, workers);
    Ok(sharing)
}

impl SharedForeign {
    /// What other clients had of the certificate's prefix, where this is of its holder and prefix and has that.
    fn others_for(&self, certificate: &Certificate) -> Option<&[Ref]>
        ensures { IfSome result (λ others. (js : Journals) → IsKnown js self.now
            → AreOthers js certificate.now.holder certificate.now.prefix others.now) }
    {
        if self.holder != certificate.holder || self.prefix != certificate.prefix {
            return None;
        }
        match &self.others {
            Some(others) => Some(others),
            None => None,
        }
    }
}

/// What is known of other clients for the certificate at this index.
pub fn others_for<'a>(
    known: &'a [SharedForeign],
    places: &[usize],
    index: usize,
    certificate: &Certificate,
) -> Option<&'a [Ref]>
    ensures { IfSome result (λ others. (js : Journals) → AreKnown js known.now
        → AreOthers js certificate.now.holder certificate.now.prefix others.now) }
{
    let place = places.get(index)?;
    known.get(*place)?.others_for(certificate)
}
