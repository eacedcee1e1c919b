//! Searches for the evidence of what is asked, or of who held a prefix, over lines that are at hand.

ghost use Rattle.std.specs.Prelude.{◌≡◌, IfOk, IfErr};
ghost use Rattle.attribution_desk.specs.Find.{IsFinding};
ghost use Rattle.attribution_desk.specs.Who.{IsHolding};

use crate::error::DeskError;
use crate::finding::Finding;
use crate::reading_again::read_again;
use auditor::LineSource;
use evidence_search::{FindError, HolderQuery, Query, find_certificate, find_holder};
use std::alloc::Global;

/// The certificate that shows what is asked, as its text is read again. `Memory` where a growth was refused.
pub(crate) fn search_evidence<S: LineSource>(
    alloc: Global,
    source: &S,
    query: &Query,
) -> Result<Finding, DeskError>
    ensures found { IfOk result (IsFinding (S.journals source.now) query.now) }
    ensures refused { IfErr result (λ e. e ≡ DeskError.Memory) }
{
    let found = find_certificate(
        alloc,
        source,
        query.holder,
        query.prefix,
        query.from,
        query.to,
        query.skew,
        query.transit,
    );
    match found {
        Ok(found) => {
            let read = read_again(alloc, source, &found, query.skew, query.transit)?;
            match read {
                Some(certificate) => Ok(Finding::Shown(certificate)),
                None => Ok(Finding::TooLong),
            }
        }
        Err(FindError::NoneFound) => Ok(Finding::NoneFound),
        Err(FindError::TooLong) => Ok(Finding::TooLong),
        Err(FindError::Memory) => Err(DeskError::Memory),
    }
}

/// The certificate that shows who held the prefix at the moment, as its text is read again. `Memory` where a growth
/// was refused.
pub(crate) fn search_holder<S: LineSource>(
    alloc: Global,
    source: &S,
    query: &HolderQuery,
) -> Result<Finding, DeskError>
    ensures found { IfOk result (IsHolding (S.journals source.now) query.now) }
    ensures refused { IfErr result (λ e. e ≡ DeskError.Memory) }
{
    match find_holder(alloc, source, query) {
        Ok(found) => {
            let read = read_again(alloc, source, &found, query.skew, query.transit)?;
            match read {
                Some(certificate) => Ok(Finding::Shown(certificate)),
                None => Ok(Finding::TooLong),
            }
        }
        Err(FindError::NoneFound) => Ok(Finding::NoneFound),
        Err(FindError::TooLong) => Ok(Finding::TooLong),
        Err(FindError::Memory) => Err(DeskError::Memory),
    }
}
