//! Rulings and their lines.

ghost use Rattle.std.specs.Prelude.{◌≡◌, ◌++◌, OnOk, IfOk, map};
ghost use Rattle.pair_judgement.specs.Judgements.{judgement_text, judgement_line, verdict_status, status_of};
ghost use Rattle.pair_judgement.specs.declared.judging.Judgement.TheVariants.{Verdict as VerdictRuling};

use attribution::{Verdict, push_place, verdict_line};
use causal_order::Ref;
use std::alloc::{AllocError, Global};

/// The desk's ruling on a certificate over two journals.
#[derive(Clone, Copy, Debug, PartialEq, Eq)]
pub enum Judgement {
    /// The verdict of the audit.
    Verdict(Verdict),
    /// K1: no clocks within the skew can have written the two journals. The least take that reads more than twice the
    /// skew below its send, A's before B's.
    Clocks(Ref),
    /// K2: the journals' open, pool or transit lines differ, so they are hardly of one pair.
    Pair,
    /// K3: the question's skew or transit is less than a journal's own line says.
    Skew,
    /// K4: no legal volume leaves what this line at the beginning of a volume carries, a lease that ends more than
    /// 10^11 milliseconds after the open line. The first such line, A's before B's.
    Carried(Ref),
}

/// `refused K1 Clocks B3` and a line feed.
fn clocks_line(alloc: Global, take: Ref) -> Result<Vec<u8>, AllocError>
    ensures { IfOk result (λ line. line.items ≡ judgement_line (Judgement.Clocks take)) }
{
    let mut line = Vec::new(alloc);
    line.extend_from_slice(b"refused K1 Clocks ")?;
    push_place(&mut line, take.side, take.number)?;
    line.push(b'\n')?;
    Ok(line)
}

/// `refused K2 Pair` and a line feed.
fn pair_line(alloc: Global) -> Result<Vec<u8>, AllocError>
    ensures { IfOk result (λ line. line.items ≡ judgement_line Judgement.Pair) }
{
    let mut line = Vec::new(alloc);
    line.extend_from_slice(b"refused K2 Pair\n")?;
    Ok(line)
}

/// `refused K3 Skew` and a line feed.
fn skew_line(alloc: Global) -> Result<Vec<u8>, AllocError>
    ensures { IfOk result (λ line. line.items ≡ judgement_line Judgement.Skew) }
{
    let mut line = Vec::new(alloc);
    line.extend_from_slice(b"refused K3 Skew\n")?;
    Ok(line)
}

/// `refused K4 Carried A4` and a line feed.
fn carried_line(alloc: Global, carrying: Ref) -> Result<Vec<u8>, AllocError>
    ensures { IfOk result (λ line. line.items ≡ judgement_line (Judgement.Carried carrying)) }
{
    let mut line = Vec::new(alloc);
    line.extend_from_slice(b"refused K4 Carried ")?;
    push_place(&mut line, carrying.side, carrying.number)?;
    line.push(b'\n')?;
    Ok(line)
}

/// The line that says the ruling, with its line feed. `AllocError` where a growth was refused.
pub fn judgement_line(alloc: Global, ruling: &Judgement) -> Result<Vec<u8>, AllocError>
    ensures { IfOk result (λ line. line.items ≡ judgement_line ruling.now) }
{
    match ruling {
        Judgement::Verdict(verdict) => verdict_line(alloc, verdict),
        Judgement::Clocks(take) => clocks_line(alloc, *take),
        Judgement::Pair => pair_line(alloc),
        Judgement::Skew => skew_line(alloc),
        Judgement::Carried(carrying) => carried_line(alloc, *carrying),
    }
}

fn verdict_status(verdict: &Verdict) -> u8
    ensures { result ≡ verdict_status verdict.now }
{
    match verdict {
        Verdict::Accepted => 0,
        _ => 1,
    }
}

/// 0 where the certificate is accepted, else 1.
pub fn status_of(ruling: &Judgement) -> u8
    ensures { result ≡ status_of ruling.now }
{
    match ruling {
        Judgement::Verdict(verdict) => verdict_status(verdict),
        Judgement::Clocks(_) | Judgement::Pair | Judgement::Skew | Judgement::Carried(_) => 1,
    }
}

/// Each verdict as a ruling, in order. `AllocError` where a growth was refused.
pub fn judgements(alloc: Global, verdicts: &[Verdict]) -> Result<Vec<Judgement>, AllocError>
    ensures { IfOk result (λ judgements. judgements.items ≡ map VerdictRuling verdicts.now) }
{
    let mut rulings = Vec::new(alloc);
    for verdict in verdicts {
        rulings.push(Judgement::Verdict(*verdict))?;
    }
    Ok(rulings)
}
