//! The times that stand in a picture.

ghost use Rattle.std.specs.Prelude.{◌≡◌, ◌<◌, ◌^◌, IfOk};
ghost use Rattle.report_render.specs.Labels.{IsAxisTime, IsAskedTime, AreLabels};

use crate::picture::Picture;
use lead_time::Reading;
use std::alloc::{AllocError, Global};
use text_fields::push_number;
use time_text::push_time;

/// The times of a picture, as texts.
#[derive(Debug, Drop)]
pub struct PictureLabels {
    /// Where the interval begins.
    pub from: Vec<u8>,
    /// Where it ends.
    pub to: Vec<u8>,
    /// The moment that was asked about; empty where it was none.
    pub asked: Vec<u8>,
}

/// A moment in UTC.
#[tactic(auto, using(crate::proofs::MoreLabels::utc_of))]
fn utc_of(alloc: Global, moment: Reading) -> Result<Vec<u8>, AllocError>
    ensures { IfOk result (λ text. IsAxisTime moment text.items) }
{
    let _milliseconds = moment.milliseconds();
    let mut text = Vec::new(alloc);
    push_time(&mut text, moment)?;
    Ok(text)
}

/// A number of milliseconds that is no moment.
#[tactic(auto, using(crate::proofs::MoreLabels::number_of))]
fn number_of(alloc: Global, milliseconds: u64) -> Result<Vec<u8>, AllocError>
    requires { 2 ^ 48 < milliseconds }
    ensures { IfOk result (λ text. IsAxisTime milliseconds text.items) }
{
    let mut text = Vec::new(alloc);
    push_number(&mut text, milliseconds)?;
    Ok(text)
}

/// A moment in UTC: or from 2^48 on the milliseconds alone.
fn axis_time(alloc: Global, milliseconds: u64) -> Result<Vec<u8>, AllocError>
    ensures { IfOk result (λ text. IsAxisTime milliseconds text.items) }
{
    match Reading::new(milliseconds) {
        Ok(moment) => utc_of(alloc, moment),
        Err(_) => number_of(alloc, milliseconds),
    }
}

/// That of the moment that was asked about, or nothing where it was none.
fn asked_time(alloc: Global, asked: Option<u64>) -> Result<Vec<u8>, AllocError>
    ensures { IfOk result (λ text. IsAskedTime asked text.items) }
{
    match asked {
        Some(at) => axis_time(alloc, at),
        None => Ok(Vec::new(alloc)),
    }
}

/// The times of a picture. `AllocError` where a growth was refused.
pub(crate) fn labels_of(alloc: Global, picture: &Picture) -> Result<PictureLabels, AllocError>
    ensures { IfOk result (AreLabels picture.now) }
{
    Ok(PictureLabels {
        from: axis_time(alloc, picture.from)?,
        to: axis_time(alloc, picture.to)?,
        asked: asked_time(alloc, picture.asked)?,
    })
}
