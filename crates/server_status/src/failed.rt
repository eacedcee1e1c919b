//! The status of a server whose disk failed: what it still knows is that it serves nobody.

use crate::control_request::StatusFormat;
use crate::json::serving_value;
use crate::metrics::push_serving;
use crate::serving::{NotServing, ServingState};
use serde_json::{Map, Value, put};
use std::alloc::{AllocError, Global};

/// That nobody is served, and why.
const FAILED: ServingState = ServingState::No(NotServing::DiskFailed);

fn json_of(alloc: Global) -> Result<String, AllocError> {
    let mut object = Map::new(alloc);
    let serving = serving_value(alloc, &FAILED)?;
    put(&mut object, alloc, "serving", serving)?;
    let mut text = Value::Object(object).to_string(alloc)?;
    text.push('\n')?;
    Ok(text)
}

fn metrics_of(alloc: Global) -> Result<String, AllocError> {
    let mut out = String::new(alloc);
    push_serving(&mut out, &FAILED)?;
    writeln!(out, "# EOF")?;
    Ok(out)
}

/// Writes the status of a server whose disk failed: that it serves nobody, and why. Of its book, its partner and its
/// clients nothing is said, since it has none any more. `AllocError` where a growth was refused.
pub fn failed_status(alloc: Global, form: StatusFormat) -> Result<String, AllocError> {
    match form {
        StatusFormat::Lines => {
            let serving = FAILED;
            format!(in alloc; "serving: {serving}\n")
        }
        StatusFormat::Json => json_of(alloc),
        StatusFormat::Metrics => metrics_of(alloc),
    }
}
