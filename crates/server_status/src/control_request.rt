//! What a person asks of a running server.

ghost use Rattle.std.specs.Prelude.{◌≡◌, ◌↔◌, Some};
ghost use Rattle.text_fields.specs.Parsing.{Finds};
ghost use Rattle.server_status.specs.declared.control_request.ControlRequest.{ControlRequest as RequestValue};
ghost use Rattle.server_status.specs.Words.{request_words, request_of};

use std::fmt;
use std::fmt::Write;

/// The words by which a person vouches that the partner is stopped: that it serves nobody.
pub const PARTNER_STOPPED: &str = "the partner is stopped";

/// The words by which a person vouches that the clock, which was set, is right: he compared it with another.
pub const CLOCK_RIGHT: &str = "the clock is right";

/// How a status is written.
#[derive(Clone, Copy, Debug, PartialEq, Eq)]
pub enum StatusFormat {
    /// Lines for a person: a name and what it is.
    Lines,
    Json,
    /// The text of OpenMetrics.
    Metrics,
}

/// How a server that stops leaves its volume.
#[derive(Clone, Copy, Debug, PartialEq, Eq)]
pub enum ShutdownMode {
    /// It goes on with it when it begins again.
    Open,
    /// It begins the next one then.
    Closed,
}

/// What a person asks of a running server: one line over its control socket.
#[derive(Clone, Copy, Debug, PartialEq, Eq)]
pub enum ControlRequest {
    /// How it is.
    Status(StatusFormat),
    /// To serve no more.
    Stop(ShutdownMode),
    /// To begin the next volume.
    Roll,
    /// To take the partner for down. The line has the words [`PARTNER_STOPPED`]: safety rests on them.
    PartnerDown,
    /// To take it for up again.
    PartnerNormal,
    /// To take its clock for right. The line has the words [`CLOCK_RIGHT`]: safety rests on them.
    AcceptClock,
}

/// The request that words make.
#[tactic(auto, unfolding(crate::specs::Words::request_of))]
fn request_of(line: &str) -> Option<ControlRequest>
    ensures { Finds (λ r. r) result (request_of line.now) }
{
    if line == "status" {
        Some(ControlRequest::Status(StatusFormat::Lines))
    } else if line == "status json" {
        Some(ControlRequest::Status(StatusFormat::Json))
    } else if line == "status metrics" {
        Some(ControlRequest::Status(StatusFormat::Metrics))
    } else if line == "stop" {
        Some(ControlRequest::Stop(ShutdownMode::Open))
    } else if line == "stop close" {
        Some(ControlRequest::Stop(ShutdownMode::Closed))
    } else if line == "roll" {
        Some(ControlRequest::Roll)
    } else if line == "partner-down the partner is stopped" {
        Some(ControlRequest::PartnerDown)
    } else if line == "partner-normal" {
        Some(ControlRequest::PartnerNormal)
    } else if line == "clock-accepted the clock is right" {
        Some(ControlRequest::AcceptClock)
    } else {
        None
    }
}

impl ControlRequest {
    /// Returns the line of the request, without its line feed.
    pub fn words(&self) -> &'static str
        ensures { result.now ≡ request_words self.now }
    {
        match self {
            ControlRequest::Status(StatusFormat::Lines) => "status",
            ControlRequest::Status(StatusFormat::Json) => "status json",
            ControlRequest::Status(StatusFormat::Metrics) => "status metrics",
            ControlRequest::Stop(ShutdownMode::Open) => "stop",
            ControlRequest::Stop(ShutdownMode::Closed) => "stop close",
            ControlRequest::Roll => "roll",
            ControlRequest::PartnerDown => "partner-down the partner is stopped",
            ControlRequest::PartnerNormal => "partner-normal",
            ControlRequest::AcceptClock => "clock-accepted the clock is right",
        }
    }

    /// Returns the request whose line, without its line feed, this is. `None` where it is no request's.
    #[tactic(auto, using(crate::proofs::Requests::read_again))]
    pub fn read(line: &str) -> Option<ControlRequest>
        ensures { (r : RequestValue) → (result ≡ Some r) ↔ (line.now ≡ request_words r) }
    {
        request_of(line)
    }
}

impl fmt::Display for ControlRequest {
    fn fmt<W: Write>(&self, f: &mut fmt::Formatter<W>) -> fmt::Result {
        f.write_str(self.words())
    }
}
