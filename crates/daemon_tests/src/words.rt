//! What goes over a control socket.

use server_status::{ControlReply, ControlRequest, ControlVerdict, ShutdownMode, StatusFormat};
use std::test::Fail;

const REQUESTS: [(&str, ControlRequest); 9] = [
    ("status", ControlRequest::Status(StatusFormat::Lines)),
    ("status json", ControlRequest::Status(StatusFormat::Json)),
    (
        "status metrics",
        ControlRequest::Status(StatusFormat::Metrics),
    ),
    ("stop", ControlRequest::Stop(ShutdownMode::Open)),
    ("stop close", ControlRequest::Stop(ShutdownMode::Closed)),
    ("roll", ControlRequest::Roll),
    (
        "partner-down the partner is stopped",
        ControlRequest::PartnerDown,
    ),
    ("partner-normal", ControlRequest::PartnerNormal),
    (
        "clock-accepted the clock is right",
        ControlRequest::AcceptClock,
    ),
];

const NO_REQUESTS: [&str; 9] = [
    "",
    "status ",
    "Status",
    "stop --close",
    "partner-down",
    "partner-down the partner is stopped.",
    "partner-normal\n",
    "clock-accepted",
    "clock-accepted the partner is stopped",
];

#[test]
fn reads_each_request_as_it_is_written(rt: HostRuntime) -> Result<(), Fail> {
    for (line, request) in REQUESTS {
        assert_eq!(rt; request.words(), line);
        assert_eq!(rt; ControlRequest::read(line), Some(request));
    }
    for line in NO_REQUESTS {
        assert_eq!(rt; ControlRequest::read(line), None);
    }
    Ok(())
}

const ANSWERS: [(&str, ControlVerdict<'static>, &str); 4] = [
    ("ok\n", ControlVerdict::Done, ""),
    (
        "ok\nrole: primary\n",
        ControlVerdict::Done,
        "role: primary\n",
    ),
    (
        "refused its partner is down\n",
        ControlVerdict::Refused("its partner is down"),
        "",
    ),
    ("refused \n", ControlVerdict::Refused(""), ""),
];

const NO_ANSWERS: [&str; 5] = ["", "ok", "ok \n", "refused\n", "Refused why\n"];

#[test]
fn reads_each_answer_as_it_is_written(rt: HostRuntime) -> Result<(), Fail> {
    for (words, verdict, text) in ANSWERS {
        let answer = ControlReply { verdict, text };
        let mut out = String::new(rt.alloc());
        answer.push(&mut out)?;
        assert_eq!(rt; out.as_str(), words);
        assert_eq!(rt; ControlReply::read(words), Some(answer));
    }
    for words in NO_ANSWERS {
        assert_eq!(rt; ControlReply::read(words), None);
    }
    Ok(())
}
