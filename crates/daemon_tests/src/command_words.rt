//! Words of a command line by which a person vouches for something.

use node_args::{ArgsError, NodeCommand, command_of};
use server_status::ControlRequest;
use std::alloc::{AllocError, Global};
use std::test::Fail;

/// What `node NAME --dir book WORDS` asks of a server, or why it is no command.
fn asked(
    alloc: Global,
    name: &str,
    said: &str,
) -> Result<Result<ControlRequest, ArgsError>, AllocError> {
    let mut words = Vec::new(alloc);
    for word in ["node", name, "--dir", "book", said] {
        words.push(String::from_str(alloc, word)?)?;
    }
    Ok(match command_of(alloc, &words) {
        Ok(NodeCommand::Ask { request, .. }) => Ok(request),
        Ok(_) => Err(ArgsError::Usage),
        Err(error) => Err(error),
    })
}

const CLOCK: &str = "\
clock-accepted wants the words \"the clock is right\": say them only of a clock that you compared with another";

const PARTNER: &str = "\
partner-down wants the words \"the partner is stopped\": say them only of a partner that serves nobody";

#[test]
fn asks_for_the_words_that_vouch(rt: HostRuntime) -> Result<(), Fail> {
    let alloc = rt.alloc();
    assert_eq!(rt;
        asked(alloc, "clock-accepted", "the clock is right")?,
        Ok(ControlRequest::AcceptClock)
    );
    assert_eq!(rt;
        asked(alloc, "partner-down", "the partner is stopped")?,
        Ok(ControlRequest::PartnerDown)
    );
    for said in ["", "the clock is right.", "the partner is stopped"] {
        let error = ArgsError::ClockNotVouched;
        assert_eq!(rt; asked(alloc, "clock-accepted", said)?, Err(error));
    }
    let error = ArgsError::NotVouched;
    assert_eq!(rt;
        asked(alloc, "partner-down", "the clock is right")?,
        Err(error)
    );
    Ok(())
}

#[test]
fn says_which_words_are_wanted(rt: HostRuntime) -> Result<(), Fail> {
    let (clock, partner) = (ArgsError::ClockNotVouched, ArgsError::NotVouched);
    let text = format!(in rt.alloc(); "{clock}")?;
    assert_eq!(rt; text.as_str(), CLOCK);
    let text = format!(in rt.alloc(); "{partner}")?;
    assert_eq!(rt; text.as_str(), PARTNER);
    Ok(())
}
