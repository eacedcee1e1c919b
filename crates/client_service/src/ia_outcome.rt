//! What one IA_PD is told.

ghost use Rattle.std.specs.Prelude.{◌≡◌};
ghost use Rattle.client_service.specs.Ending.{without_line};

use server_book::IaAnswer;

/// What an IA_PD is told, and the number of the line that it is told by; none where it tells of no line.
#[derive(Clone, Copy, Debug, PartialEq, Eq)]
pub(crate) struct IaOutcome {
    pub answer: IaAnswer,
    pub line: Option<u32>,
}

impl IaOutcome {
    /// Told of no line.
    pub(crate) fn without_line(answer: IaAnswer) -> IaOutcome
        ensures { result ≡ without_line answer }
    {
        IaOutcome { answer, line: None }
    }
}
