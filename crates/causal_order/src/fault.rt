//! Why a text is no certificate.

use thiserror::Error;

/// What is wrong with a certificate's text, where its first fault is. Lines are counted from 1 in the text.
#[derive(Clone, Copy, Debug, PartialEq, Eq, Error)]
pub enum CertificateFault {
    /// The first line is no head line of this format.
    #[error("the first line is no head line")]
    Head,
    /// A line isn't spelled as the line that may stand there.
    #[error("line {line} isn't spelled as a line that may stand there")]
    Form { line: u32 },
    /// The text stops before its end line, or something stands behind it.
    #[error("the text stops before its end line or goes on behind it")]
    End,
}
