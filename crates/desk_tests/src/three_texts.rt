//! An input of the desk, cut into its three texts.

use std::test::Fail;

/// What each text but the first begins with.
const JOURNAL: &str = "pd-journal ";

const CERTIFICATE: &str = "pd-certificate ";

/// Journal A, journal B and the certificate.
#[derive(Drop)]
pub struct ThreeTexts<'a> {
    pub primary: &'a [u8],
    pub secondary: &'a [u8],
    pub certificate: &'a [u8],
}

/// What stands before the last place of a word, and the text from there on.
fn cut_before<'a>(text: &'a str, word: &str) -> Option<(&'a str, &'a str)> {
    text.split_at_checked(text.rfind(word)?)
}

/// The three texts of an input that holds them.
pub fn cut(input: &str) -> Result<ThreeTexts<'_>, Fail> {
    let (journals, certificate) = cut_before(input, CERTIFICATE).ok_or("no certificate")?;
    let (primary, secondary) = cut_before(journals, JOURNAL).ok_or("no second journal")?;
    Ok(ThreeTexts {
        primary: primary.as_bytes(),
        secondary: secondary.as_bytes(),
        certificate: certificate.as_bytes(),
    })
}
