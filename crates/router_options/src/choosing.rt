//! Which options an answer gets.

ghost use Rattle.std.specs.Prelude.{◌≡◌, IfOk};
ghost use Rattle.router_options.specs.Choosing.{is_asked, is_due, chosen};

use crate::options::{INFORMATION_REFRESH, PREFERENCE, UNICAST};
use crate::ready::{OptionList, ReadyOption};
use std::alloc::{AllocError, Global};
use text_fields::Listed;

/// What an answer answers.
#[derive(Clone, Copy, Debug, PartialEq, Eq)]
pub enum Occasion {
    /// It is an ADVERTISE.
    Advertise,
    /// It is a REPLY to a message about prefixes.
    Reply,
    /// It is a REPLY to an INFORMATION-REQUEST.
    Information,
}

fn is_asked(requested: &[u16], code: u16) -> bool
    ensures { result ≡ is_asked requested.now code }
{
    requested.iter().any(|asked| *asked == code)
}

/// Returns whether an answer gets the option with this code: a preference each ADVERTISE, a unicast address each answer
/// about prefixes (neither is asked for), a refresh time a REPLY to an INFORMATION-REQUEST that asks for it, and all
/// others where they are asked for.
fn is_due(occasion: Occasion, requested: &[u16], code: u16) -> bool
    ensures { result ≡ is_due occasion requested.now code }
{
    match (code, occasion) {
        (PREFERENCE, Occasion::Advertise) => true,
        (PREFERENCE, _) => false,
        (UNICAST, Occasion::Information) => false,
        (UNICAST, _) => true,
        (INFORMATION_REFRESH, Occasion::Advertise | Occasion::Reply) => false,
        _ => is_asked(requested, code),
    }
}

/// Which of a server's options an answer gets, by what its client asks for, in the server's order.
pub fn chosen(
    alloc: Global,
    options: &[ReadyOption],
    occasion: Occasion,
    requested: &[u16],
) -> Result<OptionList, AllocError>
    ensures { IfOk result (λ given. given ≡ chosen occasion requested.now options.now) }
{
    let mut given = Vec::new(alloc);
    for option in options {
        if is_due(occasion, requested, option.code()) {
            let option = option.copy(alloc)?;
            given.push(option)?;
        }
    }
    Ok(Listed::new(given))
}
