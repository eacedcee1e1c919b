//! The forms of a time (RFC 3339, section 5.6).

ghost use Rattle.std.specs.Prelude.{◌≡◌, ◌↔◌, IsTrue};
ghost use Rattle.time_text.specs.Time.{is_alike, IsLike, IsOneOf, IsTimeForm};

/// Returns whether the octet may stand for one of a form, whose 0 is any digit. Letters are of either case.
fn is_alike(form: u8, octet: u8) -> bool
    ensures { result ≡ is_alike form octet }
{
    if form == b'0' {
        octet.is_ascii_digit()
    } else {
        octet.to_ascii_uppercase() == form
    }
}

/// Returns whether the text is of the form, octet by octet.
fn is_like(form: &[u8], text: &[u8]) -> bool
    ensures { IsTrue result ↔ IsLike form.now text.now }
{
    if form.len() != text.len() {
        return false;
    }
    for index in 0..form.len() {
        if !is_alike(form[index], text[index]) {
            return false;
        }
    }
    true
}

/// Returns whether the text is of one of these forms.
fn is_one_of(utc: &[u8], ahead: &[u8], behind: &[u8], text: &[u8]) -> bool
    ensures { IsTrue result ↔ IsOneOf utc.now ahead.now behind.now text.now }
{
    is_like(utc, text) || is_like(ahead, text) || is_like(behind, text)
}

/// Returns whether the text is a time with an offset and up to three decimals.
pub fn is_time_form(text: &[u8]) -> bool
    ensures { IsTrue result ↔ IsTimeForm text.now }
{
    let Some((front, tail)) = text.split_at_checked(19) else {
        return false;
    };
    is_like(b"0000-00-00T00:00:00", front)
        && (is_one_of(b"Z", b"+00:00", b"-00:00", tail)
            || is_one_of(b".0Z", b".0+00:00", b".0-00:00", tail)
            || is_one_of(b".00Z", b".00+00:00", b".00-00:00", tail)
            || is_one_of(b".000Z", b".000+00:00", b".000-00:00", tail))
}
