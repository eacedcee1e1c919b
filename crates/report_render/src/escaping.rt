//! Text in a page (HTML 5, section 13.1.4: character references).

ghost use Rattle.std.specs.Prelude.{◌≡◌, ◌++◌, OnOk};
ghost use Rattle.report_render.specs.Escaping.{entity, escaped};

use std::alloc::AllocError;

/// Appends an octet: its character reference, where it means something to a page.
fn push_octet(out: &mut Vec<u8>, octet: u8) -> Result<(), AllocError>
    ensures { OnOk result (out.new.items ≡ out.old.items ++ entity octet) }
{
    match octet {
        b'&' => out.extend_from_slice(b"&amp;"),
        b'<' => out.extend_from_slice(b"&lt;"),
        b'>' => out.extend_from_slice(b"&gt;"),
        b'"' => out.extend_from_slice(b"&quot;"),
        b'\'' => out.extend_from_slice(b"&#39;"),
        _ => out.extend_from_slice(&[octet]),
    }
}

/// Appends a text, escaped. `AllocError` where a growth was refused.
pub fn push_escaped(out: &mut Vec<u8>, text: &[u8]) -> Result<(), AllocError>
    ensures { OnOk result (out.new.items ≡ out.old.items ++ escaped text.now) }
{
    for octet in text {
        push_octet(out, *octet)?;
    }
    Ok(())
}
