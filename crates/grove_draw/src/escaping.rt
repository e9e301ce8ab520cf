ghost use Rattle.std.specs.Prelude.{◌≡◌, IfOk, string_bytes};
ghost use Rattle.grove_draw.specs.Writings.{IsShown, is_path_byte};

use std::alloc::{AllocError, Global};

/// The text as characters of an XML document. One that has nothing to be escaped stays as it is.
pub fn escaped(alloc: Global, text: &str) -> Result<String, AllocError>
    ensures { IfOk result (λ shown. IsShown text.now (string_bytes shown)) }
{
    if text.as_bytes().iter().all(|byte| is_plain(*byte)) {
        return String::from_str(alloc, text);
    }
    let mut shown = String::new(alloc);
    push_escaped(&mut shown, text)?;
    Ok(shown)
}

/// Is it a byte of a path, which stands for itself?
fn is_plain(byte: u8) -> bool
    ensures { result ≡ is_path_byte byte }
{
    byte.is_ascii_lowercase()
        || byte.is_ascii_digit()
        || byte == b'_'
        || byte == b'-'
        || byte == b'/'
}

/// Puts a text at the end as characters of an XML document, within quotes too. What XML 1.0 forbids becomes U+FFFD.
pub fn push_escaped(out: &mut String, text: &str) -> Result<(), AllocError> {
    for letter in text.chars() {
        match letter {
            '&' => out.push_str("&amp;")?,
            '<' => out.push_str("&lt;")?,
            '>' => out.push_str("&gt;")?,
            '"' => out.push_str("&quot;")?,
            '\'' => out.push_str("&apos;")?,
            '\0'..='\u{1f}' | '\u{fffe}' | '\u{ffff}' => out.push('\u{fffd}')?,
            _ => out.push(letter)?,
        }
    }
    Ok(())
}
