//! Text in an SVG document.
use gup_base::NoMemory;

/// Puts the text on, with the signs escaped that have a meaning in XML.
pub(crate) fn put_escaped(text: &[u8], svg: &mut String) -> Result<(), NoMemory> {
    for byte in text {
        put_byte(*byte, svg)?;
    }
    Ok(())
}

fn put_byte(byte: u8, svg: &mut String) -> Result<(), NoMemory> {
    match byte {
        b'&' => svg.push_str("&amp;")?,
        b'<' => svg.push_str("&lt;")?,
        b'>' => svg.push_str("&gt;")?,
        _ => svg.push(char::from(byte))?,
    }
    Ok(())
}
