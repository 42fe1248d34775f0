// The calls that read a text, as a list and field by field.
use crate::tell;
use fields::field_from;
use lists::read_list;
use std::io;

// TEXT: what it says as a list, or its first bad line.
pub(crate) fn list(rt: &impl Print, text: &[u8], loud: bool) -> io::Result<()> {
    match read_list(text) {
        Ok(_) if !loud => rt.print(0),
        Err(_) if !loud => rt.print("bad"),
        Ok(says) => print!(rt;
            "0 {} {} {} {}",
            says.job, says.revision, says.segments, says.body
        ),
        Err(bad) => print!(rt; "bad {}", bad.line),
    }
}

// TEXT K: the first k fields of the text.
pub(crate) fn fields(rt: &impl Print, text: &[u8], k: usize, loud: bool) -> io::Result<()> {
    rt.print(0)?;
    if loud {
        let mut at = 0;
        for _ in 0..k {
            let field = field_from(text, at);
            let bytes = text.get(field.from..field.to).unwrap_or(&[]);
            tell::bytes(rt, bytes)?;
            at = field.next;
        }
    }
    Ok(())
}
