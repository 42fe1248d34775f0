// The calls that look at numbers: the constants, and the session that is held.
use crate::fault::Fault;
use crate::names::standing_name;
use crate::tell;
use held::Held;
use places::Place;
use std::io;

// W.
pub(crate) fn constants(rt: &impl Print, width: usize, loud: bool) -> Result<(), Fault> {
    if width != 32 && width != 64 {
        return Err(Fault::NoCall);
    }
    rt.print(0)?;
    if loud {
        let wide = width == 64;
        for i in 0..16 {
            tell::word(rt, dispatch::constant(wide, i), wide)?;
        }
    }
    Ok(())
}

// The sixteen words, the four of the key, and where the session stands.
pub(crate) fn session(rt: &impl Print, held: Held, loud: bool) -> io::Result<()> {
    rt.print(0)?;
    if loud {
        let wide = held.is_wide();
        let stands = held.place();
        for i in 0..20 {
            tell::word(rt, held.word(i), wide)?;
        }
        place(rt, stands)?;
    }
    Ok(())
}

fn place(rt: &impl Print, p: Place) -> io::Result<()> {
    let edition = p.terms.edition;
    print!(rt; " {} {} {} {}", p.note, p.body, p.trailer, p.terms.rounds)?;
    print!(rt;
        " {} {} {}",
        edition.job,
        edition.revision,
        standing_name(p.standing)
    )
}
