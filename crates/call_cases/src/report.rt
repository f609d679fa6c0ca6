// The parts of the lines. Each part of a line but the first has a space before it.
use nearest::NearestPoint;
use outline::Outline;
use plane::Corner;
use std::io;
use text::output::Text;

// How many corners an outline has, and these.
pub fn print_outline(rt: &impl Print, outline: Outline) -> io::Result<()> {
    print!(rt; " {}", outline.count)?;
    for Corner { x, y } in outline.corners.iter().take(outline.count) {
        print!(rt; " {x} {y}")?;
    }
    Ok(())
}

pub fn print_nearest(rt: &impl Print, found: NearestPoint) -> io::Result<()> {
    let t = answer_text::feature(Text::empty().bytes(b" "), found.feature);
    let t = answer_text::fraction(t.bytes(b" "), found.gap);
    print::write(rt, answer_text::point(t.bytes(b" "), found.point))
}
