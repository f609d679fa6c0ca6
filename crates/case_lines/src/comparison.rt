// The line of a comparison:
//     refused SIDE NUMBER [PLACE..]
//     spent STEPS A-CORNER B-CORNER WORST A-WORST B-WORST
//     done STEPS ANSWER CLEARANCE A-ANSWER B-ANSWER
// An ANSWER is SIDE CORNER FEATURE GAP X Y, and a WORST the same or `none`. A gap and a coordinate are fractions as they
// are given, not reduced.
use hausdorff::{CornerGap, Done, Report, Sides, Spent};
use outline::Refusal;
use std::io;
use text::output::Text;

fn print_corner_gap(rt: &impl Print, found: CornerGap) -> io::Result<()> {
    let t = answer_text::corner(Text::empty().bytes(b" "), found.side, found.corner);
    let t = answer_text::feature(t.bytes(b" "), found.feature);
    let t = answer_text::fraction(t.bytes(b" "), found.gap);
    print::write(rt, answer_text::point(t.bytes(b" "), found.point))
}

fn print_worst(rt: &impl Print, worst: Option<CornerGap>) -> io::Result<()> {
    match worst {
        None => print!(rt; " none"),
        Some(found) => print_corner_gap(rt, found),
    }
}

fn print_spent(rt: &impl Print, spent: Spent) -> io::Result<()> {
    let Sides { a, b } = spent.support;
    print!(rt; "spent {} {a} {b}", spent.steps)?;
    print_worst(rt, spent.worst)?;
    print_worst(rt, spent.sides.a)?;
    print_worst(rt, spent.sides.b)
}

fn print_done(rt: &impl Print, done: Done) -> io::Result<()> {
    print!(rt; "done {}", done.steps)?;
    print_corner_gap(rt, done.answer)?;
    print!(rt; " {}", done.clearance)?;
    print_corner_gap(rt, done.sides.a)?;
    print_corner_gap(rt, done.sides.b)
}

fn print_report(rt: &impl Print, report: Report) -> io::Result<()> {
    match report {
        Report::Spent(spent) => print_spent(rt, spent),
        Report::Done(done) => print_done(rt, done),
    }
}

fn print_parts(rt: &impl Print, comparison: Result<Report, Refusal>) -> io::Result<()> {
    match comparison {
        Err(refusal) => print::write(rt, answer_text::refusal(Text::empty(), refusal)),
        Ok(report) => print_report(rt, report),
    }
}

pub fn print_comparison(rt: &impl Print, comparison: Result<Report, Refusal>) -> io::Result<()> {
    print_parts(rt, comparison)?;
    println!(rt; "")
}
