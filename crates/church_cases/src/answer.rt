// A call's answer, put after the call into a buffer and printed by one write.
use crate::call::{Call, call_of};
use arrayvec::ArrayVec;
use calendar::refusal::number_or_refusal;
use church::feast::feast_of_year;
use church::sheet::sheet_of_year;
use std::io::{self, Write};

// A printed line; the longest has fewer than 600 bytes.
type Printed = ArrayVec<u8, 1024>;

fn put_sheet(out: &mut Printed, style: u64, year: u64) -> io::Result<()> {
    match sheet_of_year(style, year) {
        Ok(sheet) => write!(
            out,
            "{} {} {} {} {} {} {} {} {}",
            u8::from(sheet.leap),
            sheet.golden,
            sheet.epact,
            u8::from(sheet.arabic),
            char::from(sheet.letters.first),
            char::from(sheet.letters.second),
            sheet.limit,
            sheet.key,
            sheet.easter
        ),
        Err(refusal) => write!(out, "{}", u32::from(refusal)),
    }
}

// Puts the day of a feast, or the refusal's number.
fn put_feast(out: &mut Printed, style: u64, feast: u64, year: u64) -> io::Result<()> {
    let number = number_or_refusal(feast_of_year(style, feast, year));
    write!(out, "{number}")
}

fn put_year(out: &mut Printed, style: u64, year: u64) -> io::Result<()> {
    put_sheet(out, style, year)?;
    write!(out, ";")?;
    for feast in 1..=48 {
        write!(out, " ")?;
        put_feast(out, style, feast, year)?;
    }
    Ok(())
}

fn put_answer(out: &mut Printed, call: Option<Call>) -> io::Result<()> {
    match call {
        Some(Call::Sheet { style, year }) => put_sheet(out, style, year),
        Some(Call::Feast { style, feast, year }) => put_feast(out, style, feast, year),
        Some(Call::Year { style, year }) => put_year(out, style, year),
        None => write!(out, "no such call"),
    }
}

// Prints the line and its answer.
pub(crate) fn answer_line(rt: &impl Print, line: &[u8]) -> io::Result<()> {
    let mut out = Printed::new();
    out.write_all(line)?;
    write!(out, ": ")?;
    put_answer(&mut out, call_of(line))?;
    writeln!(out)?;
    rt.write_all(&out)
}
