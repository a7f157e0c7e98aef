// A trace that is lent whole. It is checked before the first line is written.
use crate::case::CaseLine;
use crate::contents::{Case, count_of, first_fault};
use crate::fault::RefusalLine;
use crate::output::{Failure, Lines};

// The lines of all cases.
fn tell_cases(trace: &[u8], cases: u32, lines: &mut Lines) -> Result<(), Failure> {
    for number in 0..cases {
        let case = Case::of_trace(trace, number);
        let judged = replay::judge(trace, number as usize);
        let body = trace.get(case.start as usize..case.end_place());
        // Not reached otherwise: `check` took the trace, so it has this case and its body.
        if let (Ok(verdict), Some(body)) = (judged, body) {
            let line = CaseLine {
                number,
                case,
                body,
                verdict,
            };
            lines.tell_case(&line, verdict)?;
        }
    }
    Ok(())
}

// The lines of a trace.
pub fn tell_whole(trace: &[u8], lines: &mut Lines) -> Result<(), Failure> {
    match replay::check(trace) {
        Ok(cases) => tell_cases(trace, count_of(cases), lines),
        Err(refusal) => lines.tell_refusal(&RefusalLine {
            number: refusal as u8,
            fault: first_fault(trace, true),
        }),
    }
}
