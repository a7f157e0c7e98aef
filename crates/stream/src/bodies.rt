// Bytes of the bodies, case after case.
ghost use Rattle.std.specs.Prelude.{◌≡◌, ◌+◌, ◌*◌, ◌<◌, ◌≤◌, length};
ghost use Rattle.stream.specs.declared.state.Phase.{Phase};
ghost use Rattle.trace.specs.Trace.{body_size};
ghost use Rattle.stream.specs.Steps.{Allowed, allowed_at, Judges, JudgesCase};

use crate::body::body_bytes;
use crate::state::{Course, IMAGE, Marks, Phase, Stepped};
use codec::word_at;
use regfile::check::is_legal;
use replay::contents::{body_size, wide};
use trace::types::{Told, TraceRefusal};

// Marks within the bodies.
fn bodies(m: Marks, case: usize, course: Course) -> Marks
    ensures { result ≡ record { phase = Phase.Bodies; cases = m.cases; case = case; due = m.due; course = course } }
{
    Marks {
        phase: Phase::Bodies,
        cases: m.cases,
        case,
        due: m.due,
        course,
    }
}

// Bytes of the body of the case at hand.
fn case_bytes(image: &mut [u8], l: usize, w: usize, m: Marks, bytes: &[u8]) -> Stepped
    requires image_len { (length image.old ≡ 8192) × (0 < length bytes.now) × (m.case < 1024) }
    requires allowed { Allowed l w × (m.course.at < body_size l w) }
    ensures { (1 ≤ result.taken) × (result.taken ≤ length bytes.now) × JudgesCase l w image.old m bytes.now result image.new }
{
    let moved = body_bytes(image, l, w, m.course, bytes);
    let course = moved.course;
    let case = m.case;
    if course.at == body_size(l, w) {
        image[..l << 2].fill(0);
        return Stepped {
            taken: moved.taken,
            told: Told::Case(course.standing.said),
            marks: bodies(m, case + 1, Course::fresh()),
        };
    }
    Stepped {
        taken: moved.taken,
        told: Told::Nothing,
        marks: bodies(m, case, course),
    }
}

// Whether byte `at` is one of a body that the contents allow.
fn is_allowed(l: usize, w: usize, at: usize) -> bool
    ensures { result ≡ allowed_at l w at }
{
    if is_legal(l) & (w <= 4096) {
        return at < body_size(l, w);
    }
    false
}

// Bytes of the bodies. Behind the last there is one too many. Held are the image and the contents.
pub fn bodies_bytes(held: &mut [u8], m: Marks, bytes: &[u8]) -> Stepped
    requires { (length held.old ≡ 20480) × (0 < length bytes.now) }
    ensures { (1 ≤ result.taken) × (result.taken ≤ length bytes.now) × Judges held.old m bytes.now result held.new }
{
    let case = m.case;
    if m.cases <= case {
        return Stepped::refused(Err(TraceRefusal::BadTotal));
    }
    if case < 1024 {
        let row = IMAGE + (case << 3) + (case << 2);
        let l = wide(word_at(held, row));
        let w = wide(word_at(held, row + 4));
        if is_allowed(l, w, m.course.at) {
            return case_bytes(&mut held[..IMAGE], l, w, m, bytes);
        }
    }
    // No stream leaves this.
    Stepped::refused(Err(TraceRefusal::BadContents))
}
