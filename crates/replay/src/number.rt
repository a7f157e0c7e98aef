// The numbers of request A9 for every answer, and the values beside them.
ghost use Rattle.std.specs.Prelude.{◌≡◌};
ghost use Rattle.trace.specs.Number.{verdict_kind, verdict_place, accepted_number, accepted_cases, judged_number, judged_kind, judged_place};

use trace::types::{CaseRefusal, TraceRefusal, Verdict};

pub fn accepted_number(accepted: Result<usize, TraceRefusal>) -> u8
    ensures { result ≡ accepted_number accepted }
{
    match accepted {
        Ok(_) => 0,
        Err(refusal) => refusal as u8,
    }
}

pub fn accepted_cases(accepted: Result<usize, TraceRefusal>) -> usize
    ensures { result ≡ accepted_cases accepted }
{
    accepted.unwrap_or(0)
}

pub fn verdict_kind(v: Verdict) -> u8
    ensures { result ≡ verdict_kind v }
{
    match v {
        Verdict::Agrees => 1,
        Verdict::FileDiffers(_, _) => 2,
        Verdict::FlagDiffers => 3,
        Verdict::Outside(_) => 4,
        Verdict::Reserved(_) => 5,
        Verdict::BadFlag => 17,
    }
}

pub fn verdict_place(v: Verdict) -> usize
    ensures { result ≡ verdict_place v }
{
    match v {
        Verdict::FileDiffers(place, _) | Verdict::Outside(place) | Verdict::Reserved(place) =>
            place,
        Verdict::Agrees | Verdict::FlagDiffers | Verdict::BadFlag => 0,
    }
}

pub fn judged_number(judged: Result<Verdict, CaseRefusal>) -> u8
    ensures { result ≡ judged_number judged }
{
    match judged {
        Ok(_) => 0,
        Err(refusal) => refusal as u8,
    }
}

pub fn judged_kind(judged: Result<Verdict, CaseRefusal>) -> u8
    ensures { result ≡ judged_kind judged }
{
    judged.map_or(0, verdict_kind)
}

pub fn judged_place(judged: Result<Verdict, CaseRefusal>) -> usize
    ensures { result ≡ judged_place judged }
{
    judged.map_or(0, verdict_place)
}
