ghost use Rattle.std.specs.Prelude.{◌≡◌};
ghost use Rattle.trace.specs.Verdict.{of_trace};

// What is said of a case of a trace.
#[derive(Clone, Copy, PartialEq, Eq)]
pub enum Verdict {
    // The run leaves the file and the flag that were recorded.
    Agrees,
    // The first byte of the file that differs: its place, and what the run leaves there.
    FileDiffers(usize, u8),
    // The file agrees, and the flag does not.
    FlagDiffers,
    // The run stopped at this word, which is outside the set or reserved. Nothing was compared.
    Outside(usize),
    Reserved(usize),
    // A flag before or after is neither 0 nor 1.
    BadFlag,
}

// Why a trace is refused, by its number: the first that applies. A stream ends with one, or with all bodies whole.
#[derive(Clone, Copy, PartialEq, Eq)]
pub enum TraceRefusal {
    BadContents = 15,
    BadTotal = 16,
}

// Why there is no verdict of a case that is asked for: the first that applies.
#[derive(Clone, Copy, PartialEq, Eq)]
pub enum CaseRefusal {
    BadContents = 15,
    BadTotal = 16,
    NoCase = 22,
}

// What a call with bytes of a stream tells. Three answers, and an end is no error where all bodies are whole, so neither an Option nor a Result.
#[derive(Clone, Copy, PartialEq, Eq)]
pub enum Told {
    Nothing,
    Case(Verdict),
    Over(Result<(), TraceRefusal>),
}

impl From<TraceRefusal> for CaseRefusal {
    ghost from_gives = { λ trace case. case ≡ of_trace trace };

    fn from(refusal: TraceRefusal) -> CaseRefusal {
        match refusal {
            TraceRefusal::BadContents => CaseRefusal::BadContents,
            TraceRefusal::BadTotal => CaseRefusal::BadTotal,
        }
    }
}
