// What a run carries from word to word.
ghost use Rattle.std.specs.Prelude.{◌≡◌, ◌||◌, ◌+◌, ◌<◌};

use isa::types::{Ending, Ran};

// The flag QC and the words done.
#[derive(Clone, Copy)]
pub struct Carried {
    pub qc: bool,
    pub done: usize,
}

impl Carried {
    pub fn new(qc: bool) -> Carried
        ensures { (result.qc ≡ qc) × (result.done ≡ 0) }
    {
        Carried { qc, done: 0 }
    }

    // One word more, and the flag set where a lane was clamped. `run_words` stops at 4,096 words.
    pub fn counted(self, clamped: bool) -> Carried
        requires { self.done < 4096 }
        ensures { (result.qc ≡ (self.qc || clamped)) × (result.done ≡ self.done + 1) }
    {
        Carried {
            qc: if self.qc { true } else { clamped },
            done: self.done + 1,
        }
    }

    // What a run answers that ends here.
    pub fn ran(self, ending: Ending) -> Ran
        ensures { result ≡ record { ending = ending; done = self.done; qc = self.qc } }
    {
        Ran {
            ending,
            done: self.done,
            qc: self.qc,
        }
    }
}
