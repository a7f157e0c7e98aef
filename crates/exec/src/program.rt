// The run of a program, and the execution of one word.
ghost use Rattle.std.specs.Prelude.{◌≡◌, [], ◌∷◌, ◌<◌, ◌≤◌, length};
ghost use Rattle.isa.specs.Decode.{decode_of};
ghost use Rattle.isa.specs.Number.{ending_number};
ghost use Rattle.isa.specs.Run.{start, run as defined_run, outcome_of};
ghost use Rattle.regfile.specs.Sweep.{Held};
ghost use Rattle.exec.specs.Step.{stepped_of, file_after, refusal_of};

use crate::carried::Carried;
use crate::step::step;
use codec::decode;
use isa::types::{Decoded, Ending, Ran};
use regfile::check::check_size;
use regfile::layout::Layout;

// The number of document 01, or request A5's.
#[tactic(auto, unfolding(isa::specs::Number::ending_number))]
pub fn ending_number(e: Ending) -> u8
    ensures { result ≡ ending_number e }
{
    e as u8
}

// Why a word that is no operation ends the run.
fn refusal(d: Decoded) -> Ending
    ensures { result ≡ refusal_of d }
{
    match d {
        Decoded::Operation(_) => Ending::Done,
        Decoded::Reserved => Ending::Reserved,
        Decoded::Outside => Ending::Outside,
    }
}

// One word. `run_words` has checked the file and the number of words.
fn step_word(layout: &Layout, file: &mut [u8], carried: Carried, word: u32) -> Result<Carried, Ran>
    requires held { Held layout.now.l file.old }
    requires done_bound { carried.done < 4096 }
    ensures { (result ≡ stepped_of (decode_of word) layout.now.l file.old carried) × (file.new ≡ file_after (decode_of word) layout.now.l file.old) }
{
    let decoded = decode(word);
    let Decoded::Operation(op) = decoded else {
        return Err(carried.ran(refusal(decoded)));
    };
    let clamped = step(layout, file, op);
    Ok(carried.counted(clamped))
}

// The words in order, until one is no operation. `run` has checked the file and the number of words.
fn run_words(l: usize, file: &mut [u8], qc: bool, words: &[u32]) -> Ran
    requires held { Held l file.old }
    requires words_len_bound { length words.now ≤ 4096 }
    ensures { record { answer = result; file = file.new } ≡ defined_run l words.now (start file.old qc) }
{
    let layout = Layout::new(l);
    let mut carried = Carried::new(qc);
    for word in words {
        match step_word(&layout, file, carried, *word) {
            Ok(next) => carried = next,
            Err(ran) => return ran,
        }
    }
    carried.ran(Ending::Done)
}

// A refusal before the first word.
fn refused(ending: Ending, qc: bool) -> Ran
    ensures { result ≡ record { ending = ending; done = 0; qc = qc } }
{
    Ran {
        ending,
        done: 0,
        qc,
    }
}

// Runs a program on a lent register file.
pub fn run(l: usize, file: &mut [u8], qc: bool, words: &[u32]) -> Ran
    ensures { record { answer = result; file = file.new } ≡ outcome_of l file.old qc words.now }
{
    if let Err(refusal) = check_size(l, file.len()) {
        return refused(Ending::from(refusal), qc);
    }
    if 4096 < words.len() {
        return refused(Ending::TooLong, qc);
    }
    run_words(l, file, qc, words)
}

// Executes one word on a lent register file.
pub fn execute(l: usize, file: &mut [u8], qc: bool, word: u32) -> Ran
    ensures { record { answer = result; file = file.new } ≡ outcome_of l file.old qc (word ∷ []) }
{
    let words = [word];
    run(l, file, qc, &words)
}
