//! What the words of a command line ask for.
ghost use Rattle.std.specs.Prelude.{◌≡◌, ◌↔◌, ◌<◌, ◌^◌, ℕ, [], ◌∷◌, None, IsTrue, IfSome, decimal};
ghost use Rattle.immrun_core.specs.Top.{IsKnown, Asks, words_for};

use crate::digits::number_of;
use crate::word::Word;
use generator::NUMBER_LIMIT;
use workers::WORKERS_LIMIT;

/// What the program does.
#[derive(Clone, Copy, Debug, PartialEq, Eq)]
pub enum Task {
    /// To run a script with so many workers, and write its report: the words `run N`.
    Run(u32),
    /// To write the canonical text of a script: the word `check`.
    Check,
    /// To run the generated script of a number on one thread, and write its summary: the words
    /// `gen N`.
    Gen(u32),
}

// The task that the words ask for.
#[tactic(auto, using(crate::proofs::Tasks::no_task))]
pub(crate) fn task_of(words: &[Word]) -> Option<Task>
    ensures asked { IfSome result (λ task. Asks words.now task) }
    ensures unknown { result ≡ None → ¬ IsKnown words.now }
{
    if is_check(words) {
        return Some(Task::Check);
    }
    match workers_of(words) {
        Some(workers) => Some(Task::Run(workers)),
        None => Some(Task::Gen(generated_number(words)?)),
    }
}

/// How many workers the words `run N` ask for.
#[tactic(auto, using(crate::proofs::Tasks::no_run))]
pub(crate) fn workers_of(words: &[Word]) -> Option<u32>
    ensures asked { IfSome result (λ n. Asks words.now (Task.Run n)) }
    ensures other { result ≡ None → (n : ℕ) → ¬ Asks words.now (Task.Run n) }
{
    match number_behind(words, b"run") {
        Some(workers) if workers > 0 && workers <= WORKERS_LIMIT => Some(workers),
        _ => None,
    }
}

// The number of a script that the words `gen N` ask for.
#[tactic(auto, using(crate::proofs::Tasks::no_generated))]
fn generated_number(words: &[Word]) -> Option<u32>
    ensures asked { IfSome result (λ n. Asks words.now (Task.Gen n)) }
    ensures other { result ≡ None → (n : ℕ) → ¬ Asks words.now (Task.Gen n) }
{
    match number_behind(words, b"gen") {
        Some(number) if number <= NUMBER_LIMIT => Some(number),
        _ => None,
    }
}

// Whether the words are `check`.
fn is_check(words: &[Word]) -> bool
    ensures { IsTrue result ↔ (words.now ≡ words_for Task.Check) }
{
    match words {
        [word] => is_word(word, b"check"),
        _ => false,
    }
}

// The number that is written behind this word, where the two are all words.
fn number_behind(words: &[Word], name: &[u8]) -> Option<u32>
    ensures is { IfSome result (λ n. words.now
        ≡ Word.Short name.now ∷ Word.Short (decimal n) ∷ []) }
    ensures other { result ≡ None → (n : ℕ) → n < 2 ^ 32
        → ¬ (words.now ≡ Word.Short name.now ∷ Word.Short (decimal n) ∷ []) }
{
    match words {
        [first, second] if is_word(first, name) => word_number(second),
        _ => None,
    }
}

// The number that a word writes.
fn word_number(word: &Word) -> Option<u32>
    ensures is { IfSome result (λ n. word.now ≡ Word.Short (decimal n)) }
    ensures other { result ≡ None → (n : ℕ) → n < 2 ^ 32 → ¬ (word.now ≡ Word.Short (decimal n)) }
{
    match word {
        Word::Short(short) => number_of(short.as_bytes()),
        Word::Other => None,
    }
}

fn is_word(word: &Word, text: &[u8]) -> bool
    ensures { IsTrue result ↔ (word.now ≡ Word.Short text.now) }
{
    match word {
        Word::Short(short) => short.as_bytes() == text,
        Word::Other => false,
    }
}
