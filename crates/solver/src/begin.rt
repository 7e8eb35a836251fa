// What every call begins and ends with: the stored mark, the answer, and the room closed before the records come over.
ghost use Rattle.std.specs.Prelude.{◌≡◌, ◌≤◌, Ok, Err};
ghost use Rattle.layout.specs.Layout.{bit_of};
ghost use Rattle.rows.specs.Marks.{mark_of};
ghost use Rattle.sparse.specs.Refusals.{refusal_number};
ghost use Rattle.waist.specs.Ending.{ended_of};
ghost use Rattle.lending.specs.Lending.{answer_of};
ghost use Rattle.solver.specs.Begin.{stored_mark};
ghost use Rattle.solver.specs.Closing.{says_yes, closed_words};
ghost use Rattle.solver.specs.Concluding.{by_test, answered};

use lending::Answer;
use rows::number::Wrote;
use sparse::Words;
use sparse::refusal::Refusal;
use waist::ending::{Refused, Went};

pub fn stored_mark(words: &Words) -> Wrote
    ensures { mark_of result ≡ stored_mark words.now }
{
    Wrote {
        finite: true,
        whole: words[sparse::WHOLE] == 1,
    }
}

// "A refusal answers the stored mark"
pub fn by_test(words: &Words, number: u64) -> Answer
    requires { number ≤ 27 }
    ensures { answer_of result ≡ by_test number words.now }
{
    Answer {
        number: number as u32,
        pivots: 0,
        whole: words[sparse::WHOLE] == 1,
    }
}

// The same of a refusal by its name.
pub fn refused_by_test(words: &Words, why: Refusal) -> Answer
    ensures { answer_of result ≡ by_test (refusal_number why) words.now }
{
    by_test(words, why.number() as u64)
}

fn says_yes(wrote: Wrote) -> bool
    ensures { result ≡ says_yes wrote }
{
    wrote.finite & wrote.whole
}

fn bit(b: bool) -> u64
    ensures { result ≡ bit_of b }
{
    if b { 1 } else { 0 }
}

// The answer of steps that went on.
pub fn accepted(w: Went) -> Answer
    ensures { answer_of result ≡ answered (ended_of (Ok w)) }
{
    let whole = says_yes(w.wrote);
    Answer {
        number: 0,
        pivots: w.pivots,
        whole,
    }
}

// The answer of steps that refused.
pub fn refused(e: Refused) -> Answer
    ensures { answer_of result ≡ answered (ended_of (Err e)) }
{
    let whole = says_yes(e.wrote);
    Answer {
        number: e.why.number(),
        pivots: e.pivots,
        whole,
    }
}

// The mark as the tables have it.
pub fn mark_bit(wrote: Wrote) -> u64
    ensures { result ≡ bit_of (says_yes wrote) }
{
    let yes = says_yes(wrote);
    bit(yes)
}

// The mark is stored; the room holds no record yet.
pub fn close(words: &mut Words, wrote: Wrote)
    ensures { words.new ≡ closed_words wrote words.old }
{
    words[sparse::WHOLE] = mark_bit(wrote);
    words[sparse::CONSTRAINT_COUNT] = 0;
    words[sparse::EDIT_COUNT] = 0;
}
