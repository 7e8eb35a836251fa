// The service line's readers, of a line by itself and over the cable, for a caller that lends a place for each thing they give: no struct crosses.
ghost use Rattle.std.specs.Prelude.{◌≡◌, true, [], map, Ok};
ghost use Rattle.reader.specs.Sides.{relation_of};
ghost use Rattle.cable_lines.specs.Cable.{takes, closes};
ghost use Rattle.cable_lines.specs.State.{held_by};
ghost use Rattle.knobharbor.specs.handed.Handed.{kind_of, handed, handed_by, read_by, unrefused, reply_in, words_in, reals_of, reals_in, whole_at};
ghost use Rattle.cable_lines.specs.Given.{told};
ghost use Rattle.reader.specs.second.Replies.{answered};

use cable_lines::Taken;
use cable_lines::state::State;
use entry::typed::pack::whole;
use layout::TERM_ROOM;
use reader::answers::Constraint;
use reader::second::{Weighted, read_second};
use reader::sides::Mark;
use reader::sums::ZERO;

// How many bytes were taken, 0 or the refusal's number, the offset of 20, the kind, how many terms, the group.
pub type Words = [u64; 6];

// The constant, the strength.
pub type Reals = [f64; 2];

// The terms, zeros behind them.
pub type Variables = [u32; TERM_ROOM];

pub type Coefficients = [f64; TERM_ROOM];

fn kind_of(m: Mark) -> u64
    ensures { result ≡ kind_of (relation_of m) }
{
    match m {
        Mark::AtMost => 0,
        Mark::Equal => 1,
        Mark::AtLeast => 2,
    }
}

// The constraint to hand over, zeros where there is none.
fn weighted_in(t: Taken) -> Weighted
    ensures { answered (Ok result) ≡ unrefused (reply_in (told t).answer) }
{
    match t.answer {
        Some(Ok(x)) => x,
        _ => Weighted {
            constraint: Constraint {
                relation: Mark::Equal,
                constant: ZERO,
                count: 0,
                variables: [0; TERM_ROOM],
                coefficients: [ZERO; TERM_ROOM],
            },
            strength: 0,
            group: 0,
        },
    }
}

fn words_in(t: Taken) -> Words
    ensures { result ≡ words_in (told t) }
{
    let taken = t.taken as u64;
    match t.answer {
        Some(Ok(x)) => [
            taken,
            0,
            0,
            kind_of(x.constraint.relation),
            x.constraint.count as u64,
            x.group as u64,
        ],
        Some(Err(r)) => [taken, r.number() as u64, r.offset() as u64, 0, 0, 0],
        None => [taken, 0, 0, 0, 0, 0],
    }
}

fn reals_in(x: Weighted) -> Reals
    ensures { result ≡ reals_of (answered (Ok x)) }
{
    let constant = whole(x.constraint.constant);
    let strength = std::num::nearest_u64_to_f64(x.strength as u64);
    [constant, strength]
}

fn wholes(x: [u64; TERM_ROOM]) -> Coefficients
    ensures { result ≡ map whole_at x }
{
    let mut r = [0.0; TERM_ROOM];
    for i in 0..TERM_ROOM {
        r[i] = whole(x[i]);
    }
    r
}

fn hand_over(
    t: Taken,
    words: &mut Words,
    reals: &mut Reals,
    variables: &mut Variables,
    coefficients: &mut Coefficients,
)
    ensures words_after { words.new ≡ words_in (told t) }
    ensures reals_after { reals.new ≡ reals_in (told t) }
    ensures variables_after { variables.new ≡ (reply_in (told t).answer).reading.variables }
    ensures coefficients_after { coefficients.new ≡ map whole_at (reply_in (told t).answer).reading.coefficients }
{
    let x = weighted_in(t);
    let v = x.constraint.variables;
    let c = x.constraint.coefficients;
    *words = words_in(t);
    *reals = reals_in(x);
    *variables = v;
    *coefficients = wholes(c);
}

// A line by itself, without a newline.
pub fn read(
    line: &[u8],
    words: &mut Words,
    reals: &mut Reals,
    variables: &mut Variables,
    coefficients: &mut Coefficients,
)
    ensures { handed true words.new reals.new variables.new coefficients.new [] ≡ read_by line.now }
{
    let x = read_second(line);
    let t = Taken {
        answer: Some(x),
        taken: line.len(),
    };
    hand_over(t, words, reals, variables, coefficients);
}

// The first line that ends in the piece; the caller goes on behind the bytes taken. Whether there is one.
pub fn take(
    cable: &mut State,
    piece: &[u8],
    words: &mut Words,
    reals: &mut Reals,
    variables: &mut Variables,
    coefficients: &mut Coefficients,
) -> bool
    ensures { handed result words.new reals.new variables.new coefficients.new cable.new ≡ handed_by (takes (held_by cable.old) piece.now) }
{
    let t = cable_lines::take(cable, piece);
    hand_over(t, words, reals, variables, coefficients);
    t.answer.is_some()
}

// The cable is closed: the reader is as new. Whether a line had begun.
pub fn close(
    cable: &mut State,
    words: &mut Words,
    reals: &mut Reals,
    variables: &mut Variables,
    coefficients: &mut Coefficients,
) -> bool
    ensures { handed result words.new reals.new variables.new coefficients.new cable.new ≡ handed_by (closes (held_by cable.old)) }
{
    let t = cable_lines::close(cable);
    hand_over(t, words, reals, variables, coefficients);
    t.answer.is_some()
}
