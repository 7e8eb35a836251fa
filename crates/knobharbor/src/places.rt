// The lent places of an answer of more than one word.
ghost use Rattle.std.specs.Prelude.{◌≡◌, [], ◌∷◌};
ghost use Rattle.lending.specs.Lending.{answer_of};
ghost use Rattle.knobharbor.specs.Places.{in_places};

use fetches::Fetched;
use lending::Answer;

pub fn put(answer: &mut [u32; 3], a: Answer)
    ensures { answer.new ≡ in_places (answer_of a) }
{
    *answer = [a.number, a.pivots, a.whole as u32];
}

pub fn put_fetched(answer: &mut [u32; 2], f: Fetched)
    ensures { answer.new ≡ f.number ∷ f.count ∷ [] }
{
    *answer = [f.number, f.count];
}
