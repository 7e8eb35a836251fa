// What the types say of the numbers that a call hands in, told at no cost.
ghost use Rattle.std.specs.Prelude.{◌≡◌, true};
ghost use Rattle.keeps.specs.Lists.{All};
ghost use Rattle.sparse_test.specs.narrow.Numbers.{is_u32};
ghost use Rattle.sparse_test.specs.narrow.Narrow.{Typed};
ghost use Rattle.changes.specs.Change.{changing_of};

use changes::Change;
use changes::terms::Pack;

fn is_typed(n: u32)
    ensures { is_u32 n ≡ true }
{}

// each of them is a u32
fn variables_are_typed(vars: &[u32])
    ensures { All (λ n. is_u32 n ≡ true) vars.now }
{}

pub fn are_typed(c: Change, p: Pack, budget: u16)
    ensures { Typed (changing_of c p budget) }
{
    variables_are_typed(&p.vars);
    match c {
        Change::Add(_, n, _, _) => is_typed(n),
        Change::AddEdit(n, _) => is_typed(n),
        _ => {}
    }
}
